ghost use Rattle.std.specs.Prelude.{◌≡◌, Bool};

// A choice among records that is promised for every record, so that a call with it asks nothing of its caller.
pub trait Select<T> {
    ghost wanted: { Self → T → Bool };

    fn wants(&self, x: &T) -> bool
        ensures { result ≡ wanted self.now x.now };
}
