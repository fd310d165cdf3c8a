ghost use Rattle.std.specs.Prelude.{◌≡◌, ℕ};

// A record with a rank, a whole number by which a queue orders it.
pub trait Ranked: Copy {
    ghost order: { Self → ℕ };

    fn rank(&self) -> u64
        ensures { result ≡ order self.now };
}
