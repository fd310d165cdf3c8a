ghost use Rattle.std.specs.Prelude.{◌≡◌, ◌+◌, ◌≤◌, [], length, slice_get};
ghost use Rattle.std.specs.Fn.{CalledAt};
ghost use Rattle.std.specs.List.{remove};
ghost use Rattle.std.specs.List.Retain.{IsFiltered};
ghost use Rattle.queue.specs.Held.{held};
ghost use Rattle.runs.specs.Lists.{put_all};
ghost use Rattle.runtime.specs.Meant.{listed};

use queue::{Queue, Ranked};
use runs::records::{Event, Output};

// Room for events, and for outputs.
pub(crate) type EventRoom = Room<Event, 128>;

pub(crate) type OutputRoom = Room<Output, 64>;

// Room for N records: for those that wait, and for those that the stacked firings will send, whose places are set aside.
#[derive(Drop)]
pub struct Room<T: Ranked, const N: usize> {
    pub(crate) waiting: Queue<T, N>,
    pub(crate) aside: u64,
    ghost fits: { length (held waiting) + aside ≤ N },
}

impl<T: Ranked, const N: usize> Room<T, N> {
    // Room where nothing waits: `filler` stands in its free places, and is never read.
    pub(crate) fn new(filler: T) -> Self
        ensures waiting { held result.waiting ≡ [] }
        ensures aside { result.aside ≡ 0 }
    {
        Room {
            waiting: Queue::new(filler),
            aside: 0,
        }
    }

    // The records that wait.
    pub(crate) fn waiting(&self) -> &[T]
        ensures { result.now ≡ held self.now.waiting }
    {
        self.waiting.as_slice()
    }

    // How many wait.
    pub(crate) fn count(&self) -> u64
        ensures count { result ≡ length (held self.now.waiting) }
        ensures fits { result ≤ N }
    {
        self.waiting.len() as u64
    }

    // How many places are held, by those that wait and for those that will be sent.
    pub(crate) fn places(&self) -> u64
        ensures count { result ≡ length (held self.now.waiting) + self.now.aside }
        ensures fits { result ≤ N }
    {
        self.count() + self.aside
    }

    // Puts a record, if there is one, where its rank belongs.
    pub(crate) fn post(&mut self, item: Option<T>)
        requires { length (held self.old.waiting) + length (listed item) + self.old.aside ≤ N }
        ensures waiting { held self.new.waiting ≡ put_all T.Ranked.order (listed item) (held self.old.waiting) }
        ensures aside { self.new.aside ≡ self.old.aside }
    {
        if let Some(item) = item {
            // There is room.
            let _ = self.waiting.insert(item);
        }
    }

    // Sets places aside.
    pub(crate) fn set_aside(&mut self, places: u64)
        requires { length (held self.old.waiting) + (places + self.old.aside) ≤ N }
        ensures waiting { held self.new.waiting ≡ held self.old.waiting }
        ensures aside { self.new.aside ≡ places + self.old.aside }
    {
        self.aside += places;
    }

    // Frees places that were set aside.
    pub(crate) fn free(&mut self, places: u64)
        requires { places ≤ self.old.aside }
        ensures waiting { held self.new.waiting ≡ held self.old.waiting }
        ensures aside { self.new.aside + places ≡ self.old.aside }
    {
        self.aside -= places;
    }

    pub(crate) fn first(&self) -> Option<T>
        ensures { result ≡ slice_get (held self.now.waiting) 0 }
    {
        self.waiting.first()
    }

    pub(crate) fn take_first(&mut self) -> Option<T>
        ensures answer { result ≡ slice_get (held self.old.waiting) 0 }
        ensures after { held self.new.waiting ≡ remove (held self.old.waiting) 0 }
        ensures aside { self.new.aside ≡ self.old.aside }
    {
        self.waiting.take_first()
    }

    // Keeps the records that `keep` answers true for, in their order.
    pub(crate) fn retain<F: FnMut(&T) -> bool>(&mut self, keep: F)
        requires { F.IsAlwaysCallable keep }
        ensures waiting { IsFiltered (CalledAt F.FnMut) keep (held self.old.waiting) (held self.new.waiting) }
        ensures aside { self.new.aside ≡ self.old.aside }
    {
        self.waiting.retain(keep);
    }
}
