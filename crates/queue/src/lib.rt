// Queues: sets of places, each held with one key, that give the least key first.
#![tactic(auto)]

ghost use Rattle.std.specs.Prelude.{◌≡◌};
ghost use Rattle.refusal.specs.Checks.{Judged};
ghost use Rattle.queue.specs.Queues.{Model, Bounded, Same, Emptied, Offered, Looked, Taken, held_count, offer_checks, by_queue};

pub use either::Either;
use refusal::QueueFault;

pub mod heap;
mod kinds;
pub mod sorted;
pub mod strip;
mod tree;

// The size of each queue of this crate.
pub(crate) const PLACES: usize = 8448;

// A queue holds places from 0 to its size less 1, each with one key. No call changes the size.
pub trait Queue {
    // What the queue means: its size, and the key of each place that is held.
    ghost model: { Self → Model };

    // No place is held from the size on.
    ghost bounded: { (q : Self) → Bounded (model q) };

    // The number of places that may be held.
    fn size(&self) -> usize
        ensures size { result ≡ (model self.now).size };

    // The number of places that are held.
    fn held(&self) -> usize
        ensures count { result ≡ held_count (model self.now) };

    // Lets go of every place.
    fn empty(&mut self)
        ensures emptied { Emptied (model self.old) (model self.new) };

    // Holds a place with a key, or with the smaller of the key and the one it has. Refuses a place that is not below the size.
    fn offer(&mut self, place: usize, key: u32) -> Result<(), QueueFault>
        ensures answer { Judged (offer_checks (model self.old) place) by_queue result (λ _. Offered (model self.old) (model self.new) place key) (λ _. Same (model self.old) (model self.new)) };

    // The least key and its place, the lowest place among equal keys; none exactly if no place is held.
    fn look(&self) -> Option<(u32, usize)>
        ensures least { Looked (model self.now) result };

    // Answers like `look`, and lets go of that place alone.
    fn take(&mut self) -> Option<(u32, usize)>
        ensures least { Looked (model self.old) result }
        ensures removes { Taken (model self.old) (model self.new) result };
}
