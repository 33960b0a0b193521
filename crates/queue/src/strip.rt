// A queue that keeps the key of each place, or none, in a row, and scans the row for the least.
// An offer and the size cost O(1); look, take, held and empty cost O(size).
ghost use Rattle.std.specs.Prelude.{◌≡◌, length, replicate, None, is_some, count_by};
ghost use Rattle.queue.specs.Queues.{places, Bare, Looked};

use crate::{PLACES, Queue};
use refusal::QueueFault;

// The key of each place, or none where it is not held. By rule the array stands in an inner struct, which is scanned.
#[derive(Clone, Copy)]
struct Keys {
    at: [Option<u32>; PLACES],
    ghost full: { length at ≡ places },
}

#[derive(Drop)]
pub struct Strip {
    inner: Keys,
}

impl Keys {
    ghost use Rattle.queue.specs.Arrays.{strip_model};

    fn new() -> Keys
        ensures blank { result.at ≡ replicate places None }
    {
        Keys { at: [None; PLACES] }
    }

    // How many places have a key.
    fn count(&self) -> usize
        ensures count { result ≡ count_by is_some self.now.at }
    {
        self.at
            .iter()
            .map(|cell| u32::from(cell.is_some()))
            .sum::<u32>() as usize
    }

    // The least key and its place, the lowest place among equal keys.
    fn least(&self) -> Option<(u32, usize)>
        ensures least { Looked (strip_model self.now) result }
    {
        // No `filter_map` with `reduce`: the compiler makes a search loop in a loop of it, at twice the cost.
        let mut best = None;
        for (place, cell) in self.at.iter().enumerate() {
            if let Some(key) = *cell {
                best = match best {
                    Some((least, _)) if least <= key => best,
                    _ => Some((key, place)),
                };
            }
        }
        best
    }
}

impl Strip {
    ghost use Rattle.queue.specs.Arrays.{strip_model};

    // A strip that holds no place.
    pub fn new() -> Strip
        ensures bare { Bare (strip_model result.inner) }
        ensures size { (strip_model result.inner).size ≡ places }
    {
        Strip { inner: Keys::new() }
    }
}

impl Queue for Strip {
    ghost use Rattle.queue.specs.Arrays.{strip_model};
    ghost use Rattle.queue.specs.Bounds.{strip_bounded};

    ghost model = { λ s. strip_model s.inner };

    ghost bounded = { λ s. strip_bounded s.inner };

    fn size(&self) -> usize {
        PLACES
    }

    fn held(&self) -> usize {
        self.inner.count()
    }

    fn empty(&mut self) {
        self.inner = Keys::new();
    }

    fn offer(&mut self, place: usize, key: u32) -> Result<(), QueueFault> {
        if place >= PLACES {
            return Err(QueueFault::Short);
        }
        let kept = self.inner.at[place].map_or(key, |had| key.min(had));
        self.inner.at[place] = Some(kept);
        Ok(())
    }

    fn look(&self) -> Option<(u32, usize)> {
        self.inner.least()
    }

    fn take(&mut self) -> Option<(u32, usize)> {
        let (key, place) = self.inner.least()?;
        self.inner.at[place] = None;
        Some((key, place))
    }
}
