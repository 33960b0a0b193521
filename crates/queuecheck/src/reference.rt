// A plain queue to compare with: a map from each place that is held to its key.
use crate::calls::{Answer, Call};
use refusal::QueueFault;
use std::alloc::{AllocError, Global};
use std::collections::BTreeMap;

// It is no `Queue`: an offer may fail here for want of memory.
#[derive(Drop)]
pub struct Reference {
    size: usize,
    held: BTreeMap<usize, u32>,
}

impl Reference {
    pub(crate) fn new(alloc: Global, size: usize) -> Reference {
        Reference {
            size,
            held: BTreeMap::new(alloc),
        }
    }

    pub(crate) fn size(&self) -> usize {
        self.size
    }

    // The key of a place, if it is held.
    pub(crate) fn key(&self, place: usize) -> Option<u32> {
        self.held.get(&place).copied()
    }

    // The least key and its place, the lowest place among equal keys.
    pub(crate) fn look(&self) -> Option<(u32, usize)> {
        self.held.iter().map(|(place, key)| (*key, *place)).min()
    }

    fn take(&mut self) -> Option<(u32, usize)> {
        let (key, place) = self.look()?;
        let _ = self.held.remove(&place);
        Some((key, place))
    }

    fn offer(&mut self, place: usize, key: u32) -> Result<Result<(), QueueFault>, AllocError> {
        if place >= self.size {
            return Ok(Err(QueueFault::Short));
        }
        let held = self.held.entry(place)?.or_insert(key);
        *held = key.min(*held);
        Ok(Ok(()))
    }

    pub(crate) fn answer(&mut self, call: Call) -> Result<Answer, AllocError> {
        Ok(match call {
            Call::Size => Answer::Count(self.size),
            Call::Held => Answer::Count(self.held.len()),
            Call::Empty => {
                self.held.clear();
                Answer::Done(Ok(()))
            }
            Call::Offer(place, key) => Answer::Done(self.offer(place, key)?),
            Call::Look => Answer::Found(self.look()),
            Call::Take => Answer::Found(self.take()),
        })
    }

    // All that is held, by key and then by place.
    pub(crate) fn sorted(&self, alloc: Global) -> Result<Vec<(u32, usize)>, AllocError> {
        let mut row: Vec<(u32, usize)> = self
            .held
            .iter()
            .map(|(place, key)| (*key, *place))
            .collect(alloc)?;
        row.sort_unstable();
        Ok(row)
    }
}
