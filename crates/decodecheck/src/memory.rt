// The memory that the decoder is lent.
use crate::places::{Places, trellis_size};
use crate::reference::Case;
use decoder::{Decoded, decode};
use queue::Queue;
use refusal::SearchFault;
use std::alloc::{AllocError, Global};

// What stands where nothing was written.
const UNTOUCHED: u32 = 77;

#[derive(PartialEq, Drop)]
pub struct Memory {
    costs: Vec<u32>,
    ahead: Vec<u32>,
}

impl Memory {
    pub(crate) fn new(alloc: Global, costs: usize, ahead: usize) -> Result<Memory, AllocError> {
        Ok(Memory {
            costs: vec![in alloc; UNTOUCHED; costs]?,
            ahead: vec![in alloc; UNTOUCHED; ahead]?,
        })
    }

    // What a call has to find, and some room to spare.
    pub(crate) fn enough(alloc: Global, case: &Case, spare: usize) -> Result<Memory, AllocError> {
        let costs = trellis_size(case).saturating_add(spare);
        let ahead = case.received.len().saturating_add(1).saturating_add(spare);
        Memory::new(alloc, costs, ahead)
    }

    // Writes what a call leaves of the places of a case.
    pub(crate) fn write(&mut self, case: &Case, places: &Places) {
        places.write_costs(&mut self.costs, trellis_size(case));
        places.write_ahead(&mut self.ahead);
    }

    pub(crate) fn is_untouched(&self) -> bool {
        self.costs
            .iter()
            .chain(&self.ahead)
            .all(|cell| *cell == UNTOUCHED)
    }

    pub(crate) fn decode<Q: Queue>(
        &mut self,
        case: &Case,
        queue: &mut Q,
    ) -> Result<Decoded, SearchFault> {
        decode(
            &case.table,
            &case.received,
            case.count,
            queue,
            &mut self.costs,
            &mut self.ahead,
        )
    }
}
