// How often each kind of call was met.
use crate::calls::Call;
use crate::reference::Reference;
use std::cmp::Ordering;
use std::fmt;

#[derive(Default, Drop)]
pub struct Seen {
    refused: usize,
    fresh: usize,
    lower: usize,
    equal: usize,
    higher: usize,
    taken: usize,
    untaken: usize,
    emptied: usize,
}

impl Seen {
    // Counts a call, by what the reference holds before it.
    pub(crate) fn note(&mut self, reference: &Reference, call: Call) {
        let count = match call {
            Call::Offer(place, _) if place >= reference.size() => &mut self.refused,
            Call::Offer(place, key) => match reference.key(place).map(|held| key.cmp(&held)) {
                None => &mut self.fresh,
                Some(Ordering::Less) => &mut self.lower,
                Some(Ordering::Equal) => &mut self.equal,
                Some(Ordering::Greater) => &mut self.higher,
            },
            Call::Take if reference.look().is_none() => &mut self.untaken,
            Call::Take => &mut self.taken,
            Call::Empty => &mut self.emptied,
            Call::Size | Call::Held | Call::Look => return,
        };
        *count = count.saturating_add(1);
    }
}

impl fmt::Display for Seen {
    fn fmt<W: fmt::Write>(&self, f: &mut fmt::Formatter<W>) -> fmt::Result {
        let Seen {
            refused,
            fresh,
            lower,
            equal,
            higher,
            taken,
            untaken,
            emptied,
        } = self;
        write!(
            f,
            "offers: {fresh} to free places, {lower} lower, {equal} equal, {higher} higher, {refused} refused; "
        )?;
        write!(
            f,
            "takes: {taken}, and {untaken} on empty queues; empties: {emptied}"
        )
    }
}
