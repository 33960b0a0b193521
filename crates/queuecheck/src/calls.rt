// Pseudo-random calls on a queue, and their answers.
use random::Random;
use refusal::QueueFault;

#[derive(Clone, Copy)]
pub enum Call {
    Size,
    Held,
    Empty,
    Offer(usize, u32),
    Look,
    Take,
}

// What a call answers. An `Empty` answers like an offer that is not refused.
#[derive(Clone, Copy, PartialEq)]
pub enum Answer {
    Count(usize),
    Done(Result<(), QueueFault>),
    Found(Option<(u32, usize)>),
}

// A source of calls on a queue of a size.
#[derive(Drop)]
pub struct Calls {
    random: Random,
    size: usize,
}

impl Calls {
    pub(crate) fn new(seed: u64, size: usize) -> Calls {
        Calls {
            random: Random::new(seed),
            size,
        }
    }

    // A place: mostly a low one, at times one near the size, any, or one out of range.
    fn place(&mut self) -> usize {
        match self.random.below(16) {
            0 => usize::MAX,
            1 => self.size.saturating_add(self.random.below(4) as usize),
            2..=3 => self.size.saturating_sub(self.random.below(4) as usize + 1),
            4 => self.random.below(10_000) as usize,
            _ => self.random.below(48) as usize,
        }
    }

    // A key: mostly one of a few, at times any, or one at an end of the range.
    fn key(&mut self) -> u32 {
        match self.random.below(16) {
            0 => 0,
            1 => u32::MAX,
            2 => u32::MAX - self.random.below(3) as u32,
            3..=4 => self.random.next_u32(),
            _ => self.random.below(12) as u32,
        }
    }

    pub(crate) fn pair(&mut self) -> (usize, u32) {
        (self.place(), self.key())
    }

    pub(crate) fn call(&mut self) -> Call {
        match self.random.below(1000) {
            0..=4 => Call::Empty,
            5..=49 => Call::Size,
            50..=149 => Call::Held,
            150..=299 => Call::Look,
            300..=499 => Call::Take,
            _ => {
                let (place, key) = self.pair();
                Call::Offer(place, key)
            }
        }
    }
}
