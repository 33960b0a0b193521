// The places of the trellis by their definitions: a place is a number of words, its stage, and a number of bits.
use crate::reference::{Case, bit_of};
use codetable::Codeword;
use std::alloc::{AllocError, Global};

// What stands for no cost and no estimate in memory: by rule the decoder is lent plain numbers.
const NONE: u32 = u32::MAX;

// One more than the most bits.
const COLUMNS: usize = 256;

// A cost, or none, for each number of bits.
type Row = Vec<Option<u32>>;

// What becomes of a place, and at what cost: there is a third case, so an Option of the cost would not tell all.
#[derive(Clone, Copy)]
enum State {
    Apart,
    Opened(u32),
    Waiting(u32),
}

// The estimate of each number of bits, and the states of each stage by its number of bits.
#[derive(Drop)]
pub struct Places {
    estimates: Row,
    stages: Vec<Vec<State>>,
}

// How many places the trellis of a case has.
pub(crate) fn trellis_size(case: &Case) -> usize {
    case.count
        .saturating_mul(COLUMNS)
        .saturating_add(case.received.len())
        .saturating_add(1)
}

// What a word adds to the metric, laid on the values from `at` on.
fn share(case: &Case, word: Codeword, at: usize) -> u32 {
    (0..u32::from(word.len))
        .rev()
        .enumerate()
        .filter_map(|(i, behind)| case.against(at.saturating_add(i), bit_of(word, behind)))
        .fold(u32::from(word.weight), |sum, magnitude| {
            sum.saturating_add(magnitude)
        })
}

// The least cost that a word makes, from the costs without it. For a word, `lay` gives the number of bits without it,
// and from which value on it is laid.
fn least_by_word<F>(case: &Case, costs: &[Option<u32>], lay: F) -> Option<u32>
where
    F: Fn(Codeword) -> Option<(usize, usize)>,
    requires callable { F.IsAlwaysCallable lay }
{
    case.table
        .as_slice()
        .iter()
        .filter_map(|&word| {
            let (bits, at) = lay(word)?;
            let cost = costs.get(bits).copied().flatten()?;
            Some(cost.saturating_add(share(case, word, at)))
        })
        .min()
}

// The least cost at each number of bits, from those of one word less.
fn next_row(alloc: Global, case: &Case, before: &[Option<u32>]) -> Result<Row, AllocError> {
    (0..=case.received.len())
        .map(|bits| {
            least_by_word(case, before, |word| {
                let at = bits.checked_sub(usize::from(word.len))?;
                Some((at, at))
            })
        })
        .collect(alloc)
}

// The estimate of each number of bits, from the last to the first: no word fills what is left behind the last bit.
// A loop writes by index, since each estimate is made from those behind it.
fn estimate_all(alloc: Global, case: &Case) -> Result<Row, AllocError> {
    let len = case.received.len();
    let mut row = vec![in alloc; None; len]?;
    row.push(Some(0))?;
    for at in (0..len).rev() {
        let least = least_by_word(case, &row, |word| {
            Some((at.saturating_add(usize::from(word.len)), at))
        });
        if let Some(estimate) = row.get_mut(at) {
            *estimate = least;
        }
    }
    Ok(row)
}

impl State {
    // The state of a place, from its least cost, the least cost by an opened place, its estimate and the limit.
    fn new(
        least: Option<u32>,
        reached: Option<u32>,
        estimate: Option<u32>,
        limit: Option<u32>,
    ) -> State {
        let Some(estimate) = estimate else {
            return State::Apart;
        };
        if let Some(cost) = least
            && cost.saturating_add(estimate) <= limit.unwrap_or(NONE)
        {
            return State::Opened(cost);
        }
        reached.map_or(State::Apart, State::Waiting)
    }

    // The cost of a place that is opened.
    fn opened(self) -> Option<u32> {
        match self {
            State::Opened(cost) => Some(cost),
            State::Waiting(_) | State::Apart => None,
        }
    }

    // The cost of a place that waits.
    fn waiting(self) -> Option<u32> {
        match self {
            State::Waiting(cost) => Some(cost),
            State::Opened(_) | State::Apart => None,
        }
    }
}

// The costs of the opened places of a stage.
fn opened_costs(alloc: Global, states: &[State]) -> Result<Row, AllocError> {
    states.iter().map(|state| state.opened()).collect(alloc)
}

// The states of a stage, from the least costs and the least costs by opened places.
fn stage_states(
    alloc: Global,
    least: &[Option<u32>],
    reached: &[Option<u32>],
    estimates: &[Option<u32>],
    limit: Option<u32>,
) -> Result<Vec<State>, AllocError> {
    least
        .iter()
        .zip(reached)
        .zip(estimates)
        .map(|((least, reached), estimate)| State::new(*least, *reached, *estimate, limit))
        .collect(alloc)
}

impl Places {
    // The places of a case whose best metric is the limit, or in which no list fits.
    pub(crate) fn new(
        alloc: Global,
        case: &Case,
        limit: Option<u32>,
    ) -> Result<Places, AllocError> {
        let estimates = estimate_all(alloc, case)?;
        let mut stages = Vec::new(alloc);
        let mut reached = vec![in alloc; None; estimates.len()]?;
        let mut least = vec![in alloc; None; estimates.len()]?;
        if let Some(start) = least.first_mut() {
            *start = Some(0);
        }
        for _ in 0..=case.count {
            let states = stage_states(alloc, &least, &reached, &estimates, limit)?;
            least = next_row(alloc, case, &least)?;
            reached = next_row(alloc, case, &opened_costs(alloc, &states)?)?;
            stages.push(states)?;
        }
        Ok(Places { estimates, stages })
    }

    // How many places have a cost of a kind.
    fn tally<F: Fn(State) -> Option<u32>>(&self, kind: F) -> usize
        requires callable { F.IsAlwaysCallable kind }
    {
        self.stages
            .iter()
            .flatten()
            .filter_map(|state| kind(*state))
            // No `count`: it would need a bound on how many places there are.
            .fold(0, |count: usize, _| count.saturating_add(1))
    }

    // How many places are opened.
    pub(crate) fn opened(&self) -> usize {
        self.tally(|state| state.opened())
    }

    // How many places wait.
    pub(crate) fn waiting(&self) -> usize {
        self.tally(|state| state.waiting())
    }

    // The cost that stands at a place in memory.
    fn cost(&self, place: usize) -> Option<u32> {
        let state = self.stages.get(place / COLUMNS)?.get(place % COLUMNS)?;
        state.opened().or(state.waiting())
    }

    // Writes the costs of the first places as a search leaves them.
    pub(crate) fn write_costs(&self, costs: &mut [u32], size: usize) {
        for (place, cost) in costs.iter_mut().enumerate().take(size) {
            *cost = self.cost(place).unwrap_or(NONE);
        }
    }

    // Writes the estimates as the decoder leaves them.
    pub(crate) fn write_ahead(&self, ahead: &mut [u32]) {
        for (cell, estimate) in ahead.iter_mut().zip(&self.estimates) {
            *cell = estimate.unwrap_or(NONE);
        }
    }
}
