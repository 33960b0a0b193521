// Compares what the decoder answers and leaves with what the rules say.
use crate::memory::Memory;
use crate::places::{Places, trellis_size};
use crate::reference::{Best, Case, best_list};
use anyhow::{bail, ensure};
use decoder::Decoded;
use queue::Queue;
use refusal::SearchFault;
use std::alloc::{AllocError, Global};

// What the rules say of a case whose count is allowed: the best list, if one fits, and the places of the trellis.
#[derive(Drop)]
pub struct Expected {
    pub best: Option<Best>,
    pub places: Places,
}

impl Expected {
    // Tries every list of a case, and visits every place; none if the count is not allowed.
    pub(crate) fn new(alloc: Global, case: &Case) -> Result<Option<Expected>, AllocError> {
        if case.count < 1 || case.count > 32 {
            return Ok(None);
        }
        let best = best_list(alloc, case)?;
        let limit = best.as_ref().map(|best| best.fitting.metric);
        let places = Places::new(alloc, case, limit)?;
        Ok(Some(Expected { best, places }))
    }
}

// The memory that a call leaves.
fn expected_memory(
    alloc: Global,
    case: &Case,
    expected: Option<&Expected>,
    spare: usize,
) -> Result<Memory, AllocError> {
    let mut memory = Memory::enough(alloc, case, spare)?;
    if let Some(expected) = expected {
        memory.write(case, &expected.places);
    }
    Ok(memory)
}

fn check_decoded(decoded: &Decoded, best: &Best, places: &Places) -> anyhow::Result<()> {
    ensure!(decoded.metric == best.fitting.metric, "the metric differs");
    ensure!(
        decoded.changed == best.fitting.changed,
        "the number of changed bits differs"
    );
    ensure!(
        decoded.list.as_slice() == best.fitting.list.as_slice(),
        "the list differs"
    );
    ensure!(
        decoded.opened == places.opened() && decoded.waiting == places.waiting(),
        "the number of opened or of waiting places differs"
    );
    Ok(())
}

fn check_answer(
    answer: &Result<Decoded, SearchFault>,
    expected: Option<&Expected>,
) -> anyhow::Result<()> {
    let best = expected.map(|expected| (expected.best.as_ref(), &expected.places));
    match (answer, best) {
        (Ok(decoded), Some((Some(best), places))) => check_decoded(decoded, best, places),
        (Err(SearchFault::NoFit), Some((None, _))) => Ok(()),
        (Err(SearchFault::BadCount), None) => Ok(()),
        _ => bail!("the kind of answer differs"),
    }
}

// Decodes a case with memory to spare, and compares the answer and what is left in memory and in the queue.
pub(crate) fn check_call<Q: Queue>(
    alloc: Global,
    case: &Case,
    expected: Option<&Expected>,
    queue: &mut Q,
    spare: usize,
) -> anyhow::Result<Result<Decoded, SearchFault>> {
    let before = queue.held();
    let mut memory = Memory::enough(alloc, case, spare)?;
    let answer = memory.decode(case, queue);
    check_answer(&answer, expected)?;
    ensure!(
        memory == expected_memory(alloc, case, expected, spare)?,
        "a cost or an estimate differs"
    );
    ensure!(
        queue.held() == expected.map_or(before, |expected| expected.places.waiting()),
        "the number of places in the queue differs"
    );
    Ok(answer)
}

// Decodes a case with memory that is too short, and sees that nothing is changed.
fn check_refusal<Q: Queue>(case: &Case, queue: &mut Q, memory: &mut Memory) -> anyhow::Result<()> {
    let before = queue.held();
    ensure!(
        matches!(memory.decode(case, queue), Err(SearchFault::Short)),
        "the answer is not that memory is short"
    );
    ensure!(
        memory.is_untouched() && queue.held() == before,
        "a call with short memory changes something"
    );
    Ok(())
}

// Decodes a case with one cost too few and with one estimate too few.
pub(crate) fn check_short<Q: Queue>(
    alloc: Global,
    case: &Case,
    queue: &mut Q,
) -> anyhow::Result<()> {
    let size = trellis_size(case);
    let len = case.received.len();
    let mut fewer_costs = Memory::new(alloc, size.saturating_sub(1), len.saturating_add(1))?;
    check_refusal(case, queue, &mut fewer_costs)?;
    let mut fewer_estimates = Memory::new(alloc, size, len)?;
    check_refusal(case, queue, &mut fewer_estimates)
}
