// Drives both queues and a plain reference through one long pseudo-random list of calls, and compares every answer.
// Then it sorts pseudo-random pairs by each queue, and compares the rows.
#![tactic(auto)]

use crate::calls::{Answer, Call, Calls};
use crate::reference::Reference;
use crate::seen::Seen;
use anyhow::ensure;
use queue::Queue;
use queue::heap::Heap;
use queue::sorted::sort;
use queue::strip::Strip;
use std::alloc::Global;
use std::array;

mod calls;
mod reference;
mod seen;

const CALLS: usize = 20_000;

const PAIRS: usize = 600;

fn answer<Q: Queue>(queue: &mut Q, call: Call) -> Answer {
    match call {
        Call::Size => Answer::Count(queue.size()),
        Call::Held => Answer::Count(queue.held()),
        Call::Empty => {
            queue.empty();
            Answer::Done(Ok(()))
        }
        Call::Offer(place, key) => Answer::Done(queue.offer(place, key)),
        Call::Look => Answer::Found(queue.look()),
        Call::Take => Answer::Found(queue.take()),
    }
}

// Makes the calls, and counts what was met; stops at the first answer that differs.
fn compare_calls(
    heap: &mut Heap,
    strip: &mut Strip,
    reference: &mut Reference,
    calls: &mut Calls,
) -> anyhow::Result<Seen> {
    let mut seen = Seen::default();
    for _ in 0..CALLS {
        let call = calls.call();
        seen.note(reference, call);
        let expected = reference.answer(call)?;
        ensure!(answer(heap, call) == expected, "the heap's answer differs");
        ensure!(
            answer(strip, call) == expected,
            "the strip's answer differs"
        );
    }
    Ok(seen)
}

// The row that the reference gives for some pairs.
fn expected_row(
    alloc: Global,
    reference: &mut Reference,
    pairs: &[(usize, u32)],
) -> anyhow::Result<Vec<(u32, usize)>> {
    let _ = reference.answer(Call::Empty)?;
    for (place, key) in pairs {
        let _ = reference.answer(Call::Offer(*place, *key))?;
    }
    Ok(reference.sorted(alloc)?)
}

// Sorts by a queue, and compares the row with what is expected. The rest of the row stays as it was.
fn compare_sort<Q: Queue>(
    queue: &mut Q,
    pairs: &[(usize, u32)],
    expected: &[(u32, usize)],
) -> anyhow::Result<()> {
    let mut row = [(0, 0); PAIRS];
    let sorted = sort(queue, pairs, &mut row) == Ok(expected.len());
    let rest = row.strip_prefix(expected);
    let agrees = rest.is_some_and(|rest| rest.iter().all(|pair| *pair == (0, 0)));
    ensure!(sorted && agrees, "a sorted row differs");
    Ok(())
}

// Sorts by each queue, and answers how long the row is.
fn compare_sorts(
    alloc: Global,
    heap: &mut Heap,
    strip: &mut Strip,
    reference: &mut Reference,
    calls: &mut Calls,
) -> anyhow::Result<usize> {
    let pairs: [(usize, u32); PAIRS] = array::from_fn(|_| calls.pair());
    let row = expected_row(alloc, reference, &pairs)?;
    compare_sort(heap, &pairs, &row)?;
    compare_sort(strip, &pairs, &row)?;
    Ok(row.len())
}

fn main(rt: HostRuntime) -> anyhow::Result<()> {
    let alloc = rt.alloc();
    let mut heap = Heap::new();
    let mut strip = Strip::new();
    let mut reference = Reference::new(alloc, heap.size());
    let mut calls = Calls::new(1, heap.size());
    let seen = compare_calls(&mut heap, &mut strip, &mut reference, &mut calls)?;
    println!(rt; "{CALLS} calls: the answers of heap, strip and reference all agree")?;
    println!(rt; "{seen}")?;
    let count = compare_sorts(alloc, &mut heap, &mut strip, &mut reference, &mut calls)?;
    println!(rt; "{PAIRS} pairs sorted into {count}: the rows of heap, strip and reference agree")?;
    Ok(())
}
