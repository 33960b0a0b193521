// Decodes many pseudo-random cases, and compares what the decoder answers and leaves, with either queue, with what the
// rules say. Then it does the same for the cases on standard input, one to a line, and prints their answers.
#![tactic(auto)]

use crate::cases::Cases;
use crate::compare::{Expected, check_call, check_short};
use crate::examples::{Answer, read_case};
use crate::reference::Case;
use crate::seen::Seen;
use anyhow::anyhow;
use queue::Queue;
use queue::heap::Heap;
use queue::strip::Strip;
use std::alloc::Global;

mod cases;
mod compare;
mod examples;
mod memory;
mod places;
mod reference;
mod seen;

const CASES: usize = 4_000;

// Compares a case by one queue: with memory to spare and, if its count is allowed, with memory that is too short.
fn compare_case<Q: Queue>(
    alloc: Global,
    case: &Case,
    expected: Option<&Expected>,
    queue: &mut Q,
    spare: usize,
) -> anyhow::Result<()> {
    let _ = check_call(alloc, case, expected, queue, spare)?;
    if expected.is_some() {
        check_short(alloc, case, queue)?;
    }
    Ok(())
}

// Compares the pseudo-random cases, and counts what was met; stops at the first difference, and says in which case and
// with which queue it is.
fn compare_cases(alloc: Global, heap: &mut Heap, strip: &mut Strip) -> anyhow::Result<Seen> {
    let mut seen = Seen::default();
    for (number, case) in Cases::new(1).take(CASES).enumerate() {
        let spare = number % 3;
        let found = Expected::new(alloc, &case)?;
        let expected = found.as_ref();
        let by_heap = compare_case(alloc, &case, expected, heap, spare);
        by_heap.map_err(|fault| anyhow!("case {number}, heap: {fault}"))?;
        let by_strip = compare_case(alloc, &case, expected, strip, spare);
        by_strip.map_err(|fault| anyhow!("case {number}, strip: {fault}"))?;
        seen.note(expected);
    }
    Ok(seen)
}

// Compares and prints the cases of the input.
fn print_cases(rt: &HostRuntime, heap: &mut Heap, strip: &mut Strip) -> anyhow::Result<()> {
    let alloc = rt.alloc();
    for line in rt.lines(alloc) {
        let line = line?;
        let case = read_case(line.as_str())?;
        let expected = Expected::new(alloc, &case)?;
        let answer = Answer(check_call(alloc, &case, expected.as_ref(), heap, 0)?);
        println!(rt; "{line}, heap: {answer}")?;
        let answer = Answer(check_call(alloc, &case, expected.as_ref(), strip, 0)?);
        println!(rt; "{line}, strip: {answer}")?;
    }
    Ok(())
}

fn run(rt: &HostRuntime) -> anyhow::Result<()> {
    let mut heap = Heap::new();
    let mut strip = Strip::new();
    let seen = compare_cases(rt.alloc(), &mut heap, &mut strip)?;
    println!(rt; "{CASES} cases: what heap and strip answer and leave is what the rules say")?;
    println!(rt; "{seen}")?;
    print_cases(rt, &mut heap, &mut strip)
}

fn main(rt: HostRuntime) -> anyhow::Result<()> {
    run(&rt)
}
