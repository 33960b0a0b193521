// Reads tables from standard input, one to a line, and prints the free distance of each, as either queue finds it.
// A line has a name, a colon, and the words of the table in bits.
#![tactic(auto)]

use codetable::CodeTable;
use distance::free_distance;
use queue::Queue;
use queue::heap::Heap;
use queue::strip::Strip;
use refusal::Refusal;

// Room for the costs of every place of the tails map.
const PLACES: usize = 768;

// The value of a word in bits, as decodecheck reads it too: one expression is no plainer in a crate that both share.
fn read_bits(text: &str) -> u32 {
    text.bytes().fold(
        0,
        |value: u32, bit| value.wrapping_mul(2) | u32::from(bit == b'1'),
    )
}

// The table of the words in a text.
fn read_table(text: &str) -> Result<CodeTable, Refusal> {
    let mut table = CodeTable::new();
    for word in text.split_whitespace() {
        table.push(word.len(), read_bits(word))?;
    }
    Ok(table)
}

// The free distance of the table in a text.
fn measure<Q: Queue>(text: &str, queue: &mut Q, costs: &mut [u32]) -> Result<u32, Refusal> {
    let table = read_table(text)?;
    free_distance(&table, queue, costs)
}

// Prints one answer.
fn print(
    rt: &HostRuntime,
    name: &str,
    queue: &str,
    answer: Result<u32, Refusal>,
) -> anyhow::Result<()> {
    match answer {
        Ok(distance) => println!(rt; "{name}, {queue}: {distance}")?,
        Err(refusal) => println!(rt; "{name}, {queue}: no {refusal}")?,
    }
    Ok(())
}

// Measures each table of the input with both queues.
fn measure_all(
    rt: &HostRuntime,
    heap: &mut Heap,
    strip: &mut Strip,
    costs: &mut [u32],
) -> anyhow::Result<()> {
    for line in rt.lines(rt.alloc()) {
        let line = line?;
        if let Some((name, words)) = line.as_str().split_once(':') {
            print(rt, name, "heap", measure(words, heap, costs))?;
            print(rt, name, "strip", measure(words, strip, costs))?;
        }
    }
    Ok(())
}

fn main(rt: HostRuntime) -> anyhow::Result<()> {
    let mut heap = Heap::new();
    let mut strip = Strip::new();
    let mut costs = [0; PLACES];
    measure_all(&rt, &mut heap, &mut strip, &mut costs)?;
    let short = measure("000 111", &mut heap, &mut costs[1..]);
    print(&rt, "one cost too few", "heap", short)
}
