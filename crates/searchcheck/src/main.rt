// Searches two small maps with each queue, and prints each answer, what the costs hold, and the least key that waits
// with its place.
#![tactic(auto)]

ghost use Rattle.std.specs.Prelude.{◌≤◌};

use maps::TableMap;
use queue::Queue;
use queue::heap::Heap;
use queue::strip::Strip;
use search::search;
use std::io;

mod maps;

// Room for the costs of either map.
const ROOM: usize = 8;

// Searches a map in the first `lent` costs, and prints what comes of it.
fn print_search<Q: Queue>(
    rt: &impl Print,
    name: &str,
    map: &TableMap,
    queue: &mut Q,
    lent: usize,
) -> io::Result<()>
    requires room { lent ≤ 8 }
{
    let mut costs = [7; ROOM];
    let answer = search(map, queue, &mut costs[..lent]);
    let least = queue.look();
    println!(rt; "{name}: {answer:?} {costs:?} {least:?}")
}

fn main(rt: HostRuntime) -> io::Result<()> {
    let mut heap = Heap::new();
    let mut strip = Strip::new();
    let ties = TableMap::ties();
    let apart = TableMap::apart();
    print_search(&rt, "ties, heap", &ties, &mut heap, ROOM)?;
    print_search(&rt, "ties, strip", &ties, &mut strip, ROOM)?;
    print_search(&rt, "ties, heap, four costs", &ties, &mut heap, 4)?;
    print_search(&rt, "apart, heap", &apart, &mut heap, ROOM)?;
    print_search(&rt, "apart, strip", &apart, &mut strip, ROOM)
}
