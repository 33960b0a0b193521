// A best-first search with estimates, for any map and any queue.
#![tactic(auto)]

ghost use Rattle.std.specs.Prelude.{◌≡◌, ℕ, ◌+◌, ◌<◌, ◌≤◌, length, Some, None};
ghost use Rattle.refusal.specs.Checks.{Judged};
ghost use Rattle.queue.specs.Queues.{tally};
ghost use Rattle.search.specs.Graphs.{Graph, Lawful, unknown, nth};
ghost use Rattle.search.specs.Searches.{Leaves, Finds, Refused, search_checks, by_search, cost_at};
ghost use Rattle.search.specs.Frontiers.{Relaxing, Searching, NoneOpened, Keeps, KeepsBeyond, Lowers, TakesWithin, NoneWithin, Clears, settled};

use queue::Queue;
use refusal::SearchFault;

// What the costs hold for a place whose cost is not known: by rule they are lent as plain numbers.
const UNKNOWN: u32 = u32::MAX;

// A map is a graph: places from 0 to its size less 1, edges from place to place with their costs, a start, a finish,
// and at each place an estimate of what is left to the finish, or none.
pub trait Map {
    // What the map means.
    ghost graph: { Self → Graph };

    // The laws that every map keeps.
    ghost lawful: { (m : Self) → Lawful (graph m) };

    // The number of places.
    fn size(&self) -> usize
        ensures size { result ≡ (graph self.now).size };

    // The place that every path begins at.
    fn start(&self) -> usize
        ensures start { result ≡ (graph self.now).start };

    // The place that is searched for.
    fn finish(&self) -> usize
        ensures finish { result ≡ (graph self.now).finish };

    // The estimate at a place, or none.
    fn estimate(&self, place: usize) -> Option<u32>
        ensures estimate { result ≡ (graph self.now).estimate place };

    // The number of edges from a place.
    fn edge_count(&self, place: usize) -> usize
        ensures count { result ≡ length ((graph self.now).edges place) };

    // The place that an edge leads to and its cost; none from the number of edges on.
    fn edge(&self, place: usize, index: usize) -> Option<(usize, u32)>
        ensures edge { result ≡ nth ((graph self.now).edges place) index };
}

// What a search finds: the least cost of a path from the start to the finish, the number of places that are opened,
// and the number of places that wait in the queue.
#[derive(Clone, Copy, PartialEq, Eq, Debug)]
pub struct Found {
    pub limit: u32,
    pub opened: usize,
    pub waiting: usize,
}

// Makes the first costs unknown.
fn clear(costs: &mut [u32], count: usize)
    requires room { count ≤ length costs.old }
    ensures cleared { Clears costs.old costs.new count }
{
    costs[..count].fill(UNKNOWN);
}

// Gives a place a cost that is less than the one it has, and offers it with the sum of that and its estimate.
fn lower<Q: Queue>(queue: &mut Q, costs: &mut [u32], place: usize, cost: u32, estimate: u32)
    requires room { place < (Q.model queue.old).size }
    requires long { place < length costs.old }
    requires fits { cost + estimate ≤ unknown }
    ensures lowered { Lowers costs.old costs.new (Q.model queue.old) (Q.model queue.new) place cost estimate }
{
    if cost < costs[place] {
        costs[place] = cost;
        let _ = queue.offer(place, cost + estimate);
    }
}

// Relaxes one edge of the place that was opened last.
// No struct of map, queue and costs: each of its methods would also have to ensure that it keeps what was lent.
fn relax_edge<M: Map, Q: Queue>(
    map: &M,
    queue: &mut Q,
    costs: &mut [u32],
    place: usize,
    index: usize,
)
    requires relaxing { Relaxing (M.graph map.now) costs.old (Q.model queue.old) place index }
    ensures relaxing { Relaxing (M.graph map.now) costs.new (Q.model queue.new) place (index + 1) }
    ensures keeps { Keeps (M.graph map.now) costs.old costs.new (Q.model queue.old) (Q.model queue.new) }
{
    if let Some((to, edge_cost)) = map.edge(place, index) {
        if let Some(estimate) = map.estimate(to) {
            let cost = costs[place] + edge_cost;
            lower(queue, costs, to, cost, estimate);
        }
    }
}

// Relaxes every edge of the place that was opened last.
fn relax<M: Map, Q: Queue>(map: &M, queue: &mut Q, costs: &mut [u32], place: usize)
    requires relaxing { Relaxing (M.graph map.now) costs.old (Q.model queue.old) place 0 }
    ensures searching { Searching (M.graph map.now) costs.new (Q.model queue.new) }
    ensures keeps { Keeps (M.graph map.now) costs.old costs.new (Q.model queue.old) (Q.model queue.new) }
{
    // A map answers an edge by its index, since its edges need not lie anywhere as a list.
    for index in 0..map.edge_count(place) {
        relax_edge(map, queue, costs, place, index);
    }
}

// Takes the place with the least key, unless that is above a bound or nothing is held.
fn take_within<Q: Queue>(queue: &mut Q, bound: u32) -> Option<usize>
    ensures takes { TakesWithin (Q.model queue.old) (Q.model queue.new) bound result }
{
    let (key, place) = queue.look()?;
    if key > bound {
        return None;
    }
    let _ = queue.take();
    Some(place)
}

// Clears the queue and the costs, and lets the start wait if it has an estimate.
fn begin<M: Map, Q: Queue>(map: &M, queue: &mut Q, costs: &mut [u32])
    requires room { (M.graph map.now).size ≤ (Q.model queue.old).size }
    requires long { (M.graph map.now).size ≤ length costs.old }
    ensures searching { Searching (M.graph map.now) costs.new (Q.model queue.new) }
    ensures none { NoneOpened (M.graph map.now) costs.new (Q.model queue.new) }
    ensures beyond { KeepsBeyond (M.graph map.now) costs.old costs.new (Q.model queue.old) (Q.model queue.new) }
{
    queue.empty();
    clear(costs, map.size());
    let start = map.start();
    if let Some(estimate) = map.estimate(start) {
        lower(queue, costs, start, 0, estimate);
    }
}

// Opens places until the least key in the queue is above the cost of the finish, and answers how many were opened.
fn run<M: Map, Q: Queue>(map: &M, queue: &mut Q, costs: &mut [u32]) -> usize
    requires searching { Searching (M.graph map.now) costs.old (Q.model queue.old) }
    requires none { NoneOpened (M.graph map.now) costs.old (Q.model queue.old) }
    ensures searching { Searching (M.graph map.now) costs.new (Q.model queue.new) }
    ensures over { NoneWithin (Q.model queue.new) (cost_at costs.new (M.graph map.now).finish) }
    ensures opened { result ≡ tally (settled costs.new (Q.model queue.new)) (M.graph map.now).size }
    ensures beyond { KeepsBeyond (M.graph map.now) costs.old costs.new (Q.model queue.old) (Q.model queue.new) }
{
    let finish = map.finish();
    let mut opened = 0;
    // No chain that counts: its two closures, to take and to relax, would both change the queue.
    while let Some(place) = take_within(queue, costs[finish]) {
        relax(map, queue, costs, place);
        opened += 1;
    }
    opened
}

// Searches a map for the least cost of a path from its start to its finish, the limit. It opens every place whose
// least cost and estimate add up to no more than the limit, ties included, whatever the queue held before.
// The queue is left with the waiting places, those not opened that an opened place has an edge to, and the costs with
// the cost of each opened or waiting place, and 4294967295 at every other place of the map.
// It is short, and changes nothing, if the queue's size or the number of costs is below the map's size. Without a path
// there is no fit: every place with a path and an estimate is then opened, and queue and costs are left likewise.
pub fn search<M: Map, Q: Queue>(
    map: &M,
    queue: &mut Q,
    costs: &mut [u32],
) -> Result<Found, SearchFault>
    ensures answer { Judged (search_checks (M.graph map.now) (Q.model queue.old) costs.old) by_search result (λ found. Finds (M.graph map.now) found × Leaves (M.graph map.now) (Some found.limit) (Q.model queue.old) (Q.model queue.new) costs.old costs.new) (λ f. Refused f ((queue.new ≡ queue.old) × (costs.new ≡ costs.old)) (Leaves (M.graph map.now) None (Q.model queue.old) (Q.model queue.new) costs.old costs.new)) }
{
    let size = map.size();
    let room = queue.size();
    if room < size || costs.len() < size {
        return Err(SearchFault::Short);
    }
    begin(map, queue, costs);
    let opened = run(map, queue, costs);
    let limit = costs[map.finish()];
    if limit == UNKNOWN {
        return Err(SearchFault::NoFit);
    }
    Ok(Found {
        limit,
        opened,
        waiting: queue.held(),
    })
}
