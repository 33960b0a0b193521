// The free distance of a table: how far apart, in bits, its word sequences are.
#![tactic(auto)]

ghost use Rattle.std.specs.Prelude.{◌≡◌, Some};
ghost use Rattle.refusal.specs.Checks.{Judged};
ghost use Rattle.codetable.specs.Tables.{words};
ghost use Rattle.search.specs.Searches.{Leaves};
ghost use Rattle.distance.specs.Distances.{FreeDistance};
ghost use Rattle.distance.specs.Tails.{tails};
ghost use Rattle.distance.specs.Calls.{PathsArePairs, Refusals, distance_checks};

use codetable::CodeTable;
use queue::Queue;
use refusal::{Refusal, TableFault};
use search::search;
use tails::Tails;

mod tails;

// The free distance of a table: the least Hamming distance of two different word sequences of equal bit length.
// There is no pair if the table has fewer than two words. It is short if the queue's size or the number of costs is below
// 768. Both leave queue and costs as they were. Otherwise these are left as a search of the tails map leaves them, whatever the
// queue held before.
pub fn free_distance<Q: Queue>(
    table: &CodeTable,
    queue: &mut Q,
    costs: &mut [u32],
) -> Result<u32, Refusal>
    ensures answer { Judged (distance_checks (words table.now) (Q.model queue.old) costs.old) (λ f. f) result (λ d. FreeDistance (words table.now) d × Leaves (tails (words table.now)) (Some d) (Q.model queue.old) (Q.model queue.new) costs.old costs.new) (λ f. Refusals f × (queue.new ≡ queue.old) × (costs.new ≡ costs.old)) }
    ensures paths { PathsArePairs (words table.now) }
{
    if table.len() < 2 {
        return Err(Refusal::Table(TableFault::NoPair));
    }
    let found = search(&Tails { table: *table }, queue, costs)?;
    Ok(found.limit)
}
