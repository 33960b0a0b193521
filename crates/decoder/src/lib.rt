// The decoder: the best list of words for what was received.
#![tactic(auto)]

ghost use Rattle.std.specs.Prelude.{◌≡◌, ◌≤◌, Some, None};
ghost use Rattle.refusal.specs.Checks.{Judged};
ghost use Rattle.codetable.specs.Tables.{words};
ghost use Rattle.search.specs.Searches.{by_search};
ghost use Rattle.softvalues.specs.Received.{values};
ghost use Rattle.decoder.specs.Metrics.{most_list};
ghost use Rattle.decoder.specs.Estimates.{EstimatesAreLeast};
ghost use Rattle.decoder.specs.Trellis.{PathsAreLists};
ghost use Rattle.decoder.specs.Decoding.{Decodes, Remains, Spares, decode_checks};

use codetable::CodeTable;
use list::MOST_LIST;
use queue::Queue;
use reception::Reception;
use refusal::SearchFault;
use search::{Found, search};
use softvalues::SoftValues;
use trace::Trace;
use trellis::{Trellis, place_of};

mod ahead;
pub mod list;
mod reception;
mod trace;
mod trellis;

pub use list::WordList;

// What the decoder finds: the best list, its metric, how many of its bits count as changed, and how many places of the
// trellis were opened and wait in the queue.
#[derive(Clone, Copy)]
pub struct Decoded {
    pub metric: u32,
    pub changed: u32,
    pub opened: usize,
    pub waiting: usize,
    pub list: WordList,
}

// Finds the best list of `count` words for what was received. The estimates are written to `ahead`, and the trellis is
// searched with the queue, whatever that held before, and the costs; the list is read back from the costs.
// The count is refused unless it is 1 to 32. It is short if the queue's size or the number of costs is below that of the
// trellis' places, or if `ahead` has no room for one estimate more than there are values. Both change nothing. If no list
// fits, the queue, the costs and the estimates are left as the search leaves them.
#[tactic(auto, using(crate::proofs::Deciding::lists_of, crate::proofs::Deciding::estimates_of))]
pub fn decode<Q: Queue>(
    table: &CodeTable,
    received: &SoftValues,
    count: usize,
    queue: &mut Q,
    costs: &mut [u32],
    ahead: &mut [u32],
) -> Result<Decoded, SearchFault>
    ensures answer { Judged (decode_checks (words table.now) (values received.now) count (Q.model queue.old) costs.old ahead.old) by_search result (λ d. Decodes (words table.now) (values received.now) count d × Remains (words table.now) (values received.now) count (Some d.metric) (Q.model queue.old) (Q.model queue.new) costs.old costs.new ahead.old ahead.new) (λ f. Spares f ((queue.new ≡ queue.old) × (costs.new ≡ costs.old) × (ahead.new ≡ ahead.old)) (Remains (words table.now) (values received.now) count None (Q.model queue.old) (Q.model queue.new) costs.old costs.new ahead.old ahead.new)) }
    ensures lists { count ≤ most_list → PathsAreLists (words table.now) (values received.now) count }
    ensures estimates { EstimatesAreLeast (words table.now) (values received.now) }
{
    if count < 1 || count > MOST_LIST {
        return Err(SearchFault::BadCount);
    }
    let size = place_of(count, received.len()) + 1;
    if queue.size() < size || costs.len() < size || ahead.len() < received.len() + 1 {
        return Err(SearchFault::Short);
    }
    let reception = Reception { table, received };
    reception.fill_ahead(ahead);
    let trellis = Trellis {
        reception,
        count,
        ahead,
    };
    let Found {
        limit,
        opened,
        waiting,
    } = search(&trellis, queue, costs)?;
    let trace = Trace {
        reception,
        costs,
        count,
    };
    let (list, changed) = trace.read_back();
    Ok(Decoded {
        metric: limit,
        changed,
        opened,
        waiting,
        list,
    })
}
