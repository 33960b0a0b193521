// Follows the words of a file, one by one, with a loader.
#![tactic(auto)]

ghost use Rattle.std.specs.Prelude.{◌≡◌};
ghost use Rattle.loader.specs.Held.{sheet};
ghost use Rattle.loader.specs.Sheets.{Measures};
ghost use Rattle.reader.specs.Files.{Follows, Obeys, OfDistance, as_outcome, lent};

use decoder::WordList;
use loader::{Loaded, Loader};
use queue::Queue;
use refusal::Refusal;
use wordfile::Entry;

mod line;

pub use line::{Line, Report};

// What an accepted word answers: nothing more, the numbers of a load with the steps that it stores, or a free distance.
#[derive(Clone, Copy)]
pub enum Outcome {
    Done,
    Loaded(Loaded, WordList),
    Distance(u32),
}

// A refusal with the place of the word in its file.
#[derive(Clone, Copy)]
pub struct PlacedRefusal {
    pub place: usize,
    pub refusal: Refusal,
}

// The answer of a command that answers nothing more.
fn plain(answer: Result<(), Refusal>) -> Result<Outcome, Refusal>
    ensures outcome { result ≡ as_outcome answer }
{
    answer.map(|()| Outcome::Done)
}

// LOAD, with the steps that it stores.
// By rule queue, costs and estimates are lent one by one; of a struct each call would also have to ensure the same three loans.
fn load_words<Q: Queue>(
    loader: &mut Loader,
    count: u8,
    queue: &mut Q,
    costs: &mut [u32],
    ahead: &mut [u32],
) -> Result<Outcome, Refusal>
    ensures obeys { Obeys (Entry.Load count) (sheet loader.old) (lent (Q.model queue.old) (Q.model queue.new) costs.old costs.new ahead.old ahead.new) result (sheet loader.new) }
{
    let loaded = loader.load(usize::from(count), queue, costs, ahead)?;
    Ok(Outcome::Loaded(loaded, loader.patterns.current()))
}

// END, with the free distance of the table.
fn measure<Q: Queue>(loader: &Loader, queue: &mut Q, costs: &mut [u32]) -> Result<Outcome, Refusal>
    ensures measures { OfDistance result (λ x. Measures (sheet loader.now) (Q.model queue.old) (Q.model queue.new) costs.old costs.new x) }
{
    loader.free_distance(queue, costs).map(Outcome::Distance)
}

// Does what an entry says.
fn obey<Q: Queue>(
    loader: &mut Loader,
    entry: Entry,
    queue: &mut Q,
    costs: &mut [u32],
    ahead: &mut [u32],
) -> Result<Outcome, Refusal>
    ensures obeys { Obeys entry (sheet loader.old) (lent (Q.model queue.old) (Q.model queue.new) costs.old costs.new ahead.old ahead.new) result (sheet loader.new) }
{
    match entry {
        Entry::End => measure(loader, queue, costs),
        Entry::Word { len, value } => plain(loader.enter_word(usize::from(len), value)),
        Entry::Weigh { number, weight } => plain(loader.set_weight(usize::from(number), weight)),
        Entry::Drop => plain(loader.drop_word()),
        Entry::Bit(value) => plain(loader.add_value(value)),
        Entry::Wipe => {
            loader.wipe();
            Ok(Outcome::Done)
        }
        Entry::Load(count) => load_words(loader, count, queue, costs, ahead),
        Entry::Undo => plain(loader.undo()),
    }
}

// Follows one word of a file, at a place counted in words from 0. One of bad form is refused before all else, and
// changes nothing.
pub fn follow_word<Q: Queue>(
    loader: &mut Loader,
    place: usize,
    word: u32,
    queue: &mut Q,
    costs: &mut [u32],
    ahead: &mut [u32],
) -> Result<Outcome, PlacedRefusal>
    ensures follows { Follows place word (sheet loader.old) (lent (Q.model queue.old) (Q.model queue.new) costs.old costs.new ahead.old ahead.new) result (sheet loader.new) }
{
    let entry = Entry::try_from(word).map_err(|fault| PlacedRefusal {
        place,
        refusal: Refusal::from(fault),
    })?;
    obey(loader, entry, queue, costs, ahead).map_err(|refusal| PlacedRefusal { place, refusal })
}
