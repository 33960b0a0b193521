// The loader: a table, a take and a pattern memory, changed by commands.
#![tactic(auto)]

ghost use Rattle.std.specs.Prelude.{◌≡◌, Some};
ghost use Rattle.loader.specs.Sheets.{Measures, Works, blank, word, weigh, drop, bit, wipe, load, undo};
ghost use Rattle.loader.specs.Held.{sheet};
ghost use Rattle.loader.specs.Loaded.{loaded_text};

use codetable::CodeTable;
use decoder::{WordList, decode};
use distance::free_distance;
use memory::Patterns;
use queue::Queue;
use refusal::{MemoryFault, Refusal};
use softvalues::SoftValues;
use std::fmt;

pub mod commands;

// A loader, with its pattern and the one before the last accepted load. The pattern is played, and changes to it are
// tried out, through `patterns`.
#[derive(Clone, Copy)]
pub struct Loader {
    table: CodeTable,
    received: SoftValues,
    pub patterns: Patterns,
    earlier: Option<WordList>,
}

// What an accepted load answers: the metric of the stored list, how many of its bits count as changed, and how many
// places of the trellis were opened and wait in the queue.
#[derive(Clone, Copy, PartialEq, Eq, Debug)]
pub struct Loaded {
    pub metric: u32,
    pub changed: u32,
    pub opened: usize,
    pub waiting: usize,
}

// The four numbers, in order, with spaces between them.
impl fmt::Display for Loaded {
    ghost output = { λ d. Some (loaded_text d) };

    fn fmt<W: fmt::Write>(&self, f: &mut fmt::Formatter<W>) -> fmt::Result {
        let Loaded {
            metric,
            changed,
            opened,
            waiting,
        } = self;
        write!(f, "{metric} {changed} {opened} {waiting}")
    }
}

impl Loader {
    // A loader without words and soft values, with a pattern of length 0 and nothing to undo.
    pub fn new() -> Loader
        ensures blank { sheet result ≡ blank }
    {
        Loader {
            table: CodeTable::new(),
            received: SoftValues::new(),
            patterns: Patterns::new(),
            earlier: None,
        }
    }

    // WORD: adds a word of `len` bits with weight 0. By rule a fault passes up by `?`, here and below.
    pub fn enter_word(&mut self, len: usize, value: u32) -> Result<(), Refusal>
        ensures works { Works (sheet self.old) (word len value result) (sheet self.new) }
    {
        self.table.push(len, value)?;
        Ok(())
    }

    // WEIGH: sets the weight of a word.
    pub fn set_weight(&mut self, number: usize, weight: u16) -> Result<(), Refusal>
        ensures works { Works (sheet self.old) (weigh number weight result) (sheet self.new) }
    {
        self.table.set_weight(number, weight)?;
        Ok(())
    }

    // DROP: removes the last word. The stored steps keep their numbers.
    pub fn drop_word(&mut self) -> Result<(), Refusal>
        ensures works { Works (sheet self.old) (drop result) (sheet self.new) }
    {
        self.table.pop()?;
        Ok(())
    }

    // BIT: adds a soft value.
    pub fn add_value(&mut self, value: i8) -> Result<(), Refusal>
        ensures works { Works (sheet self.old) (bit value result) (sheet self.new) }
    {
        self.received.push(value)?;
        Ok(())
    }

    // WIPE: empties the take.
    pub fn wipe(&mut self)
        ensures works { Works (sheet self.old) wipe (sheet self.new) }
    {
        self.received.clear();
    }

    // LOAD: stores the best list of `count` words for the take as the pattern.
    pub fn load<Q: Queue>(
        &mut self,
        count: usize,
        queue: &mut Q,
        costs: &mut [u32],
        ahead: &mut [u32],
    ) -> Result<Loaded, Refusal>
        ensures works { Works (sheet self.old) (load count (Q.model queue.old) (Q.model queue.new) costs.old costs.new ahead.old ahead.new result) (sheet self.new) }
    {
        let decoded = decode(&self.table, &self.received, count, queue, costs, ahead)?;
        self.earlier = Some(self.patterns.current());
        self.patterns.store(decoded.list);
        Ok(Loaded {
            metric: decoded.metric,
            changed: decoded.changed,
            opened: decoded.opened,
            waiting: decoded.waiting,
        })
    }

    // UNDO: puts back the pattern that stood before the last accepted load.
    pub fn undo(&mut self) -> Result<(), Refusal>
        ensures works { Works (sheet self.old) (undo result) (sheet self.new) }
    {
        let earlier = self.earlier.take().ok_or(MemoryFault::Nothing)?;
        self.patterns.store(earlier);
        Ok(())
    }

    // The free distance of the table.
    pub fn free_distance<Q: Queue>(&self, queue: &mut Q, costs: &mut [u32]) -> Result<u32, Refusal>
        ensures answer { Measures (sheet self.now) (Q.model queue.old) (Q.model queue.new) costs.old costs.new result }
    {
        free_distance(&self.table, queue, costs)
    }
}
