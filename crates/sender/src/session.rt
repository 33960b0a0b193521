// A session: the table that a text has entered so far, and the transfer that it has sent.
ghost use Rattle.std.specs.Prelude.{◌≡◌, ℕ, ◌++◌, [], ◌∷◌, List, Some, Ok};
ghost use Rattle.refusal.specs.Checks.{Judged};
ghost use Rattle.refusal.specs.Refusals.{layer};
ghost use Rattle.refusal.specs.declared.Layer.TheVariants.{Table};
ghost use Rattle.codetable.specs.Tables.{words, word_checks};
ghost use Rattle.script.specs.Script.{fields, reading};
ghost use Rattle.script.specs.declared.Entry.TheVariants.{Step};
ghost use Rattle.sender.specs.Effects.{start, weighed};
ghost use Rattle.sender.specs.Accounts.{Holds, Leads};

use crate::Report;
use codetable::CodeTable;
use refusal::Refusal;
use script::{Entry, parse_line};
use transfer::OpenTransfer;

#[derive(Drop)]
pub(crate) struct Session {
    pub(crate) table: CodeTable,
    pub(crate) transfer: OpenTransfer,
}

// Enters a word with its weight.
fn enter(table: &mut CodeTable, len: usize, value: u32, weight: Option<u16>) -> Result<(), Refusal>
    ensures answer { Judged (word_checks (words table.old) len value) (λ f. f) result (λ _. words table.new ≡ words table.old ++ weighed len value weight ∷ []) (λ f. (layer f ≡ Table) × (words table.new ≡ words table.old)) }
{
    let k = table.len();
    table.push(len, value)?;
    if let Some(weight) = weight {
        table.set_weight(k, weight)?;
    }
    Ok(())
}

impl Session {
    // A session without words and steps.
    pub(crate) fn new() -> Session
        ensures starts { (before : List ℕ) → Holds start result before before }
    {
        Session {
            table: CodeTable::new(),
            transfer: OpenTransfer::new(),
        }
    }

    // Sends word k of the table.
    fn send(self, k: usize, buffer: &mut [u8]) -> (Session, Result<(), Refusal>)
        ensures does { Leads (Ok (Some (Step k))) (Some (Report.Step result.1)) self buffer.old result.0 buffer.new }
    {
        let Session { table, transfer } = self;
        match transfer.step(&table, k, buffer) {
            Ok(transfer) => (Session { table, transfer }, Ok(())),
            Err((transfer, fault)) => (Session { table, transfer }, Err(fault.into())),
        }
    }

    // Does what an entry says.
    fn follow_entry(mut self, entry: Entry, buffer: &mut [u8]) -> (Session, Report)
        ensures does { Leads (Ok (Some entry)) (Some result.1) self buffer.old result.0 buffer.new }
    {
        match entry {
            Entry::Word { len, value, weight } => {
                let answer = enter(&mut self.table, len, value, weight);
                (self, Report::Word(answer))
            }
            Entry::Step { word } => {
                let (session, answer) = self.send(word as usize, buffer);
                (session, Report::Step(answer))
            }
        }
    }

    // Does what a line says, if it says something.
    pub(crate) fn follow(self, line: &[u8], buffer: &mut [u8]) -> (Session, Option<Report>)
        ensures does { Leads (reading (fields line.now)) result.1 self buffer.old result.0 buffer.new }
    {
        match parse_line(line) {
            Ok(Some(entry)) => {
                let (session, report) = self.follow_entry(entry, buffer);
                (session, Some(report))
            }
            Ok(None) => (self, None),
            Err(fault) => (self, Some(Report::Unread(fault))),
        }
    }
}
