// The run over a text, line by line.
ghost use Rattle.std.specs.Prelude.{◌≡◌, ℕ, ◌+◌, ◌<◌, ◌≤◌, List, ◌++◌, length, vec_len, vec_capacity, MatchResult};
ghost use Rattle.codetable.specs.declared.word.Codeword.{Codeword};
ghost use Rattle.transfer.specs.Calls.{Carries};
ghost use Rattle.script.specs.Script.{lines as lines_of};
ghost use Rattle.sender.specs.Effects.{Progress, listed, start, Runs};
ghost use Rattle.sender.specs.Accounts.{Accounts, Holds, Closes};

use crate::session::Session;
use crate::{Account, Line, Report};
use refusal::TransferFault;
use script::Lines;
use transfer::{ClosedTransfer, OpenTransfer};

// Adds a line to the account where there is something to report.
fn note(lines: &mut Vec<Line>, number: usize, report: Option<Report>)
    requires room { vec_len lines.old < vec_capacity lines.old }
    ensures items { lines.new.items ≡ lines.old.items ++ listed number report }
    ensures len { vec_len lines.new ≤ vec_len lines.old + 1 }
    ensures capacity { vec_capacity lines.new ≡ vec_capacity lines.old }
{
    if let Some(report) = report {
        lines.push_reserved(Line { number, report });
    }
}

// How many lines a text has.
pub fn count_lines(text: &[u8]) -> usize
    ensures count { result ≡ length (lines_of text.now) }
{
    Lines::new(text).count()
}

// Follows each line of a text, from a session without words and steps.
fn follow_all(text: &[u8], buffer: &mut [u8], account: &mut Vec<Line>) -> Session
    requires empty { vec_len account.old ≡ 0 }
    requires room { length (lines_of text.now) ≤ vec_capacity account.old }
    ensures runs { (t : Progress) × Runs (length buffer.old) 1 start (lines_of text.now) account.new.items t × Holds t result buffer.old buffer.new }
{
    let mut session = Session::new();
    for (i, line) in Lines::new(text).enumerate() {
        let (next, report) = session.follow(line, buffer);
        session = next;
        note(account, i + 1, report);
    }
    session
}

// Closes the transfer.
fn finish(transfer: OpenTransfer, buffer: &mut [u8]) -> Result<ClosedTransfer, TransferFault>
    ensures closed { (before : List ℕ) (sent : List Codeword) → Carries transfer before buffer.old sent → Closes before sent result buffer.new }
{
    transfer.close(buffer).map_err(|(_, fault)| fault)
}

// Follows a text: its words go into a new table, its steps into a transfer that is closed at the end.
// The transfer is written to the buffer, and the account to `lines`, whatever that held. If `lines` has no room for as
// many lines as the text has, it is handed back, and nothing is done.
pub fn run(text: &[u8], buffer: &mut [u8], mut lines: Vec<Line>) -> Result<Account, Vec<Line>>
    ensures accounts { MatchResult result (λ a. (length (lines_of text.now) ≤ vec_capacity lines) × Accounts text.now buffer.old a buffer.new) (λ back. (vec_capacity lines < length (lines_of text.now)) × (back ≡ lines) × (buffer.new ≡ buffer.old)) }
{
    if lines.capacity() < count_lines(text) {
        return Err(lines);
    }
    lines.clear();
    let Session { table, transfer } = follow_all(text, buffer, &mut lines);
    let closed = finish(transfer, buffer);
    Ok(Account {
        lines,
        table,
        closed,
    })
}
