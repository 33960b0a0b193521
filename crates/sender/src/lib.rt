// Follows a text that enters codewords and sends some of them, and accounts for each line.
#![tactic(auto)]

ghost use Rattle.std.specs.Prelude.{◌≡◌, ◌&&◌, is_ok, Some};
ghost use Rattle.sender.specs.Reports.{line_text, accepted, all_accepted};

use codetable::CodeTable;
use refusal::{Refusal, TransferFault};
use script::LineFault;
use std::fmt;
use transfer::ClosedTransfer;

mod driver;
mod image;
mod session;

pub use driver::{count_lines, run};
pub use image::file_image;

// What came of a line: of a word, of a step, or why it cannot be read.
#[derive(Clone, Copy)]
pub enum Report {
    Word(Result<(), Refusal>),
    Step(Result<(), Refusal>),
    Unread(LineFault),
}

// A line of the account: a line's number in the text, from 1, and what came of it.
#[derive(Clone, Copy)]
pub struct Line {
    pub number: usize,
    pub report: Report,
}

// What a whole text did.
#[derive(Drop)]
pub struct Account {
    pub lines: Vec<Line>,
    pub table: CodeTable,
    pub closed: Result<ClosedTransfer, TransferFault>,
}

impl Report {
    // Whether the line did what it says.
    pub fn accepted(&self) -> bool
        ensures value { result ≡ accepted self.now }
    {
        match self {
            Report::Word(answer) | Report::Step(answer) => answer.is_ok(),
            Report::Unread(_) => false,
        }
    }
}

impl Account {
    // Whether every line did what it says, and the transfer is closed.
    pub fn accepted(&self) -> bool
        ensures value { result ≡ (all_accepted self.now.lines.items && is_ok self.now.closed) }
    {
        self.lines
            .as_slice()
            .iter()
            .all(|line| line.report.accepted())
            && self.closed.is_ok()
    }
}

// A line as it is printed: its number, what it is, and `ok`, or `no` and why.
impl fmt::Display for Line {
    ghost output = { λ l. Some (line_text l) };

    fn fmt<W: fmt::Write>(&self, f: &mut fmt::Formatter<W>) -> fmt::Result {
        let number = self.number;
        match self.report {
            Report::Word(Ok(())) => write!(f, "{number} word ok"),
            Report::Word(Err(refusal)) => write!(f, "{number} word no {refusal}"),
            Report::Step(Ok(())) => write!(f, "{number} step ok"),
            Report::Step(Err(refusal)) => write!(f, "{number} step no {refusal}"),
            Report::Unread(fault) => write!(f, "{number} line no {fault}"),
        }
    }
}
