// The lines of the account of a file, as they are printed.
ghost use Rattle.std.specs.Prelude.{◌≡◌, Some};
ghost use Rattle.reader.specs.Lines.{outcome_text, line_text, word_line};

use crate::{Outcome, PlacedRefusal};
use refusal::{FileFault, Refusal};
use std::fmt;
use wordfile::Kind;

// What came of a place of a file: of the word there, which has a kind, or that the file stops there before its END.
#[derive(Clone, Copy)]
pub enum Report {
    Word(Kind, Result<Outcome, Refusal>),
    CutOff,
}

// A line of the account: a place, counted in words from 0, and what came of it.
#[derive(Clone, Copy)]
pub struct Line {
    pub place: usize,
    pub report: Report,
}

impl Line {
    // The line of a word, from its place, its kind and its answer. A refusal has its own place.
    pub fn of_word(place: usize, kind: Kind, answer: Result<Outcome, PlacedRefusal>) -> Line
        ensures line { result ≡ word_line place kind answer }
    {
        match answer {
            Ok(outcome) => Line {
                place,
                report: Report::Word(kind, Ok(outcome)),
            },
            Err(refused) => Line {
                place: refused.place,
                report: Report::Word(kind, Err(refused.refusal)),
            },
        }
    }
}

// `ok`, and the numbers of a load with the steps that it stores, or the free distance.
impl fmt::Display for Outcome {
    ghost output = { λ o. Some (outcome_text o) };

    fn fmt<W: fmt::Write>(&self, f: &mut fmt::Formatter<W>) -> fmt::Result {
        match self {
            Outcome::Done => f.write_str("ok"),
            Outcome::Loaded(loaded, list) => write!(f, "ok {loaded} {list}"),
            Outcome::Distance(distance) => write!(f, "ok {distance}"),
        }
    }
}

// The place, the kind of the word or `FILE`, and the outcome, or `no` and the refusal.
impl fmt::Display for Line {
    ghost output = { λ l. Some (line_text l) };

    fn fmt<W: fmt::Write>(&self, f: &mut fmt::Formatter<W>) -> fmt::Result {
        let place = self.place;
        match self.report {
            Report::Word(kind, Ok(outcome)) => write!(f, "{place} {kind} {outcome}"),
            Report::Word(kind, Err(refusal)) => write!(f, "{place} {kind} no {refusal}"),
            Report::CutOff => {
                let refusal = Refusal::from(FileFault::CutOff);
                write!(f, "{place} FILE no {refusal}")
            }
        }
    }
}
