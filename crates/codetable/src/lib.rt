// Variable-length codewords, and tables of them in which no word is the start of another.
#![tactic(auto)]

pub mod table;
pub mod word;

pub use table::{CodeTable, MOST_WORDS};
pub use word::{Codeword, MOST_BITS};
