// A transfer: the file words that carry a list of codewords.
#![tactic(auto)]

mod format;
mod state;

pub use state::{ClosedTransfer, OpenTransfer};
