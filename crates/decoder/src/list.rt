// The type of a list of words, by their numbers: a value of it has at most 32.
use fixedvec::FixedVec;

mod calls;

// The most words of a list.
pub const MOST_LIST: usize = 32;

// The numbers of the words, in order.
#[derive(Clone, Copy)]
pub struct WordList {
    pub(crate) inner: FixedVec<u8, MOST_LIST>,
}
