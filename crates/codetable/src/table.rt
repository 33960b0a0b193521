// The type of a table: a value of it is a table whose words are formed and do not clash.
ghost use Rattle.fixedvec.specs.Items.{items};
ghost use Rattle.codetable.specs.Codewords.{AllFormed, AllWeighed, Clash};

use crate::word::Codeword;
use fixedvec::FixedVec;

mod calls;

// The most words of a table.
pub const MOST_WORDS: usize = 32;

// Words are numbered from 0 as they are entered.
#[derive(Clone, Copy)]
pub struct CodeTable {
    inner: FixedVec<Codeword, MOST_WORDS>,
    ghost formed: { AllFormed (items inner) },
    ghost prefixfree: { Clash (items inner) → ⊥ },
    ghost weighed: { AllWeighed (items inner) },
}
