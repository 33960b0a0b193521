// The calls on a table.
ghost use Rattle.std.specs.Prelude.{◌≡◌, ◌-◌, [], ◌∷◌, ◌++◌, length, take, MatchBool};
ghost use Rattle.std.specs.List.{slice_get};
ghost use Rattle.refusal.specs.Checks.{Judged};
ghost use Rattle.refusal.specs.declared.Refusal.TheVariants.{Table};
ghost use Rattle.codetable.specs.Codewords.{reweighed, Formed, Clashes};
ghost use Rattle.codetable.specs.Tables.{words, entered, word_checks, weigh_checks, drop_checks};

use super::{CodeTable, MOST_WORDS};
use crate::word::{Codeword, MOST_BITS, conflicts, largest_value};
use fixedvec::FixedVec;
use refusal::TableFault;

impl CodeTable {
    // A table without words.
    pub fn new() -> CodeTable
        ensures empty { words result ≡ [] }
    {
        let blank = Codeword {
            len: 1,
            value: 0,
            weight: 0,
        };
        CodeTable {
            inner: FixedVec::new(blank),
        }
    }

    // Adds a word of `len` bits with weight 0 behind the others.
    pub fn push(&mut self, len: usize, value: u32) -> Result<(), TableFault>
        ensures answer { Judged (word_checks (words self.old) len value) Table result (λ _. words self.new ≡ words self.old ++ entered len value ∷ []) (λ _. self.new ≡ self.old) }
    {
        if len < 1 || len > MOST_BITS {
            return Err(TableFault::BadLength);
        }
        if value > largest_value(len) {
            return Err(TableFault::StrayBits);
        }
        if self.len() >= MOST_WORDS {
            return Err(TableFault::Full);
        }
        let word = Codeword {
            len: len as u8,
            value,
            weight: 0,
        };
        if self.clashes(word) {
            return Err(TableFault::Clash);
        }
        self.inner.push(word).map_err(|_| TableFault::Full)
    }

    // Sets the weight of word k.
    pub fn set_weight(&mut self, k: usize, weight: u16) -> Result<(), TableFault>
        ensures answer { Judged (weigh_checks (words self.old) k) Table result (λ _. words self.new ≡ reweighed (words self.old) k weight) (λ _. self.new ≡ self.old) }
    {
        let word = self.word(k).ok_or(TableFault::NoWord)?;
        self.inner.replace(k, Codeword { weight, ..word });
        Ok(())
    }

    // Removes the last word.
    pub fn pop(&mut self) -> Result<(), TableFault>
        ensures answer { Judged (drop_checks (words self.old)) Table result (λ _. words self.new ≡ take (length (words self.old) - 1) (words self.old)) (λ _. self.new ≡ self.old) }
    {
        let last = self.len().checked_sub(1).ok_or(TableFault::NoWord)?;
        self.inner.truncate(last);
        Ok(())
    }

    // How many words the table has.
    pub fn len(&self) -> usize
        ensures count { result ≡ length (words self.now) }
    {
        self.inner.len()
    }

    // Word k with its length, value and weight, or none.
    pub fn word(&self, k: usize) -> Option<Codeword>
        ensures found { result ≡ slice_get (words self.now) k }
    {
        self.inner.get(k)
    }

    // All words, by their numbers.
    pub fn as_slice(&self) -> &[Codeword]
        ensures words { result.now ≡ words self.now }
    {
        self.inner.as_slice()
    }

    // Whether a word conflicts with one of the table.
    fn clashes(&self, word: Codeword) -> bool
        requires word { Formed word }
        ensures tells { MatchBool result (Clashes (words self.now) word) (Clashes (words self.now) word → ⊥) }
    {
        self.as_slice().iter().any(|&other| conflicts(other, word))
    }
}

#[cfg(test)]
mod tests {
    use super::*;
    use std::process::Abort;

    // The answer to a word after another one.
    fn second(rt: &impl Abort, first: (usize, u32), then: (usize, u32)) -> Result<(), TableFault> {
        let mut table = CodeTable::new();
        assert_eq!(rt; table.push(first.0, first.1), Ok(()));
        table.push(then.0, then.1)
    }

    #[test]
    fn lengths_and_values(rt: HostRuntime) {
        let mut bound: u32 = 2;
        for len in 1..25 {
            let mut table = CodeTable::new();
            assert_eq!(rt; table.push(len, bound), Err(TableFault::StrayBits));
            assert_eq!(rt; table.push(len, bound - 1), Ok(()));
            bound = bound.saturating_mul(2);
        }
        let mut table = CodeTable::new();
        assert_eq!(rt; table.push(0, 0), Err(TableFault::BadLength));
        assert_eq!(rt; table.push(25, u32::MAX), Err(TableFault::BadLength));
        assert_eq!(rt; table.push(usize::MAX, 0), Err(TableFault::BadLength));
    }

    #[test]
    fn clashes(rt: HostRuntime) {
        assert_eq!(rt; second(&rt, (3, 0b010), (2, 0b01)), Err(TableFault::Clash));
        assert_eq!(rt; second(&rt, (2, 0b01), (3, 0b010)), Err(TableFault::Clash));
        assert_eq!(rt; second(&rt, (2, 0b01), (2, 0b01)), Err(TableFault::Clash));
        assert_eq!(rt; second(&rt, (2, 0b01), (3, 0b001)), Ok(()));
    }

    // 32 words of 5 bits leave no room and no start for another: that it is full comes first.
    #[test]
    fn room(rt: HostRuntime) {
        let mut table = CodeTable::new();
        assert_eq!(rt; table.pop(), Err(TableFault::NoWord));
        for value in 0..32 {
            assert_eq!(rt; table.push(5, value), Ok(()));
        }
        assert_eq!(rt; table.push(5, 0), Err(TableFault::Full));
        assert_eq!(rt; table.set_weight(32, 1), Err(TableFault::NoWord));
        assert_eq!(rt; table.set_weight(31, u16::MAX), Ok(()));
        assert_eq!(rt; table.pop(), Ok(()));
        assert_eq!(rt; table.len(), 31);
        assert_eq!(rt; table.push(6, 0), Err(TableFault::Clash));
        assert_eq!(rt; table.push(6, 63), Ok(()));
    }
}
