// The calls on a list of words.
ghost use Rattle.std.specs.Prelude.{◌≡◌, [], length, slice_set, Some};
ghost use Rattle.std.specs.List.{slice_get};
ghost use Rattle.refusal.specs.Checks.{Judged};
ghost use Rattle.refusal.specs.declared.Refusal.TheVariants.{Memory};
ghost use Rattle.decoder.specs.Lists.{numbers, dotted, set_checks};

use super::WordList;
use codetable::MOST_WORDS;
use fixedvec::FixedVec;
use refusal::MemoryFault;
use std::fmt;

impl WordList {
    // A list without words.
    pub fn new() -> WordList
        ensures empty { numbers result ≡ [] }
    {
        WordList {
            inner: FixedVec::new(0),
        }
    }

    // How many words there are.
    pub fn len(&self) -> usize
        ensures count { result ≡ length (numbers self.now) }
    {
        self.inner.len()
    }

    // The numbers of the words, in order.
    pub fn as_slice(&self) -> &[u8]
        ensures numbers { result.now ≡ numbers self.now }
    {
        self.inner.as_slice()
    }

    // The number of word i of the list, or none from the length on.
    pub fn get(&self, i: usize) -> Option<u8>
        ensures found { result ≡ slice_get (numbers self.now) i }
    {
        self.inner.get(i)
    }

    // Changes the number of word i. It is refused from the length on, and for a number that no table has.
    pub fn set(&mut self, i: usize, number: u8) -> Result<(), MemoryFault>
        ensures answer { Judged (set_checks (numbers self.old) i number) Memory result (λ _. numbers self.new ≡ slice_set (numbers self.old) i number) (λ _. self.new ≡ self.old) }
    {
        if i >= self.len() || usize::from(number) >= MOST_WORDS {
            return Err(MemoryFault::BadCount);
        }
        self.inner.replace(i, number);
        Ok(())
    }
}

// The numbers in decimal, with dots between them, as in `4.0.17`: nothing for a list without words.
impl fmt::Display for WordList {
    ghost output = { λ l. Some (dotted (numbers l)) };

    fn fmt<W: fmt::Write>(&self, f: &mut fmt::Formatter<W>) -> fmt::Result {
        if let [first, rest @ ..] = self.as_slice() {
            write!(f, "{first}")?;
            for number in rest {
                write!(f, ".{number}")?;
            }
        }
        Ok(())
    }
}
