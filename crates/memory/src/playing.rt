// The pattern that the box plays.
ghost use Rattle.std.specs.Prelude.{◌≡◌, [], length, slice_set};
ghost use Rattle.std.specs.List.{slice_get};
ghost use Rattle.refusal.specs.Checks.{Judged};
ghost use Rattle.refusal.specs.declared.Refusal.TheVariants.{Memory};
ghost use Rattle.decoder.specs.Lists.{set_checks};
ghost use Rattle.memory.specs.Patterns.{pattern};

use decoder::WordList;
use refusal::MemoryFault;

// The pattern that is played, and the one that the last trial found.
#[derive(Clone, Copy)]
pub struct Patterns {
    pub(crate) current: WordList,
    pub(crate) saved: WordList,
}

impl Patterns {
    // A pattern without steps.
    pub fn new() -> Patterns
        ensures empty { pattern result ≡ [] }
    {
        let none = WordList::new();
        Patterns {
            current: none,
            saved: none,
        }
    }

    // The pattern that is played.
    pub fn current(&self) -> WordList
        ensures value { result ≡ self.now.current }
    {
        self.current
    }

    // Plays another pattern from now on.
    pub fn store(&mut self, list: WordList)
        ensures value { self.new.current ≡ list }
    {
        self.current = list;
    }

    // How many steps there are.
    pub fn len(&self) -> usize
        ensures count { result ≡ length (pattern self.now) }
    {
        self.current.len()
    }

    // The number of step i, or none from the length on.
    pub fn step(&self, i: usize) -> Option<u8>
        ensures found { result ≡ slice_get (pattern self.now) i }
    {
        self.current.get(i)
    }

    // Changes the number of a step.
    pub(crate) fn set(&mut self, place: usize, number: u8) -> Result<(), MemoryFault>
        ensures answer { Judged (set_checks (pattern self.old) place number) Memory result (λ _. pattern self.new ≡ slice_set (pattern self.old) place number) (λ _. self.new ≡ self.old) }
        ensures saved { self.new.saved ≡ self.old.saved }
    {
        self.current.set(place, number)
    }
}
