// A trial of changes. While it lasts it has the pattern to itself. It ends by keeping every change; if it ends in any
// other way, the whole pattern that it found is put back.
ghost use Rattle.std.specs.Prelude.{◌≡◌, length, slice_set};
ghost use Rattle.std.specs.List.{slice_get};
ghost use Rattle.refusal.specs.Checks.{Judged};
ghost use Rattle.refusal.specs.declared.Refusal.TheVariants.{Memory};
ghost use Rattle.decoder.specs.Lists.{set_checks};
ghost use Rattle.memory.specs.Patterns.{pattern, put_aside};

use crate::playing::Patterns;
use refusal::MemoryFault;

pub struct Trial<'a> {
    lent: &'a mut Patterns,
}

impl Patterns {
    // Begins a trial.
    pub fn try_out(&mut self) -> Trial<'_>
        ensures lends { result.lent.ghost_name ≡ self.entry.ghost_name }
        ensures same { pattern result.lent.now ≡ pattern self.old }
        ensures saves { put_aside result.lent.now ≡ pattern self.old }
    {
        self.saved = self.current;
        Trial { lent: self }
    }
}

impl Trial<'_> {
    // Changes the number of a step.
    pub fn set(&mut self, place: usize, number: u8) -> Result<(), MemoryFault>
        ensures lends { self.new.lent.ghost_name ≡ self.old.lent.ghost_name }
        ensures answer { Judged (set_checks (pattern self.old.lent.now) place number) Memory result (λ _. pattern self.new.lent.now ≡ slice_set (pattern self.old.lent.now) place number) (λ _. self.new.lent.now ≡ self.old.lent.now) }
        ensures saves { put_aside self.new.lent.now ≡ put_aside self.old.lent.now }
    {
        self.lent.set(place, number)
    }

    // How many steps there are, with the changes so far.
    pub fn len(&self) -> usize
        ensures count { result ≡ length (pattern self.now.lent.now) }
    {
        self.lent.len()
    }

    // The number of step i, with the changes so far, or none from the length on.
    pub fn step(&self, i: usize) -> Option<u8>
        ensures found { result ≡ slice_get (pattern self.now.lent.now) i }
    {
        self.lent.step(i)
    }

    // Ends the trial and keeps every change.
    pub fn keep(self)
        ensures kept { pattern self.exit.0.now ≡ pattern self.entry.lent.now }
    {
        let Trial { lent: _ } = self;
    }
}

impl Drop for Trial<'_> {
    // Puts the pattern back.
    fn drop(self)
        ensures back { pattern self.exit.0.now ≡ put_aside self.entry.lent.now }
    {
        let Trial { lent } = self;
        lent.current = lent.saved;
    }
}
