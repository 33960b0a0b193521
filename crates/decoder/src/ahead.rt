// The estimates: the least metric of any number of words that fill the rest of what was received.
ghost use Rattle.std.specs.Prelude.{◌≡◌, ℕ, suc, ◌+◌, ◌<◌, ◌≤◌, length, drop};
ghost use Rattle.decoder.specs.Estimates.{Ahead, HoldsFrom, estimate, extended, read, share, written};
ghost use Rattle.decoder.specs.Receptions.{code, observed};

use crate::reception::Reception;
use codetable::Codeword;

// What stands for no estimate: the memory is lent as plain numbers, and this is a rule of its format.
const NONE: u32 = 4294967295;

// An estimate as it stands in memory.
fn write(estimate: Option<u32>) -> u32
    ensures written { result ≡ written estimate }
{
    estimate.unwrap_or(NONE)
}

// The estimate that a number in memory stands for.
pub(crate) fn read(stored: u32) -> Option<u32>
    ensures read { result ≡ read stored }
{
    (stored != NONE).then_some(stored)
}

impl Reception<'_> {
    // The estimate at bit j if this word comes first there, from those behind it.
    // No struct holds the memory with its room, since `fill_ahead` writes between two readings.
    fn estimate_by(&self, word: Codeword, ahead: &[u32], j: usize) -> Option<u32>
        requires some { 1 ≤ word.len }
        requires before { j < length (observed self.now) }
        requires room { length (observed self.now) < length ahead.now }
        requires behind { HoldsFrom (code self.now) (observed self.now) (suc j) ahead.now }
        ensures sum { result ≡ extended (share word (drop j (observed self.now))) (estimate (code self.now) (observed self.now) (j + word.len)) }
    {
        let next = j + usize::from(word.len);
        if next > self.received.len() {
            return None;
        }
        let estimate = read(ahead[next])?;
        Some(self.share(word, j) + estimate)
    }

    // The estimate at bit j, from those behind it.
    fn estimate_at(&self, ahead: &[u32], j: usize) -> Option<u32>
        requires before { j < length (observed self.now) }
        requires room { length (observed self.now) < length ahead.now }
        requires behind { HoldsFrom (code self.now) (observed self.now) (suc j) ahead.now }
        ensures estimate { result ≡ estimate (code self.now) (observed self.now) j }
    {
        self.table
            .as_slice()
            .iter()
            .filter_map(|&word| self.estimate_by(word, ahead, j))
            .min()
    }

    // Writes the estimate of each bit, from the last to the first.
    pub(crate) fn fill_ahead(&self, ahead: &mut [u32])
        requires room { length (observed self.now) < length ahead.old }
        ensures ahead { Ahead (code self.now) (observed self.now) ahead.old ahead.new }
    {
        let len = self.received.len();
        ahead[len] = 0;
        // An index, since each estimate is from those behind it in the same memory.
        for j in (0..len).rev() {
            ahead[j] = write(self.estimate_at(ahead, j));
        }
    }
}
