// What a decoder is given, and a word laid on what was received.
ghost use Rattle.std.specs.Prelude.{◌≡◌, ℕ, ◌^◌, ◌<◌, ◌≤◌, drop, ℤ};
ghost use Rattle.codetable.specs.Codewords.{bits};
ghost use Rattle.softvalues.specs.Received.{values};
ghost use Rattle.softvalues.specs.Stored.{most_values};
ghost use Rattle.decoder.specs.Metrics.{changes, if_contradicted, over, Computes};
ghost use Rattle.decoder.specs.Estimates.{share};
ghost use Rattle.decoder.specs.Receptions.{observed};
ghost use Rattle.decoder.specs.Trellis.{fits_behind};

use codetable::{CodeTable, Codeword};
use softvalues::{SoftValue, SoftValues};

// What was received, and the table whose words were sent.
#[derive(Clone, Copy)]
pub(crate) struct Reception<'a> {
    pub(crate) table: &'a CodeTable,
    pub(crate) received: &'a SoftValues,
}

// That `at` is a place of a take is required by each function here: a struct would hold a number that is another at each call.
// The sum of what `cost` gives for each value that contradicts a bit of a word, laid on the values from `at` on.
fn sum_contradicted<F: Fn(SoftValue) -> u8>(
    word: Codeword,
    received: &SoftValues,
    at: usize,
    cost: F,
) -> u32
    requires near { at ≤ most_values }
    requires callable { F.IsAlwaysCallable cost }
    ensures small { result < 2 ^ 16 }
    ensures sum { (g : ℤ → ℕ) → Computes (F.post cost) g → result ≡ over (if_contradicted g) (bits word) (drop at (values received.now)) }
{
    let mut sum = 0;
    // By rule the metric is summed by a loop over the word's bits.
    for i in 0..usize::from(word.len) {
        if let Some(soft) = received.get(at + i) {
            if word.bit(i) != soft.hard_bit() {
                sum += u32::from(cost(soft));
            }
        }
    }
    sum
}

impl Reception<'_> {
    // Whether a word, laid on the values from `at` on, ends with the last of them or before.
    pub(crate) fn fits(&self, word: Codeword, at: usize) -> bool
        requires near { at ≤ most_values }
        ensures tells { result ≡ fits_behind (observed self.now) at word }
    {
        at + usize::from(word.len) <= self.received.len()
    }

    // What a word adds to the metric, laid on the values from `at` on: the magnitudes that it contradicts, and its
    // weight.
    pub(crate) fn share(&self, word: Codeword, at: usize) -> u32
        requires near { at ≤ most_values }
        ensures small { result < 2 ^ 17 }
        ensures share { result ≡ share word (drop at (observed self.now)) }
    {
        sum_contradicted(word, self.received, at, |soft| soft.magnitude()) + u32::from(word.weight)
    }

    // How many bits of a word count as changed, laid on the values from `at` on.
    pub(crate) fn changed_bits(&self, word: Codeword, at: usize) -> u32
        requires near { at ≤ most_values }
        ensures changed { result ≡ over changes (bits word) (drop at (observed self.now)) }
    {
        sum_contradicted(word, self.received, at, |_| 1)
    }
}
