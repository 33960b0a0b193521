// Reads a list of words back from the costs that a search of the trellis left.
ghost use Rattle.std.specs.Prelude.{◌≡◌, ◌+◌, ◌<◌, ◌≤◌, length, MatchBool, MatchOption};
ghost use Rattle.decoder.specs.Lists.{numbers};
ghost use Rattle.decoder.specs.Metrics.{Best, changed, most_list};
ghost use Rattle.decoder.specs.Receptions.{code, observed};
ghost use Rattle.decoder.specs.Trellis.{trellis_place};
ghost use Rattle.decoder.specs.Traces.{ComesLast, EndsAt, LowestLast, NoneLast, Searched};

use crate::list::WordList;
use crate::reception::Reception;
use crate::trellis::place_of;
use codetable::Codeword;
use fixedvec::FixedVec;

// The costs that a search of the trellis of `count` words left.
#[derive(Clone, Copy)]
pub(crate) struct Trace<'a> {
    pub(crate) reception: Reception<'a>,
    pub(crate) costs: &'a [u32],
    pub(crate) count: usize,
    ghost few: { count ≤ most_list },
    ghost room: { trellis_place count (length (observed reception)) < length costs.now },
}

// A stage and a number of bits are required by each function here: they are others at each call, so no struct holds them.
impl Trace<'_> {
    // Whether a word leads from `stage` words and `bits` bits to the place behind it at the cost that stands there.
    fn leads(&self, word: Codeword, stage: usize, bits: usize) -> bool
        requires stage { stage < self.now.count }
        requires bits { bits + word.len ≤ length (observed self.now.reception) }
        ensures tells { MatchBool result (ComesLast (observed self.now.reception) self.now.costs.now stage bits word) (ComesLast (observed self.now.reception) self.now.costs.now stage bits word → ⊥) }
    {
        let before = self.costs[place_of(stage, bits)];
        let cost = self.costs[place_of(stage + 1, bits + usize::from(word.len))];
        before <= cost && cost - before == self.reception.share(word, bits)
    }

    // Whether a word comes last at `stage` words and one more, and `bits` bits.
    fn comes_last(&self, word: Codeword, stage: usize, bits: usize) -> bool
        requires stage { stage < self.now.count }
        requires bits { bits ≤ length (observed self.now.reception) }
        ensures tells { MatchBool result (EndsAt (observed self.now.reception) self.now.costs.now stage bits word) (EndsAt (observed self.now.reception) self.now.costs.now stage bits word → ⊥) }
    {
        // No `is_some_and`: its closure would have to require again what `leads` requires.
        let Some(start) = bits.checked_sub(usize::from(word.len)) else {
            return false;
        };
        self.leads(word, stage, start)
    }

    // The word with the lowest number that comes last at `stage` words and one more, and `bits` bits.
    fn last_word(&self, stage: usize, bits: usize) -> Option<(usize, Codeword)>
        requires stage { stage < self.now.count }
        requires bits { bits ≤ length (observed self.now.reception) }
        ensures lowest { MatchOption result (NoneLast (code self.now.reception) (observed self.now.reception) self.now.costs.now stage bits (length (code self.now.reception))) (LowestLast (code self.now.reception) (observed self.now.reception) self.now.costs.now stage bits) }
    {
        let words = self.reception.table.as_slice();
        let k = words
            .iter()
            .position(|&word| self.comes_last(word, stage, bits))?;
        Some((k, words[k]))
    }

    // The best list, and how many of its bits count as changed.
    pub(crate) fn read_back(&self) -> (WordList, u32)
        requires searched { Searched (code self.now.reception) (observed self.now.reception) self.now.count self.now.costs.now }
        ensures best { Best (code self.now.reception) (observed self.now.reception) (length (observed self.now.reception)) self.now.count (numbers result.0) }
        ensures changed { result.1 ≡ changed (code self.now.reception) (observed self.now.reception) (numbers result.0) }
    {
        let mut list = FixedVec::filled(0, self.count);
        let mut changed = 0;
        let mut bits = self.reception.received.len();
        // By rule the chosen words are summed by a loop; they are found from the last to the first.
        for stage in (0..self.count).rev() {
            if let Some((k, word)) = self.last_word(stage, bits) {
                list.replace(stage, k as u8);
                bits -= usize::from(word.len);
                changed += self.reception.changed_bits(word, bits);
            }
        }
        (WordList { inner: list }, changed)
    }
}
