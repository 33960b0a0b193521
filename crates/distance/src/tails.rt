// The tails map of a table. Its paths compare two word sequences word by word: a place is what the one has beyond the
// other, a word without its first bits.
ghost use Rattle.std.specs.Prelude.{◌≡◌, ◌+◌, ◌-◌, ◌≤◌, min, false, not, count_by, drop, slice_index_or, MatchOption};
ghost use Rattle.std.specs.Bool.{beq};
ghost use Rattle.std.specs.List.{range_with_len};
ghost use Rattle.codetable.specs.Codewords.{bits, most_bits, most_words};
ghost use Rattle.codetable.specs.Tables.{words};
ghost use Rattle.search.specs.Graphs.{nth as edge_nth};
ghost use Rattle.distance.specs.Distances.{hamming};
ghost use Rattle.distance.specs.Tails.{tails, tail_place, compared, against, pairs};
ghost use Rattle.distance.specs.Laws.{tails_lawful, sound};

use codetable::{CodeTable, Codeword, MOST_BITS, MOST_WORDS};
use search::Map;

// Words that have lost no bits are no tails, so two of their places are free for the start and the finish.
const START: usize = MOST_BITS;

const FINISH: usize = 0;

// A place for each word and each number of bits that it may have lost.
const PLACES: usize = MOST_WORDS * MOST_BITS;

// Word `number` of a table without its first `cut` bits.
#[derive(Clone, Copy)]
pub(crate) struct Tail {
    number: usize,
    word: Codeword,
    cut: usize,
    ghost numbered: { number ≤ most_words },
    ghost short: { word.len ≤ most_bits },
    ghost within: { cut ≤ word.len },
}

// The place of word `number` without its first `cut` bits.
fn place_of(number: usize, cut: usize) -> usize
    requires number { number ≤ most_words }
    requires cut { cut ≤ most_bits }
    ensures place { result ≡ tail_place number cut }
{
    number * MOST_BITS + cut
}

impl Tail {
    // How many bits the tail has.
    fn len(&self) -> usize
        ensures count { result ≡ self.now.word.len - self.now.cut }
    {
        usize::from(self.word.len) - self.cut
    }

    // At how many places the bits of the tail and of a word differ, as far as both go.
    fn differing_bits(&self, word: Codeword) -> usize
        ensures count { result ≡ count_by (λ i. not (beq (slice_index_or (bits self.now.word) (self.now.cut + i) false) (slice_index_or (bits word) i false))) (range_with_len 0 (min (self.now.word.len - self.now.cut) word.len)) }
    {
        let shorter = self.len().min(usize::from(word.len));
        (0..shorter)
            .map(|i| usize::from(self.word.bit(self.cut + i) != word.bit(i)))
            .sum()
    }

    // The Hamming distance of the tail and a word.
    fn distance(&self, word: Codeword) -> u32
        ensures distance { result ≡ hamming (drop self.now.cut (bits self.now.word)) (bits word) }
    {
        self.differing_bits(word) as u32
    }

    // Compares the tail with a word over the shorter of the two: what is left of the longer one is the next place, or the
    // finish, and the cost is the number of bits that differ.
    fn compare(&self, number: usize, word: Codeword) -> (usize, u32)
        requires number { number ≤ most_words }
        requires short { word.len ≤ most_bits }
        ensures edge { result ≡ compared self.now.number self.now.word self.now.cut number word }
    {
        let left = self.len();
        let len = usize::from(word.len);
        let cost = self.distance(word);
        if left < len {
            (place_of(number, left), cost)
        } else if len < left {
            (place_of(self.number, self.cut + len), cost)
        } else {
            (FINISH, cost)
        }
    }
}

// A copy of the table: the search reads it as a plain value.
#[derive(Drop)]
pub(crate) struct Tails {
    pub(crate) table: CodeTable,
}

impl Tails {
    ghost use Rattle.distance.specs.Places.{TailOf, NoTail};

    // The tail that a place stands for, or none.
    fn tail(&self, place: usize) -> Option<Tail>
        ensures tail { MatchOption result (NoTail (words self.now.table) place) (TailOf (words self.now.table) place) }
    {
        let number = place / MOST_BITS;
        let cut = place % MOST_BITS;
        let word = self.table.word(number)?;
        // No `then`: a tail's facts follow from the test, which the closure would have to require again.
        if 0 < cut && cut < usize::from(word.len) {
            Some(Tail { number, word, cut })
        } else {
            None
        }
    }

    // A tail against word `index`, or none if there is no such word.
    fn against(&self, tail: &Tail, index: usize) -> Option<(usize, u32)>
        ensures edge { result ≡ edge_nth (against tail.now.number tail.now.word tail.now.cut 0 (words self.now.table)) index }
    {
        let word = self.table.word(index)?;
        Some(tail.compare(index, word))
    }

    // The pair at an index: those of the first word with each behind it come first, and then those of the next.
    fn pair(&self, index: usize) -> Option<(usize, u32)>
        ensures edge { result ≡ edge_nth (pairs 0 (words self.now.table)) index }
    {
        let words = self.table.as_slice();
        // No chain over all pairs: it would step through them one by one, and this walk skips a row at a time.
        let mut left = index;
        for (number, &word) in words.iter().enumerate() {
            let behind = words.len() - 1 - number;
            if left < behind {
                let cut = 0;
                return self.against(&Tail { number, word, cut }, number + 1 + left);
            }
            left -= behind;
        }
        None
    }
}

impl Map for Tails {
    ghost graph = { λ m. tails (words m.table) };

    ghost lawful = { λ m. tails_lawful (words m.table) (sound m.table) };

    fn size(&self) -> usize {
        PLACES
    }

    fn start(&self) -> usize {
        START
    }

    fn finish(&self) -> usize {
        FINISH
    }

    fn estimate(&self, _place: usize) -> Option<u32> {
        Some(0)
    }

    fn edge_count(&self, place: usize) -> usize {
        if place == START {
            let len = self.table.len();
            return len * len.saturating_sub(1) / 2;
        }
        self.tail(place).map_or(0, |_| self.table.len())
    }

    fn edge(&self, place: usize, index: usize) -> Option<(usize, u32)> {
        if place == START {
            return self.pair(index);
        }
        let tail = self.tail(place)?;
        self.against(&tail, index)
    }
}
