// The trellis map. Its paths are lists of words laid on what was received: a place is a number of words and of bits so far.
ghost use Rattle.std.specs.Prelude.{◌≡◌, ℕ, ◌<◌, ◌≤◌, length};
ghost use Rattle.std.specs.List.{count_by, filter, slice_get};
ghost use Rattle.search.specs.Graphs.{nth as edge_nth};
ghost use Rattle.softvalues.specs.Stored.{most_values};
ghost use Rattle.decoder.specs.Metrics.{most_list};
ghost use Rattle.decoder.specs.Estimates.{HoldsFrom};
ghost use Rattle.decoder.specs.Receptions.{code, observed};
ghost use Rattle.decoder.specs.Trellis.{columns, fits_behind, row, trellis, trellis_place};
ghost use Rattle.decoder.specs.Laws.{sound_of, trellis_lawful};

use crate::ahead::read;
use crate::reception::Reception;
use codetable::Codeword;
use search::Map;

// One more than the most bits.
const COLUMNS: usize = 256;

// The trellis of what was received and a number of words, with the estimates in memory.
#[derive(Drop)]
pub(crate) struct Trellis<'a> {
    pub(crate) reception: Reception<'a>,
    pub(crate) count: usize,
    pub(crate) ahead: &'a [u32],
    ghost few: { count ≤ most_list },
    ghost room: { length (observed reception) < length ahead.now },
    ghost exact: { HoldsFrom (code reception) (observed reception) 0 ahead.now },
}

// The place of so many words, the stage, and so many bits.
pub(crate) fn place_of(stage: usize, bits: usize) -> usize
    requires stage { stage ≤ most_list }
    requires bits { bits ≤ most_values }
    ensures place { result ≡ trellis_place stage bits }
{
    stage * COLUMNS + bits
}

// A number of bits is required by each function here: it is another at each call, so no struct holds it.
impl Trellis<'_> {
    // How many words end within what was received, laid behind so many bits.
    fn fitting(&self, bits: usize) -> usize
        requires bits { bits < columns }
        ensures count { result ≡ count_by (fits_behind (observed self.now.reception) bits) (code self.now.reception) }
    {
        self.reception
            .table
            .as_slice()
            .iter()
            .filter(|word| self.reception.fits(**word, bits))
            .count()
    }

    // The chain of `fitting` once more, since no function can answer it: its type has a closure in it.
    // The word at an index among those that end within what was received, laid behind so many bits.
    fn fitting_word(&self, bits: usize, index: usize) -> Option<Codeword>
        requires bits { bits < columns }
        ensures word { result ≡ slice_get (filter (fits_behind (observed self.now.reception) bits) (code self.now.reception)) index }
    {
        self.reception
            .table
            .as_slice()
            .iter()
            .filter(|word| self.reception.fits(**word, bits))
            .nth(index)
            .copied()
    }

    // The edge at an index from so many words and bits: it adds the word at this index among those that fit.
    fn step(&self, stage: usize, bits: usize, index: usize) -> Option<(usize, u32)>
        requires stage { stage < self.now.count }
        requires bits { bits < columns }
        ensures edge { result ≡ edge_nth (row (code self.now.reception) (observed self.now.reception) stage bits) index }
    {
        let word = self.fitting_word(bits, index)?;
        let end = bits + usize::from(word.len);
        Some((place_of(stage + 1, end), self.reception.share(word, bits)))
    }
}

impl Map for Trellis<'_> {
    ghost graph = { λ m. trellis (code m.reception) (observed m.reception) m.count };

    ghost lawful = { λ m. trellis_lawful (code m.reception) (observed m.reception) m.count (sound_of m.reception.table.now m.reception.received.now m.count m.few) };

    fn size(&self) -> usize {
        place_of(self.count, self.reception.received.len()) + 1
    }

    fn start(&self) -> usize {
        0
    }

    fn finish(&self) -> usize {
        place_of(self.count, self.reception.received.len())
    }

    fn estimate(&self, place: usize) -> Option<u32> {
        let bits = place % COLUMNS;
        if bits > self.reception.received.len() {
            return None;
        }
        read(self.ahead[bits])
    }

    fn edge_count(&self, place: usize) -> usize {
        let stage = place / COLUMNS;
        if stage < self.count {
            self.fitting(place % COLUMNS)
        } else {
            0
        }
    }

    fn edge(&self, place: usize, index: usize) -> Option<(usize, u32)> {
        let stage = place / COLUMNS;
        if stage < self.count {
            self.step(stage, place % COLUMNS, index)
        } else {
            None
        }
    }
}
