// Pseudo-random cases, small enough to try every list.
ghost use Rattle.std.specs.Prelude.{◌<◌};

use crate::reference::Case;
use codetable::CodeTable;
use random::Random;
use softvalues::SoftValues;

// A source of cases that does not end.
#[derive(Drop)]
pub struct Cases {
    random: Random,
}

impl Cases {
    pub(crate) fn new(seed: u64) -> Cases {
        Cases {
            random: Random::new(seed),
        }
    }

    // A weight: mostly none or a small one, at times any.
    fn weight(&mut self) -> u16 {
        match self.random.below(16) {
            0 => self.random.below(65_536) as u16,
            1..=5 => self.random.below(4) as u16,
            _ => 0,
        }
    }

    // A table of at most four words of at most four bits. Words that clash are left out.
    fn table(&mut self) -> CodeTable {
        let mut table = CodeTable::new();
        let most = self.random.below(5) as usize;
        for _ in 0..4 * most {
            if table.len() < most {
                let len = self.random.below(4) + 1;
                let value = self.random.below(16) >> (4 - len);
                let _ = table.push(len as usize, value as u32);
            }
        }
        table
    }

    // Sets the weight of each word, by its number: no word is handed out to be written to.
    fn weigh(&mut self, table: &mut CodeTable) {
        for k in 0..table.len() {
            let _ = table.set_weight(k, self.weight());
        }
    }

    // At most five words, and at times more than a list may have.
    fn count(&mut self) -> usize {
        match self.random.below(32) {
            0 => 0,
            1 => 33,
            n => n as usize % 5 + 1,
        }
    }

    // How many bits some list of the table has.
    fn list_bits(&mut self, table: &CodeTable, count: usize) -> usize {
        let words = table.len().max(1) as u64;
        (0..count)
            .filter_map(|_| table.word(self.random.below(words) as usize))
            .fold(0, |bits: usize, word| {
                bits.saturating_add(usize::from(word.len))
            })
    }

    // A soft value of at most a magnitude.
    fn value(&mut self, most: u64) -> i8
        requires scale { most < 128 }
    {
        let magnitude = self.random.below(most + 1) as i8;
        if self.random.below(2) == 0 {
            magnitude
        } else {
            -magnitude
        }
    }

    // So many soft values, mostly of small magnitudes, so that many metrics are equal.
    fn received(&mut self, len: usize) -> SoftValues {
        let mut received = SoftValues::new();
        let most = match self.random.below(8) {
            0 => 0,
            1..=3 => 1,
            4..=6 => 3,
            _ => 127,
        };
        for _ in 0..len {
            let _ = received.push(self.value(most));
        }
        received
    }
}

impl Iterator for Cases {
    type Item = Case;

    // A case of at most ten values, mostly as many as some list has bits.
    fn next(&mut self) -> Option<Case> {
        let mut table = self.table();
        self.weigh(&mut table);
        let count = self.count();
        let len = match self.random.below(4) {
            0 => self.random.below(11) as usize,
            _ => self.list_bits(&table, count).min(10),
        };
        let received = self.received(len);
        Some(Case {
            table,
            received,
            count,
        })
    }
}
