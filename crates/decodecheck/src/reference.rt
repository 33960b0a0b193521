// The best list by trying every list.
use codetable::{CodeTable, Codeword};
use softvalues::SoftValues;
use std::alloc::{AllocError, Global};
use std::cmp::Ordering;

// What is decoded: a table, what was received, and how many words a list has.
#[derive(Drop)]
pub struct Case {
    pub table: CodeTable,
    pub received: SoftValues,
    pub count: usize,
}

// A list that fits, with its metric and how many of its bits differ from the hard bits.
#[derive(Drop)]
pub struct Fitting {
    pub metric: u32,
    pub changed: u32,
    pub list: Vec<u8>,
}

// The best of the lists that were tried, and how many have its metric.
#[derive(Drop)]
pub struct Best {
    pub fitting: Fitting,
    pub equals: usize,
}

impl Case {
    // The magnitude of value i, if its hard bit is not `bit`.
    pub(crate) fn against(&self, i: usize, bit: bool) -> Option<u32> {
        let value = self.received.get(i)?.value();
        ((value < 0) != bit).then_some(u32::from(value.unsigned_abs()))
    }
}

// The bit of a word that has so many bits behind it, by its value. On purpose not by `Codeword::bit`, which the decoder
// calls: so the comparison also tries the definition of a word's bits.
pub(crate) fn bit_of(word: Codeword, behind: u32) -> bool {
    word.value.wrapping_shr(behind) % 2 == 1
}

// How many bits a list's words have.
fn bit_count(table: &CodeTable, list: &[u8]) -> usize {
    list.iter()
        .filter_map(|k| table.word(usize::from(*k)))
        .fold(0, |bits: usize, word| {
            bits.saturating_add(usize::from(word.len))
        })
}

// The sum of the weights of a list's words.
fn weigh(table: &CodeTable, list: &[u8]) -> u32 {
    list.iter()
        .filter_map(|k| table.word(usize::from(*k)))
        .fold(0, |sum: u32, word| {
            sum.saturating_add(u32::from(word.weight))
        })
}

// A list with its metric, if its bits are as many as the values that were received.
fn try_list(alloc: Global, case: &Case, list: &[u8]) -> Result<Option<Fitting>, AllocError> {
    if bit_count(&case.table, list) != case.received.len() {
        return Ok(None);
    }
    let bits = list
        .iter()
        .filter_map(|k| case.table.word(usize::from(*k)))
        .flat_map(|word| {
            (0..u32::from(word.len))
                .rev()
                .map(move |behind| bit_of(word, behind))
        });
    let (metric, changed) = (0..case.received.len())
        .zip(bits)
        .filter_map(|(i, bit)| case.against(i, bit))
        .fold(
            (weigh(&case.table, list), 0u32),
            |(metric, changed), magnitude| {
                (metric.saturating_add(magnitude), changed.saturating_add(1))
            },
        );
    let list = list.to_vec(alloc)?;
    Ok(Some(Fitting {
        metric,
        changed,
        list,
    }))
}

// Whether a list has the lower word number at the last place where it differs from another of its length.
fn wins_tie(list: &[u8], other: &[u8]) -> bool {
    list.iter().rev().lt(other.iter().rev())
}

// The better of the best so far and one more list.
fn better(best: Option<Best>, next: Fitting) -> Best {
    let Some(Best { fitting, equals }) = best else {
        return Best {
            fitting: next,
            equals: 1,
        };
    };
    match next.metric.cmp(&fitting.metric) {
        Ordering::Less => Best {
            fitting: next,
            equals: 1,
        },
        Ordering::Equal if wins_tie(&next.list, &fitting.list) => Best {
            fitting: next,
            equals: equals.saturating_add(1),
        },
        Ordering::Equal => Best {
            fitting,
            equals: equals.saturating_add(1),
        },
        Ordering::Greater => Best { fitting, equals },
    }
}

// How many lists of `count` words there are.
fn list_count(words: usize, count: usize) -> usize {
    words.saturating_pow(u32::try_from(count).unwrap_or(u32::MAX))
}

// Moves on to the next list: the last place counts up first.
fn advance(list: &mut [u8], words: usize) {
    for k in list.iter_mut().rev() {
        *k = k.wrapping_add(1);
        if usize::from(*k) < words {
            return;
        }
        *k = 0;
    }
}

// The best of all lists that fit.
pub(crate) fn best_list(alloc: Global, case: &Case) -> Result<Option<Best>, AllocError> {
    let words = case.table.len();
    let mut list = vec![in alloc; 0; case.count]?;
    let mut best = None;
    for _ in 0..list_count(words, case.count) {
        if let Some(next) = try_list(alloc, case, &list)? {
            best = Some(better(best, next));
        }
        advance(&mut list, words);
    }
    Ok(best)
}
