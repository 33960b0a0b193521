// Cases as lines of text, and answers as text.
use crate::reference::Case;
use anyhow::{Context, ensure};
use codetable::CodeTable;
use decoder::Decoded;
use refusal::SearchFault;
use softvalues::SoftValues;
use std::fmt;

// The answer to a case, to be shown.
#[derive(Drop)]
pub struct Answer(pub Result<Decoded, SearchFault>);

// The value of a word in bits, as distancecheck reads it too: one expression is no plainer in a crate that both share.
fn read_bits(text: &str) -> u32 {
    text.bytes().fold(
        0,
        |value: u32, bit| value.wrapping_mul(2) | u32::from(bit == b'1'),
    )
}

// Adds a word in bits, with a weight behind a plus sign or none.
fn read_word(table: &mut CodeTable, text: &str) -> anyhow::Result<()> {
    let (bits, weight) = match text.split_once('+') {
        Some((bits, weight)) => (bits, weight.parse::<u16>()?),
        None => (text, 0),
    };
    let k = table.len();
    ensure!(
        table.push(bits.len(), read_bits(bits)).is_ok() && table.set_weight(k, weight).is_ok(),
        "a word is refused"
    );
    Ok(())
}

fn read_table(text: &str) -> anyhow::Result<CodeTable> {
    let mut table = CodeTable::new();
    for word in text.split_whitespace() {
        read_word(&mut table, word)?;
    }
    Ok(table)
}

fn read_values(text: &str) -> anyhow::Result<SoftValues> {
    let mut received = SoftValues::new();
    for value in text.split_whitespace() {
        ensure!(
            received.push(value.parse::<i8>()?).is_ok(),
            "a value is refused"
        );
    }
    Ok(received)
}

// A case on a line: the words of the table, the soft values and the number of words of a list, with colons between.
pub(crate) fn read_case(line: &str) -> anyhow::Result<Case> {
    let (words, rest) = line.split_once(':').context("no colon behind the words")?;
    let (values, count) = rest.split_once(':').context("no colon behind the values")?;
    Ok(Case {
        table: read_table(words)?,
        received: read_values(values)?,
        count: count.trim().parse::<usize>()?,
    })
}

impl fmt::Display for Answer {
    fn fmt<W: fmt::Write>(&self, f: &mut fmt::Formatter<W>) -> fmt::Result {
        match &self.0 {
            Ok(decoded) => {
                let Decoded {
                    metric,
                    changed,
                    opened,
                    waiting,
                    list,
                } = decoded;
                write!(
                    f,
                    "metric {metric}, changed {changed}, opened {opened}, waiting {waiting}, list {list}"
                )
            }
            Err(SearchFault::BadCount) => f.write_str("bad count"),
            Err(SearchFault::Short) => f.write_str("short"),
            Err(SearchFault::NoFit) => f.write_str("no fit"),
        }
    }
}
