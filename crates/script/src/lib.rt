// Reads the text of a script, line by line. A line enters a codeword, `word BITS` or `word BITS WEIGHT`,
// names a codeword to send, `step NUMBER`, or is blank or a comment, which begins with `#`.
#![tactic(auto)]

ghost use Rattle.std.specs.Prelude.{◌≡◌, ℕ, ◌+◌, ◌<◌, ◌≤◌, Bool, [], ◌∷◌, length, drop, Some, slice_index_or};
ghost use Rattle.std.specs.List.{between, position_or_len};
ghost use Rattle.std.specs.Iterator.{YieldsFirstRef, item_count};
ghost use Rattle.script.specs.Scan.{Tests, lines_left, fields_left, at_end};
ghost use Rattle.script.specs.Script.{newline, lines, blank, fields, bit, bits, number, word_entry, step_entry, entry_of, comment, reading, reason};

use std::fmt;

#[derive(Clone, Copy, PartialEq, Eq, Debug)]
pub enum Entry {
    // A codeword: how many bits it has, their value modulo 2^32, and its weight where one is given.
    Word {
        len: usize,
        value: u32,
        weight: Option<u16>,
    },
    // The number of a codeword to send.
    Step {
        word: u32,
    },
}

// Why a line says nothing that can be entered.
#[derive(Clone, Copy, PartialEq, Eq, Debug)]
pub enum LineFault {
    Unknown,
    Missing,
    Extra,
    NotBits,
    NotNumber,
    TooLarge,
}

impl fmt::Display for LineFault {
    ghost output = { λ f. Some (reason f) };

    fn fmt<W: fmt::Write>(&self, f: &mut fmt::Formatter<W>) -> fmt::Result {
        f.write_str(match self {
            LineFault::Unknown => "neither word nor step",
            LineFault::Missing => "a field is missing",
            LineFault::Extra => "a field too many",
            LineFault::NotBits => "bits other than 0 and 1",
            LineFault::NotNumber => "not a decimal number",
            LineFault::TooLarge => "a number too large",
        })
    }
}

// Whether a byte ends a line.
pub fn is_newline(byte: &u8) -> bool
    ensures value { result ≡ newline byte.now }
{
    *byte == b'\n'
}

fn is_blank(byte: &u8) -> bool
    ensures value { result ≡ blank byte.now }
{
    matches!(byte, b' ' | b'\t' | b'\r')
}

// How many bytes stand before the first that passes a test, or in all where none does.
fn len_before<F: FnMut(&u8) -> bool>(bytes: &[u8], test: F) -> usize
    requires callable { F.IsAlwaysCallable test }
    ensures within { result ≤ length bytes.now }
    ensures first { (passes : ℕ → Bool) → Tests F.FnMut test passes → result ≡ position_or_len passes bytes.now }
{
    bytes.iter().position(test).unwrap_or(bytes.len())
}

// Where the line that begins at `from` ends: at the next newline, or at the text's end.
// A start at or past the text's end is the answer itself.
pub fn line_end(text: &[u8], from: usize) -> usize
    ensures ends { result ≡ from + length (slice_index_or (lines (drop from text.now)) 0 []) }
    ensures ahead { from ≤ result }
    ensures within { from ≤ length text.now → result ≤ length text.now }
    ensures past { length text.now ≤ from → result ≡ from }
    ensures more { result < length text.now → lines (drop from text.now) ≡ between from result text.now ∷ lines (drop (result + 1) text.now) }
    ensures last { length text.now ≤ result → lines (drop from text.now) ≡ between from result text.now ∷ [] }
{
    let Some(rest) = text.get(from..) else {
        return from;
    };
    from + len_before(rest, is_newline)
}

// The lines of a text, the first of them first, without the newlines between them. `line_end` says where each ends.
#[derive(Clone, Copy)]
pub struct Lines<'a> {
    // What is left of the text, or none behind its last line.
    rest: Option<&'a [u8]>,
}

impl<'a> Lines<'a> {
    // All lines of a text.
    pub fn new(text: &'a [u8]) -> Lines<'a>
        ensures left { lines_left result ≡ lines text.now }
    {
        Lines { rest: Some(text) }
    }
}

impl<'a> Iterator for Lines<'a> {
    type Item = &'a [u8];

    ghost next_gives = { YieldsFirstRef lines_left };

    ghost remaining = { item_count lines_left };

    fn next(&mut self) -> Option<&'a [u8]> {
        let rest = self.rest?;
        let end = line_end(rest, 0);
        self.rest = rest.get(end + 1..);
        Some(&rest[..end])
    }
}

// The fields of a line, the first of them first. The line is what is left of it.
// A type of its own, since what is left is passed on: a chain of `split` and `filter` has no name to pass it by.
#[derive(Clone, Copy)]
struct Fields<'a> {
    line: &'a [u8],
}

impl<'a> Iterator for Fields<'a> {
    type Item = &'a [u8];

    ghost next_gives = { YieldsFirstRef fields_left };

    ghost remaining = { item_count fields_left };

    fn next(&mut self) -> Option<&'a [u8]> {
        let blanks = len_before(self.line, |byte| !is_blank(byte));
        let (_, solid) = self.line.split_at(blanks);
        let len = len_before(solid, is_blank);
        let (field, rest) = solid.split_at(len);
        self.line = rest;
        (len > 0).then_some(field)
    }
}

// Refuses a further field. A match, as nothing is passed on: some is a refusal, and none is not.
fn expect_end(mut fields: Fields) -> Result<(), LineFault>
    ensures ends { result ≡ at_end (fields_left fields.entry) }
{
    match fields.next() {
        None => Ok(()),
        Some(_) => Err(LineFault::Extra),
    }
}

fn is_bit(byte: u8) -> bool
    ensures value { result ≡ bit byte }
{
    matches!(byte, b'0' | b'1')
}

// Reads bits, the highest first. Their value is taken modulo 2^32.
fn parse_bits(field: &[u8]) -> Result<u32, LineFault>
    ensures reads { result ≡ bits field.now }
{
    let mut value: u32 = 0;
    for &byte in field {
        if !is_bit(byte) {
            return Err(LineFault::NotBits);
        }
        value = value.wrapping_mul(2).wrapping_add(u32::from(byte - b'0'));
    }
    Ok(value)
}

// Reads a decimal number of at most `limit`.
fn parse_number(field: &[u8], limit: u32) -> Result<u32, LineFault>
    ensures reads { result ≡ number limit field.now }
{
    // Past the limit the sum stays at `over`, however many digits follow.
    let over = u64::from(limit) + 1;
    let mut sum: u64 = 0;
    for &byte in field {
        if !byte.is_ascii_digit() {
            return Err(LineFault::NotNumber);
        }
        sum = (sum * 10 + u64::from(byte - b'0')).min(over);
    }
    if sum < over {
        Ok(sum as u32)
    } else {
        Err(LineFault::TooLarge)
    }
}

// Reads a weight.
fn parse_weight(field: &[u8]) -> Result<u16, LineFault>
    ensures reads { result ≡ number 65535 field.now }
{
    let weight = parse_number(field, u32::from(u16::MAX))?;
    Ok(weight as u16)
}

// Reads the fields after `word`.
fn parse_word(mut fields: Fields) -> Result<Entry, LineFault>
    ensures reads { result ≡ word_entry (fields_left fields.entry) }
{
    let bits = fields.next().ok_or(LineFault::Missing)?;
    let weight = fields.next();
    expect_end(fields)?;
    let value = parse_bits(bits)?;
    let weight = weight.map(parse_weight).transpose()?;
    Ok(Entry::Word {
        len: bits.len(),
        value,
        weight,
    })
}

// Reads the field after `step`.
fn parse_step(mut fields: Fields) -> Result<Entry, LineFault>
    ensures reads { result ≡ step_entry (fields_left fields.entry) }
{
    let number = fields.next().ok_or(LineFault::Missing)?;
    expect_end(fields)?;
    let word = parse_number(number, u32::MAX)?;
    Ok(Entry::Step { word })
}

// Reads the first field of an entry and those after it.
fn parse_entry(keyword: &[u8], rest: Fields) -> Result<Entry, LineFault>
    ensures reads { result ≡ entry_of keyword.now (fields_left rest.entry) }
{
    match keyword {
        b"word" => parse_word(rest),
        b"step" => parse_step(rest),
        _ => Err(LineFault::Unknown),
    }
}

fn is_comment(field: &[u8]) -> bool
    ensures value { result ≡ comment field.now }
{
    matches!(field, [b'#', ..])
}

// Reads one line: an entry, nothing for a blank line or a comment, or why it is neither.
pub fn parse_line(line: &[u8]) -> Result<Option<Entry>, LineFault>
    ensures reads { result ≡ reading (fields line.now) }
{
    let mut fields = Fields { line };
    let Some(keyword) = fields.next() else {
        return Ok(None);
    };
    if is_comment(keyword) {
        return Ok(None);
    }
    parse_entry(keyword, fields).map(Some)
}

#[cfg(test)]
mod tests {
    use super::*;
    use std::process::Abort;

    fn enters(rt: &impl Abort, line: &[u8], entry: Entry) {
        assert_eq!(rt; parse_line(line), Ok(Some(entry)));
    }

    fn refused(rt: &impl Abort, line: &[u8], fault: LineFault) {
        assert_eq!(rt; parse_line(line), Err(fault));
    }

    fn word(len: usize, value: u32, weight: Option<u16>) -> Entry {
        Entry::Word { len, value, weight }
    }

    #[test]
    fn reads_entries(rt: HostRuntime) {
        enters(&rt, b"word 0110", word(4, 6, None));
        enters(&rt, b"word 0110 300", word(4, 6, Some(300)));
        enters(&rt, b"word 1 65535", word(1, 1, Some(65535)));
        enters(&rt, b" \tword\t 01 0007\t\r", word(2, 1, Some(7)));
        enters(
            &rt,
            b"word 1000000010000000000000000000000000000001",
            word(40, 0x8000_0001, None),
        );
        enters(&rt, b"step 2", Entry::Step { word: 2 });
        enters(&rt, b"step 4294967295", Entry::Step { word: u32::MAX });
        for line in ["", " \t \r", "# note", "  #word 01 2 3"] {
            assert_eq!(rt; parse_line(line.as_bytes()), Ok(None));
        }
    }

    #[test]
    fn names_faults(rt: HostRuntime) {
        refused(&rt, b"Word 01", LineFault::Unknown);
        refused(&rt, b"words 01", LineFault::Unknown);
        refused(&rt, b"\xff\x80", LineFault::Unknown);
        refused(&rt, b"word", LineFault::Missing);
        refused(&rt, b"step \r", LineFault::Missing);
        refused(&rt, b"word 0x 2 3", LineFault::Extra);
        refused(&rt, b"step x 1", LineFault::Extra);
        refused(&rt, b"word 01x x", LineFault::NotBits);
        refused(&rt, b"word 01 +5", LineFault::NotNumber);
        refused(&rt, b"step 99999999999\xb2", LineFault::NotNumber);
        refused(&rt, b"word 01 65536", LineFault::TooLarge);
        refused(&rt, b"step 4294967296", LineFault::TooLarge);
    }

    #[test]
    fn ends_lines(rt: HostRuntime) {
        assert_eq!(rt; line_end(b"step 1\n\nstep 2", 0), 6);
        assert_eq!(rt; line_end(b"step 1\n\nstep 2", 7), 7);
        assert_eq!(rt; line_end(b"step 1\n\nstep 2", 8), 14);
        assert_eq!(rt; line_end(b"step 1\n\nstep 2", 20), 20);
    }

    #[test]
    fn cuts_lines(rt: HostRuntime) {
        let mut lines = Lines::new(b"a\n\nb");
        assert_eq!(rt; lines.next(), Some(b"a".as_slice()));
        assert_eq!(rt; lines.next(), Some(b"".as_slice()));
        assert_eq!(rt; lines.next(), Some(b"b".as_slice()));
        assert_eq!(rt; lines.next(), None);
        assert_eq!(rt; Lines::new(b"").count(), 1);
        assert_eq!(rt; Lines::new(b"\n").count(), 2);
    }
}
