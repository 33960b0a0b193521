// The words of a file: 32 bits each, four bytes with the highest first. The top three bits are the kind.
#![tactic(auto)]

ghost use Rattle.std.specs.Prelude.{◌≡◌, ◌/◌, ◌^◌, Some};
ghost use Rattle.std.specs.List.{slice_get};
ghost use Rattle.wordfile.specs.Entries.{kind_number, kind_name, zero_bits, Reads};
ghost use Rattle.wordfile.specs.Words.{word_in, words};

use refusal::FileFault;
use std::fmt;

#[derive(Clone, Copy, PartialEq, Eq, Debug)]
pub enum Kind {
    End,
    Word,
    Weigh,
    Drop,
    Bit,
    Wipe,
    Load,
    Undo,
}

// What a word says.
#[derive(Clone, Copy, PartialEq, Eq, Debug)]
pub enum Entry {
    End,
    // Enter a codeword.
    Word { len: u8, value: u32 },
    // Set the weight of a codeword.
    Weigh { number: u8, weight: u16 },
    // Drop the last codeword.
    Drop,
    // Add a soft value to the take.
    Bit(i8),
    // Empty the take.
    Wipe,
    // Load so many codewords.
    Load(u8),
    // Put back the pattern before.
    Undo,
}

// The name of a kind, in upper case.
impl fmt::Display for Kind {
    ghost output = { λ k. Some (kind_name k) };

    fn fmt<W: fmt::Write>(&self, f: &mut fmt::Formatter<W>) -> fmt::Result {
        f.write_str(match self {
            Kind::End => "END",
            Kind::Word => "WORD",
            Kind::Weigh => "WEIGH",
            Kind::Drop => "DROP",
            Kind::Bit => "BIT",
            Kind::Wipe => "WIPE",
            Kind::Load => "LOAD",
            Kind::Undo => "UNDO",
        })
    }
}

// The kind of a word. One of bad form has a kind too.
impl From<u32> for Kind {
    ghost from_gives = { λ word kind. kind_number kind ≡ word / 2 ^ 29 };

    fn from(word: u32) -> Kind {
        match word >> 29 {
            0 => Kind::End,
            1 => Kind::Word,
            2 => Kind::Weigh,
            3 => Kind::Drop,
            4 => Kind::Bit,
            5 => Kind::Wipe,
            6 => Kind::Load,
            _ => Kind::Undo,
        }
    }
}

// The bits that are zero in every word of a kind.
fn zero_bits(kind: Kind) -> u32
    ensures mask { result ≡ zero_bits kind }
{
    match kind {
        Kind::Word => 0,
        Kind::Weigh => 0x00ff_0000,
        Kind::Bit => 0x1fff_ff00,
        Kind::Load => 0x1fff_ffc0,
        Kind::End | Kind::Drop | Kind::Wipe | Kind::Undo => 0x1fff_ffff,
    }
}

// Reads a word. One with a one where its kind has a zero is refused.
impl TryFrom<u32> for Entry {
    type Error = FileFault;

    ghost try_from_gives = { Reads };

    fn try_from(word: u32) -> Result<Entry, FileFault> {
        let kind = Kind::from(word);
        if word & zero_bits(kind) != 0 {
            return Err(FileFault::BadForm);
        }
        Ok(match kind {
            Kind::End => Entry::End,
            Kind::Word => Entry::Word {
                len: (word >> 24 & 0x1f) as u8,
                value: word & 0x00ff_ffff,
            },
            Kind::Weigh => Entry::Weigh {
                number: (word >> 24 & 0x1f) as u8,
                weight: (word & 0xffff) as u16,
            },
            Kind::Drop => Entry::Drop,
            Kind::Bit => Entry::Bit(((word & 0xff) as u8).cast_signed()),
            Kind::Wipe => Entry::Wipe,
            Kind::Load => Entry::Load((word & 0x3f) as u8),
            Kind::Undo => Entry::Undo,
        })
    }
}

// The word at a place, counted in words, or none if the bytes stop before its end.
pub fn word_at(bytes: &[u8], place: usize) -> Option<u32>
    ensures found { result ≡ word_in bytes.now place }
    ensures listed { result ≡ slice_get (words bytes.now) place }
{
    let (words, _) = bytes.as_chunks::<4>();
    words.get(place).map(|word| u32::from_be_bytes(*word))
}

#[cfg(test)]
mod tests {
    use super::*;
    use std::process::Abort;

    fn says(rt: &impl Abort, word: u32, kind: Kind, entry: Entry) {
        assert_eq!(rt; Kind::from(word), kind);
        assert_eq!(rt; Entry::try_from(word), Ok(entry));
    }

    fn refused(rt: &impl Abort, word: u32, kind: Kind) {
        assert_eq!(rt; Kind::from(word), kind);
        assert_eq!(rt; Entry::try_from(word), Err(FileFault::BadForm));
    }

    #[test]
    fn each_kind(rt: HostRuntime) {
        says(&rt, 0x0000_0000, Kind::End, Entry::End);
        says(
            &rt,
            0x2400_0006,
            Kind::Word,
            Entry::Word { len: 4, value: 6 },
        );
        says(
            &rt,
            0x3fff_ffff,
            Kind::Word,
            Entry::Word {
                len: 31,
                value: 0x00ff_ffff,
            },
        );
        says(
            &rt,
            0x4100_012c,
            Kind::Weigh,
            Entry::Weigh {
                number: 1,
                weight: 300,
            },
        );
        says(&rt, 0x6000_0000, Kind::Drop, Entry::Drop);
        says(&rt, 0xa000_0000, Kind::Wipe, Entry::Wipe);
        says(&rt, 0xc000_003f, Kind::Load, Entry::Load(63));
        says(&rt, 0xe000_0000, Kind::Undo, Entry::Undo);
    }

    #[test]
    fn soft_values(rt: HostRuntime) {
        says(&rt, 0x8000_0081, Kind::Bit, Entry::Bit(-127));
        says(&rt, 0x8000_0080, Kind::Bit, Entry::Bit(-128));
        says(&rt, 0x8000_00c0, Kind::Bit, Entry::Bit(-64));
        says(&rt, 0x8000_0000, Kind::Bit, Entry::Bit(0));
        says(&rt, 0x8000_007f, Kind::Bit, Entry::Bit(127));
    }

    // No word of kind WORD has a zero place.
    #[test]
    fn ones_in_zero_places(rt: HostRuntime) {
        refused(&rt, 0x0000_0001, Kind::End);
        refused(&rt, 0x4101_012c, Kind::Weigh);
        refused(&rt, 0x4180_012c, Kind::Weigh);
        refused(&rt, 0x7000_0000, Kind::Drop);
        refused(&rt, 0x8000_0140, Kind::Bit);
        refused(&rt, 0xa000_0100, Kind::Wipe);
        refused(&rt, 0xc000_0040, Kind::Load);
        refused(&rt, 0xffff_ffff, Kind::Undo);
    }

    #[test]
    fn words_of_bytes(rt: HostRuntime) {
        let bytes = b"\x80\x00\x00\x40\xc0\x00\x00\x01\x00\x00\x00";
        assert_eq!(rt; word_at(bytes, 0), Some(0x8000_0040));
        assert_eq!(rt; word_at(bytes, 1), Some(0xc000_0001));
        assert_eq!(rt; word_at(bytes, 2), None);
        assert_eq!(rt; word_at(bytes, usize::MAX), None);
        assert_eq!(rt; word_at(b"", 0), None);
    }
}
