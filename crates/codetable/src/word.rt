// A codeword, and the rules that it keeps alone and beside another.
ghost use Rattle.std.specs.Prelude.{◌≡◌, ◌≤◌, false, MatchBool, slice_index_or};
ghost use Rattle.codetable.specs.Codewords.{bits, largest, most_bits, Formed, Prefix, Conflict};

// The most bits of a word.
pub const MOST_BITS: usize = 24;

// The largest value of a word of 1, 2, up to 24 bits. By rule the numbers are typed out.
const LARGEST: [u32; MOST_BITS] = [
    1, 3, 7, 15, 31, 63, 127, 255, 511, 1023, 2047, 4095, 8191, 16383, 32767, 65535, 131071,
    262143, 524287, 1048575, 2097151, 4194303, 8388607, 16777215,
];

// A word of `len` bits: the first bit is the highest of its value.
#[derive(Clone, Copy, PartialEq, Eq, Debug)]
pub struct Codeword {
    pub len: u8,
    pub value: u32,
    pub weight: u16,
}

impl Codeword {
    // Bit i, counted from 0 at the first: true for a one, and false from the length on.
    pub fn bit(&self, i: usize) -> bool
        ensures value { result ≡ slice_index_or (bits self.now) i false }
    {
        let len = usize::from(self.len);
        let value = self.value;
        if i >= len {
            return false;
        }
        let behind = len - 1 - i;
        behind < 32 && (value >> behind) % 2 == 1
    }
}

// The largest value of a word of `len` bits.
pub(crate) fn largest_value(len: usize) -> u32
    requires some { 1 ≤ len }
    requires few { len ≤ most_bits }
    ensures value { result ≡ largest len }
{
    LARGEST[len - 1]
}

// Whether b begins with a.
fn begins(a: Codeword, b: Codeword) -> bool
    requires first { Formed a }
    requires second { Formed b }
    ensures tells { MatchBool result (Prefix (bits a) (bits b)) (Prefix (bits a) (bits b) → ⊥) }
{
    a.len <= b.len && b.value >> (b.len - a.len) == a.value
}

// Whether one of two words is the start of the other.
pub(crate) fn conflicts(a: Codeword, b: Codeword) -> bool
    requires first { Formed a }
    requires second { Formed b }
    ensures tells { MatchBool result (Conflict a b) (Conflict a b → ⊥) }
{
    begins(a, b) || begins(b, a)
}
