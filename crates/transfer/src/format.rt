// The file words of a transfer, and how they are written into a buffer, four bytes each.
ghost use Rattle.std.specs.Prelude.{◌≡◌, ◌+◌, ◌*◌, ◌≤◌, [], ◌∷◌, map, length};
ghost use Rattle.codetable.specs.Codewords.{bits};
ghost use Rattle.transfer.specs.Format.{bit_word, load_word, end_word};
ghost use Rattle.transfer.specs.Transfers.{written, most_steps};

use codetable::Codeword;

// A BIT with −64 for a one, or +64 for a zero.
fn bit_word(one: bool) -> u32
    ensures value { result ≡ bit_word one }
{
    if one { 0x8000_00c0 } else { 0x8000_0040 }
}

// Writes a file word at a place of the buffer, counted in words.
fn put_word(buffer: &mut [u8], at: usize, word: u32)
    requires room { 4 * (at + 1) ≤ length buffer.old }
    ensures written { buffer.new ≡ written buffer.old at (word ∷ []) }
{
    buffer[4 * at..4 * at + 4].copy_from_slice(&word.to_be_bytes());
}

// Writes a BIT for each bit of a codeword.
// An index, since it is the bit's place in its word and, from `at` on, the place of its BIT in the buffer.
pub(crate) fn put_bits(buffer: &mut [u8], at: usize, word: Codeword)
    requires room { 4 * (at + word.len) ≤ length buffer.old }
    ensures written { buffer.new ≡ written buffer.old at (map bit_word (bits word)) }
{
    for i in 0..usize::from(word.len) {
        put_word(buffer, at + i, bit_word(word.bit(i)));
    }
}

// Writes LOAD with the number of steps, and END.
pub(crate) fn put_end(buffer: &mut [u8], at: usize, steps: usize)
    requires room { 4 * (at + 2) ≤ length buffer.old }
    requires few { steps ≤ most_steps }
    ensures written { buffer.new ≡ written buffer.old at (load_word steps ∷ end_word ∷ []) }
{
    put_word(buffer, at, 0xc000_0000 + steps as u32);
    put_word(buffer, at + 1, 0);
}
