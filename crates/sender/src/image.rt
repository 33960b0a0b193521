// A whole file: the words of a table, and then a transfer.
ghost use Rattle.std.specs.Prelude.{◌≡◌, ◌<◌, [], ◌∷◌, ◌++◌, IfOk, OnOk};
ghost use Rattle.codetable.specs.Codewords.{Formed, most_words};
ghost use Rattle.codetable.specs.Tables.{words};
ghost use Rattle.transfer.specs.Format.{word_word_of, weigh_word_of, bytes_of};
ghost use Rattle.sender.specs.Images.{entry_words, table_words};

use codetable::{CodeTable, Codeword};
use std::alloc::{AllocError, Global};

// The WORD of a codeword.
fn word_word(word: Codeword) -> u32
    requires formed { Formed word }
    ensures value { result ≡ word_word_of word.len word.value }
{
    0x2000_0000 + u32::from(word.len) * 0x0100_0000 + word.value
}

// The WEIGH of codeword k.
fn weigh_word(k: usize, weight: u16) -> u32
    requires few { k < most_words }
    ensures value { result ≡ weigh_word_of k weight }
{
    0x4000_0000 + k as u32 * 0x0100_0000 + u32::from(weight)
}

// Adds a file word.
fn push_word(image: &mut Vec<u8>, word: u32) -> Result<(), AllocError>
    ensures bytes { OnOk result (image.new.items ≡ image.old.items ++ bytes_of (word ∷ [])) }
{
    image.extend_from_slice(&word.to_be_bytes())
}

// Adds the file words that enter word k.
fn push_entry(image: &mut Vec<u8>, k: usize, word: Codeword) -> Result<(), AllocError>
    requires formed { Formed word }
    requires few { k < most_words }
    ensures bytes { OnOk result (image.new.items ≡ image.old.items ++ bytes_of (entry_words k word)) }
{
    push_word(image, word_word(word))?;
    if word.weight == 0 {
        return Ok(());
    }
    push_word(image, weigh_word(k, word.weight))
}

// The file of a table and a transfer's bytes.
pub fn file_image(heap: Global, table: &CodeTable, transfer: &[u8]) -> Result<Vec<u8>, AllocError>
    ensures bytes { IfOk result (λ v. v.items ≡ bytes_of (table_words 0 (words table.now)) ++ transfer.now) }
{
    let mut image = Vec::new(heap);
    for (k, &word) in table.as_slice().iter().enumerate() {
        push_entry(&mut image, k, word)?;
    }
    image.extend_from_slice(transfer)?;
    Ok(image)
}
