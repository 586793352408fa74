//! The words of a script: names, lists of partitions and bytes.

ghost use Rattle.std.specs.Prelude.{◌≡◌, IfOk, option_map};
ghost use Rattle.std.specs.List.{list_all};
ghost use Rattle.text_words.specs.Lines.{texts};
ghost use Rattle.script_text.specs.Words.{is_name_byte, is_name, pairs_of, bytes_of, each_number, numbers_of};

use hex::FromHexError;
use std::alloc::{AllocError, Global};
use text_words::{number, split};

/// The most letters of a name.
const MAX_LETTERS: usize = 16;

/// Whether a byte is a letter of a name.
fn is_name_byte(byte: u8) -> bool
    ensures { result ≡ is_name_byte byte }
{
    byte.is_ascii_alphanumeric() || byte == b'_'
}

/// Whether each byte is one of a name.
fn has_name_bytes(word: &[u8]) -> bool
    ensures { result ≡ list_all is_name_byte word.now }
{
    word.iter().all(|&byte| is_name_byte(byte))
}

/// Whether a word is a name.
pub(crate) fn is_name(word: &[u8]) -> bool
    ensures { result ≡ is_name word.now }
{
    !word.is_empty() && word.len() <= MAX_LETTERS && has_name_bytes(word)
}

/// What each of the words is, if each is a number.
fn each_number(alloc: Global, words: &[&[u8]]) -> Result<Option<Vec<u32>>, AllocError>
    ensures { IfOk result (λ numbers. option_map (λ v. v.items) numbers ≡ each_number (texts words.now)) }
{
    let mut numbers = Vec::with_capacity(alloc, words.len())?;
    for word in words {
        let Some(number) = number(word) else {
            return Ok(None);
        };
        numbers.push(number)?;
    }
    Ok(Some(numbers))
}

/// The numbers of a word, which are joined by one comma each.
pub(crate) fn numbers(alloc: Global, word: &[u8]) -> Result<Option<Vec<u32>>, AllocError>
    ensures { IfOk result (λ numbers. option_map (λ v. v.items) numbers ≡ numbers_of word.now) }
{
    let words = split(alloc, word, b',')?;
    each_number(alloc, &words)
}

/// The bytes of an even number of hexadecimal digits.
fn pairs(alloc: Global, word: &[u8]) -> Result<Option<Vec<u8>>, AllocError>
    ensures { IfOk result (λ bytes. option_map (λ v. v.items) bytes ≡ pairs_of word.now) }
{
    match hex::decode(alloc, word) {
        Ok(bytes) => Ok(Some(bytes)),
        Err(fault) => match fault {
            FromHexError::OutOfMemory => Err(AllocError),
            _ => Ok(None),
        },
    }
}

/// The bytes that a word stands for, if it does.
pub(crate) fn bytes(alloc: Global, word: &[u8]) -> Result<Option<Vec<u8>>, AllocError>
    ensures { IfOk result (λ bytes. option_map (λ v. v.items) bytes ≡ bytes_of word.now) }
{
    if word == b"-".as_slice() {
        return Ok(Some(Vec::new(alloc)));
    }
    if word.is_empty() {
        return Ok(None);
    }
    pairs(alloc, word)
}
