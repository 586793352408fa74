//! The lines of a text, and the words of a line.

ghost use Rattle.std.specs.Prelude.{◌≡◌, ◌==◌, ◌+◌, ◌≤◌, IfOk, length};
ghost use Rattle.std.specs.List.{slice_split};
ghost use Rattle.std.specs.Str.Lines.{strip_carriage_return};
ghost use Rattle.text_words.specs.Lines.{texts, is_blank, words_of, is_skipped};

use std::alloc::{AllocError, Global};

/// The parts of a text between the bytes `at`: one more than there are such bytes, in order. At the byte LF they are
/// the lines of a text. The only refusal is want of memory.
pub fn split(alloc: Global, bytes: &[u8], at: u8) -> Result<Vec<&[u8]>, AllocError>
    ensures parts { IfOk result (λ parts. texts parts.items ≡ slice_split (λ byte. byte == at) bytes.now) }
    ensures few { IfOk result (λ parts. length parts.items ≤ length bytes.now + 1) }
{
    bytes.split(|&byte| byte == at).collect(alloc)
}

/// A line without the CR at its end, where it has one.
pub fn without_return(line: &[u8]) -> &[u8]
    ensures { result.now ≡ strip_carriage_return line.now }
{
    match line {
        [text @ .., b'\r'] => text,
        _ => line,
    }
}

/// Whether a byte separates words: a space or a tab.
fn is_blank(byte: u8) -> bool
    ensures { result ≡ is_blank byte }
{
    byte == b' ' || byte == b'\t'
}

/// The words of a line, in order: what stands between its spaces and tabs. The only refusal is want of memory.
pub fn words(alloc: Global, line: &[u8]) -> Result<Vec<&[u8]>, AllocError>
    ensures { IfOk result (λ words. texts words.items ≡ words_of line.now) }
{
    line.split(|&byte| is_blank(byte))
        .filter(|word| !word.is_empty())
        .collect(alloc)
}

/// Whether a line of these words is skipped: it has none, or the first begins with `#`.
pub fn is_skipped(words: &[&[u8]]) -> bool
    ensures { result ≡ is_skipped (texts words.now) }
{
    match words {
        [] => true,
        [first, ..] => first.first() == Some(&b'#'),
    }
}
