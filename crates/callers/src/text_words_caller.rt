#![tactic(auto)]

ghost use Rattle.std.specs.Prelude.{◌≡◌, IfOk};
ghost use Rattle.std.specs.Str.Lines.{strip_carriage_return};
ghost use Rattle.text_words.specs.Lines.{is_skipped, words_of};

use std::alloc::{AllocError, Global};
use text_words::{is_skipped, without_return, words};

/// Whether a line says nothing: it has no words, or is a comment.
pub fn is_idle(alloc: Global, line: &[u8]) -> Result<bool, AllocError>
    ensures { IfOk result (λ idle. idle ≡ is_skipped (words_of (strip_carriage_return line.now))) }
{
    let words = words(alloc, without_return(line))?;
    Ok(is_skipped(&words))
}
