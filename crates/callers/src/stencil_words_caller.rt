#![tactic(auto)]

ghost use Rattle.std.specs.Prelude.{◌≤◌, IfOk, IfSome};

use std::alloc::{AllocError, Global};
use stencil_words::read_words;

/// How many steps the words ask for, if they have a reading.
pub fn steps_of(alloc: Global, words: &[String]) -> Result<Option<u32>, AllocError>
    ensures { IfOk result (λ steps. IfSome steps (λ n. n ≤ 10000)) }
{
    let Some(read) = read_words(alloc, words)? else {
        return Ok(None);
    };
    Ok(Some(read.steps))
}
