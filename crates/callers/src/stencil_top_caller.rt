#![tactic(auto)]

ghost use Rattle.std.specs.Prelude.{◌≡◌, ◌↔◌, None, IfOk, IsFalse};
ghost use Rattle.stencil_top.specs.Words.{texts, command_of};

use part_io::{SteadyShelf, SteadySink};
use std::alloc::{AllocError, Global};
use stencil_top::{Status, run_serial};

/// Whether these words are a command, tried over a shelf with no files.
pub fn is_command(alloc: Global, words: &Vec<String>) -> Result<bool, AllocError>
    ensures { IfOk result (λ is. IsFalse is ↔ (command_of (texts words.now) ≡ None)) }
{
    let mut shelf = SteadyShelf::new(alloc);
    let mut out = SteadySink::new(alloc, 0)?;
    let mut note = SteadySink::new(alloc, 100)?;
    match run_serial(alloc, words, &mut shelf, &mut out, &mut note) {
        Status::NoMemory => Err(AllocError),
        status => Ok(status != Status::Usage),
    }
}
