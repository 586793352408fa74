#![tactic(auto)]

ghost use Rattle.std.specs.Prelude.{◌≡◌, IfOk};
ghost use Rattle.script_run.specs.Run.{answers_of};

use script_run::{Script, run_script};
use std::alloc::{AllocError, Global};

/// What a script answers, as its definition says.
pub fn answers(alloc: Global, script: &Script) -> Result<Vec<u8>, AllocError>
    ensures { IfOk result (λ text. text.items ≡ answers_of script.now) }
{
    run_script(alloc, script)
}
