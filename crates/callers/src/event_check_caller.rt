#![tactic(auto)]

ghost use Rattle.std.specs.Prelude.{IfOk, IfSome};
ghost use Rattle.event_check.specs.Output.{IsOutput};

use event_check::{CheckFault, MAX_CHECK_BYTES, check_events};
use std::alloc::Global;

/// What is told of the list of events that a text is, where the text isn't too long.
pub fn told(alloc: Global, text: &[u8]) -> Option<Result<Vec<u8>, CheckFault>>
    ensures { IfSome result (λ told. IfOk told (λ output. IsOutput text.now output.items)) }
{
    if text.len() > MAX_CHECK_BYTES {
        return None;
    }
    Some(check_events(alloc, text))
}
