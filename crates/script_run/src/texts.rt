//! The texts of answers that are no pair's.

ghost use Rattle.std.specs.Prelude.{◌≡◌, Err, IfOk, string_bytes};
ghost use Rattle.script_run.specs.Run.{unmatched_text, waiting_text};
ghost use Rattle.script_run.specs.Texts.{init_text};

use init_match::InitFault;
use part_api::Side;
use script_pair::is_wrong_side;
use script_text::Action;
use std::alloc::{AllocError, Global};

/// The text of a refused initialisation. Want of memory has none.
pub(crate) fn fault(alloc: Global, fault: InitFault) -> Result<String, AllocError>
    ensures { IfOk result (λ text. string_bytes text ≡ init_text (Err fault)) }
{
    match fault {
        InitFault::SizeMismatch {
            send_total,
            recv_total,
        } => format!(in alloc; "refused SizeMismatch {send_total} {recv_total}"),
        InitFault::WorldFull { sum } => format!(in alloc; "refused WorldFull {sum}"),
        InitFault::BadRank => String::from_str(alloc, "refused BadRank"),
        InitFault::BadTag => String::from_str(alloc, "refused BadTag"),
        InitFault::BadComm => String::from_str(alloc, "refused BadComm"),
        InitFault::BadParts => String::from_str(alloc, "refused BadParts"),
        InitFault::BadBytes => String::from_str(alloc, "refused BadBytes"),
        InitFault::TooLong => String::from_str(alloc, "refused TooLong"),
        InitFault::NoMemory => Err(AllocError),
    }
}

/// The text of an action on a request that isn't matched, where it is of its side.
fn unmatched(action: &Action) -> &'static str
    ensures { result.now ≡ unmatched_text action.now }
{
    match action {
        Action::Test => "idle",
        _ => "refused Unmatched",
    }
}

/// The text of an action on a request that isn't matched.
pub(crate) fn waiting(alloc: Global, side: Side, action: &Action) -> Result<String, AllocError>
    ensures { IfOk result (λ text. string_bytes text ≡ waiting_text side action.now) }
{
    if is_wrong_side(side, action) {
        return String::from_str(alloc, "refused WrongSide");
    }
    String::from_str(alloc, unmatched(action))
}
