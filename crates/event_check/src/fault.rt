//! Why an event isn't made, and why a text is no list of events.

ghost use Rattle.std.specs.Prelude.{◌≡◌};
ghost use Rattle.event_check.specs.declared.fault.CheckFault.TheVariants.{NoMemory};

use std::alloc::{AllocError, AllocFailed};
use thiserror::Error;

/// Why an event isn't made.
#[derive(Clone, Copy, Debug, PartialEq, Eq, Error)]
pub enum WalkFault {
    /// It isn't allowed.
    #[error("the event isn't allowed")]
    NotAllowed,
    /// Memory ran out.
    #[error("out of memory")]
    NoMemory,
}

/// Why a text gives no list of events. Lines are counted from 1, and all of them count, also those that are skipped.
#[derive(Clone, Copy, Debug, PartialEq, Eq, Error)]
pub enum CheckFault {
    /// Every line is skipped.
    #[error("no pair")]
    NoPair,
    /// The first line that isn't skipped is no `pair` with the six numbers of a geometry.
    #[error("line {line}: bad pair")]
    BadPair { line: u32 },
    /// The line would be the 100,001st event.
    #[error("line {line}: too many")]
    TooMany { line: u32 },
    /// The line is no `e` with five numbers, of which the first is a seat and the second a kind.
    #[error("line {line}: bad event")]
    BadEvent { line: u32 },
    /// Memory ran out.
    #[error("out of memory")]
    NoMemory,
}

impl From<AllocError> for CheckFault {
    ghost from_gives = { λ _ fault. fault ≡ NoMemory };

    fn from(_error: AllocError) -> CheckFault {
        CheckFault::NoMemory
    }
}

impl<T: Drop> From<AllocFailed<T>> for CheckFault {
    ghost from_gives = { λ _ fault. fault ≡ NoMemory };

    fn from(_error: AllocFailed<T>) -> CheckFault {
        CheckFault::NoMemory
    }
}
