//! Why a text is no script.

ghost use Rattle.std.specs.Prelude.{◌≡◌};
ghost use Rattle.script_text.specs.declared.fault.ScriptFault.TheVariants.{NoMemory};

use std::alloc::{AllocError, AllocFailed};

/// Why a text gives no script. Lines are counted from 1, and all of them count, also those that are skipped.
#[derive(Clone, Copy, Debug, PartialEq, Eq)]
pub enum ScriptFault {
    /// The first line that isn't skipped is no `world`.
    NoWorld { line: u32 },
    /// That line hasn't three further words that are numbers of ranks, grain and depth in their ranges.
    BadWorld { line: u32 },
    /// A line that isn't skipped stands behind `end`.
    AfterEnd { line: u32 },
    /// A line that isn't skipped says nothing: its first word is unknown or a second `world`, it has too many or
    /// too few words, or one of them is no name, number, list of partitions or bytes.
    BadLine { line: u32 },
    /// There is no `end`.
    NoEnd,
    /// Memory ran out.
    NoMemory,
}

impl From<AllocError> for ScriptFault {
    ghost from_gives = { λ _ fault. fault ≡ NoMemory };

    fn from(_error: AllocError) -> ScriptFault {
        ScriptFault::NoMemory
    }
}

impl<T: Drop> From<AllocFailed<T>> for ScriptFault {
    ghost from_gives = { λ _ fault. fault ≡ NoMemory };

    fn from(_error: AllocFailed<T>) -> ScriptFault {
        ScriptFault::NoMemory
    }
}
