//! Why a call at the edge did not do what it was asked.

ghost use Rattle.std.specs.Prelude.{◌≡◌};

use std::alloc::AllocError;

/// Why a read gives no bytes.
#[derive(Clone, Copy, Debug, PartialEq, Eq)]
pub enum ReadAnswer {
    /// The shelf has no file of that name. Only a shelf that tells its files answers this.
    Missing,
    /// The file has more bytes than the read allows.
    TooLong {
        /// The most bytes that the read allows.
        limit: u32,
    },
    /// The outside failed; the shelf has counted a fault.
    Failed,
    /// There is no memory for the bytes. This is no fault.
    NoMemory,
}

impl From<AllocError> for ReadAnswer {
    ghost use Rattle.part_io.specs.declared.answers.ReadAnswer.TheVariants as answer;

    ghost from_gives = { λ _ e. e ≡ answer.NoMemory };

    fn from(_: AllocError) -> ReadAnswer {
        ReadAnswer::NoMemory
    }
}

/// A write did not take the whole piece; the sink has counted a fault.
#[derive(Clone, Copy, Debug, PartialEq, Eq)]
pub struct Failed;
