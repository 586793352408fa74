//! Why a text isn't read.

ghost use Rattle.std.specs.Prelude.{◌≡◌};
ghost use Rattle.grid_text.specs.declared.fault.TextFault.TheVariants.{NoMemory};

use std::alloc::{AllocError, AllocFailed};

/// Why a text gives no grid or no weights. Rows and columns are numbered from 1.
#[derive(Clone, Copy)]
pub enum TextFault {
    /// The text has no record.
    Empty,
    /// With this row the grid has more than 4,096 columns, 4,096 rows or 1,000,000 cells.
    TooLarge {
        /// The row.
        row: u32,
    },
    /// This row of a grid hasn't as many fields as row 1.
    Ragged {
        /// The row.
        row: u32,
    },
    /// This row of the weights hasn't the 3 or 5 fields that each row has, or is missing, or is one too many.
    BadWeights {
        /// The row.
        row: u32,
    },
    /// This field is no number.
    BadNumber {
        /// The row.
        row: u32,
        /// The column.
        col: u32,
    },
    /// This field is a number out of its range.
    OutOfRange {
        /// The row.
        row: u32,
        /// The column.
        col: u32,
    },
    /// Memory ran out.
    NoMemory,
}

impl From<AllocError> for TextFault {
    ghost from_gives = { λ _ fault. fault ≡ NoMemory };

    fn from(_error: AllocError) -> TextFault {
        TextFault::NoMemory
    }
}

impl<T: Drop> From<AllocFailed<T>> for TextFault {
    ghost from_gives = { λ _ fault. fault ≡ NoMemory };

    fn from(_error: AllocFailed<T>) -> TextFault {
        TextFault::NoMemory
    }
}
