//! Grids and weights, read from texts.

ghost use Rattle.std.specs.Prelude.{◌≡◌, ◌≢◌, Ok, Err, IfOk, IfErr};
ghost use Rattle.stencil_def.specs.Plane.{IsPlane};
ghost use Rattle.grid_text.specs.Reading.{grid_of, weights_of};
ghost use Rattle.grid_text.specs.declared.fault.TextFault.TheVariants.{NoMemory};

use crate::TextFault;
use crate::rows::{TextKind, read_rows};
use std::alloc::Global;
use stencil_def::{Grid, Weights};

/// The grid that a text reads as.
///
/// The text is of records with fields between commas, with quotes as usual in such texts, and LF or CRLF at the end of
/// a record; a line without bytes is no record, and a byte order mark at the front is dropped. Each record is a row of
/// the grid. A field is 1 to 19 decimal digits with or without a `-` before them, and spaces around them are dropped.
///
/// The first fault is the answer. `Empty` says that there is no record. The rows are tried in order, and in each first
/// `TooLarge`, then `Ragged`, and then the fields from left to right, each for `BadNumber` and `OutOfRange`, which is a
/// number that isn't from -10^12 to 10^12. `NoMemory` may be answered anywhere.
pub fn read_grid(alloc: Global, text: &[u8]) -> Result<Grid, TextFault>
    ensures ok { IfOk result (λ grid. grid_of text.now ≡ Ok grid) }
    ensures limits { IfOk result IsPlane }
    ensures fault { IfErr result (λ fault. fault ≢ NoMemory → grid_of text.now ≡ Err fault) }
{
    let rows = read_rows(alloc, text, TextKind::Grid)?;
    Ok(Grid::from_values(rows.rows, rows.cols as u32, rows.values))
}

/// The weights that a text reads as, whose records and fields are read as those of a grid.
///
/// The first fault is the answer. `Empty` says that there is no record. The rows are tried in order, and in each first
/// `BadWeights`: row 1 has 3 or 5 fields, each other row has as many, and there are no more rows than fields in each.
/// Then come its fields from left to right, each for `BadNumber` and `OutOfRange`, which is a number that isn't from
/// -1,000 to 1,000. At last `BadWeights` with the number of the first row that is missing says that there are fewer
/// rows than fields in each. `NoMemory` may be answered anywhere.
pub fn read_weights(alloc: Global, text: &[u8]) -> Result<Weights, TextFault>
    ensures ok { IfOk result (λ weights. weights_of text.now ≡ Ok weights) }
    ensures fault { IfErr result (λ fault. fault ≢ NoMemory → weights_of text.now ≡ Err fault) }
{
    let rows = read_rows(alloc, text, TextKind::Weights)?;
    if (rows.rows as usize) < rows.cols {
        return Err(TextFault::BadWeights { row: rows.rows + 1 });
    }
    Ok(Weights::new(&rows.values))
}
