//! The generator of grids.

ghost use Rattle.std.specs.Prelude.{◌≡◌, ◌*◌, ◌<◌, ◌≤◌, ◌^◌, IfOk};
ghost use Rattle.stencil_def.specs.Limits.{IsSide, IsValue};
ghost use Rattle.stencil_def.specs.Plane.{IsPlane};
ghost use Rattle.grid_text.specs.Making.{cell_of, made_grid, number_after};

use std::alloc::{AllocError, Global};
use stencil_def::{Grid, MAX_CELLS};

/// The generator's number behind `x`.
fn number_after(x: u32) -> u32
    ensures value { result ≡ number_after x }
    ensures bound { result < 2 ^ 31 }
{
    ((1_103_515_245 * u64::from(x) + 12_345) % 2_147_483_648) as u32
}

/// The cell that a number makes, from -9 to 9.
fn cell_of(x: u32) -> i64
    ensures value { result ≡ cell_of x }
    ensures limits { IsValue result }
{
    i64::from(x / 65_536 % 19) - 9
}

/// The generator's grid of this many rows and columns.
///
/// The first number is the seed, from 0 to 2,147,483,647, and behind x comes (1,103,515,245 x + 12,345) mod 2^31. The
/// cells, row by row, are of the numbers behind the seed: of x it is the quotient of x and 65,536, mod 19, less 9.
pub fn make_grid(alloc: Global, seed: u32, rows: u32, cols: u32) -> Result<Grid, AllocError>
    requires seed { seed < 2 ^ 31 }
    requires rows { IsSide rows }
    requires cols { IsSide cols }
    requires cells { rows * cols ≤ MAX_CELLS }
    ensures made { IfOk result (λ grid. grid ≡ made_grid seed rows cols) }
    ensures limits { IfOk result IsPlane }
{
    let cells = (rows * cols) as usize;
    let mut values = Vec::with_capacity(alloc, cells)?;
    let mut x = seed;
    for _n in 0..cells {
        x = number_after(x);
        values.push(cell_of(x))?;
    }
    Ok(Grid::from_values(rows, cols, values))
}
