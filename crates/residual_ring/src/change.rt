//! By how much a grid changes.

ghost use Rattle.std.specs.Prelude.{◌≡◌, ℕ, ◌+◌, ◌<◌, ◌≤ℤ◌, pos};
ghost use Rattle.stencil_def.specs.Plane.{Plane};
ghost use Rattle.cell_lanes.specs.Change.{IsChange, change, change_within, difference};

use cell_lanes::greatest_change;
use stencil_def::Grid;

/// The greatest difference of a cell between two grids of one size. It takes no memory.
pub fn change_of(old: &Grid, new: &Grid) -> i64
    requires rows { new.now.rows ≡ old.now.rows }
    requires cols { new.now.cols ≡ old.now.cols }
    ensures value { result ≡ pos (change old.now new.now) }
    ensures most { (row col : ℕ) → row < old.now.rows → col < old.now.cols →
        pos (difference old.now new.now row col) ≤ℤ result }
    ensures met { (row : ℕ) × (col : ℕ) × (row < old.now.rows) × (col < old.now.cols) ×
        (pos (difference old.now new.now row col) ≡ result) }
    ensures limits { IsChange result }
{
    let mut most = 0;
    for row in 0..old.rows() {
        most = most.max(greatest_change(old.row(row), new.row(row)));
    }
    most
}

/// The change of the first rows of a grid together with those that follow, of the changes of both.
pub fn joined_change(above: i64, own: i64) -> i64
    requires above { IsChange above }
    requires own { IsChange own }
    ensures change { (old new : Plane) (top rows more left cols : ℕ) →
        above ≡ pos (change_within old new top rows left cols) →
        own ≡ pos (change_within old new (top + rows) more left cols) →
        result ≡ pos (change_within old new top (rows + more) left cols) }
    ensures limits { IsChange result }
{
    above.max(own)
}
