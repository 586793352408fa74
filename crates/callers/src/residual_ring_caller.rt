#![tactic(auto)]

ghost use Rattle.std.specs.Prelude.{◌≡◌, ◌↔◌, ◌≤ℤ◌, pos, IsTrue};
ghost use Rattle.cell_lanes.specs.Change.{change};

use residual_ring::change_of;
use stencil_def::Grid;

/// Whether no cell differs by more than `most` between two grids of one size.
pub fn are_near(old: &Grid, new: &Grid, most: i64) -> bool
    requires rows { new.now.rows ≡ old.now.rows }
    requires cols { new.now.cols ≡ old.now.cols }
    ensures { IsTrue result ↔ (pos (change old.now new.now) ≤ℤ most) }
{
    change_of(old, new) <= most
}
