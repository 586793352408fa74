#![tactic(auto)]

ghost use Rattle.std.specs.Prelude.{◌≡◌, ◌≤◌, IfOk};
ghost use Rattle.part_geometry.specs.declared.TheConstants.{LAST_ROUND};
ghost use Rattle.stencil_def.specs.Step.{fold_plane};

use grid_tiles::{SerialTiles, TilePlan};
use std::alloc::{AllocError, Global};
use stencil_def::{Grid, Rule};

/// The grid after so many steps, made by all tiles of a plan.
pub fn run_in_tiles(
    alloc: Global,
    plan: TilePlan,
    grid: &Grid,
    rule: Rule,
    steps: u32,
) -> Result<Grid, AllocError>
    requires rows { grid.now.rows ≡ plan.rows }
    requires cols { grid.now.cols ≡ plan.cols }
    requires reach { rule.weights.reach ≡ plan.shape.reach }
    requires around { rule.around ≡ plan.shape.around }
    requires last { steps ≤ LAST_ROUND }
    ensures { IfOk result (λ last. last ≡ fold_plane grid.now rule steps) }
{
    let mut tiles = SerialTiles::new(alloc, plan, grid, rule)?;
    tiles.run(steps);
    tiles.gather(alloc)
}
