#![tactic(auto)]

ghost use Rattle.std.specs.Prelude.{◌≡◌, IfOk};
ghost use Rattle.stencil_def.specs.Plane.{cell};
ghost use Rattle.stencil_def.specs.Step.{fold_plane};

use cell_lanes::run_lanes;
use std::alloc::{AllocError, Global};
use stencil_def::{Grid, Rule};

/// The value in the upper left corner after this many steps.
pub fn corner_after(alloc: Global, grid: &Grid, rule: &Rule, steps: u32) -> Result<i64, AllocError>
    ensures { IfOk result (λ value. value ≡ cell (fold_plane grid.now rule.now steps) 0 0) }
{
    let last = run_lanes(alloc, grid, rule, steps)?;
    Ok(last.at(0, 0))
}
