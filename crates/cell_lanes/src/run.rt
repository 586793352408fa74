//! A run of steps, several cells at a time.

ghost use Rattle.std.specs.Prelude.{◌≡◌, IfOk};
ghost use Rattle.cell_lanes.specs.Change.{IsStop};
ghost use Rattle.stencil_def.specs.Plane.{IsPlane};
ghost use Rattle.stencil_def.specs.Step.{fold_plane};

use crate::padded::{middle, next_padded, next_padded_changed, padded, zeros};
use crate::{Divisor, LaneWeights};
use std::alloc::{AllocError, Global};
use std::mem;
use stencil_def::{Grid, Rule};

/// A grid, and the number of steps that led to it.
#[derive(Drop)]
pub struct Stopped {
    pub grid: Grid,
    pub steps: u32,
}

/// The grid after this many steps of the rule. After 0 steps it is the grid itself.
///
/// All memory is taken before the first step, and the last grid's after the last.
pub fn run_lanes(alloc: Global, grid: &Grid, rule: &Rule, steps: u32) -> Result<Grid, AllocError>
    ensures fold { IfOk result (λ last. last ≡ fold_plane grid.now rule.now steps) }
    ensures limits { IfOk result IsPlane }
{
    let (rows, cols) = (grid.rows(), grid.cols());
    let weights = LaneWeights::new(rule.weights);
    let divisor = Divisor::new(rule.div);
    let mut last = padded(alloc, grid, rule)?;
    let mut next = zeros(alloc, last.len())?;
    for _step in 0..steps {
        next_padded(&last, rule, &weights, &divisor, rows, cols, &mut next);
        mem::swap(&mut last, &mut next);
    }
    middle(alloc, &last, rule, rows, cols)
}

/// The grid after the first step that changes no cell by more than `until`, or after all of this many steps where none
/// is such a step; and how many were made.
///
/// All memory is taken before the first step, and the last grid's after the last.
pub fn run_until(
    alloc: Global,
    grid: &Grid,
    rule: &Rule,
    steps: u32,
    until: i64,
) -> Result<Stopped, AllocError>
    ensures stop { IfOk result (λ stopped. IsStop grid.now rule.now steps until stopped.steps) }
    ensures fold { IfOk result (λ stopped. stopped.grid ≡ fold_plane grid.now rule.now stopped.steps) }
    ensures limits { IfOk result (λ stopped. IsPlane stopped.grid) }
{
    let (rows, cols) = (grid.rows(), grid.cols());
    let weights = LaneWeights::new(rule.weights);
    let divisor = Divisor::new(rule.div);
    let mut last = padded(alloc, grid, rule)?;
    let mut next = zeros(alloc, last.len())?;
    let mut made = 0;
    let mut goes_on = true;
    while goes_on && made < steps {
        let most = next_padded_changed(&last, rule, &weights, &divisor, rows, cols, &mut next);
        mem::swap(&mut last, &mut next);
        made += 1;
        goes_on = most > until;
    }
    let grid = middle(alloc, &last, rule, rows, cols)?;
    Ok(Stopped { grid, steps: made })
}
