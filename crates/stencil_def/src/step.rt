//! A step of the stencil in one thread, and a run of steps.

ghost use Rattle.std.specs.Prelude.{◌≡◌, ℕ, ◌+◌, ◌-ℤ◌, ◌<◌, ◌≤◌, pos, unsigned_abs, IfSome, IfOk};
ghost use Rattle.stencil_def.specs.Limits.{IsValue};
ghost use Rattle.stencil_def.specs.Plane.{IsPlane, cell};
ghost use Rattle.stencil_def.specs.Square.{side};
ghost use Rattle.stencil_def.specs.Step.{place, read, sum_below, weighted, window_sum, new_cell, next_plane};
ghost use Rattle.stencil_def.specs.Step.{fold_plane};

use crate::{Around, Grid, MAX_VALUE, Rule};
use std::alloc::{AllocError, Global};

/// Which of `size` rows or columns stands at the whole number `at`, which may lie outside the grid: with
/// `Around::Fixed` none does there, and with `Around::Wrap` the one that comes there when the grid begins again.
pub fn place_at(around: Around, size: u32, at: i64) -> Option<u32>
    requires { 0 < size }
    ensures value { result ≡ place around size at }
    ensures inside { IfSome result (λ i. i < size) }
{
    let end = i64::from(size);
    match around {
        Around::Fixed if at < 0 || at >= end => None,
        Around::Fixed => Some(at as u32),
        Around::Wrap => Some(at.rem_euclid(end) as u32),
    }
}

/// What the cell at any row and column holds, also outside the grid.
#[tactic(auto, unfolding(crate::specs::Step::read))]
fn read_cell(grid: &Grid, rule: &Rule, row: i64, col: i64) -> i64
    ensures value { result ≡ read grid.now rule.now row col }
    ensures limits { IsValue result }
{
    let row = place_at(rule.around, grid.rows(), row);
    let col = place_at(rule.around, grid.cols(), col);
    match (row, col) {
        (Some(row), Some(col)) => grid.at(row, col),
        _ => rule.edge,
    }
}

/// The row or the column that a weight meets: `by` counts it from the first weight, whose middle one is `reach`
/// further and meets `at`.
fn shifted(at: u32, by: u32, reach: u32) -> i64
    ensures value { result ≡ pos (at + by) -ℤ pos reach }
    ensures limits { unsigned_abs result ≤ 10000000000 }
{
    i64::from(at) + i64::from(by) - i64::from(reach)
}

/// The weight in row `a` and column `b` times the value that it meets.
fn product(grid: &Grid, rule: &Rule, row: u32, col: u32, a: u32, b: u32) -> i64
    requires row { a < side rule.now.weights }
    requires column { b < side rule.now.weights }
    ensures value { result ≡ weighted grid.now rule.now row col a b }
    ensures limits { unsigned_abs result ≤ 1000000000000000 }
{
    let reach = rule.weights.reach();
    let y = shifted(row, a, reach);
    let x = shifted(col, b, reach);
    let value = read_cell(grid, rule, y, x);
    rule.weights.at(a, b) * value
}

/// The sum over row `a` of the window round the cell at this row and column.
fn row_sum(grid: &Grid, rule: &Rule, row: u32, col: u32, a: u32) -> i64
    requires { a < side rule.now.weights }
    ensures value { result ≡
        sum_below (side rule.now.weights) (λ b. weighted grid.now rule.now row col a b) }
    ensures limits { unsigned_abs result ≤ 5000000000000000 }
{
    let mut sum = 0;
    for b in 0..2 * rule.weights.reach() + 1 {
        sum += product(grid, rule, row, col, a, b);
    }
    sum
}

/// The sum over the window round the cell at this row and column.
fn whole_sum(grid: &Grid, rule: &Rule, row: u32, col: u32) -> i64
    ensures value { result ≡ window_sum grid.now rule.now row col }
    ensures limits { unsigned_abs result ≤ 25000000000000000 }
{
    let mut sum = 0;
    for a in 0..2 * rule.weights.reach() + 1 {
        sum += row_sum(grid, rule, row, col, a);
    }
    sum
}

/// The new value of the cell at this row and column.
#[tactic(auto, unfolding(crate::specs::Step::new_cell))]
fn new_value(grid: &Grid, rule: &Rule, row: u32, col: u32) -> i64
    ensures value { result ≡ new_cell grid.now rule.now row col }
    ensures limits { IsValue result }
{
    (whole_sum(grid, rule, row, col) / rule.div).clamp(-MAX_VALUE, MAX_VALUE)
}

/// The grid after one step of the rule.
///
/// A cell's new value is the sum of the weights, each times the value that it meets, divided by `div` with
/// truncation toward zero and clamped to -10^12 to 10^12.
pub fn step_plain(alloc: Global, grid: &Grid, rule: &Rule) -> Result<Grid, AllocError>
    ensures next { IfOk result (λ next. next ≡ next_plane grid.now rule.now) }
    ensures cells { IfOk result (λ next. (row col : ℕ) → row < grid.now.rows → col < grid.now.cols →
        cell next row col ≡ new_cell grid.now rule.now row col) }
    ensures limits { IfOk result IsPlane }
{
    let mut next = Grid::zeros(alloc, grid.rows(), grid.cols())?;
    for row in 0..grid.rows() {
        for col in 0..grid.cols() {
            next.set(row, col, new_value(grid, rule, row, col));
        }
    }
    Ok(next)
}

/// The grid after this many steps of the rule. After 0 steps it is the grid itself.
pub fn run_plain(alloc: Global, grid: &Grid, rule: &Rule, steps: u32) -> Result<Grid, AllocError>
    ensures fold { IfOk result (λ last. last ≡ fold_plane grid.now rule.now steps) }
    ensures limits { IfOk result IsPlane }
{
    let mut last = grid.copy(alloc)?;
    for _step in 0..steps {
        last = step_plain(alloc, &last, rule)?;
    }
    Ok(last)
}
