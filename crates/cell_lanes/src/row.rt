//! A row of the next grid.

ghost use Rattle.std.specs.Prelude.{◌≡◌, ℕ, ◌+◌, ◌*◌, ◌<◌, ◌≤◌, pos, length, slice_index_or};
ghost use Rattle.std.specs.List.{All};
ghost use Rattle.stencil_def.specs.Limits.{IsSide, IsValue};
ghost use Rattle.stencil_def.specs.Square.{side};
ghost use Rattle.cell_lanes.specs.Padding.{with_ends, new_at, end_or};

use crate::{Divisor, LaneWeights, new_cells};
use stencil_def::{Rule, place_at};

/// What stands at the place `at`, of `size` own places with the reach of the weights more at both ends. Own place i
/// has `values[first + i * stride]`.
pub(crate) fn end_value(
    rule: &Rule,
    size: u32,
    at: u32,
    values: &[i64],
    first: usize,
    stride: usize,
) -> i64
    requires size { 0 < size }
    requires own { (i : ℕ) → i < size → first + i * stride < length values.now }
    requires values { All IsValue values.now }
    ensures value { result ≡ end_or rule.now size (λ i. slice_index_or values.now (first + i * stride) (pos 0)) at }
    ensures limits { IsValue result }
{
    let place = i64::from(at) - i64::from(rule.weights.reach());
    match place_at(rule.around, size, place) {
        Some(i) => values[first + i as usize * stride],
        None => rule.edge,
    }
}

/// Gives the places from `from` up to and without `to`, which are all before or all behind the row's own, what lies
/// there.
pub(crate) fn set_ends(rule: &Rule, cols: u32, from: u32, to: u32, row: &mut [i64])
    requires cols { IsSide cols }
    requires row { length row.old ≡ with_ends rule.now cols }
    requires values { All IsValue row.old }
    requires order { from ≤ to }
    requires end { to ≤ length row.old }
    requires outside { (x : ℕ) → x < cols → from ≤ rule.now.weights.reach + x → rule.now.weights.reach + x < to → ⊥ }
    ensures ends { (x : ℕ) → from ≤ x → x < to →
        slice_index_or row.new x (pos 0) ≡
        end_or rule.now cols (λ col. slice_index_or row.old (rule.now.weights.reach + col) (pos 0)) x }
    ensures below { (x : ℕ) → x < from → slice_index_or row.new x (pos 0) ≡ slice_index_or row.old x (pos 0) }
    ensures above { (x : ℕ) → to ≤ x → slice_index_or row.new x (pos 0) ≡ slice_index_or row.old x (pos 0) }
    ensures values { All IsValue row.new }
{
    let reach = rule.weights.reach() as usize;
    for x in from..to {
        row[x as usize] = end_value(rule, cols, x, row, reach, 1);
    }
}

/// Puts the new values of a row into the middle of `row`, and the ends that follow from them round it.
pub(crate) fn next_row(
    window: &[i64],
    rule: &Rule,
    weights: &LaneWeights,
    divisor: &Divisor,
    cols: u32,
    row: &mut [i64],
)
    requires cols { IsSide cols }
    requires window { length window.now ≡ side rule.now.weights * with_ends rule.now cols }
    requires values { All IsValue window.now }
    requires weights { weights.now ≡ rule.now.weights }
    requires divisor { divisor.now ≡ rule.now.div }
    requires row { length row.old ≡ with_ends rule.now cols }
    requires old { All IsValue row.old }
    ensures cells { (x : ℕ) → x < with_ends rule.now cols →
        slice_index_or row.new x (pos 0) ≡
        end_or rule.now cols (λ col. new_at rule.now window.now (with_ends rule.now cols) col) x }
    ensures length { length row.new ≡ with_ends rule.now cols }
    ensures values { All IsValue row.new }
{
    let reach = rule.weights.reach();
    let end = reach + cols;
    let middle = &mut row[reach as usize..end as usize];
    new_cells(window, end + reach, weights, divisor, middle);
    set_ends(rule, cols, 0, reach, row);
    set_ends(rule, cols, end, end + reach, row);
}

/// Copies values in range.
fn put_values(cells: &[i64], part: &mut [i64])
    requires cells { All IsValue cells.now }
    requires length { length part.old ≡ length cells.now }
    ensures same { part.new ≡ cells.now }
    ensures values { All IsValue part.new }
{
    part.copy_from_slice(cells);
}

/// Puts the values of a row into the middle of `row`, and the ends that follow from them round it.
pub(crate) fn copied_row(cells: &[i64], rule: &Rule, cols: u32, row: &mut [i64])
    requires cols { IsSide cols }
    requires cells { length cells.now ≡ cols }
    requires values { All IsValue cells.now }
    requires row { length row.old ≡ with_ends rule.now cols }
    requires old { All IsValue row.old }
    ensures cells { (x : ℕ) → x < with_ends rule.now cols →
        slice_index_or row.new x (pos 0) ≡ end_or rule.now cols (λ col. slice_index_or cells.now col (pos 0)) x }
    ensures length { length row.new ≡ with_ends rule.now cols }
    ensures values { All IsValue row.new }
{
    let reach = rule.weights.reach();
    let end = reach + cols;
    put_values(cells, &mut row[reach as usize..end as usize]);
    set_ends(rule, cols, 0, reach, row);
    set_ends(rule, cols, end, end + reach, row);
}
