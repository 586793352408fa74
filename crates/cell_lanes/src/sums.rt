//! The weighted sums of a row.

ghost use Rattle.std.specs.Prelude.{◌≡◌, ℕ, ◌+◌, ◌*◌, ◌<◌, ◌≤◌, ◌*ℤ◌, true, pos, int_div, length, slice_index_or};
ghost use Rattle.std.specs.Prelude.{unsigned_abs};
ghost use Rattle.std.specs.List.{All};
ghost use Rattle.stencil_def.specs.Limits.{IsWithin, IsWeight, IsValue};
ghost use Rattle.stencil_def.specs.Square.{side};
ghost use Rattle.stencil_def.specs.Step.{clamped};
ghost use Rattle.cell_lanes.specs.Lanes.{two};
ghost use Rattle.cell_lanes.specs.Mirror.{HasLimits, IsMirrored};
ghost use Rattle.cell_lanes.specs.Parts.{IsRowSum};
ghost use Rattle.cell_lanes.specs.Sizes.{IsSum};
ghost use Rattle.cell_lanes.specs.Window.{row_sum_at, sum_at};

use crate::lanes::{LANES, plus, times, values_met};
use crate::mirrored::mirrored_sums_of_two;
use crate::{Divisor, LaneWeights};
use std::simd::prelude::*;
use stencil_def::Weights;

/// The sums over row `a` of the window, of the cells in columns `x` and `x + 1`.
#[inline(always)]
fn row_of_two(
    window: &[i64],
    width: usize,
    weights: &LaneWeights,
    reach: u32,
    x: usize,
    a: u32,
) -> i64x2
    requires window { length window.now ≡ side weights.now * width }
    requires values { All IsValue window.now }
    requires reach { reach ≡ weights.now.reach }
    requires near { reach ≤ 2 }
    requires columns { x + 2 + 2 * reach ≤ width }
    requires row { a < side weights.now }
    ensures sums { result ≡ two (λ i. row_sum_at weights.now window.now width (x + i) a) }
    ensures limits { (i : ℕ) → IsRowSum (row_sum_at weights.now window.now width (x + i) a) }
{
    let mut sums = i64x2::splat(0);
    for b in 0..2 * reach + 1 {
        let values = values_met(window, width, x, a, b);
        sums = plus(sums, times(weights.at(reach, a, b), values));
    }
    sums
}

/// The sums over the window, of the cells in columns `x` and `x + 1`.
#[inline(always)]
fn sums_of_two(window: &[i64], width: usize, weights: &LaneWeights, reach: u32, x: usize) -> i64x2
    requires window { length window.now ≡ side weights.now * width }
    requires values { All IsValue window.now }
    requires reach { reach ≡ weights.now.reach }
    requires near { reach ≤ 2 }
    requires columns { x + 2 + 2 * reach ≤ width }
    ensures sums { result ≡ two (λ i. sum_at weights.now window.now width (x + i)) }
    ensures limits { (i : ℕ) → IsSum (sum_at weights.now window.now width (x + i)) }
{
    let mut sums = i64x2::splat(0);
    for a in 0..2 * reach + 1 {
        sums = plus(sums, row_of_two(window, width, weights, reach, x, a));
    }
    sums
}

/// The weight times the value.
#[inline(always)]
fn product(weight: i64, value: i64) -> i64
    requires weight { IsWeight weight }
    requires value { IsValue value }
    ensures value { result ≡ weight *ℤ value }
    ensures limits { unsigned_abs result ≤ 1000000000000000 }
{
    weight * value
}

/// The sum over row `a` of the window, of the cell in column `x`.
#[inline(always)]
fn row_of_one(window: &[i64], width: usize, weights: &Weights, reach: u32, x: usize, a: u32) -> i64
    requires window { length window.now ≡ side weights.now * width }
    requires values { All IsValue window.now }
    requires reach { reach ≡ weights.now.reach }
    requires near { reach ≤ 2 }
    requires column { x + 2 * reach < width }
    requires row { a < side weights.now }
    ensures value { result ≡ row_sum_at weights.now window.now width x a }
    ensures limits { IsRowSum result }
{
    let start = a as usize * width + x;
    let mut sum = 0;
    for b in 0..2 * reach + 1 {
        sum += product(weights.at(a, b), window[start + b as usize]);
    }
    sum
}

/// The sum over the window, of the cell in column `x`.
#[inline(always)]
fn sum_of_one(window: &[i64], width: usize, weights: &Weights, reach: u32, x: usize) -> i64
    requires window { length window.now ≡ side weights.now * width }
    requires values { All IsValue window.now }
    requires reach { reach ≡ weights.now.reach }
    requires near { reach ≤ 2 }
    requires column { x + 2 * reach < width }
    ensures value { result ≡ sum_at weights.now window.now width x }
    ensures limits { IsSum result }
{
    let mut sum = 0;
    for a in 0..2 * reach + 1 {
        sum += row_of_one(window, width, weights, reach, x, a);
    }
    sum
}

/// The sums of all cells of the row: two at a time, and then one by one.
#[inline(always)]
fn sums_at_reach(
    window: &[i64],
    width: usize,
    weights: &LaneWeights,
    reach: u32,
    is_mirrored: bool,
    out: &mut [i64],
)
    requires window { length window.now ≡ side weights.now * width }
    requires values { All IsValue window.now }
    requires reach { reach ≡ weights.now.reach }
    requires near { IsWithin 1 2 reach }
    requires weights { HasLimits weights.now }
    requires mirrored { is_mirrored ≡ true → IsMirrored weights.now }
    requires out { length out.old + 2 * reach ≡ width }
    ensures sums { (x : ℕ) → x < length out.old →
        slice_index_or out.new x (pos 0) ≡ sum_at weights.now window.now width x }
    ensures limits { All IsSum out.new }
{
    let mut x = 0;
    while out.len() - x >= LANES {
        let sums = if is_mirrored {
            mirrored_sums_of_two(window, width, weights, reach, x)
        } else {
            sums_of_two(window, width, weights, reach, x)
        };
        sums.copy_to_slice(&mut out[x..]);
        x += LANES;
    }
    for rest in x..out.len() {
        out[rest] = sum_of_one(window, width, weights.weights(), reach, rest);
    }
}

/// The sums of all cells of the row, with a loop of its own for each reach.
///
/// The weights come from memory that this function doesn't make, so that a compiler keeps them as vectors.
#[inline(never)]
fn row_sums(window: &[i64], width: u32, weights: &LaneWeights, out: &mut [i64])
    requires window { length window.now ≡ side weights.now * width }
    requires values { All IsValue window.now }
    requires out { length out.old + 2 * weights.now.reach ≡ width }
    ensures sums { (x : ℕ) → x < length out.old →
        slice_index_or out.new x (pos 0) ≡ sum_at weights.now window.now width x }
    ensures limits { All IsSum out.new }
{
    let is_mirrored = weights.is_mirrored();
    match weights.weights().reach() {
        1 => sums_at_reach(window, width as usize, weights, 1, is_mirrored, out),
        _ => sums_at_reach(window, width as usize, weights, 2, is_mirrored, out),
    }
}

/// The plain weighted sums of a row, two cells at a time and the last of an odd number by itself.
///
/// The window is the rows round it, each with the reach of the weights more columns at both sides. Place x of `out`
/// becomes the sum over a and b of `weights.at(a, b)` times the value in row a and column x + b of the window. Each
/// value is from -10^12 to 10^12, and `width` is how many columns a row of the window has.
pub fn window_sums(window: &[i64], width: u32, weights: &Weights, out: &mut [i64])
    requires window { length window.now ≡ side weights.now * width }
    requires values { All IsValue window.now }
    requires out { length out.old + 2 * weights.now.reach ≡ width }
    ensures sums { (x : ℕ) → x < length out.old →
        slice_index_or out.new x (pos 0) ≡ sum_at weights.now window.now width x }
    ensures limits { All IsSum out.new }
{
    row_sums(window, width, &LaneWeights::new(*weights), out);
}

/// The new values of a row: its weighted sums, divided with truncation toward zero and clamped to -10^12 to 10^12.
///
/// The window and `out` are those of `window_sums`.
pub fn new_cells(
    window: &[i64],
    width: u32,
    weights: &LaneWeights,
    divisor: &Divisor,
    out: &mut [i64],
)
    requires window { length window.now ≡ side weights.now * width }
    requires values { All IsValue window.now }
    requires out { length out.old + 2 * weights.now.reach ≡ width }
    ensures values { (x : ℕ) → x < length out.old →
        slice_index_or out.new x (pos 0) ≡ clamped (int_div (sum_at weights.now window.now width x) divisor.now) }
    ensures limits { All IsValue out.new }
{
    row_sums(window, width, weights, out);
    divisor.quotients(out);
}
