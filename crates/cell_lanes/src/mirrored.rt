//! The weighted sums of a row whose weights are mirrored: cells that meet the same weight are added before they are
//! multiplied with it.

ghost use Rattle.std.specs.Prelude.{◌≡◌, ℕ, ◌+◌, ◌*◌, ◌<◌, ◌≤◌, length};
ghost use Rattle.std.specs.List.{All};
ghost use Rattle.stencil_def.specs.Limits.{IsWithin, IsValue};
ghost use Rattle.cell_lanes.specs.Lanes.{two};
ghost use Rattle.cell_lanes.specs.Mirror.{HasLimits, IsMirrored, row_alike, alike, alike_row_sum};
ghost use Rattle.cell_lanes.specs.Parts.{IsAlikeSum};
ghost use Rattle.cell_lanes.specs.Sizes.{IsSum};
ghost use Rattle.cell_lanes.specs.Window.{sum_at};

use crate::LaneWeights;
use crate::lanes::{plus, times, values_met};
use std::simd::prelude::*;

/// What column `b` of row `a` of the weights and the column in the same distance from the middle meet.
#[inline(always)]
fn alike_in_row(window: &[i64], width: usize, reach: u32, x: usize, a: u32, b: u32) -> i64x2
    requires window { length window.now ≡ (2 * reach + 1) * width }
    requires values { All IsValue window.now }
    requires near { reach ≤ 2 }
    requires columns { x + 2 + 2 * reach ≤ width }
    requires row { a ≤ 2 * reach }
    requires column { b ≤ reach }
    ensures { result ≡ two (λ i. row_alike window.now width reach (x + i) a b) }
{
    let values = values_met(window, width, x, a, b);
    if b < reach {
        plus(values, values_met(window, width, x, a, 2 * reach - b))
    } else {
        values
    }
}

/// What the weight in row `a` and column `b` and those in the same distance from the middle meet.
#[inline(always)]
fn alike_values(window: &[i64], width: usize, reach: u32, x: usize, a: u32, b: u32) -> i64x2
    requires window { length window.now ≡ (2 * reach + 1) * width }
    requires values { All IsValue window.now }
    requires near { reach ≤ 2 }
    requires columns { x + 2 + 2 * reach ≤ width }
    requires row { a ≤ reach }
    requires column { b ≤ reach }
    ensures { result ≡ two (λ i. alike window.now width reach (x + i) a b) }
{
    let values = alike_in_row(window, width, reach, x, a, b);
    if a < reach {
        plus(
            values,
            alike_in_row(window, width, reach, x, 2 * reach - a, b),
        )
    } else {
        values
    }
}

/// The sums over rows `a` of the weights, above the middle and below it, of the cells in columns `x` and `x + 1`.
#[inline(always)]
fn alike_rows_of_two(
    window: &[i64],
    width: usize,
    weights: &LaneWeights,
    reach: u32,
    x: usize,
    a: u32,
) -> i64x2
    requires window { length window.now ≡ (2 * reach + 1) * width }
    requires values { All IsValue window.now }
    requires reach { reach ≡ weights.now.reach }
    requires near { reach ≤ 2 }
    requires columns { x + 2 + 2 * reach ≤ width }
    requires row { a ≤ reach }
    ensures sums { result ≡ two (λ i. alike_row_sum weights.now window.now width (x + i) a) }
    ensures limits { (i : ℕ) → IsAlikeSum (alike_row_sum weights.now window.now width (x + i) a) }
{
    let mut sums = i64x2::splat(0);
    for b in 0..reach + 1 {
        let values = alike_values(window, width, reach, x, a, b);
        sums = plus(sums, times(weights.at(reach, a, b), values));
    }
    sums
}

/// The sums over the window, of the cells in columns `x` and `x + 1`.
#[inline(always)]
pub(crate) fn mirrored_sums_of_two(
    window: &[i64],
    width: usize,
    weights: &LaneWeights,
    reach: u32,
    x: usize,
) -> i64x2
    requires window { length window.now ≡ (2 * reach + 1) * width }
    requires values { All IsValue window.now }
    requires reach { reach ≡ weights.now.reach }
    requires near { IsWithin 1 2 reach }
    requires columns { x + 2 + 2 * reach ≤ width }
    requires weights { HasLimits weights.now }
    requires mirrored { IsMirrored weights.now }
    ensures sums { result ≡ two (λ i. sum_at weights.now window.now width (x + i)) }
    ensures limits { (i : ℕ) → IsSum (sum_at weights.now window.now width (x + i)) }
{
    let mut sums = i64x2::splat(0);
    for a in 0..reach + 1 {
        sums = plus(sums, alike_rows_of_two(window, width, weights, reach, x, a));
    }
    sums
}
