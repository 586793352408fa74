//! Vectors of two cells.

ghost use Rattle.std.specs.Prelude.{◌≡◌, ℕ, ℤ, ◌+◌, ◌*◌, ◌≤◌, ◌+ℤ◌, ◌*ℤ◌, length};
ghost use Rattle.std.specs.List.{All};
ghost use Rattle.std.specs.Simd.Lanes.{zip2, Each1};
ghost use Rattle.stencil_def.specs.Limits.{IsWeight, IsValue};
ghost use Rattle.cell_lanes.specs.Lanes.{two};
ghost use Rattle.cell_lanes.specs.Parts.{IsPart, IsAlike};
ghost use Rattle.cell_lanes.specs.Window.{met};

use std::simd::prelude::*;

/// How many cells a vector has.
pub(crate) const LANES: usize = 2;

/// How many of a cell's low bits are multiplied apart from the others.
const LOW_BITS: i64 = 20;

/// The values that a weight in row `a` and column `b` meets, of the cells in columns `x` and `x + 1`.
#[inline(always)]
pub(crate) fn values_met(window: &[i64], width: usize, x: usize, a: u32, b: u32) -> i64x2
    requires values { All IsValue window.now }
    requires place { a * width + x + b + 2 ≤ length window.now }
    ensures { result ≡ two (λ i. met window.now width (x + i) a b) }
{
    i64x2::from_slice(&window[a as usize * width + x + b as usize..])
}

/// The weight times each value.
///
/// Vectors have a product of 32 bits and none of 64. So the low bits of a value and the others are multiplied one by
/// one. The weight goes through 32 bits, from which a compiler sees that it fits them.
#[inline(always)]
pub(crate) fn times(weight: i64x2, values: i64x2) -> i64x2
    requires lanes { (length weight ≡ 2) × (length values ≡ 2) }
    requires weight { Each1 IsWeight weight }
    requires values { Each1 IsAlike values }
    ensures { result ≡ zip2 (λ w v. w *ℤ v) weight values }
{
    let half = i64x2::splat(32);
    let short = (weight << half) >> half;
    let low = values & i64x2::splat((1 << LOW_BITS) - 1);
    let high = (values << i64x2::splat(32 - LOW_BITS)) >> half;
    short.strict_mul(low).strict_add(
        short
            .strict_mul(high)
            .strict_mul(i64x2::splat(1 << LOW_BITS)),
    )
}

/// The sums of both, lane by lane.
#[inline(always)]
pub(crate) fn plus(left: i64x2, right: i64x2) -> i64x2
    requires left { Each1 IsPart left }
    requires right { Each1 IsPart right }
    ensures { result ≡ zip2 (λ a b. a +ℤ b) left right }
{
    left.strict_add(right)
}
