//! A divisor that is used for many sums.

ghost use Rattle.std.specs.Prelude.{◌≡◌, ℤ, pos, ◌≤◌, ◌^◌, int_div, map, unsigned_abs};
ghost use Rattle.std.specs.List.{All};
ghost use Rattle.stencil_def.specs.Limits.{IsDiv, IsValue};
ghost use Rattle.stencil_def.specs.Step.{clamped};
ghost use Rattle.cell_lanes.specs.Sizes.{IsSum};

use std::marker::Model;
use stencil_def::{MAX_DIV, MAX_VALUE};

/// A divisor from 1 to 1,000,000, with its reciprocal, so that no sum needs a division instruction. Contracts see a
/// number.
#[derive(Drop)]
pub struct Divisor {
    value: u32,
    shift: u32,
    reciprocal: u64,
}

impl Model for Divisor {
    ghost use Rattle.std.specs.Prelude.{ℤ, pos};
    ghost use Rattle.cell_lanes.specs.Reciprocal.{IsReciprocal};

    ghost Value = { ℤ };

    ghost view = { λ d. pos d.value };

    ghost invariant = { λ d. IsReciprocal d.value d.reciprocal d.shift };
}

/// A quotient of this size with the sign of the sum, clamped to -10^12 to 10^12.
#[inline(always)]
fn signed(size: u64, sum: i64) -> i64
    ensures value { (d : ℤ) → pos size ≡ int_div (pos (unsigned_abs sum)) d → result ≡ clamped (int_div sum d) }
    ensures limits { IsValue result }
{
    let size = size.min(MAX_VALUE as u64) as i64;
    if sum < 0 { -size } else { size }
}

/// A sum over a window, divided by this power of two with truncation toward zero, and clamped.
#[inline(always)]
fn shifted(sum: i64, shift: u32) -> i64
    requires shift { 2 ^ shift ≤ MAX_DIV }
    ensures value { result ≡ clamped (int_div sum (pos (2 ^ shift))) }
    ensures limits { IsValue result }
{
    signed(sum.unsigned_abs() >> shift, sum)
}

impl Divisor {
    /// The divisor with this value, from 1 to 1,000,000.
    pub fn new(value: i64) -> Divisor
        requires { IsDiv value }
        ensures { result ≡ value }
    {
        let value = value as u64;
        let shift = value.ilog2();
        let scale = 1u128 << (64 + shift);
        let reciprocal = (scale - 1) / value as u128;
        Divisor {
            value: value as u32,
            shift,
            reciprocal: reciprocal as u64,
        }
    }

    /// The size of a sum, divided and rounded down.
    #[inline(always)]
    fn rounded_down(&self, size: u64) -> u64
        requires { size ≤ 25000000000000000 }
        ensures { pos result ≡ int_div (pos size) self.now }
    {
        let product = (size + 1) as u128 * self.reciprocal as u128;
        (product >> 64) as u64 >> self.shift
    }

    /// A sum over a window, divided with truncation toward zero and clamped to -10^12 to 10^12.
    #[inline(always)]
    pub fn quotient(&self, sum: i64) -> i64
        requires { IsSum sum }
        ensures value { result ≡ clamped (int_div sum self.now) }
        ensures limits { IsValue result }
    {
        signed(self.rounded_down(sum.unsigned_abs()), sum)
    }

    /// Divides each sum of a row with truncation toward zero, and clamps it to -10^12 to 10^12.
    ///
    /// A divisor that is a power of two needs no product.
    pub fn quotients(&self, sums: &mut [i64])
        requires { All IsSum sums.old }
        ensures values { sums.new ≡ map (λ sum. clamped (int_div sum self.now)) sums.old }
        ensures limits { All IsValue sums.new }
    {
        let shift = self.shift;
        if self.value == 1 << shift {
            for x in 0..sums.len() {
                sums[x] = shifted(sums[x], shift);
            }
        } else {
            for x in 0..sums.len() {
                sums[x] = self.quotient(sums[x]);
            }
        }
    }
}
