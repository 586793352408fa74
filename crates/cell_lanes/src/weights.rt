//! Weights that are multiplied with vectors.

ghost use Rattle.std.specs.Prelude.{◌≡◌, ℕ, true, ◌<◌};
ghost use Rattle.std.specs.Simd.Lanes.{Each1};
ghost use Rattle.stencil_def.specs.Limits.{IsWeight};
ghost use Rattle.stencil_def.specs.Square.{Square, side, weight};
ghost use Rattle.cell_lanes.specs.Lanes.{two};
ghost use Rattle.cell_lanes.specs.Mirror.{HasLimits, IsMirrored};

use crate::lanes::LANES;
use std::marker::Model;
use std::simd::prelude::*;
use stencil_def::Weights;

/// Weights, made ready for many rows: each stands in every lane of a vector. Contracts see a `Square`.
#[derive(Drop)]
pub struct LaneWeights {
    weights: Weights,
    lanes: [i64; 50],
    is_mirrored: bool,
}

impl Model for LaneWeights {
    ghost use Rattle.stencil_def.specs.Square.{Square};
    ghost use Rattle.cell_lanes.specs.Mirror.{AreReady};

    ghost Value = { Square };

    ghost view = { λ w. w.weights };

    ghost invariant = { λ w. AreReady w.weights w.lanes w.is_mirrored };
}

/// Whether weights in the same distance from the middle row and the middle column are equal.
fn is_mirrored(weights: &Weights) -> bool
    ensures { result ≡ true → IsMirrored weights.now }
{
    let reach = weights.reach();
    for a in 0..reach + 1 {
        for b in 0..reach + 1 {
            let weight = weights.at(a, b);
            let (below, right) = (2 * reach - a, 2 * reach - b);
            if weights.at(a, right) != weight
                || weights.at(below, b) != weight
                || weights.at(below, right) != weight
            {
                return false;
            }
        }
    }
    true
}

impl LaneWeights {
    /// These weights, made ready.
    pub fn new(weights: Weights) -> LaneWeights
        ensures { result ≡ weights }
    {
        let side = 2 * weights.reach() + 1;
        let mut lanes = [0; 50];
        for a in 0..side {
            for b in 0..side {
                let place = LANES * (a * side + b) as usize;
                let weight = weights.at(a, b);
                lanes[place] = weight;
                lanes[place + 1] = weight;
            }
        }
        let is_mirrored = is_mirrored(&weights);
        LaneWeights {
            weights,
            lanes,
            is_mirrored,
        }
    }

    /// The weights themselves.
    pub(crate) fn weights(&self) -> &Weights
        ensures same { result.now ≡ self.now }
        ensures limits { HasLimits self.now }
    {
        &self.weights
    }

    /// Whether the weights are known to be mirrored.
    pub(crate) fn is_mirrored(&self) -> bool
        ensures { result ≡ true → IsMirrored self.now }
    {
        self.is_mirrored
    }

    /// The weight in row `a` and column `b`, in every lane.
    #[inline(always)]
    pub(crate) fn at(&self, reach: u32, a: u32, b: u32) -> i64x2
        requires reach { reach ≡ self.now.reach }
        requires row { a < side self.now }
        requires column { b < side self.now }
        ensures value { result ≡ two (λ i. weight self.now a b) }
        ensures limits { Each1 IsWeight result }
    {
        let lanes: &[i64] = &self.lanes;
        let place = LANES * (a * (2 * reach + 1) + b) as usize;
        i64x2::from_slice(&lanes[place..])
    }
}
