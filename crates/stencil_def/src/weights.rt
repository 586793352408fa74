//! The weights of a stencil.

ghost use Rattle.std.specs.Prelude.{◌≡◌, ◌<◌, ◌⊎◌, length};
ghost use Rattle.std.specs.List.{All};
ghost use Rattle.stencil_def.specs.Limits.{IsWithin, IsWeight};
ghost use Rattle.stencil_def.specs.Square.{side, weight, square_of};

use std::marker::Model;

/// Weights of 3 rows and columns or of 5, each weight from -1,000 to 1,000. Contracts see a `Square`.
#[derive(Clone, Copy)]
pub struct Weights {
    reach: u32,
    values: [i64; 25],
}

impl Model for Weights {
    ghost use Rattle.stencil_def.specs.Square.{Square, IsSquare};

    ghost Value = { Square };

    ghost view = { λ w. record { reach = w.reach; values = w.values } };

    ghost invariant = { λ w. IsSquare record { reach = w.reach; values = w.values } };

    ghost inverse = { λ w. record { reach = w.reach; values = w.values } };
}

impl Weights {
    /// The weights with these 9 or 25 values, row by row, each from -1,000 to 1,000.
    pub fn new(values: &[i64]) -> Weights
        requires count { (length values.now ≡ 9) ⊎ (length values.now ≡ 25) }
        requires values { All IsWeight values.now }
        ensures { result ≡ square_of values.now }
    {
        let reach = if values.len() == 9 { 1 } else { 2 };
        let mut kept = [0; 25];
        for i in 0..values.len() {
            kept[i] = values[i];
        }
        Weights {
            reach,
            values: kept,
        }
    }

    /// How far the weights reach from the middle in each direction: 1 with 3 rows and columns, 2 with 5.
    pub fn reach(&self) -> u32
        ensures value { result ≡ self.now.reach }
        ensures limits { IsWithin 1 2 result }
    {
        self.reach
    }

    /// The weight in row `a` and column `b`, both from 0 to twice the reach. It is from -1,000 to 1,000.
    pub fn at(&self, a: u32, b: u32) -> i64
        requires row { a < side self.now }
        requires column { b < side self.now }
        ensures value { result ≡ weight self.now a b }
        ensures limits { IsWeight result }
    {
        self.values[(a * (2 * self.reach + 1) + b) as usize]
    }
}
