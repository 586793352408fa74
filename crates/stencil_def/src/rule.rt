//! The rule of a stencil.

ghost use Rattle.stencil_def.specs.Limits.{IsDiv, IsValue};

use crate::Weights;

/// What lies outside the grid.
#[derive(Clone, Copy)]
pub enum Around {
    /// The edge, one value everywhere.
    Fixed,
    /// The grid again: behind the last row comes the first, and behind the last column the first.
    Wrap,
}

/// How a cell's new value follows from the values round it.
#[derive(Clone, Copy)]
pub struct Rule {
    /// The weights, whose middle one meets the cell itself.
    pub weights: Weights,
    /// What the weighted sum is divided by, from 1 to 1,000,000.
    pub div: i64,
    /// The value outside the grid, from -10^12 to 10^12. It has no effect with `Around::Wrap`.
    pub edge: i64,
    /// What lies outside the grid.
    pub around: Around,
    ghost has_div: { IsDiv div },
    ghost has_edge: { IsValue edge },
}
