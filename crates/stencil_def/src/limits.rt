//! The limits of grids, weights and rules.

/// The most rows of a grid, and the most columns.
pub const MAX_SIDE: u32 = 4096;

/// The most cells of a grid.
pub const MAX_CELLS: u32 = 1_000_000;

/// The greatest value of a cell, and of the edge. The least is its negative.
pub const MAX_VALUE: i64 = 1_000_000_000_000;

/// The greatest weight. The least is its negative.
pub const MAX_WEIGHT: i64 = 1000;

/// The greatest divisor of a rule. The least is 1.
pub const MAX_DIV: u32 = 1_000_000;
