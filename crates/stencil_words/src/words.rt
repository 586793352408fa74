//! What the words ask for.

use crate::FileName;
use stencil_def::Around;

/// The most steps that words may ask for.
pub const MAX_STEPS: u32 = 10_000;

/// What the generator makes a grid of.
#[derive(Clone, Copy)]
pub struct Size {
    /// The first number of the generator, from 0 to 2,147,483,647.
    pub seed: u32,
    /// How many rows the grid has, from 1 to 4,096.
    pub rows: u32,
    /// How many columns the grid has, from 1 to 4,096; it has at most 1,000,000 cells.
    pub cols: u32,
}

/// Where the grid comes from.
#[derive(Drop)]
pub enum Source {
    /// From a file, with the file of the weights.
    Grid {
        /// The file of the grid.
        grid: FileName,
        /// The file of the weights.
        weights: FileName,
    },
    /// From the generator.
    Make {
        /// What the generator makes it of.
        size: Size,
        /// The file of the weights. Without one the weights are 1, 2, 1 and 2, 4, 2 and 1, 2, 1, row by row.
        weights: Option<FileName>,
    },
}

/// How ranks share the rows of the grid, and how the messages between them, or between tiles, are cut.
#[derive(Clone, Copy)]
pub struct PlanWords {
    /// How many ranks there are, from 1 to 64.
    pub ranks: u32,
    /// How many partitions a message has at its sender, from 1 to 1,024.
    pub send_parts: u32,
    /// How many partitions a message has at its receiver, from 1 to 1,024; the least common multiple of both numbers
    /// of partitions is at most 8,192.
    pub recv_parts: u32,
    /// How many bytes a piece of a message has at least, from 1 to 16,777,216.
    pub grain: u32,
    /// How many rounds may be in flight, from 1 to 4.
    pub depth: u32,
}

/// How many tiles share the grid, in rows and columns of tiles.
#[derive(Clone, Copy)]
pub struct TileWords {
    /// How many rows of tiles there are, at least 1.
    pub rows: u32,
    /// How many columns of tiles there are, at least 1; there are at most 64 tiles.
    pub cols: u32,
}

/// What the words of `stencil` ask for.
#[derive(Drop)]
pub struct StencilWords {
    /// Where the grid comes from.
    pub source: Source,
    /// How many steps there are, from 0 to 10,000.
    pub steps: u32,
    /// How ranks share the grid, and with `tiles` what the messages between tiles are like.
    pub plan: PlanWords,
    /// The tiles that share the grid in place of ranks; with them there is one rank, and no `until`.
    pub tiles: Option<TileWords>,
    /// What a weighted sum is divided by, from 1 to 1,000,000.
    pub div: u32,
    /// The value outside the grid, from -10^12 to 10^12.
    pub edge: i64,
    /// What lies outside the grid.
    pub around: Around,
    /// With it the run ends after the first step that changes no cell by more, if that comes before all steps are made;
    /// from 0 to 2 * 10^12.
    pub until: Option<i64>,
}
