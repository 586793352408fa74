//! Tiles and edges.

use stencil_def::Around;

/// What the messages between tiles are like, and for which weights they are.
#[derive(Clone, Copy)]
pub struct TileShape {
    /// How many partitions a message has at its sender, 1 to 1,024.
    pub send_parts: u32,
    /// How many partitions it has at its receiver, 1 to 1,024.
    pub recv_parts: u32,
    /// The least bytes of a piece, but for the last.
    pub grain: u32,
    /// How many rounds may be in flight, 1 to 4.
    pub depth: u32,
    /// How far the weights reach, 1 or 2.
    pub reach: u32,
    /// What lies outside the grid.
    pub around: Around,
}

/// The part of a grid that a tile has: some rows, and some columns of each.
#[derive(Clone, Copy)]
pub struct Tile {
    /// Its first row.
    pub first_row: u32,
    /// How many rows it has.
    pub rows: u32,
    /// Its first column.
    pub first_col: u32,
    /// How many columns it has.
    pub cols: u32,
}

/// A message that passes from one tile to another in each step: the cells of a rectangle that the receiver lacks, row
/// by row. Its columns may lie outside the grid.
#[derive(Clone, Copy)]
pub struct TileEdge {
    /// The tile that sends.
    pub from: u32,
    /// The tile that receives.
    pub to: u32,
    /// 1 and 2 where the sender's last columns go right and its first ones left, in the first phase of a step; 3 and 4
    /// where its last rows go down and its first ones up, in the second.
    pub tag: u32,
    /// The rectangle's first row.
    pub first_row: i64,
    /// How many rows it has.
    pub rows: u32,
    /// Its first column.
    pub first_col: i64,
    /// How many columns it has.
    pub cols: u32,
}
