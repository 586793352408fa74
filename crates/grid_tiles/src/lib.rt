//! A grid cut into tiles, in rows and in columns, which of its cells pass between tiles as partitioned messages, and
//! all tiles in one thread.
#![tactic(auto)]

mod edges;
mod plan;
mod serial;
mod serial_blocks;
mod serial_cells;
mod serial_edges;
mod serial_outside;
mod serial_steps;
mod tile;

pub use plan::{TileFault, TilePlan};
pub use serial::SerialTiles;
pub use tile::{Tile, TileEdge, TileShape};

/// The tag of an edge that brings a tile the columns before its own.
pub const RIGHT: u32 = 1;

/// The tag of an edge that brings a tile the columns behind its own.
pub const LEFT: u32 = 2;

/// The tag of an edge that brings a tile the rows before its own.
pub const DOWN: u32 = 3;

/// The tag of an edge that brings a tile the rows behind its own.
pub const UP: u32 = 4;
