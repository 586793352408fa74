//! The geometry of a partitioned message: how two sides cut the same bytes, and what goes out together.
#![tactic(auto)]

mod answers;
mod geometry;
mod laws;
mod readers;
mod walk;

pub use answers::{Marked, Marks, RecvTest, Side, StartFault};
pub use geometry::{Geometry, GeometryFault};
pub use laws::geometry_laws;
pub use walk::{Cell, CellWalk, all_cells};

/// The most partitions that a side has.
pub const MAX_PARTS: u32 = 1024;

/// The most bytes of a partition.
pub const MAX_PART_BYTES: u32 = 1_048_576;

/// The most bytes of a message.
pub const MAX_TOTAL: u32 = 16_777_216;

/// The greatest grain, in bytes.
pub const MAX_GRAIN: u32 = 16_777_216;

/// The most rounds in flight.
pub const MAX_DEPTH: u32 = 4;

/// The most ranks that exchange messages with one another.
pub const MAX_RANKS: u32 = 64;

/// The last round that a side can start: rounds are numbered from 1 on.
pub const LAST_ROUND: u32 = 2_147_483_647;
