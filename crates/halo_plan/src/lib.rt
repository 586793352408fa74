//! How the rows of a grid go to ranks, and which of them pass between ranks as partitioned messages.
#![tactic(auto)]

mod edge;
mod plan;
mod rows;
mod world;

pub use edge::Edge;
pub use plan::{HaloPlan, PlanFault};

/// The tag of an edge that brings a rank the rows before its own.
pub const DOWN: u32 = 1;

/// The tag of an edge that brings a rank the rows behind its own.
pub const UP: u32 = 2;
