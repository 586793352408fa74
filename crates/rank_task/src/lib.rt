//! The rows of a halo, passed between ranks as partitioned messages, and all ranks of a plan in one thread.
#![tactic(auto)]

mod passing;
mod serial;
mod serial_blocks;
mod serial_edges;
mod serial_outside;
mod serial_rows;
mod serial_steps;

pub use passing::{pair_at_rest, pass};
pub use serial::SerialRanks;
