//! The rows of the stencil, two cells at a time.
#![tactic(auto)]

mod block;
mod change;
mod divisor;
mod lanes;
mod mirrored;
mod padded;
mod row;
mod run;
mod sums;
mod weights;

pub use block::Block;
pub use change::{MAX_CHANGE, greatest_change};
pub use divisor::Divisor;
pub use run::{Stopped, run_lanes, run_until};
pub use sums::{new_cells, window_sums};
pub use weights::LaneWeights;
