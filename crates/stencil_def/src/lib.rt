//! The stencil over a grid of whole numbers: the rule, a step of it, and a run of steps in one thread.
#![tactic(auto)]

mod grid;
mod limits;
mod rule;
mod step;
mod weights;

pub use grid::Grid;
pub use limits::{MAX_CELLS, MAX_DIV, MAX_SIDE, MAX_VALUE, MAX_WEIGHT};
pub use rule::{Around, Rule};
pub use step::{place_at, run_plain, step_plain};
pub use weights::Weights;
