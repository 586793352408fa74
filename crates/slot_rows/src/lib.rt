//! Slots of a table that one seat holds in a row: the seat's list of slots is turned, and a slot in it exchanged.
#![tactic(auto)]

mod lane;
mod passes;
mod turns;

pub use lane::Lane;
pub use passes::{pass, pass_from, pass_to, set_flags, swap_in};
pub use turns::{swap_at, turn_times};
