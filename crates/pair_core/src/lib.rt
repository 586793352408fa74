//! The core of a pair that many threads use: its state as plain data, and the atomic steps that change it.
#![tactic(auto)]

mod apply;
mod bits;
mod claim;
mod copy;
mod event;
mod first;
mod laws;
mod lay;
mod looking;
mod outcome;
mod recv;
mod run;
mod seat;
mod send;
mod state;
mod tables;
mod take;
pub mod view;

pub use event::{Applied, Event};
pub use laws::{core_laws, event_laws};
pub use outcome::{Replay, Step};
pub use run::{replay, step};
pub use state::CoreState;
