//! Lists of the atomic steps that the threads of a pair made: which of them the core allows, which pieces went out by
//! them and which partitions were taken.
#![tactic(auto)]

mod check;
mod fault;
mod laws;
mod list;
mod tell;
mod walk;

pub use check::check_events;
pub use fault::{CheckFault, WalkFault};
pub use laws::check_laws;
pub use list::read_number;
pub use walk::{Applied, Walk};

/// The most bytes of a text.
pub const MAX_CHECK_BYTES: usize = 4_194_304;

/// The most events of a list.
pub const MAX_EVENTS: usize = 100_000;

/// The greatest number of a seat in a list.
pub const LAST_SEAT: u32 = 65;

/// The greatest kind of an event: kinds are numbered from 1 on.
pub const LAST_KIND: u32 = 13;
