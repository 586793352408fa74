//! A message of whole-number elements between two neighbours that exchange parts of a grid: how long it is, how both
//! sides cut it, how values become bytes and are read from what arrives, and its way through a pair of one thread.
#![tactic(auto)]

mod elements;
mod message;
mod parts;
mod passing;

pub use message::Message;
pub use parts::shares_few;
pub use passing::{pair_at_rest, pass};

/// The greatest least common multiple of the numbers of partitions of the two sides.
pub const MAX_MULTIPLE: u32 = 8192;

/// The most values of a message: two rows of 4,096 cells, with two more cells at both ends of each.
pub const MAX_VALUES: u32 = 8200;

/// How many bytes an element of a message has.
pub const ELEMENT_BYTES: u32 = 8;
