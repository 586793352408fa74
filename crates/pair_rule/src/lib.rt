//! A pair that many threads use, over a table of atomic words: each call is a step of the core, under one rule.
#![tactic(auto)]

mod buf;
mod close;
mod content;
mod create;
mod few;
mod first;
mod join;
mod laws;
mod looks;
mod mark;
mod pair;
mod plays;
mod recv;
mod recv_plays;
mod rule;
mod seats;
mod send;
mod split;
mod take;
mod view;
mod words;

pub use buf::CellBuf;
pub use close::Closed;
pub use content::{AnyBytes, Content};
pub use laws::rule_laws;
pub use looks::Seated;
pub use pair::Pair;
pub use rule::{Key, Ruled};
pub use seats::{MarkSeat, Note, RecvSeat, SendSeat, Shelf, WatchSeat};
pub use slot_rows::Lane;
pub use view::{Standing, View};

/// How many words are free between two rows of the table. They fill two cache lines of 64 bytes, since processors fetch
/// lines by twos.
pub(crate) const FREE_WORDS: usize = 16;

/// How many slots are free behind those of a place. They take two cache lines at least.
pub(crate) const FREE_SLOTS: usize = 4;

/// How many bytes are free behind those of a buffer on the heap: two cache lines.
pub(crate) const FREE_BYTES: usize = 128;

/// The most bytes of a cell that stand in its buffer itself.
pub(crate) const SHORT: usize = 16;
