//! A pair of one thread: a partitioned send and its receive (MPI 4.0, chapter 4), exact by a record of rounds.
#![tactic(auto)]

mod answers;
mod arrival;
mod buffer;
mod flags;
mod many;
mod marking;
mod pair;
mod tables;

pub use answers::{PlainLook, PlainRefusal, PlainSendTest, PlainStop, PlainTake};
pub use arrival::PlainArrival;
pub use many::{marks_laws, take_laws};
pub use pair::{PlainClosed, PlainPair};
