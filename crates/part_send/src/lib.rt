//! The send end of a pair that many threads use: rounds are started and tested by the end, and partitions are marked by
//! its markers, each on a thread of its own (MPI 4.0, chapter 4).
#![tactic(auto)]

mod answers;
mod claim;
mod end;
mod fill;
mod lay;
mod look;
mod many;
mod marker;
mod ready;
mod start;
mod steps;
mod test;
mod told;

pub use answers::{ReadyRefusal, ReadyStop, SendTest};
pub use end::SendEnd;
pub use marker::Marker;
pub use steps::Steps;
