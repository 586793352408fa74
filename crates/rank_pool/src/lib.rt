//! Workers that share jobs: each job gets its turns, one after another, from whichever worker is free, until it is
//! over.
#![tactic(auto)]

mod job;
mod order;
mod pool;
mod row;
mod rule;
mod threads;
mod ticket;
mod worker;

pub use job::{Gate, Job, JobTurn, OpenGate};
pub use pool::{PoolRefused, run_pool};
