//! What is to be measured.

ghost use Rattle.std.specs.Prelude.{◌≤◌};
ghost use Rattle.part_geometry.specs.declared.TheConstants.{LAST_ROUND};

use crate::fault::Fault;
use part_geometry::{Geometry, LAST_ROUND};
use std::time::Duration;

/// The most threads that mark, and the most that watch.
const MAX_THREADS: u32 = 256;

/// What is to be measured.
#[derive(Drop)]
pub struct Plan {
    /// How both sides cut the message.
    pub geometry: Geometry,
    /// How many rounds are run, from 1 to 2,147,483,647.
    pub rounds: u32,
    /// How many threads mark, the sending one among them: from 1 to 256.
    pub markers: u32,
    /// How many threads watch, at most 256.
    pub watchers: u32,
    /// How long each marking thread sleeps in each round, once half of its partitions are marked.
    pub pause: Duration,
    ghost some_rounds: { 1 ≤ rounds },
    ghost few_rounds: { rounds ≤ LAST_ROUND },
}

impl Plan {
    /// A plan, where the numbers are in their ranges.
    pub fn new(
        geometry: Geometry,
        rounds: u32,
        markers: u32,
        watchers: u32,
        pause: Duration,
    ) -> Result<Plan, Fault> {
        if rounds < 1 || rounds > LAST_ROUND {
            return Err(Fault::BadRounds);
        }
        if markers < 1 || markers > MAX_THREADS || watchers > MAX_THREADS {
            return Err(Fault::BadThreads);
        }
        Ok(Plan {
            geometry,
            rounds,
            markers,
            watchers,
            pause,
        })
    }

    /// Where a send partition begins in the message, in bytes.
    pub fn sent_place(&self, partition: u32) -> usize {
        partition as usize * self.geometry.send_bytes() as usize
    }

    /// Where a receive partition begins in the message, in bytes.
    pub fn received_place(&self, partition: u32) -> usize {
        partition as usize * self.geometry.recv_bytes() as usize
    }

    /// The last send partition over the first receive partition.
    pub fn last_over_first(&self) -> u32 {
        (self.geometry.recv_bytes() - 1) / self.geometry.send_bytes()
    }
}

/// The run of neighbouring ones, of `count` things, that thread `number` of `threads` has: the first, and the one
/// behind the last. It may have none.
pub fn run_of(number: u32, threads: u32, count: u32) -> (u32, u32) {
    let most = count.div_ceil(threads.max(1));
    let first = number.saturating_mul(most).min(count);
    let end = first.saturating_add(most).min(count);
    (first, end)
}
