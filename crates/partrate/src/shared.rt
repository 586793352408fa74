//! What all threads of a run share, and how they wait.

ghost use Rattle.std.specs.Prelude.{◌≡◌};

use crate::fault::Fault;
use crate::plan::Plan;
use crossbeam_utils::CachePadded;
use crossbeam_utils::atomic::AtomicCell;
use pair_rule::{AnyBytes, Pair};
use std::hint::spin_loop;
use std::sync::{OnceLock, Wait};
use std::thread::yield_now;
use std::time::Instant;

/// What all threads of a run share.
#[derive(Drop)]
pub struct Shared {
    /// The pair.
    pub pair: Pair<AnyBytes>,
    /// What is measured.
    pub plan: Plan,
    /// From when on times are counted.
    pub begun: Instant,
    /// The first fault of any thread. Each thread that waits looks at it, so none waits for one that has given up.
    pub fault: OnceLock<Fault>,
    /// Where marking threads wait for each other, so that none of them polls a word of the pair that the others change:
    /// the last round that was started, and for each marking thread but the sending one the last round that it has
    /// marked. Each has cache lines of its own.
    pub reached: Vec<CachePadded<AtomicCell<u32>>>,
}

impl Shared {
    /// Tells who waits for it that marking thread `number` has marked a round, or for thread 0 that it has started it.
    pub fn tell(&self, number: u32, round: u32) {
        if let Some(reached) = self.reached.get(number as usize) {
            reached.store(round);
        }
    }

    /// What a thread's work came to. Its fault, if it is the first, is told to the others.
    pub fn told<T>(&self, outcome: Result<T, Fault>) -> Result<T, Fault>
        ensures { result ≡ outcome }
    {
        match outcome {
            Ok(value) => Ok(value),
            Err(fault) => {
                // Where another thread has failed before, its fault stays.
                let _ = self.fault.try_set(fault);
                Err(fault)
            }
        }
    }
}

/// How many looks in vain pass with a pause; after each further one the thread lets another one run. There may be fewer
/// processors than threads.
const TRIES: u32 = 8;

/// How often a thread has looked in vain.
#[derive(Drop)]
pub struct Looks {
    vain: u32,
}

impl Looks {
    /// Before the first look.
    pub fn new() -> Looks {
        Looks { vain: 0 }
    }

    /// Waits a moment after a look in vain. Fails where another thread has failed.
    pub fn pause(&mut self, shared: &Shared) -> Result<(), Fault> {
        if self.vain < TRIES {
            self.vain += 1;
            spin_loop();
            return Ok(());
        }
        yield_now();
        match shared.fault.get() {
            Some(fault) => Err(*fault),
            None => Ok(()),
        }
    }
}

/// Waits until marking thread `number` has marked a round, or for thread 0 until it has started it. Fails where another
/// thread has failed.
pub fn wait_for<R: Wait>(rt: &R, shared: &Shared, number: u32, round: u32) -> Result<(), Fault> {
    let Some(reached) = shared.reached.get(number as usize) else {
        return Ok(());
    };
    let mut looks = Looks::new();
    for _ in rt.forever() {
        if reached.load() >= round {
            return Ok(());
        }
        looks.pause(shared)?;
    }
    unreachable!()
}
