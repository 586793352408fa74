//! Jobs that count their turns, and a gate that counts them too.

use rank_pool::{Gate, Job, JobTurn};
use std::alloc::{AllocError, Global};
use std::sync::atomic::{AtomicU64, Ordering};

/// How many turns of each job the gate has seen, and how many calls came out of turn. It is the gate, and it is what
/// the jobs share.
#[derive(Drop)]
pub struct Ledger {
    begun: Vec<AtomicU64>,
    wrong: AtomicU64,
}

impl Ledger {
    /// A ledger of so many jobs, which had no turn so far.
    pub fn new(alloc: Global, jobs: u32) -> Result<Ledger, AllocError> {
        let mut begun = Vec::new(alloc);
        for _ in 0..jobs {
            begun.push(AtomicU64::new(0))?;
        }
        Ok(Ledger {
            begun,
            wrong: AtomicU64::new(0),
        })
    }

    /// How many turns of this job the gate has seen.
    pub fn begun(&self, job: u32) -> u64 {
        match self.begun.as_slice().get(job as usize) {
            Some(count) => count.load(Ordering::SeqCst),
            None => 0,
        }
    }

    /// How many turns, or calls of the gate, came out of turn.
    pub fn wrong(&self) -> u64 {
        self.wrong.load(Ordering::SeqCst)
    }

    fn note(&self, right: bool) {
        if !right {
            self.wrong.fetch_add(1, Ordering::SeqCst);
        }
    }
}

impl Gate for Ledger {
    fn before(&self, job: u32, turn: u64) {
        match self.begun.as_slice().get(job as usize) {
            Some(count) => self.note(count.fetch_add(1, Ordering::SeqCst) == turn),
            None => self.note(false),
        }
    }
}

/// A job that is over after some turns, and at least one.
#[derive(Drop)]
pub struct Countdown {
    pub name: u32,
    pub left: u64,
    pub had: u64,
}

impl Countdown {
    /// A job of this place in the list, with so many turns to go.
    pub fn new(name: u32, left: u64) -> Countdown {
        Countdown { name, left, had: 0 }
    }
}

impl Job for Countdown {
    type Shared = Ledger;

    ghost use Rattle.std.specs.Prelude.{nat_eq};

    ghost over = { λ s. nat_eq s.left 0 };

    ghost which = { λ s. s.name };

    ghost belongs = { λ s shared. Unit {0} };

    /// The gate has seen this turn, and no later one.
    fn turn(&mut self, shared: &Ledger) -> JobTurn {
        self.had = self.had.saturating_add(1);
        shared.note(shared.begun(self.name) == self.had);
        self.left = self.left.saturating_sub(1);
        if self.left == 0 {
            JobTurn::Over
        } else {
            JobTurn::More
        }
    }
}
