//! Two first turns that meet at the gate: neither ends before the other has begun, so two threads give them.

use rank_pool::{Gate, Job, JobTurn, OpenGate, run_pool};
use std::alloc::{AllocError, Global};
use std::sync::Wait;
use std::sync::atomic::{AtomicU64, Ordering};
use std::test::Fail;
use std::thread;
use std::thread::Threads;

const TRIES: u64 = 100_000_000;

/// A job that is over after some turns, beside nothing.
#[derive(Drop)]
struct Short {
    name: u32,
    left: u32,
}

#[derive(Drop)]
struct Nothing;

impl Job for Short {
    type Shared = Nothing;

    ghost use Rattle.std.specs.Prelude.{nat_eq};

    ghost over = { λ s. nat_eq s.left 0 };

    ghost which = { λ s. s.name };

    ghost belongs = { λ s shared. Unit {0} };

    fn turn(&mut self, _shared: &Nothing) -> JobTurn {
        self.left = self.left.saturating_sub(1);
        if self.left == 0 {
            JobTurn::Over
        } else {
            JobTurn::More
        }
    }
}

/// One of the two turns that meet: whether it has reached the gate, and how often it looked for the other.
#[derive(Drop)]
struct Comer {
    job: u32,
    here: AtomicU64,
    tries: AtomicU64,
}

impl Comer {
    fn new(job: u32) -> Comer {
        Comer {
            job,
            here: AtomicU64::new(0),
            tries: AtomicU64::new(0),
        }
    }

    /// Holds this turn until the other is here, for at most `TRIES` looks.
    fn hold(&self, other: &Comer) {
        self.here.store(1, Ordering::SeqCst);
        for tries in 1..TRIES + 1 {
            if other.here.load(Ordering::SeqCst) == 1 {
                return;
            }
            self.tries.store(tries, Ordering::SeqCst);
            thread::yield_now();
        }
    }
}

/// Holds the first turns of two jobs, each until the other's has come.
#[derive(Drop)]
struct Meet {
    one: Comer,
    two: Comer,
}

impl Gate for Meet {
    fn before(&self, job: u32, turn: u64) {
        if turn == 0 && job == self.one.job {
            self.one.hold(&self.two);
        }
        if turn == 0 && job == self.two.job {
            self.two.hold(&self.one);
        }
    }
}

/// Runs the three jobs by two workers behind a gate. Answers what came back, as names and turns that are left.
fn three_jobs<G: Gate, R: Threads + Wait + Sync>(
    rt: &R,
    alloc: Global,
    gate: &G,
) -> Result<Vec<(u32, u32)>, AllocError> {
    let jobs = vec![in alloc;
        Short { name: 10, left: 5 },
        Short { name: 11, left: 1 },
        Short { name: 12, left: 2 },
    ]?;
    let mut back = Vec::new(alloc);
    if let Ok(jobs) = run_pool(rt, alloc, jobs, &Nothing, 2, gate) {
        for job in jobs {
            back.push((job.name, job.left))?;
        }
    }
    Ok(back)
}

#[test]
fn three_jobs_come_back_over(rt: HostRuntime) -> Result<(), Fail> {
    let back = three_jobs(&rt, rt.alloc(), &OpenGate)?;
    assert_eq!(rt; back.as_slice(), [(10, 0), (11, 0), (12, 0)].as_slice());
    Ok(())
}

#[test]
fn each_two_of_three_first_turns_meet(rt: HostRuntime) -> Result<(), Fail> {
    for (one, two) in [(0, 1), (0, 2), (1, 2)] {
        let gate = Meet {
            one: Comer::new(one),
            two: Comer::new(two),
        };
        let back = three_jobs(&rt, rt.alloc(), &gate)?;
        let tries = [&gate.one, &gate.two].map(|comer| comer.tries.load(Ordering::SeqCst) < TRIES);
        assert_eq!(rt;
            (back.as_slice(), tries),
            ([(10, 0), (11, 0), (12, 0)].as_slice(), [true; 2])
        );
    }
    Ok(())
}
