//! Runs of many jobs, of none, and of one.

ghost use Rattle.std.specs.Prelude.{◌<◌};

use crate::jobs::{Countdown, Ledger};
use rank_pool::run_pool;
use std::alloc::{AllocError, Global};
use std::sync::Wait;
use std::test::Fail;
use std::thread::Threads;

/// The next of a row of random numbers.
fn next(seed: u64) -> u64 {
    let mut x = seed;
    x ^= x << 13;
    x ^= x >> 7;
    x ^= x << 17;
    x
}

/// How many turns each of so many jobs has: 0 to 63 of them, at random. A job that is over already has one turn.
fn lengths(alloc: Global, jobs: u32) -> Result<Vec<u64>, AllocError> {
    let mut lengths = Vec::new(alloc);
    let mut seed = 88_172_645_463_325_252;
    for _ in 0..jobs {
        seed = next(seed);
        lengths.push(seed % 64)?;
    }
    Ok(lengths)
}

/// A job of each length, named by its place.
fn jobs_of(alloc: Global, lengths: &[u64]) -> Result<Vec<Countdown>, AllocError> {
    let mut jobs = Vec::new(alloc);
    let mut name: u32 = 0;
    for left in lengths {
        jobs.push(Countdown::new(name, *left))?;
        name = name.wrapping_add(1);
    }
    Ok(jobs)
}

/// How many jobs came back over, each in its place and after as many turns as it has, all seen by the gate.
fn right_ones(back: &[Countdown], lengths: &[u64], ledger: &Ledger) -> u32 {
    let mut right: u32 = 0;
    for (job, length) in back.iter().zip(lengths) {
        let turns = (*length).max(1);
        let counts = (job.had, ledger.begun(right)) == (turns, turns);
        if job.name == right && job.left == 0 && counts {
            right = right.wrapping_add(1);
        }
    }
    right
}

/// Runs so many jobs of random lengths. Answers how many came back right, and how many calls came out of turn.
fn outcome<R: Threads + Wait + Sync>(
    rt: &R,
    alloc: Global,
    jobs: u32,
    workers: u32,
) -> Result<(u32, u64), AllocError>
    requires { 0 < workers }
{
    let lengths = lengths(alloc, jobs)?;
    let ledger = Ledger::new(alloc, jobs)?;
    let list = jobs_of(alloc, lengths.as_slice())?;
    if list.len() > 1000 {
        return Ok((0, 0));
    }
    match run_pool(rt, alloc, list, &ledger, workers, &ledger) {
        Ok(back) => {
            let right = right_ones(back.as_slice(), lengths.as_slice(), &ledger);
            Ok((right, ledger.wrong()))
        }
        Err(_) => Err(AllocError),
    }
}

#[test]
fn each_job_is_over_once_and_in_its_place(rt: HostRuntime) -> Result<(), Fail> {
    for (jobs, workers) in [(1000, 1), (1000, 3), (1000, 16), (0, 2), (1, 16), (16, 16)] {
        assert_eq!(rt;
            outcome(&rt, rt.alloc(), jobs, workers)?,
            (jobs, 0),
            "{workers} workers"
        );
    }
    Ok(())
}
