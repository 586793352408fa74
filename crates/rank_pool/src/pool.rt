//! The call: it takes the memory, runs the workers, and puts the jobs in order.
ghost use Rattle.std.specs.Prelude.{◌≡◌, ◌<◌, ◌≤◌, ◌^◌, true, [], length, map, All, IfOk, IfErr, vec_len, vec_capacity};
ghost use Rattle.crossbeam_queue.specs.Passes.{view, IsPassOf};
ghost use Rattle.rank_pool.specs.Jobs.{Waits, Works};
ghost use Rattle.rank_pool.specs.Places.{every, knows};

use crate::job::{Gate, Job};
use crate::order::in_order;
use crate::row::into_row;
use crate::rule::{JobPass, JobQueue};
use crate::threads::{deal, enter_all, gather, run_workers};
use crate::ticket::Ticket;
use crate::worker::{FEWEST_TURNS, Worker, serve};
use std::alloc::{AllocError, Global};
use std::collections::LinkedList;
use std::sync::Wait;
use std::thread::Threads;

/// There is no memory for a run. No job had a turn.
#[derive(Drop)]
pub struct PoolRefused<J> {
    /// All jobs, in the order given.
    pub jobs: Vec<J>,
}

/// The memory of a run, beside the blocks of the tickets.
#[derive(Drop)]
struct Rooms<J: Job> {
    queue: JobQueue<J>,
    pass: JobPass<J>,
    seats: Vec<Worker<J>>,
    slots: Vec<Option<J>>,
}

fn slots_of<J: Drop>(alloc: Global, count: usize) -> Result<Vec<Option<J>>, AllocError>
    ensures { IfOk result (λ v. vec_len v ≡ count) }
{
    let mut slots = Vec::with_capacity(alloc, count)?;
    for _ in 0..count {
        slots.push_reserved(None);
    }
    Ok(slots)
}

fn rooms_of<J: Job>(alloc: Global, count: usize, workers: usize) -> Result<Rooms<J>, AllocError>
    requires { 0 < count }
    ensures queue { IfOk result (λ s. IsPassOf s.queue s.pass × (view s.pass ≡ knows every [] [] [])) }
    ensures seats { IfOk result (λ s. (s.seats.items ≡ []) × (workers ≤ vec_capacity s.seats)) }
    ensures slots { IfOk result (λ s. vec_len s.slots ≡ count) }
{
    let (queue, pass) = JobQueue::<J>::ruled(alloc, count)?;
    let seats = Vec::with_capacity(alloc, workers)?;
    let slots = slots_of(alloc, count)?;
    Ok(Rooms {
        queue,
        pass,
        seats,
        slots,
    })
}

/// The collector serves on until it has all jobs. Where the workers left none, it has no more to do.
fn settle<J: Job, G: Gate, R: Wait>(
    rt: &R,
    queue: &JobQueue<J>,
    collector: &mut Worker<J>,
    count: usize,
    shared: &J::Shared,
    gate: &G,
)
    requires queue { IsPassOf queue.now collector.old.pass }
    requires works { Works J.which J.belongs J.over shared.now (view collector.old.pass) collector.old.finished [] }
    ensures queue { IsPassOf queue.now collector.new.pass }
    ensures works { Works J.which J.belongs J.over shared.now (view collector.new.pass) collector.new.finished [] }
    ensures same { ((view collector.new.pass).parts ≡ (view collector.old.pass).parts)
        × ((view collector.new.pass).entered ≡ (view collector.old.pass).entered) }
    ensures all { length collector.new.finished ≡ count }
{
    for _ in rt.forever() {
        if collector.finished.len() == count {
            break;
        }
        serve(rt, queue, collector, shared, gate);
    }
}

/// Runs the jobs of a row, and lays them into a list that has room for them.
fn run_in<J: Job, G: Gate, R: Threads + Wait + Sync>(
    rt: &R,
    alloc: Global,
    rooms: Rooms<J>,
    row: LinkedList<Ticket<J>>,
    out: Vec<J>,
    workers: usize,
    shared: &J::Shared,
    gate: &G,
) -> Vec<J>
    requires few { (0 < workers) × (workers < 2 ^ 32) × (length row < 2 ^ 32) }
    requires waits { Waits J.which J.belongs shared.now 0 row }
    requires queue { IsPassOf rooms.queue rooms.pass × (view rooms.pass ≡ knows every [] [] []) }
    requires seats { (rooms.seats.items ≡ []) × (workers ≤ vec_capacity rooms.seats) }
    requires slots { vec_len rooms.slots ≡ length row }
    requires out { (out.items ≡ []) × (length row ≤ vec_capacity out) }
    ensures order { map J.which result.items ≡ map (λ x. J.which x.job) row }
    ensures over { All (λ j. J.over j ≡ true) result.items }
    ensures belongs { All (λ j. J.belongs j shared.now) result.items }
{
    let Rooms {
        queue,
        mut pass,
        seats,
        slots,
    } = rooms;
    let count = row.len();
    enter_all(rt, &queue, &mut pass, row, shared);
    let mut crew = deal(alloc, &queue, &mut pass, seats, workers, shared);
    run_workers(rt, &queue, crew.as_mut_slice(), shared, gate, count as u64);
    let mut collector = Worker {
        pass,
        finished: LinkedList::new(alloc),
        turns: FEWEST_TURNS,
    };
    gather(&queue, &mut collector, crew, shared);
    settle(rt, &queue, &mut collector, count, shared, gate);
    in_order(&queue, collector, shared, slots, out)
}

/// Gives all jobs turns, in as many workers, until each is over, and answers the jobs in the order given. A worker
/// takes the job at the front of a queue, gives it some turns behind the gate, and puts it at the back, so no job is
/// bound to a worker. It tries to put it back after 2 turns, or after up to 16 where workers often meet at the queue;
/// where another one is in the way, the job gets further turns. There are no more workers than jobs that aren't over:
/// where one has finished a job and each of the others has a worker, it ends. A worker whose thread can't be started
/// is run by the caller.
///
/// All memory is taken before the first turn; it grows with the jobs, and not with the workers times the jobs. Where
/// there is none, `PoolRefused` hands all jobs back without a turn. The call returns once all jobs are over, and may
/// wait for as long as a job or the gate does.
pub fn run_pool<J: Job, G: Gate, R: Threads + Wait + Sync>(
    rt: &R,
    alloc: Global,
    jobs: Vec<J>,
    shared: &J::Shared,
    workers: u32,
    gate: &G,
) -> Result<Vec<J>, PoolRefused<J>>
    requires workers { 0 < workers }
    requires few { vec_len jobs < 2 ^ 32 }
    requires belongs { All (λ j. J.belongs j shared.now) jobs.items }
    ensures order { IfOk result (λ v. map J.which v.items ≡ map J.which jobs.items) }
    ensures over { IfOk result (λ v. All (λ j. J.over j ≡ true) v.items) }
    ensures belongs { IfOk result (λ v. All (λ j. J.belongs j shared.now) v.items) }
    ensures refused { IfErr result (λ e. e.jobs.items ≡ jobs.items) }
{
    let count = jobs.len();
    if count == 0 {
        return Ok(jobs);
    }
    let workers = count.min(workers as usize);
    let Ok(rooms) = rooms_of(alloc, count, workers) else {
        return Err(PoolRefused { jobs });
    };
    let mut list = jobs;
    match into_row(alloc, &mut list, shared) {
        Ok(row) => Ok(run_in(rt, alloc, rooms, row, list, workers, shared, gate)),
        Err(_) => Err(PoolRefused { jobs: list }),
    }
}
