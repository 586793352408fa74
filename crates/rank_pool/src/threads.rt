//! How the jobs enter the queue, and how the workers get their passes, run, and come together again.
ghost use Rattle.std.specs.Prelude.{◌≡◌, ◌<◌, ◌≤◌, ◌+◌, ◌-◌, ◌^◌, [], ℕ, ◌∷◌, ◌++◌};
ghost use Rattle.std.specs.Prelude.{slice_index_or, length, map, All, vec_len, vec_capacity};
ghost use Rattle.crossbeam_queue.specs.Passes.{view, IsPassOf};
ghost use Rattle.rank_pool.specs.Places.{every, knows};
ghost use Rattle.rank_pool.specs.Jobs.{IsHome, Serves, Waits, Works};

use crate::job::{Gate, Job};
use crate::rule::{Deals, Enters, Gathers, JobPass, JobQueue, Room};
use crate::ticket::{Parcel, Ticket};
use crate::worker::{FEWEST_TURNS, Worker, work};
use std::alloc::Global;
use std::collections::LinkedList;
use std::sync::Wait;
use std::sync::atomic::AtomicU64;
use std::thread;
use std::thread::Threads;

/// Puts a job into the queue under the next number.
fn enter<J: Job, R: Wait>(rt: &R, queue: &JobQueue<J>, pass: &mut JobPass<J>, first: Parcel<J>)
    requires queue { IsPassOf queue.now pass.old }
    requires every { (view pass.old).parts ≡ every }
    requires next { first.number ≡ length (view pass.old).entered }
    requires belongs { J.belongs first.job first.home.value }
    ensures queue { IsPassOf queue.now pass.new }
    ensures view { view pass.new
        ≡ knows every ((view pass.old).entered ++ (J.which first.job, first.home.value) ∷ []) (view pass.old).held
        (view pass.old).done }
{
    let mut ticket = first;
    for _ in rt.forever() {
        match queue.try_push_as::<Enters<J>>(pass, ticket) {
            Ok(()) => return,
            Err(back) => ticket = back,
        }
    }
    unreachable!()
}

/// Puts all jobs of a row into the queue, under their places in the list.
pub(crate) fn enter_all<J: Job, R: Wait>(
    rt: &R,
    queue: &JobQueue<J>,
    pass: &mut JobPass<J>,
    tickets: LinkedList<Ticket<J>>,
    shared: &J::Shared,
)
    requires queue { IsPassOf queue.now pass.old }
    requires first { view pass.old ≡ knows every [] [] [] }
    requires waits { Waits J.which J.belongs shared.now 0 tickets }
    ensures queue { IsPassOf queue.now pass.new }
    ensures view { view pass.new ≡ knows every (map (λ x. (J.which x.job, shared.now)) tickets) [] [] }
{
    // The contract alone speaks of the shared values.
    let _ = shared;
    let mut row = tickets;
    for _ in 0..row.len() {
        let ticket = Parcel::unchain(&mut row);
        enter(rt, queue, pass, ticket);
    }
}

/// As many workers as are asked for, each with a pass of its own.
pub(crate) fn deal<J: Job>(
    alloc: Global,
    queue: &JobQueue<J>,
    pass: &mut JobPass<J>,
    seats: Vec<Worker<J>>,
    count: usize,
    shared: &J::Shared,
) -> Vec<Worker<J>>
    requires queue { IsPassOf queue.now pass.old }
    requires parts { count < (view pass.old).parts }
    requires seats { (seats.items ≡ []) × (count ≤ vec_capacity seats) }
    requires few { length (view pass.old).entered < 2 ^ 32 }
    requires home { IsHome J.which J.belongs shared.now (view pass.old).entered }
    ensures queue { IsPassOf queue.now pass.new }
    ensures view { view pass.new
        ≡ knows ((view pass.old).parts - count) (view pass.old).entered (view pass.old).held (view pass.old).done }
    ensures len { vec_len result ≡ count }
    ensures workers { All (λ w. IsPassOf queue.now w.pass
        × Serves J.which J.belongs J.over shared.now (view pass.old).entered (view w.pass) w.finished) result.items }
{
    // The contract alone speaks of the shared values.
    let _ = shared;
    let mut workers = seats;
    for _ in 0..count {
        let theirs = queue.another::<Deals>(pass);
        workers.push_reserved(Worker {
            pass: theirs,
            finished: LinkedList::new(alloc),
            turns: FEWEST_TURNS,
        });
    }
    workers
}

/// Each worker works, in a thread of its own where one can be made, and else in this one.
pub(crate) fn run_workers<J: Job, G: Gate, R: Threads + Wait + Sync>(
    rt: &R,
    queue: &JobQueue<J>,
    workers: &mut [Worker<J>],
    shared: &J::Shared,
    gate: &G,
    count: u64,
)
    requires some { 0 < length workers.old }
    requires workers { All (λ w. IsPassOf queue.now w.pass
        × Works J.which J.belongs J.over shared.now (view w.pass) w.finished []) workers.old }
    ensures workers { (k : ℕ) (d : _) → k < length workers.old
        → IsPassOf queue.now (slice_index_or workers.new k d).pass
        × Works J.which J.belongs J.over shared.now (view (slice_index_or workers.new k d).pass)
        (slice_index_or workers.new k d).finished []
        × ((view (slice_index_or workers.new k d).pass).parts ≡ (view (slice_index_or workers.old k d).pass).parts)
        × ((view (slice_index_or workers.new k d).pass).entered
        ≡ (view (slice_index_or workers.old k d).pass).entered) }
{
    let threads = workers.len();
    let claimed = AtomicU64::new(threads as u64);
    let claims = &claimed;
    thread::for_each_mut(
        rt,
        workers,
        threads,
        &|_, worker: &mut Worker<J>|
            requires { IsPassOf queue.now worker.now.pass
                × Works J.which J.belongs J.over shared.now (view worker.now.pass) worker.now.finished [] }
            ensures { IsPassOf queue.entry.now worker.exit.now.pass
                × Works J.which J.belongs J.over shared.entry.now (view worker.exit.now.pass)
                worker.exit.now.finished []
                × ((view worker.exit.now.pass).parts ≡ (view worker.entry.now.pass).parts)
                × ((view worker.exit.now.pass).entered ≡ (view worker.entry.now.pass).entered) }
        { work(rt, queue, worker, shared, gate, claims, count) },
    );
}

/// The workers' passes and finished jobs join the collector's.
pub(crate) fn gather<J: Job>(
    queue: &JobQueue<J>,
    collector: &mut Worker<J>,
    workers: Vec<Worker<J>>,
    shared: &J::Shared,
)
    requires queue { IsPassOf queue.now collector.old.pass }
    requires works { Works J.which J.belongs J.over shared.now (view collector.old.pass) collector.old.finished [] }
    requires workers { All (λ w. IsPassOf queue.now w.pass
        × Serves J.which J.belongs J.over shared.now (view collector.old.pass).entered (view w.pass) w.finished)
        workers.items }
    ensures queue { IsPassOf queue.now collector.new.pass }
    ensures works { Works J.which J.belongs J.over shared.now (view collector.new.pass) collector.new.finished [] }
    ensures parts { (view collector.new.pass).parts ≡ (view collector.old.pass).parts + vec_len workers }
    ensures entered { (view collector.new.pass).entered ≡ (view collector.old.pass).entered }
{
    // The contract alone speaks of the shared values.
    let _ = shared;
    for worker in workers {
        let Worker {
            pass,
            mut finished,
            ..
        } = worker;
        queue.absorb::<Gathers>(&mut collector.pass, pass);
        // The finished ones have room in one list, for the proof.
        queue.learn_as::<Room>(&mut collector.pass);
        match collector.finished.append(&mut finished) {
            Ok(()) => {}
            Err(_) => unreachable!(),
        }
    }
}
