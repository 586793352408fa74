//! What a worker does: it takes a job, gives it some turns, and puts it back or keeps it as finished.
ghost use Rattle.std.specs.Prelude.{◌≡◌, true, [], ◌∷◌, if◌then◌else◌};
ghost use Rattle.crossbeam_queue.specs.Passes.{view, IsPassOf};
ghost use Rattle.rank_pool.specs.Jobs.{IsListed, Works};

use crate::job::{Gate, Job, JobTurn};
use crate::rule::{JobPass, JobQueue, Notes, Puts, Room, Takes};
use crate::ticket::{Parcel, Ticket};
use crossbeam_utils::Backoff;
use std::collections::LinkedList;
use std::sync::Wait;
use std::sync::atomic::{AtomicU64, Ordering};

/// How many turns a worker gives a job at least before it tries to put it back.
pub(crate) const FEWEST_TURNS: u32 = 2;

/// How many turns a worker gives a job at most before it tries to put it back.
const MOST_TURNS: u32 = 16;

/// A worker's pass, the jobs that it has finished, and how many turns it gives a job before it tries to put it back.
#[derive(Drop)]
pub struct Worker<J: Job> {
    pub pass: JobPass<J>,
    pub finished: LinkedList<Ticket<J>>,
    pub turns: u32,
}

/// Keeps a job that is over.
fn finish<J: Job>(
    queue: &JobQueue<J>,
    worker: &mut Worker<J>,
    ticket: Parcel<J>,
    shared: &J::Shared,
)
    requires queue { IsPassOf queue.now worker.old.pass }
    requires works { Works J.which J.belongs J.over shared.now (view worker.old.pass) worker.old.finished
        (ticket.number ∷ []) }
    requires listed { IsListed J.which J.belongs (view worker.old.pass).entered ticket }
    requires over { J.over ticket.job ≡ true }
    ensures queue { IsPassOf queue.now worker.new.pass }
    ensures works { Works J.which J.belongs J.over shared.now (view worker.new.pass) worker.new.finished [] }
    ensures same { ((view worker.new.pass).parts ≡ (view worker.old.pass).parts)
        × ((view worker.new.pass).entered ≡ (view worker.old.pass).entered) }
{
    // The contract alone speaks of the shared values.
    let _ = shared;
    // The finished ones have room in one list, for the proof.
    queue.learn_as::<Room>(&mut worker.pass);
    // The pass notes that the job is finished, for the proof. The new one knows nothing, and goes.
    let _ = queue.another::<Notes>(&mut worker.pass);
    ticket.chain(&mut worker.finished);
}

/// Gives a job turns until the queue takes it, or until it is over. Answers whether it is over. Where another worker
/// is in the way of the push, the job gets its next turns, and twice as many: so a queue at which many workers meet is
/// asked less often, and nobody waits for it. Each push that goes through takes one of them away again.
fn carry<J: Job, G: Gate, R: Wait>(
    rt: &R,
    queue: &JobQueue<J>,
    worker: &mut Worker<J>,
    first: Parcel<J>,
    shared: &J::Shared,
    gate: &G,
) -> bool
    requires queue { IsPassOf queue.now worker.old.pass }
    requires works { Works J.which J.belongs J.over shared.now (view worker.old.pass) worker.old.finished
        (first.number ∷ []) }
    requires listed { IsListed J.which J.belongs (view worker.old.pass).entered first }
    ensures queue { IsPassOf queue.now worker.new.pass }
    ensures works { Works J.which J.belongs J.over shared.now (view worker.new.pass) worker.new.finished [] }
    ensures same { ((view worker.new.pass).parts ≡ (view worker.old.pass).parts)
        × ((view worker.new.pass).entered ≡ (view worker.old.pass).entered) }
{
    let mut ticket = first;
    for _ in rt.forever() {
        match ticket.take_turns(worker.turns, shared, gate) {
            JobTurn::Over => {
                finish(queue, worker, ticket, shared);
                return true;
            }
            JobTurn::More => match queue.try_push_as::<Puts>(&mut worker.pass, ticket) {
                Ok(()) => {
                    worker.turns = worker.turns.saturating_sub(1).max(FEWEST_TURNS);
                    return false;
                }
                Err(back) => {
                    worker.turns = worker.turns.saturating_mul(2).min(MOST_TURNS);
                    ticket = back;
                }
            },
        }
    }
    unreachable!()
}

/// Takes the job at the front of the queue. Where it is empty, or another worker is in the way, it looks again, first
/// after some pauses and then after other threads had the processor.
fn next_job<J: Job, R: Wait>(
    rt: &R,
    queue: &JobQueue<J>,
    worker: &mut Worker<J>,
    shared: &J::Shared,
) -> Parcel<J>
    requires queue { IsPassOf queue.now worker.old.pass }
    requires works { Works J.which J.belongs J.over shared.now (view worker.old.pass) worker.old.finished [] }
    ensures queue { IsPassOf queue.now worker.new.pass }
    ensures works { Works J.which J.belongs J.over shared.now (view worker.new.pass) worker.new.finished
        (result.number ∷ []) }
    ensures listed { IsListed J.which J.belongs (view worker.new.pass).entered result }
    ensures same { ((view worker.new.pass).parts ≡ (view worker.old.pass).parts)
        × ((view worker.new.pass).entered ≡ (view worker.old.pass).entered) }
{
    // The contract alone speaks of the shared values.
    let _ = shared;
    let backoff = Backoff::new();
    for _ in rt.forever() {
        match queue.try_pop_as::<Takes>(&mut worker.pass) {
            Some(ticket) => return ticket,
            None => backoff.snooze(),
        }
    }
    unreachable!()
}

/// Takes the job at the front of the queue and gives it turns. Answers whether it has finished a job by that.
pub(crate) fn serve<J: Job, G: Gate, R: Wait>(
    rt: &R,
    queue: &JobQueue<J>,
    worker: &mut Worker<J>,
    shared: &J::Shared,
    gate: &G,
) -> bool
    requires queue { IsPassOf queue.now worker.old.pass }
    requires works { Works J.which J.belongs J.over shared.now (view worker.old.pass) worker.old.finished [] }
    ensures queue { IsPassOf queue.now worker.new.pass }
    ensures works { Works J.which J.belongs J.over shared.now (view worker.new.pass) worker.new.finished [] }
    ensures same { ((view worker.new.pass).parts ≡ (view worker.old.pass).parts)
        × ((view worker.new.pass).entered ≡ (view worker.old.pass).entered) }
{
    let ticket = next_job(rt, queue, worker, shared);
    carry(rt, queue, worker, ticket, shared, gate)
}

/// Serves until a job ends and all the others have a worker. `claimed` counts the jobs that have one: each worker
/// begins with one of them, and claims another whenever it has finished one. So there are never more workers than
/// jobs that are not over, and no worker has to look for work.
pub(crate) fn work<J: Job, G: Gate, R: Wait>(
    rt: &R,
    queue: &JobQueue<J>,
    worker: &mut Worker<J>,
    shared: &J::Shared,
    gate: &G,
    claimed: &AtomicU64,
    count: u64,
)
    requires queue { IsPassOf queue.now worker.old.pass }
    requires works { Works J.which J.belongs J.over shared.now (view worker.old.pass) worker.old.finished [] }
    ensures queue { IsPassOf queue.now worker.new.pass }
    ensures works { Works J.which J.belongs J.over shared.now (view worker.new.pass) worker.new.finished [] }
    ensures same { ((view worker.new.pass).parts ≡ (view worker.old.pass).parts)
        × ((view worker.new.pass).entered ≡ (view worker.old.pass).entered) }
{
    for _ in rt.forever() {
        if serve(rt, queue, worker, shared, gate)
            && claimed.fetch_add(1, Ordering::SeqCst) >= count
        {
            return;
        }
    }
    unreachable!()
}
