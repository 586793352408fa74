//! How the finished jobs are put in the order given.
ghost use Rattle.std.specs.Prelude.{◌≡◌, ◌<◌, ◌≤◌, ℕ, [], length, vec_capacity};
ghost use mathlib.Core.Option.{some};
ghost use lib.ListN.{get_elem?};
ghost use Rattle.crossbeam_queue.specs.Passes.{view, IsPassOf};
ghost use Rattle.rank_pool.specs.Places.{every};
ghost use Rattle.rank_pool.specs.Jobs.{AllOver, IsBack, IsHome, IsIn, Works};

use crate::job::Job;
use crate::rule::{JobPass, JobQueue, Whole};
use crate::ticket::Ticket;
use crate::worker::Worker;
use std::collections::LinkedList;

/// Lays each job into the slot of its number.
fn lay<J: Job>(
    pass: &JobPass<J>,
    shared: &J::Shared,
    finished: LinkedList<Ticket<J>>,
    slots: Vec<Option<J>>,
) -> Vec<Option<J>>
    requires each { AllOver J.which J.belongs J.over (view pass.now).entered finished }
    requires home { IsHome J.which J.belongs shared.now (view pass.now).entered }
    requires slots { length slots.items ≡ length (view pass.now).entered }
    ensures len { length result.items ≡ length (view pass.now).entered }
    ensures laid { (i : ℕ) (x : _) → get_elem? finished i ≡ some x
        → IsIn J.which J.belongs J.over shared.now (view pass.now).entered result.items x.number }
{
    // The contract alone speaks of the pass.
    let _ = pass;
    // The contract alone speaks of the shared values.
    let _ = shared;
    let mut row = slots;
    for ticket in finished {
        row[ticket.number as usize] = Some(ticket.job);
    }
    row
}

/// Takes the jobs out of the slots.
fn take<J: Job>(pass: &JobPass<J>, shared: &J::Shared, slots: Vec<Option<J>>, out: Vec<J>) -> Vec<J>
    requires slots { (k : ℕ) → k < length slots.items
        → IsIn J.which J.belongs J.over shared.now (view pass.now).entered slots.items k }
    requires out { (out.items ≡ []) × (length slots.items ≤ vec_capacity out) }
    ensures len { length result.items ≡ length slots.items }
    ensures back { (k : ℕ) (j : J) → get_elem? result.items k ≡ some j
        → IsBack J.which J.belongs J.over shared.now (view pass.now).entered k j }
{
    // The contract alone speaks of the pass.
    let _ = pass;
    // The contract alone speaks of the shared values.
    let _ = shared;
    let mut jobs = out;
    for slot in slots {
        match slot {
            Some(job) => jobs.push_reserved(job),
            None => unreachable!(),
        }
    }
    jobs
}

/// The jobs in the order in which they were entered, where all are finished.
pub(crate) fn in_order<J: Job>(
    queue: &JobQueue<J>,
    collector: Worker<J>,
    shared: &J::Shared,
    slots: Vec<Option<J>>,
    out: Vec<J>,
) -> Vec<J>
    requires queue { IsPassOf queue.now collector.pass }
    requires every { (view collector.pass).parts ≡ every }
    requires works { Works J.which J.belongs J.over shared.now (view collector.pass) collector.finished [] }
    requires all { length collector.finished ≡ length (view collector.pass).entered }
    requires slots { length slots.items ≡ length (view collector.pass).entered }
    requires out { (out.items ≡ []) × (length (view collector.pass).entered ≤ vec_capacity out) }
    ensures len { length result.items ≡ length (view collector.pass).entered }
    ensures back { (k : ℕ) (j : J) → get_elem? result.items k ≡ some j
        → IsBack J.which J.belongs J.over shared.now (view collector.pass).entered k j }
{
    let Worker {
        mut pass,
        finished,
        ..
    } = collector;
    // Each job is among the finished ones, for the proof.
    queue.learn_as::<Whole<J>>(&mut pass);
    let row = lay(&pass, shared, finished, slots);
    take(&pass, shared, row, out)
}
