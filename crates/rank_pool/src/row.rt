//! How the jobs are moved into tickets before a run, each in a block of memory of its own.
ghost use Rattle.std.specs.Prelude.{◌≡◌, ◌≤◌, ◌+◌, ◌<◌, ◌^◌, [], ◌++◌, length, map, All, vec_len, vec_capacity};
ghost use Rattle.std.specs.Prelude.{IfOk, OnOk, OnErr};
ghost use Rattle.rank_pool.specs.Jobs.{Waits};

use crate::job::Job;
use crate::ticket::Ticket;
use std::alloc::{AllocError, Global};
use std::collections::LinkedList;
use std::snapshot::Snapshot;

/// Puts the jobs of a row behind those of the list.
fn put_back<J: Job>(jobs: &mut Vec<J>, row: LinkedList<Ticket<J>>)
    requires room { vec_len jobs.old + length row ≤ vec_capacity jobs.old }
    ensures items { jobs.new.items ≡ jobs.old.items ++ map (λ x. x.job) row }
{
    for ticket in row {
        jobs.push_reserved(ticket.job);
    }
}

/// Moves the jobs into tickets, numbered by their places in the list. Where there is no memory for them all, the list
/// has all jobs again.
pub(crate) fn into_row<J: Job>(
    alloc: Global,
    jobs: &mut Vec<J>,
    shared: &J::Shared,
) -> Result<LinkedList<Ticket<J>>, AllocError>
    requires few { vec_len jobs.old < 2 ^ 32 }
    requires belongs { All (λ j. J.belongs j shared.now) jobs.old.items }
    ensures jobs { IfOk result (λ row. map (λ x. x.job) row ≡ jobs.old.items) }
    ensures waits { IfOk result (λ row. Waits J.which J.belongs shared.now 0 row) }
    ensures emptied { OnOk result ((jobs.new.items ≡ []) × (vec_capacity jobs.new ≡ vec_capacity jobs.old)) }
    ensures refused { OnErr result (jobs.new.items ≡ jobs.old.items) }
{
    let mut row = LinkedList::new(alloc);
    for _ in 0..jobs.len() {
        let Some(job) = jobs.pop() else {
            unreachable!()
        };
        let ticket = Ticket {
            number: jobs.len() as u32,
            turn: 0,
            job,
            home: Snapshot::of(shared),
        };
        match row.push_front(ticket) {
            Ok(()) => {}
            Err(refused) => {
                jobs.push_reserved(refused.value.job);
                put_back(jobs, row);
                return Err(AllocError);
            }
        }
    }
    Ok(row)
}
