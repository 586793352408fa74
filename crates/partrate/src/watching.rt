//! The threads that watch.

ghost use Rattle.std.specs.Prelude.{◌≤◌, IfOk};
ghost use Rattle.pair_rule.specs.Seats.{IsOf};
ghost use Rattle.part_geometry.specs.declared.TheConstants.{LAST_ROUND};

use crate::fault::Fault;
use crate::plan::run_of;
use crate::shared::{Looks, Shared};
use pair_rule::AnyBytes;
use part_recv::{Look, Watcher};
use std::sync::Wait;

/// Looks at a receive partition until it has arrived in a round, or has given way to a later one.
fn watch<R: Wait>(
    rt: &R,
    shared: &Shared,
    watcher: &mut Watcher<AnyBytes>,
    round: u32,
    partition: u32,
) -> Result<(), Fault>
    requires pair { IsOf watcher.old.table watcher.old.view shared.now.pair }
    requires round { (1 ≤ round) × (round ≤ LAST_ROUND) }
    ensures { IsOf watcher.new.table watcher.new.view shared.now.pair }
{
    let mut looks = Looks::new();
    for _ in rt.forever() {
        match watcher.parrived(&shared.pair, round, partition) {
            Look::Arrived | Look::Past { shown: _ } => return Ok(()),
            Look::NotYet { piece: _, shown: _ } => looks.pause(shared)?,
            Look::BadPartition => return Err(Fault::NotWatched),
        }
    }
    unreachable!()
}

/// Watches the partitions of watching thread `number` in all rounds. Gives the watcher back.
pub fn watch_all<R: Wait>(
    rt: &R,
    shared: &Shared,
    number: u32,
    mut watcher: Watcher<AnyBytes>,
) -> Result<Watcher<AnyBytes>, Fault>
    requires { IsOf watcher.table watcher.view shared.now.pair }
    ensures { IfOk result (λ w. IsOf w.table w.view shared.now.pair) }
{
    let count = shared.plan.geometry.recv_parts();
    let (first, end) = run_of(number, shared.plan.watchers, count);
    for round in 1..=shared.plan.rounds {
        for partition in first..end {
            watch(rt, shared, &mut watcher, round, partition)?;
        }
    }
    Ok(watcher)
}
