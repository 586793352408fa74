//! The threads that mark, of which one starts and tests the rounds.

ghost use Rattle.std.specs.Prelude.{◌≡◌, IfOk};
ghost use Rattle.pair_rule.specs.Seats.{IsOf};

use crate::bytes::fill;
use crate::fault::Fault;
use crate::plan::{Plan, run_of};
use crate::shared::{Looks, Shared, wait_for};
use crate::times::Times;
use pair_rule::AnyBytes;
use part_send::{Marker, ReadyRefusal, SendEnd, SendTest};
use std::alloc::Global;
use std::sync::Wait;
use std::thread;
use std::time::{Clock, Duration};

/// What a marking thread has done.
#[derive(Drop)]
pub struct Marking {
    /// Its marker, which goes back to the send end.
    pub marker: Marker<AnyBytes>,
    /// How many pieces its marks have sent out.
    pub sent: u64,
    /// When it marked the last partition over the first receive partition, if it has that one.
    pub times: Times,
}

impl Marking {
    /// Nothing is marked yet.
    fn new(alloc: Global, plan: &Plan, marker: Marker<AnyBytes>) -> Result<Marking, Fault>
        ensures { IfOk result (λ m. m.marker ≡ marker) }
    {
        let times = Times::new(alloc, plan.rounds)?;
        Ok(Marking {
            marker,
            sent: 0,
            times,
        })
    }
}

/// What the sending thread has done.
#[derive(Drop)]
pub struct Sending {
    /// The send end.
    pub end: SendEnd<AnyBytes>,
    /// What it has marked.
    pub marking: Marking,
}

/// Which partitions a thread marks.
#[derive(Drop)]
struct Work {
    first: u32,
    end: u32,
    half: Option<u32>,
    timed: u32,
}

impl Work {
    /// The partitions of marking thread `number`.
    fn of(plan: &Plan, number: u32) -> Work {
        let (first, end) = run_of(number, plan.markers, plan.geometry.send_parts());
        Work {
            first,
            end,
            half: if plan.pause > Duration::ZERO {
                Some(first.midpoint(end))
            } else {
                None
            },
            timed: plan.last_over_first(),
        }
    }
}

/// Marks a partition with bytes in a round, once the round is open. Answers how many pieces went out by the mark.
fn mark<R: Wait>(
    rt: &R,
    shared: &Shared,
    marker: &mut Marker<AnyBytes>,
    round: u32,
    partition: u32,
    bytes: &[u8],
) -> Result<u32, Fault>
    requires { IsOf marker.old.table marker.old.view shared.now.pair }
    ensures { IsOf marker.new.table marker.new.view shared.now.pair }
{
    let mut looks = Looks::new();
    for _ in rt.forever() {
        match marker.pready(&shared.pair, round, partition, bytes) {
            Ok(marked) => return Ok(marked.sent),
            Err(ReadyRefusal::NotActive { shown: _ }) => looks.pause(shared)?,
            Err(refusal) => return Err(Fault::NotMarked(refusal)),
        }
    }
    unreachable!()
}

/// Tests the sender until its round is over.
fn finish<R: Wait>(rt: &R, shared: &Shared, end: &mut SendEnd<AnyBytes>) -> Result<(), Fault>
    requires { IsOf end.old.table end.old.view shared.now.pair }
    ensures { IsOf end.new.table end.new.view shared.now.pair }
{
    let mut looks = Looks::new();
    for _ in rt.forever() {
        match end.test(&shared.pair) {
            SendTest::Done => return Ok(()),
            SendTest::Idle => return Err(Fault::NotSent(SendTest::Idle)),
            _ => looks.pause(shared)?,
        }
    }
    unreachable!()
}

/// Fills and marks the thread's partitions in a round.
fn mark_round<R: Wait + Clock>(
    rt: &R,
    shared: &Shared,
    work: &Work,
    marking: &mut Marking,
    bytes: &mut [u8],
    round: u32,
) -> Result<(), Fault>
    requires { IsOf marking.old.marker.table marking.old.marker.view shared.now.pair }
    ensures { IsOf marking.new.marker.table marking.new.marker.view shared.now.pair }
{
    for partition in work.first..work.end {
        if work.half == Some(partition) {
            thread::sleep(rt, shared.plan.pause);
        }
        fill(bytes, shared.plan.sent_place(partition), round);
        if partition == work.timed {
            marking.times.note(rt, shared.begun, round)?;
        }
        let sent = mark(rt, shared, &mut marking.marker, round, partition, bytes)?;
        marking.sent = marking.sent.saturating_add(u64::from(sent));
    }
    Ok(())
}

/// Marks the partitions of marking thread `number` in all rounds.
pub fn mark_all<R: Wait + Clock>(
    rt: &R,
    alloc: Global,
    shared: &Shared,
    number: u32,
    marker: Marker<AnyBytes>,
) -> Result<Marking, Fault>
    requires { IsOf marker.table marker.view shared.now.pair }
    ensures { IfOk result (λ m. IsOf m.marker.table m.marker.view shared.now.pair) }
{
    let work = Work::of(&shared.plan, number);
    let mut bytes = vec![in alloc; 0u8; shared.plan.geometry.send_bytes() as usize]?;
    let mut marking = Marking::new(alloc, &shared.plan, marker)?;
    for round in 1..=shared.plan.rounds {
        if work.first < work.end {
            wait_for(rt, shared, 0, round)?;
        }
        mark_round(rt, shared, &work, &mut marking, &mut bytes, round)?;
        shared.tell(number, round);
    }
    Ok(marking)
}

/// Starts all rounds, marks the partitions of marking thread 0 in them, and tests each until it is over.
pub fn send_all<R: Wait + Clock>(
    rt: &R,
    alloc: Global,
    shared: &Shared,
    mut sender: SendEnd<AnyBytes>,
    marker: Marker<AnyBytes>,
) -> Result<Sending, Fault>
    requires sender { IsOf sender.table sender.view shared.now.pair }
    requires marker { IsOf marker.table marker.view shared.now.pair }
    ensures { IfOk result (λ s. IsOf s.end.table s.end.view shared.now.pair
        × IsOf s.marking.marker.table s.marking.marker.view shared.now.pair) }
{
    let work = Work::of(&shared.plan, 0);
    let mut bytes = vec![in alloc; 0u8; shared.plan.geometry.send_bytes() as usize]?;
    let mut marking = Marking::new(alloc, &shared.plan, marker)?;
    for _ in 0..shared.plan.rounds {
        let round = sender.start(&shared.pair).map_err(Fault::NotStarted)?;
        if shared.plan.markers > 1 {
            shared.tell(0, round);
        }
        mark_round(rt, shared, &work, &mut marking, &mut bytes, round)?;
        for number in 1..shared.plan.markers {
            wait_for(rt, shared, number, round)?;
        }
        finish(rt, shared, &mut sender)?;
    }
    Ok(Sending {
        end: sender,
        marking,
    })
}
