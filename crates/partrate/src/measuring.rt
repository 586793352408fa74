//! A run: its threads, and what they came to.

ghost use Rattle.std.specs.Prelude.{◌≡◌, IfOk};
ghost use Rattle.pair_rule.specs.Seats.{IsOf};

use crate::fault::Fault;
use crate::plan::Plan;
use crate::receiving::{Receiving, receive_all};
use crate::shared::Shared;
use crate::threads::{join_markers, join_watchers, start_markers, start_sender, start_watchers};
use crate::times::Times;
use crossbeam_utils::CachePadded;
use crossbeam_utils::atomic::AtomicCell;
use pair_rule::{AnyBytes, Closed, Pair};
use part_recv::{RecvEnd, first_laws};
use part_send::SendEnd;
use std::alloc::Global;
use std::sync::{OnceLock, Wait};
use std::thread;
use std::thread::{Scope, Threads};
use std::time::{Clock, Duration, Instant};

/// What was measured.
#[derive(Drop)]
pub struct Figures {
    /// Rounds a second.
    pub rounds: f64,
    /// Marks a second.
    pub marks: f64,
    /// Bytes a second.
    pub bytes: f64,
    /// How long after its mark began the first receive partition was taken.
    pub first: Duration,
    /// Rounds a second in the quickest twentieth of a long run.
    pub quick: Option<f64>,
}

/// What a run came to.
#[derive(Drop)]
struct Ended {
    send: SendEnd<AnyBytes>,
    recv: RecvEnd<AnyBytes>,
    sent: u64,
    took: Duration,
    marked: Times,
    taken: Times,
}

/// Runs all threads, of which this one receives, until they have ended.
fn run<'s, 'e: 's, R: Clock + Threads + Wait + Sync>(
    scope: &Scope<'s, &'e ()>,
    rt: &'e R,
    alloc: Global,
    shared: &'e Shared,
    mut send: SendEnd<AnyBytes>,
    mut recv: RecvEnd<AnyBytes>,
) -> Result<Ended, Fault>
    requires send { IsOf send.table send.view shared.now.pair × (send.view.send.markers ≡ 0) }
    requires recv { IsOf recv.table recv.view shared.now.pair × (recv.view.recv.watchers ≡ 0) }
    ensures { IfOk result (λ e. IsOf e.send.table e.send.view shared.now.pair
        × IsOf e.recv.table e.recv.view shared.now.pair) }
{
    let marker = send.marker(&shared.pair);
    let markers = start_markers(scope, rt, alloc, shared, &mut send)?;
    let watchers = start_watchers(scope, rt, alloc, shared, &mut recv)?;
    let sender = start_sender(scope, rt, alloc, shared, send, marker)?;
    let start = Instant::now(rt).map_err(|_| Fault::NoClock)?;
    let Receiving { mut end, times } = receive_all(rt, alloc, shared, recv)?;
    let took = start.elapsed(rt).map_err(|_| Fault::NoClock)?;
    join_watchers(rt, &shared.pair, &mut end, watchers)?;
    let sending = sender.join(rt)?;
    let (send, sent, marked) = join_markers(rt, &shared.pair, sending, markers)?;
    Ok(Ended {
        send,
        recv: end,
        sent,
        took,
        marked,
        taken: times,
    })
}

/// Ends the pair, where both ends are inactive and have their threads back.
fn close(
    pair: Pair<AnyBytes>,
    send: SendEnd<AnyBytes>,
    recv: RecvEnd<AnyBytes>,
) -> Result<Closed, Fault>
    requires send { IsOf send.table send.view pair }
    requires recv { IsOf recv.table recv.view pair }
{
    if send.is_active() || send.markers_out() > 0 || recv.is_active() || recv.watchers_out() > 0 {
        return Err(Fault::NotEnded);
    }
    Ok(pair.close(send.into_seat(), recv.into_seat()))
}

/// Runs all threads over a pair, and gives back what they have done with the pair.
fn run_over<R: Clock + Threads + Wait + Sync>(
    rt: &R,
    alloc: Global,
    shared: &Shared,
    send: SendEnd<AnyBytes>,
    recv: RecvEnd<AnyBytes>,
) -> Result<Ended, Fault>
    requires send { IsOf send.table send.view shared.now.pair × (send.view.send.markers ≡ 0) }
    requires recv { IsOf recv.table recv.view shared.now.pair × (recv.view.recv.watchers ≡ 0) }
    ensures { IfOk result (λ e. IsOf e.send.table e.send.view shared.now.pair
        × IsOf e.recv.table e.recv.view shared.now.pair) }
{
    thread::scope(
        thread::scope_env(),
        rt,
        |scope| -> Result<Ended, Fault>
            requires { IsOf send.table send.view shared.now.pair × (send.view.send.markers ≡ 0)
                × IsOf recv.table recv.view shared.now.pair × (recv.view.recv.watchers ≡ 0) }
            ensures { IfOk result (λ e. IsOf e.send.table e.send.view shared.entry.now.pair
                × IsOf e.recv.table e.recv.view shared.entry.now.pair) }
        { shared.told(run(scope, rt, alloc, shared, send, recv)) },
    )
}

/// Runs a plan's rounds over a new pair, and tells how fast they were.
pub fn measure<R: Clock + Threads + Wait + Sync>(
    rt: &R,
    alloc: Global,
    plan: Plan,
) -> Result<Figures, Fault> {
    first_laws();
    let (pair, send, recv) = Pair::<AnyBytes>::create(alloc, plan.geometry, ())?;
    let send = SendEnd::from_seat(&pair, send);
    let recv = RecvEnd::from_seat(&pair, recv);
    let mut reached = Vec::new(alloc);
    for _ in 0..plan.markers {
        reached.push(CachePadded::new(AtomicCell::new(0u32)))?;
    }
    // On the heap, apart from what this thread writes while the others read it.
    let shared = Box::new(
        alloc,
        Shared {
            pair,
            plan,
            begun: Instant::now(rt).map_err(|_| Fault::NoClock)?,
            fault: OnceLock::new(),
            reached,
        },
    )?;
    let ended = run_over(rt, alloc, &shared, send, recv)?;
    let Shared {
        pair,
        plan,
        begun: _,
        fault: _,
        reached: _,
    } = Box::into_inner(shared);
    let closed = close(pair, ended.send, ended.recv)?;
    let (sent, closed) = (ended.sent, closed.pieces_out());
    if sent != closed {
        return Err(Fault::WrongPieces { sent, closed });
    }
    figures_of(alloc, &plan, ended.took, &ended.marked, &ended.taken)
}

/// The figures of a run that took so long.
fn figures_of(
    alloc: Global,
    plan: &Plan,
    took: Duration,
    marked: &Times,
    taken: &Times,
) -> Result<Figures, Fault> {
    let rounds = f64::from(plan.rounds) / took.as_secs_f64();
    let marks = f64::from(plan.geometry.send_parts());
    Ok(Figures {
        rounds,
        marks: rounds * marks,
        bytes: rounds * marks * f64::from(plan.geometry.send_bytes()),
        first: taken.median_after(alloc, marked)?,
        quick: taken.quick(alloc)?,
    })
}
