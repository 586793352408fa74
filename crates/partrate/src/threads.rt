//! The threads of a run: how they are started, and how what they have done is taken back.

ghost use Rattle.std.specs.Prelude.{◌≡◌, All, IfOk};
ghost use Rattle.pair_rule.specs.Seats.{IsOf};

use crate::fault::Fault;
use crate::sending::{Marking, Sending, mark_all, send_all};
use crate::shared::Shared;
use crate::times::Times;
use crate::watching::watch_all;
use pair_rule::{AnyBytes, Pair};
use part_recv::{RecvEnd, Watcher};
use part_send::{Marker, SendEnd};
use std::alloc::Global;
use std::sync::Wait;
use std::thread::{Promise, PromisedHandle, Scope, Threads};
use std::time::Clock;

/// The promise that what a thread gives back is of this pair.
#[derive(Clone, Copy)]
pub struct OfPair<'a>(&'a Pair<AnyBytes>);

impl<'a> Promise<Result<Sending, Fault>> for OfPair<'a> {
    ghost kept_by = { λ p r. IfOk r (λ s. IsOf s.end.table s.end.view p.0.now
        × IsOf s.marking.marker.table s.marking.marker.view p.0.now) };
}

impl<'a> Promise<Result<Marking, Fault>> for OfPair<'a> {
    ghost kept_by = { λ p r. IfOk r (λ m. IsOf m.marker.table m.marker.view p.0.now) };
}

impl<'a> Promise<Result<Watcher<AnyBytes>, Fault>> for OfPair<'a> {
    ghost kept_by = { λ p r. IfOk r (λ w. IsOf w.table w.view p.0.now) };
}

/// The sending thread.
pub type SendingThread<'a> = PromisedHandle<Result<Sending, Fault>, OfPair<'a>>;
/// A marking thread.
pub type MarkingThread<'a> = PromisedHandle<Result<Marking, Fault>, OfPair<'a>>;
/// A watching thread.
pub type WatchingThread<'a> = PromisedHandle<Result<Watcher<AnyBytes>, Fault>, OfPair<'a>>;

/// Starts a thread that marks.
fn start_marker<'s, 'e: 's, R: Clock + Wait + Sync>(
    scope: &Scope<'s, &'e ()>,
    rt: &'e R,
    alloc: Global,
    shared: &'e Shared,
    number: u32,
    marker: Marker<AnyBytes>,
) -> Result<MarkingThread<'e>, Fault>
    requires { IsOf marker.table marker.view shared.now.pair }
    ensures { IfOk result (λ thread. thread.promise.0.now ≡ shared.now.pair) }
{
    let work = move || -> Result<Marking, Fault>
        requires { IsOf marker.table marker.view shared.now.pair }
        ensures { IfOk result (λ m. IsOf m.marker.table m.marker.view shared.entry.now.pair) }
    { shared.told(mark_all(rt, alloc, shared, number, marker)) };
    scope
        .spawn_with(OfPair(&shared.pair), work)
        .map_err(|_| Fault::NoThread)
}

/// Starts a thread that watches.
fn start_watcher<'s, 'e: 's, R: Wait + Sync>(
    scope: &Scope<'s, &'e ()>,
    rt: &'e R,
    shared: &'e Shared,
    number: u32,
    watcher: Watcher<AnyBytes>,
) -> Result<WatchingThread<'e>, Fault>
    requires { IsOf watcher.table watcher.view shared.now.pair }
    ensures { IfOk result (λ thread. thread.promise.0.now ≡ shared.now.pair) }
{
    let work = move || -> Result<Watcher<AnyBytes>, Fault>
        requires { IsOf watcher.table watcher.view shared.now.pair }
        ensures { IfOk result (λ w. IsOf w.table w.view shared.entry.now.pair) }
    { shared.told(watch_all(rt, shared, number, watcher)) };
    scope
        .spawn_with(OfPair(&shared.pair), work)
        .map_err(|_| Fault::NoThread)
}

/// Starts the thread that sends.
pub fn start_sender<'s, 'e: 's, R: Clock + Wait + Sync>(
    scope: &Scope<'s, &'e ()>,
    rt: &'e R,
    alloc: Global,
    shared: &'e Shared,
    send: SendEnd<AnyBytes>,
    marker: Marker<AnyBytes>,
) -> Result<SendingThread<'e>, Fault>
    requires send { IsOf send.table send.view shared.now.pair }
    requires marker { IsOf marker.table marker.view shared.now.pair }
    ensures { IfOk result (λ thread. thread.promise.0.now ≡ shared.now.pair) }
{
    let work = move || -> Result<Sending, Fault>
        requires { IsOf send.table send.view shared.now.pair × IsOf marker.table marker.view shared.now.pair }
        ensures { IfOk result (λ s. IsOf s.end.table s.end.view shared.entry.now.pair
            × IsOf s.marking.marker.table s.marking.marker.view shared.entry.now.pair) }
    { shared.told(send_all(rt, alloc, shared, send, marker)) };
    scope
        .spawn_with(OfPair(&shared.pair), work)
        .map_err(|_| Fault::NoThread)
}

/// Starts the marking threads but the sending one.
pub fn start_markers<'s, 'e: 's, R: Clock + Wait + Sync>(
    scope: &Scope<'s, &'e ()>,
    rt: &'e R,
    alloc: Global,
    shared: &'e Shared,
    end: &mut SendEnd<AnyBytes>,
) -> Result<Vec<MarkingThread<'e>>, Fault>
    requires pair { IsOf end.old.table end.old.view shared.now.pair }
    requires one { end.old.view.send.markers ≡ 1 }
    ensures pair { IsOf end.new.table end.new.view shared.now.pair }
    ensures threads { IfOk result (λ v. All (λ h. h.promise.0.now ≡ shared.now.pair) v.items) }
{
    let mut threads = Vec::new(alloc);
    for number in 1..shared.plan.markers {
        let marker = end.marker(&shared.pair);
        threads.push(start_marker(scope, rt, alloc, shared, number, marker)?)?;
    }
    Ok(threads)
}

/// Starts the watching threads.
pub fn start_watchers<'s, 'e: 's, R: Wait + Sync>(
    scope: &Scope<'s, &'e ()>,
    rt: &'e R,
    alloc: Global,
    shared: &'e Shared,
    end: &mut RecvEnd<AnyBytes>,
) -> Result<Vec<WatchingThread<'e>>, Fault>
    requires pair { IsOf end.old.table end.old.view shared.now.pair }
    requires none { end.old.view.recv.watchers ≡ 0 }
    ensures pair { IsOf end.new.table end.new.view shared.now.pair }
    ensures threads { IfOk result (λ v. All (λ h. h.promise.0.now ≡ shared.now.pair) v.items) }
{
    let mut threads = Vec::new(alloc);
    for number in 0..shared.plan.watchers {
        let watcher = end.watcher(&shared.pair);
        threads.push(start_watcher(scope, rt, shared, number, watcher)?)?;
    }
    Ok(threads)
}

/// Takes the watchers back, once their threads have ended.
pub fn join_watchers<R: Threads>(
    rt: &R,
    pair: &Pair<AnyBytes>,
    end: &mut RecvEnd<AnyBytes>,
    threads: Vec<WatchingThread<'_>>,
) -> Result<(), Fault>
    requires pair { IsOf end.old.table end.old.view pair.now }
    requires threads { All (λ h. h.promise.0.now ≡ pair.now) threads.items }
    ensures { IsOf end.new.table end.new.view pair.now }
{
    for thread in threads {
        let watcher = thread.join(rt)?;
        end.rejoin(pair, watcher);
    }
    Ok(())
}

/// Takes the markers back, once their threads have ended, and adds up what they have done.
pub fn join_markers<R: Threads>(
    rt: &R,
    pair: &Pair<AnyBytes>,
    sending: Sending,
    threads: Vec<MarkingThread<'_>>,
) -> Result<(SendEnd<AnyBytes>, u64, Times), Fault>
    requires end { IsOf sending.end.table sending.end.view pair.now }
    requires marker { IsOf sending.marking.marker.table sending.marking.marker.view pair.now }
    requires threads { All (λ h. h.promise.0.now ≡ pair.now) threads.items }
    ensures { IfOk result (λ r. IsOf r.0.table r.0.view pair.now) }
{
    let Sending { mut end, marking } = sending;
    let Marking {
        marker,
        mut sent,
        mut times,
    } = marking;
    end.rejoin(pair, marker);
    for thread in threads {
        let marking = thread.join(rt)?;
        end.rejoin(pair, marking.marker);
        sent = sent.saturating_add(marking.sent);
        times = times.or(marking.times);
    }
    Ok((end, sent, times))
}
