//! A pair with its two ends, and the calls of the send side, each with the fact that the seat is still the pair's.

ghost use Rattle.std.specs.Prelude.{◌≡◌, ◌<◌};
ghost use Rattle.pair_rule.specs.Seats.{IsOf};

use pair_rule::{AnyBytes, Pair};
use part_geometry::{Geometry, LAST_ROUND, Marked, Marks, StartFault};
use part_recv::{Look, RecvEnd, Watcher, first_laws};
use part_send::{Marker, ReadyRefusal, ReadyStop, SendEnd, SendTest, Steps};
use std::process::Abort;
use std::sync::ledger::{Blank, Ledger};

/// A pair of six numbers, and its two ends.
pub(crate) fn ends<R: Abort + AllocGlobal>(
    rt: &R,
    n: [u32; 6],
) -> (Pair<AnyBytes>, SendEnd<AnyBytes>, RecvEnd<AnyBytes>)
    ensures send { IsOf result.1.table result.1.view result.0 }
    ensures recv { IsOf result.2.table result.2.view result.0 }
    ensures alone { result.2.view.recv.watchers ≡ 0 }
    ensures idle { result.2.view.recv.released ≡ 1 }
{
    first_laws();
    let geometry = Geometry::new(n[0], n[1], n[2], n[3], n[4], n[5]).expect(
        rt,
        "within the limits",
    );
    let (pair, send, recv) = Pair::<AnyBytes>::create(rt.alloc(), geometry, ()).expect(
        rt,
        "enough memory",
    );
    let send = SendEnd::from_seat(&pair, send);
    let recv = RecvEnd::from_seat(&pair, recv);
    (pair, send, recv)
}

/// Starts a round of the sender.
pub(crate) fn start(pair: &Pair<AnyBytes>, end: &mut SendEnd<AnyBytes>) -> Result<u32, StartFault>
    requires { IsOf end.old.table end.old.view pair.now }
    ensures { IsOf end.new.table end.new.view pair.now }
{
    end.start(pair)
}

/// Tests a round of the sender.
pub(crate) fn test(pair: &Pair<AnyBytes>, end: &mut SendEnd<AnyBytes>) -> SendTest
    requires { IsOf end.old.table end.old.view pair.now }
    ensures { IsOf end.new.table end.new.view pair.now }
{
    end.test(pair)
}

/// Makes a marker.
pub(crate) fn marker<R: Abort>(
    rt: &R,
    pair: &Pair<AnyBytes>,
    end: &mut SendEnd<AnyBytes>,
) -> Marker<AnyBytes>
    requires { IsOf end.old.table end.old.view pair.now }
    ensures end { IsOf end.new.table end.new.view pair.now }
    ensures marker { IsOf result.table result.view pair.now }
{
    if end.markers_out() == u32::MAX {
        panic!(rt; "too many markers");
    }
    end.marker(pair)
}

/// Takes a marker back.
pub(crate) fn rejoin(pair: &Pair<AnyBytes>, end: &mut SendEnd<AnyBytes>, marker: Marker<AnyBytes>)
    requires end { IsOf end.old.table end.old.view pair.now }
    requires marker { IsOf marker.table marker.view pair.now }
    ensures { IsOf end.new.table end.new.view pair.now }
{
    end.rejoin(pair, marker);
}

/// Marks a partition in a round.
pub(crate) fn ready(
    pair: &Pair<AnyBytes>,
    marker: &mut Marker<AnyBytes>,
    round: u32,
    partition: u32,
    bytes: &[u8],
) -> Result<Marked, ReadyRefusal>
    requires { IsOf marker.old.table marker.old.view pair.now }
    ensures { IsOf marker.new.table marker.new.view pair.now }
{
    marker.pready(pair, round, partition, bytes)
}

/// The same, with a count of its steps, which takes no bytes.
pub(crate) fn ready_counted<L: Ledger>(
    pair: &Pair<AnyBytes>,
    marker: &mut Marker<AnyBytes>,
    round: u32,
    partition: u32,
    bytes: &[u8],
    blank: Blank,
) -> Result<Marked, ReadyRefusal>
    requires blank { (blank.name ≡ L.name) × (blank.parts ≡ L.parts) × (0 < blank.parts) }
    requires pair { IsOf marker.old.table marker.old.view pair.now }
    ensures { IsOf marker.new.table marker.new.view pair.now }
{
    let mut steps = Steps::<L>::new(blank);
    marker.pready_counted(pair, round, partition, bytes, &mut steps)
}

/// Marks a range of partitions in a round.
pub(crate) fn ready_range(
    pair: &Pair<AnyBytes>,
    marker: &mut Marker<AnyBytes>,
    round: u32,
    low: u32,
    high: u32,
    bytes: &[u8],
) -> Result<Marks, ReadyStop>
    requires { IsOf marker.old.table marker.old.view pair.now }
    ensures { IsOf marker.new.table marker.new.view pair.now }
{
    marker.pready_range(pair, round, low, high, bytes)
}

/// Marks a list of partitions in a round.
pub(crate) fn ready_list<R: Abort>(
    rt: &R,
    pair: &Pair<AnyBytes>,
    marker: &mut Marker<AnyBytes>,
    round: u32,
    parts: &[u32],
    bytes: &[u8],
) -> Result<Marks, ReadyStop>
    requires { IsOf marker.old.table marker.old.view pair.now }
    ensures { IsOf marker.new.table marker.new.view pair.now }
{
    if parts.len() > 1_048_576 {
        panic!(rt; "too many entries");
    }
    marker.pready_list(pair, round, parts, bytes)
}

/// A watcher's look at a partition in a round.
pub(crate) fn watch<R: Abort>(
    rt: &R,
    pair: &Pair<AnyBytes>,
    watcher: &mut Watcher<AnyBytes>,
    round: u32,
    q: u32,
) -> Look
    requires { IsOf watcher.old.table watcher.old.view pair.now }
    ensures { IsOf watcher.new.table watcher.new.view pair.now }
{
    if round == 0 || round > LAST_ROUND {
        panic!(rt; "no such round");
    }
    watcher.parrived(pair, round, q)
}

/// Closes a pair. Answers the rounds sent and received, and the pieces that went out.
pub(crate) fn close<R: Abort>(
    rt: &R,
    pair: Pair<AnyBytes>,
    send: SendEnd<AnyBytes>,
    recv: RecvEnd<AnyBytes>,
) -> (u32, u32, u64)
    requires send { IsOf send.table send.view pair }
    requires recv { IsOf recv.table recv.view pair }
{
    if send.is_active() || recv.is_active() {
        panic!(rt; "an end is active");
    }
    if send.markers_out() != 0 || recv.watchers_out() != 0 {
        panic!(rt; "a marker or a watcher is out");
    }
    let closed = pair.close(send.into_seat(), recv.into_seat());
    (closed.sent(), closed.received(), closed.pieces_out())
}
