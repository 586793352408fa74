//! Many rounds: four markers, the send end, the receive end and a watcher, each in a thread of its own.

ghost use Rattle.std.specs.Prelude.{◌≡◌, ◌≤◌};
ghost use Rattle.std.specs.Thread.{IsSync};
ghost use Rattle.pair_rule.specs.Seats.{IsOf};

use crate::ends::{close, ends, marker, ready, rejoin, start, test};
use pair_rule::{AnyBytes, Pair};
use part_geometry::RecvTest;
use part_recv::{Look, RecvEnd, TakeRefusal, Watcher};
use part_send::{Marker, ReadyRefusal, SendEnd, SendTest};
use std::thread;
use std::thread::{Threads, join};

/// How many rounds are sent.
const ROUNDS: u32 = 200;

/// How often a thread tries again before it gives up.
const TRIES: u64 = 1_000_000_000;

/// Puts the bytes of a message in a round from a place on, which differ from place to place and from round to round.
fn lay(round: u32, start: u32, bytes: &mut [u8]) {
    let mut place = start;
    for byte in bytes {
        *byte = (place.wrapping_mul(7).wrapping_add(round.wrapping_mul(13)) % 251) as u8;
        place = place.wrapping_add(1);
    }
}

/// Marks a partition in a round once that is open, and answers how many pieces went out by it.
fn mark(pair: &Pair<AnyBytes>, marker: &mut Marker<AnyBytes>, round: u32, p: u32) -> Option<u32>
    requires { IsOf marker.old.table marker.old.view pair.now }
    ensures { IsOf marker.new.table marker.new.view pair.now }
{
    let mut bytes = [0; 6];
    lay(round, p.wrapping_mul(6), &mut bytes);
    for _i in 0..TRIES {
        match ready(pair, marker, round, p, &bytes) {
            Ok(marked) => return Some(marked.sent),
            Err(ReadyRefusal::NotActive { shown: _ }) => thread::yield_now(),
            Err(_) => return None,
        }
    }
    None
}

/// Marks every fourth of the 64 partitions in a round, from the first on, and answers how many pieces went out.
fn mark_round(
    pair: &Pair<AnyBytes>,
    marker: &mut Marker<AnyBytes>,
    round: u32,
    first: u32,
) -> Option<u32>
    requires { IsOf marker.old.table marker.old.view pair.now }
    ensures { IsOf marker.new.table marker.new.view pair.now }
{
    let mut sent = 0u32;
    for i in 0..16u32 {
        sent = sent.wrapping_add(mark(pair, marker, round, first.wrapping_add(i.wrapping_mul(4)))?);
    }
    Some(sent)
}

/// Marks them in all rounds.
fn mark_rounds(pair: &Pair<AnyBytes>, marker: &mut Marker<AnyBytes>, first: u32) -> Option<u32>
    requires { IsOf marker.old.table marker.old.view pair.now }
    ensures { IsOf marker.new.table marker.new.view pair.now }
{
    let mut sent = 0u32;
    for i in 0..ROUNDS {
        sent = sent.wrapping_add(mark_round(pair, marker, i + 1, first)?);
    }
    Some(sent)
}

/// Tests a round of the sender until it is done, and answers whether it is.
fn finish(pair: &Pair<AnyBytes>, end: &mut SendEnd<AnyBytes>) -> bool
    requires { IsOf end.old.table end.old.view pair.now }
    ensures { IsOf end.new.table end.new.view pair.now }
{
    for _i in 0..TRIES {
        if test(pair, end) == SendTest::Done {
            return true;
        }
        thread::yield_now();
    }
    false
}

/// Sends all rounds, and answers how many.
fn send_rounds(pair: &Pair<AnyBytes>, end: &mut SendEnd<AnyBytes>) -> u32
    requires { IsOf end.old.table end.old.view pair.now }
    ensures { IsOf end.new.table end.new.view pair.now }
{
    for i in 0..ROUNDS {
        if start(pair, end).is_err() || !finish(pair, end) {
            return i;
        }
    }
    ROUNDS
}

/// Takes a partition once it has arrived, gives it back, and answers whether it had the bytes of its round.
fn take(pair: &Pair<AnyBytes>, end: &mut RecvEnd<AnyBytes>, q: u32) -> bool
    requires { IsOf end.old.table end.old.view pair.now }
    ensures { IsOf end.new.table end.new.view pair.now }
{
    let mut wanted = [0; 8];
    lay(end.round(), q.wrapping_mul(8), &mut wanted);
    for _i in 0..TRIES {
        match end.take(pair, q) {
            Ok(arrival) => {
                let mut bytes = [0; 8];
                if arrival.len() == 8 {
                    arrival.copy_into(&mut bytes);
                }
                end.give_back(pair, arrival);
                return bytes == wanted;
            }
            Err(TakeRefusal::NotYet { piece: _, shown: _ }) => thread::yield_now(),
            Err(_) => return false,
        }
    }
    false
}

/// Takes the 48 partitions of a round and gives them back, and answers how many had their bytes.
fn take_round(pair: &Pair<AnyBytes>, end: &mut RecvEnd<AnyBytes>) -> u32
    requires { IsOf end.old.table end.old.view pair.now }
    ensures { IsOf end.new.table end.new.view pair.now }
{
    let mut right = 0u32;
    for q in 0..48 {
        right = right.wrapping_add(u32::from(take(pair, end, q)));
    }
    right
}

/// Receives all rounds, and answers how many partitions had their bytes.
fn recv_rounds(pair: &Pair<AnyBytes>, end: &mut RecvEnd<AnyBytes>) -> u32
    requires { IsOf end.old.table end.old.view pair.now }
    ensures { IsOf end.new.table end.new.view pair.now }
{
    let mut right = 0u32;
    for _i in 0..ROUNDS {
        if end.start(pair).is_err() {
            break;
        }
        right = right.wrapping_add(take_round(pair, end));
        if end.test(pair) != RecvTest::Done {
            break;
        }
    }
    right
}

/// Looks at a partition until it has arrived in a round or that is past, and answers whether it was either.
fn watch(pair: &Pair<AnyBytes>, watcher: &mut Watcher<AnyBytes>, round: u32, q: u32) -> bool
    requires pair { IsOf watcher.old.table watcher.old.view pair.now }
    requires round { (1 ≤ round) × (round ≤ ROUNDS) }
    ensures { IsOf watcher.new.table watcher.new.view pair.now }
{
    for _i in 0..TRIES {
        match watcher.parrived(pair, round, q) {
            Look::Arrived => return true,
            Look::Past { shown: _ } => return true,
            Look::NotYet { piece: _, shown: _ } => thread::yield_now(),
            Look::BadPartition => return false,
        }
    }
    false
}

/// Looks at the last partition of each round, and answers how many had arrived.
fn watch_rounds(pair: &Pair<AnyBytes>, watcher: &mut Watcher<AnyBytes>) -> u32
    requires { IsOf watcher.old.table watcher.old.view pair.now }
    ensures { IsOf watcher.new.table watcher.new.view pair.now }
{
    for i in 0..ROUNDS {
        if !watch(pair, watcher, i + 1, 47) {
            return i;
        }
    }
    ROUNDS
}

/// A marker after all rounds, and how many pieces went out by its marks.
struct Marks {
    marker: Marker<AnyBytes>,
    sent: Option<u32>,
}

/// Marks in all rounds.
fn mark_all(pair: &Pair<AnyBytes>, mut marker: Marker<AnyBytes>, first: u32) -> Marks
    requires { IsOf marker.table marker.view pair.now }
    ensures { IsOf result.marker.table result.marker.view pair.now }
{
    let sent = mark_rounds(pair, &mut marker, first);
    Marks { marker, sent }
}

/// Lets two markers mark in two threads.
fn mark_by_two<R: Threads>(
    rt: &R,
    pair: &Pair<AnyBytes>,
    one: Marker<AnyBytes>,
    other: Marker<AnyBytes>,
    first: u32,
) -> (Marks, Marks)
    requires one { IsOf one.table one.view pair.now }
    requires other { IsOf other.table other.view pair.now }
    ensures one { IsOf result.0.marker.table result.0.marker.view pair.now }
    ensures other { IsOf result.1.marker.table result.1.marker.view pair.now }
{
    join(
        rt,
        || -> Marks
            requires { IsOf one.table one.view pair.now }
            ensures { IsOf result.marker.table result.marker.view pair.entry.now }
        { mark_all(pair, one, first) },
        || -> Marks
            requires { IsOf other.table other.view pair.now }
            ensures { IsOf result.marker.table result.marker.view pair.entry.now }
        { mark_all(pair, other, first.wrapping_add(1)) },
    )
}

/// Takes a marker back, and answers how many pieces went out by its marks.
fn rejoined(pair: &Pair<AnyBytes>, end: &mut SendEnd<AnyBytes>, marks: Marks) -> u32
    requires end { IsOf end.old.table end.old.view pair.now }
    requires marker { IsOf marks.marker.table marks.marker.view pair.now }
    ensures { IsOf end.new.table end.new.view pair.now }
{
    let Marks { marker, sent } = marks;
    rejoin(pair, end, marker);
    sent.unwrap_or(0)
}

/// The send end after all rounds, and how many it sent.
struct Sent {
    end: SendEnd<AnyBytes>,
    rounds: u32,
}

/// Sends all rounds.
fn send(pair: &Pair<AnyBytes>, mut end: SendEnd<AnyBytes>) -> Sent
    requires { IsOf end.table end.view pair.now }
    ensures { IsOf result.end.table result.end.view pair.now }
{
    let rounds = send_rounds(pair, &mut end);
    Sent { end, rounds }
}

/// The receive end after all rounds, and how many partitions had their bytes.
struct Received {
    end: RecvEnd<AnyBytes>,
    right: u32,
}

/// Receives all rounds.
fn receive(pair: &Pair<AnyBytes>, mut end: RecvEnd<AnyBytes>) -> Received
    requires { IsOf end.table end.view pair.now }
    ensures { IsOf result.end.table result.end.view pair.now }
{
    let right = recv_rounds(pair, &mut end);
    Received { end, right }
}

/// A watcher after all rounds, and in how many the last partition had arrived.
struct Watched {
    watcher: Watcher<AnyBytes>,
    rounds: u32,
}

/// Watches all rounds.
fn look(pair: &Pair<AnyBytes>, mut watcher: Watcher<AnyBytes>) -> Watched
    requires { IsOf watcher.table watcher.view pair.now }
    ensures { IsOf result.watcher.table result.watcher.view pair.now }
{
    let rounds = watch_rounds(pair, &mut watcher);
    Watched { watcher, rounds }
}

/// Sends and watches in two threads.
fn send_and_look<R: Threads>(
    rt: &R,
    pair: &Pair<AnyBytes>,
    end: SendEnd<AnyBytes>,
    watcher: Watcher<AnyBytes>,
) -> (Sent, Watched)
    requires end { IsOf end.table end.view pair.now }
    requires watcher { IsOf watcher.table watcher.view pair.now }
    ensures end { IsOf result.0.end.table result.0.end.view pair.now }
    ensures watcher { IsOf result.1.watcher.table result.1.watcher.view pair.now }
{
    join(
        rt,
        || -> Sent
            requires { IsOf end.table end.view pair.now }
            ensures { IsOf result.end.table result.end.view pair.entry.now }
        { send(pair, end) },
        || -> Watched
            requires { IsOf watcher.table watcher.view pair.now }
            ensures { IsOf result.watcher.table result.watcher.view pair.entry.now }
        { look(pair, watcher) },
    )
}

/// Lets four markers mark in four threads.
fn mark_by_four<R: Threads + Sync>(
    rt: &R,
    pair: &Pair<AnyBytes>,
    one: Marker<AnyBytes>,
    two: Marker<AnyBytes>,
    three: Marker<AnyBytes>,
    four: Marker<AnyBytes>,
) -> ((Marks, Marks), (Marks, Marks))
    requires one { IsOf one.table one.view pair.now }
    requires two { IsOf two.table two.view pair.now }
    requires three { IsOf three.table three.view pair.now }
    requires four { IsOf four.table four.view pair.now }
    ensures one { IsOf result.0.0.marker.table result.0.0.marker.view pair.now }
    ensures two { IsOf result.0.1.marker.table result.0.1.marker.view pair.now }
    ensures three { IsOf result.1.0.marker.table result.1.0.marker.view pair.now }
    ensures four { IsOf result.1.1.marker.table result.1.1.marker.view pair.now }
{
    join(
        rt,
        || -> (Marks, Marks)
            requires { IsSync R.row × IsOf one.table one.view pair.now × IsOf two.table two.view pair.now }
            ensures { IsOf result.0.marker.table result.0.marker.view pair.entry.now
                × IsOf result.1.marker.table result.1.marker.view pair.entry.now }
        { mark_by_two(rt, pair, one, two, 0) },
        || -> (Marks, Marks)
            requires { IsSync R.row × IsOf three.table three.view pair.now × IsOf four.table four.view pair.now }
            ensures { IsOf result.0.marker.table result.0.marker.view pair.entry.now
                × IsOf result.1.marker.table result.1.marker.view pair.entry.now }
        { mark_by_two(rt, pair, three, four, 2) },
    )
}

/// Receives, sends and watches in three threads.
fn run_ends<R: Threads + Sync>(
    rt: &R,
    pair: &Pair<AnyBytes>,
    recv: RecvEnd<AnyBytes>,
    send: SendEnd<AnyBytes>,
    watcher: Watcher<AnyBytes>,
) -> (Received, (Sent, Watched))
    requires recv { IsOf recv.table recv.view pair.now }
    requires send { IsOf send.table send.view pair.now }
    requires watcher { IsOf watcher.table watcher.view pair.now }
    ensures recv { IsOf result.0.end.table result.0.end.view pair.now }
    ensures send { IsOf result.1.0.end.table result.1.0.end.view pair.now }
    ensures watcher { IsOf result.1.1.watcher.table result.1.1.watcher.view pair.now }
{
    join(
        rt,
        || -> Received
            requires { IsOf recv.table recv.view pair.now }
            ensures { IsOf result.end.table result.end.view pair.entry.now }
        { receive(pair, recv) },
        || -> (Sent, Watched)
            requires { IsSync R.row × IsOf send.table send.view pair.now × IsOf watcher.table watcher.view pair.now }
            ensures { IsOf result.0.end.table result.0.end.view pair.entry.now
                × IsOf result.1.watcher.table result.1.watcher.view pair.entry.now }
        { send_and_look(rt, pair, send, watcher) },
    )
}

#[test]
fn each_marker_and_each_end_in_a_thread_of_its_own(rt: HostRuntime) {
    let rt = &rt;
    let (pair, mut send, mut recv) = ends(rt, [64, 6, 48, 8, 16, 3]);
    let one = marker(rt, &pair, &mut send);
    let two = marker(rt, &pair, &mut send);
    let three = marker(rt, &pair, &mut send);
    let four = marker(rt, &pair, &mut send);
    let watcher = recv.watcher(&pair);
    let ((received, (sent, watched)), ((a, b), (c, d))) = join(
        rt,
        || run_ends(rt, &pair, recv, send, watcher),
        || mark_by_four(rt, &pair, one, two, three, four),
    );
    let Sent {
        end: mut send,
        rounds: sent,
    } = sent;
    let Received {
        end: mut recv,
        right,
    } = received;
    let Watched {
        watcher,
        rounds: watched,
    } = watched;
    let mut pieces = 0u32;
    pieces = pieces.wrapping_add(rejoined(&pair, &mut send, a));
    pieces = pieces.wrapping_add(rejoined(&pair, &mut send, b));
    pieces = pieces.wrapping_add(rejoined(&pair, &mut send, c));
    pieces = pieces.wrapping_add(rejoined(&pair, &mut send, d));
    recv.rejoin(&pair, watcher);
    let done = (sent, watched, right, pieces);
    assert_eq!(rt;
        (done, close(rt, pair, send, recv)),
        ((200, 200, 9600, 4800), (200, 200, 4800))
    );
}
