//! Markers in threads of their own.

ghost use Rattle.std.specs.Prelude.{◌≡◌};
ghost use Rattle.pair_rule.specs.Seats.{IsOf};

use crate::ends::{ends, marker, ready, start};
use crate::held::Receiving;
use pair_rule::{AnyBytes, Pair};
use part_geometry::Marked;
use part_send::{Marker, ReadyRefusal};
use std::thread::{Threads, join};

/// What a mark answers.
type Answer = Result<Marked, ReadyRefusal>;

/// Marks a partition in round 1.
fn mark(pair: &Pair<AnyBytes>, mut marker: Marker<AnyBytes>, p: u32, bytes: &[u8]) -> Answer
    requires { IsOf marker.table marker.view pair.now }
{
    ready(pair, &mut marker, 1, p, bytes)
}

/// Tries to mark each of three partitions in round 1.
fn try_all(pair: &Pair<AnyBytes>, mut marker: Marker<AnyBytes>) -> [Answer; 3]
    requires { IsOf marker.table marker.view pair.now }
{
    let first = ready(pair, &mut marker, 1, 0, b"abcd");
    let second = ready(pair, &mut marker, 1, 1, b"efgh");
    let third = ready(pair, &mut marker, 1, 2, b"ijkl");
    [first, second, third]
}

/// Lets two markers try in two threads.
fn try_twice<R: Threads>(
    rt: &R,
    pair: &Pair<AnyBytes>,
    one: Marker<AnyBytes>,
    other: Marker<AnyBytes>,
) -> ([Answer; 3], [Answer; 3])
    requires one { IsOf one.table one.view pair.now }
    requires other { IsOf other.table other.view pair.now }
{
    join(
        rt,
        || -> [Answer; 3]
            requires { IsOf one.table one.view pair.now }
        { try_all(pair, one) },
        || -> [Answer; 3]
            requires { IsOf other.table other.view pair.now }
        { try_all(pair, other) },
    )
}

/// Of a partition: how many marked it, how many found it marked already, and how many pieces went out by it.
fn count(tried: [[Answer; 3]; 4], p: usize) -> (u32, u32, u32) {
    let mut counts = (0u32, 0u32, 0u32);
    for answers in tried {
        match answers.get(p) {
            Some(Ok(marked)) => {
                counts.0 = counts.0.wrapping_add(1);
                counts.2 = counts.2.wrapping_add(marked.sent);
            }
            Some(Err(ReadyRefusal::AlreadyMarked { shown: _ })) => {
                counts.1 = counts.1.wrapping_add(1);
            }
            _ => {}
        }
    }
    counts
}

#[test]
fn of_four_threads_one_marks_each_partition(rt: HostRuntime) {
    let rt = &rt;
    let (pair, mut send, _recv) = ends(rt, [3, 4, 2, 6, 1, 1]);
    assert_eq!(rt; start(&pair, &mut send), Ok(1));
    let one = marker(rt, &pair, &mut send);
    let two = marker(rt, &pair, &mut send);
    let three = marker(rt, &pair, &mut send);
    let four = marker(rt, &pair, &mut send);
    let ((a, b), (c, d)) = join(
        rt,
        || try_twice(rt, &pair, one, two),
        || try_twice(rt, &pair, three, four),
    );
    for (p, wanted) in [(1, 3, 1), (1, 3, 2), (1, 3, 1)].iter().enumerate() {
        assert_eq!(rt; count([a, b, c, d], p), *wanted, "partition {p}");
    }
}

#[test]
fn two_threads_mark_disjoint_partitions(rt: HostRuntime) {
    let rt = &rt;
    let (pair, mut send, recv) = ends(rt, [3, 4, 2, 6, 1, 1]);
    let mut recv = Receiving::of(rt, recv, 2);
    assert_eq!(rt;
        (start(&pair, &mut send), recv.start(rt, &pair)),
        (Ok(1), Ok(1))
    );
    let one = marker(rt, &pair, &mut send);
    let other = marker(rt, &pair, &mut send);
    let (a, b) = join(
        rt,
        || mark(&pair, one, 0, b"abcd"),
        || mark(&pair, other, 1, b"efgh"),
    );
    let marked = |partition, sent| Ok(Marked {
        round: 1,
        partition,
        sent,
    });
    assert_eq!(rt; (a, b), (marked(0, 1), marked(1, 2)));
    let taken = [
        "(1, 0, [97, 98, 99, 100, 101, 102])",
        "NotYet { piece: 3, shown: 8589934592 }",
    ];
    for (q, wanted) in taken.iter().enumerate() {
        assert_eq!(rt; recv.take(rt, &pair, q as u32).as_str(), *wanted);
    }
}
