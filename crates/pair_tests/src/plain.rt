//! Short runs of a pair of one thread, with the pieces counted by hand.

use part_geometry::{Geometry, Marked, Marks, RecvTest, StartFault};
use plain_pair::{
    PlainArrival, PlainLook, PlainPair, PlainRefusal, PlainSendTest, PlainStop, PlainTake,
    marks_laws, take_laws,
};
use std::process::Abort;

/// A pair of 3 send partitions of 4 bytes and 2 receive partitions of 6 bytes, with a round started on both sides.
fn started<R: Abort + AllocGlobal>(rt: &R, grain: u32, depth: u32) -> PlainPair {
    let geometry = Geometry::new(3, 4, 2, 6, grain, depth).expect(rt, "within the limits");
    let mut pair = PlainPair::create(rt.alloc(), geometry).expect(rt, "enough memory");
    assert_eq!(rt; (pair.start_send(), pair.start_recv()), (Ok(1), Ok(1)));
    pair
}

/// The bytes of each of the three partitions.
fn part(p: u32) -> &'static [u8] {
    match p {
        0 => b"abcd".as_slice(),
        1 => b"efgh".as_slice(),
        _ => b"ijkl".as_slice(),
    }
}

#[test]
fn pieces_go_out_with_their_last_mark(rt: HostRuntime) {
    let cases = [(1, [(2, 1), (0, 1), (1, 2)]), (6, [(0, 0), (1, 1), (2, 1)])];
    for (grain, marks) in cases {
        let mut pair = started(&rt, grain, 1);
        for (partition, sent) in marks {
            let wanted = Marked {
                round: 1,
                partition,
                sent,
            };
            assert_eq!(rt;
                pair.pready(1, partition, part(partition)),
                Ok(wanted),
                "grain {grain}"
            );
        }
    }
}

#[test]
fn a_refused_mark_changes_nothing(rt: HostRuntime) {
    let mut pair = started(&rt, 1, 1);
    let marks = [
        (1, 2, part(2), None),
        (1, 3, part(0), Some(PlainRefusal::BadPartition)),
        (1, 2, b"abc".as_slice(), Some(PlainRefusal::BadLength)),
        (2, 2, part(0), Some(PlainRefusal::NotActive)),
        (1, 2, part(0), Some(PlainRefusal::AlreadyMarked)),
        (1, 1, part(1), None),
    ];
    for (round, p, bytes, refused) in marks {
        assert_eq!(rt; pair.pready(round, p, bytes).err(), refused);
    }
    let taken = pair.take(1).expect(&rt, "arrived");
    assert_eq!(rt; taken.as_slice(), b"ghijkl".as_slice());
}

/// What an arrival shows: its round, its partition, whether it has these bytes, and if it has six, the last of them and
/// a copy of all.
fn shown(taken: &PlainArrival) -> (u32, u32, bool, Option<(u8, [u8; 6])>) {
    let is_whole = taken.as_slice() == b"ghijkl".as_slice();
    let mut out = *b"......";
    if taken.len() != 6 {
        return (taken.round(), taken.partition(), is_whole, None);
    }
    taken.copy_into(&mut out);
    let last = taken.byte(5);
    (
        taken.round(),
        taken.partition(),
        is_whole,
        Some((last, out)),
    )
}

#[test]
fn a_look_and_a_take_wait_for_the_pieces_over_a_partition(rt: HostRuntime) {
    let mut pair = started(&rt, 1, 1);
    let marks = [
        (
            0,
            PlainLook::NotYet { piece: 1 },
            Some(PlainTake::NotYet { piece: 1 }),
        ),
        (
            2,
            PlainLook::NotYet { piece: 1 },
            Some(PlainTake::NotYet { piece: 1 }),
        ),
        (1, PlainLook::Arrived, None),
        (
            1,
            PlainLook::Arrived,
            Some(PlainTake::AlreadyTaken { round: 1 }),
        ),
    ];
    for (p, look, refused) in marks {
        let marked = pair.pready(1, p, part(p)).is_ok();
        assert_eq!(rt;
            (pair.parrived(0), pair.take(0).err()),
            (look, refused),
            "{p} {marked}"
        );
    }
    let wanted = (PlainLook::BadPartition, Some(PlainTake::BadPartition));
    assert_eq!(rt; (pair.parrived(2), pair.take(2).err()), wanted);
    let taken = pair.take(1).expect(&rt, "arrived");
    let copy = Some((b'l', *b"ghijkl"));
    assert_eq!(rt; shown(&taken), (1, 1, true, copy));
}

#[test]
fn a_receiver_ahead_of_the_sender_waits(rt: HostRuntime) {
    let geometry = Geometry::new(3, 4, 2, 6, 1, 1).expect(&rt, "within the limits");
    let mut pair = PlainPair::create(rt.alloc(), geometry).expect(&rt, "enough memory");
    let idle = (pair.parrived(1), pair.take(1).err());
    let early = (pair.start_recv(), pair.parrived(1));
    let starts = (pair.start_send(), pair.start_recv(), pair.start_send());
    let closed = pair.close();
    let rounds = (closed.send_round, closed.recv_round);
    let active = StartFault::AlreadyActive { round: 1 };
    assert_eq!(rt;
        (idle, early, starts),
        (
            (PlainLook::Idle, Some(PlainTake::Idle)),
            (Ok(1), PlainLook::NotYet { piece: 2 }),
            (Ok(1), Err(active), Err(active))
        )
    );
    assert_eq!(rt;
        (rounds, closed.released, closed.pieces_out),
        ((1, 1), 0, 0)
    );
}

#[test]
fn a_released_round_makes_room_for_the_next(rt: HostRuntime) {
    let mut pair = started(&rt, 1, 1);
    assert_eq!(rt; pair.test_send(), PlainSendTest::Unmarked { partition: 0 });
    for p in 0..3 {
        assert_eq!(rt; pair.pready(1, p, part(p)).is_ok(), true);
    }
    let tests = [RecvTest::Untaken { q: 0 }, RecvTest::Untaken { q: 1 }];
    for (q, test) in tests.iter().enumerate() {
        assert_eq!(rt;
            (pair.test_send(), pair.test_recv()),
            (PlainSendTest::Unreleased { released: 0 }, *test)
        );
        let taken = pair.take(q as u32).expect(&rt, "arrived");
        if q == 1 {
            assert_eq!(rt; pair.test_recv(), RecvTest::Out { q: 1 });
        }
        pair.give_back(taken);
    }
    let ends = [
        (RecvTest::Done, PlainSendTest::Done),
        (RecvTest::Idle, PlainSendTest::Idle),
    ];
    for (recv, send) in ends {
        assert_eq!(rt; (pair.test_recv(), pair.test_send()), (recv, send));
    }
    assert_eq!(rt; (pair.start_send(), pair.start_recv()), (Ok(2), Ok(2)));
    assert_eq!(rt; pair.parrived(0), PlainLook::NotYet { piece: 0 });
    marks_laws();
    take_laws();
}

/// A pair of 4 partitions of one byte on both sides, with a round started by the sender.
fn four<R: Abort + AllocGlobal>(rt: &R) -> PlainPair {
    let geometry = Geometry::new(4, 1, 4, 1, 1, 1).expect(rt, "within the limits");
    let mut pair = PlainPair::create(rt.alloc(), geometry).expect(rt, "enough memory");
    assert_eq!(rt; (pair.start_send(), pair.start_recv()), (Ok(1), Ok(1)));
    pair
}

#[test]
fn ranges_and_lists_mark_in_order(rt: HostRuntime) {
    let mut pair = four(&rt);
    let told = (
        pair.pready_range(1, 1, 2, b"ab"),
        pair.pready_list(1, &[0, 1], b"cd"),
        pair.pready_list(1, &[3], b"e"),
    );
    let two = Marks {
        round: 1,
        count: 2,
        sent: 2,
    };
    let stopped = PlainStop {
        at: 1,
        cause: PlainRefusal::AlreadyMarked,
    };
    let one = Marks {
        round: 1,
        count: 1,
        sent: 1,
    };
    assert_eq!(rt; told, (Ok(two), Err(stopped), Ok(one)));
    for (q, byte) in b"cabe".iter().enumerate() {
        let taken = pair.take(q as u32).expect(&rt, "arrived");
        assert_eq!(rt; taken.as_slice(), [*byte].as_slice());
    }
}

#[test]
fn a_bad_range_or_list_marks_nothing(rt: HostRuntime) {
    let mut pair = four(&rt);
    let ranges = [
        (3, 4, b"ff".as_slice(), PlainRefusal::BadRange),
        (2, 1, b"".as_slice(), PlainRefusal::BadRange),
        (0, 3, b"e".as_slice(), PlainRefusal::BadLength),
    ];
    for (low, high, bytes, cause) in ranges {
        assert_eq!(rt;
            pair.pready_range(1, low, high, bytes),
            Err(PlainStop { at: 0, cause })
        );
    }
    let lists = [
        (4, b"e".as_slice(), PlainRefusal::BadPartition),
        (3, b"".as_slice(), PlainRefusal::BadLength),
    ];
    for (p, bytes, cause) in lists {
        assert_eq!(rt;
            pair.pready_list(1, &[p], bytes),
            Err(PlainStop { at: 0, cause })
        );
    }
    let none = Marks {
        round: 7,
        count: 0,
        sent: 0,
    };
    assert_eq!(rt;
        (pair.pready_list(7, &[], b""), pair.test_send()),
        (Ok(none), PlainSendTest::Unmarked { partition: 0 })
    );
}
