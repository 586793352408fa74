//! Rounds on one thread, with the words that the answers show counted by hand.

use crate::calls::Call::*;
use crate::calls::{Call, Running};
use std::process::Abort;

/// Makes calls one after another, and compares what they answer.
fn compare<R: Abort + AllocGlobal>(rt: &R, run: &mut Running, rows: &[(Call, &str)]) {
    for (call, wanted) in rows {
        assert_eq!(rt; run.answer(rt, call).as_str(), *wanted);
    }
}

/// The calls of a whole round over 3 send partitions of 4 bytes and 2 receive partitions of 6.
fn whole_round() -> [(Call, &'static str); 24] {
    [
        (Start, "Ok(1)"),
        (
            Ready(1, 1, &[4, 5, 6, 7]),
            "Ok(Marked { round: 1, partition: 1, sent: 2 })",
        ),
        (
            Ready(1, 1, &[255; 4]),
            "Err(AlreadyMarked { shown: 8589934594 })",
        ),
        (Ready(2, 0, &[0; 4]), "Err(NotActive { shown: 8589934594 })"),
        (Ready(1, 3, &[0; 4]), "Err(BadPartition)"),
        (Ready(1, 0, &[0; 3]), "Err(BadLength)"),
        (Test, "Unmarked { partition: 0, shown: 8589934594 }"),
        (StartRecv, "Ok(1)"),
        (Take(0), "NotYet { piece: 0, shown: 8589934592 }"),
        (Watch(1, 1), "NotYet { piece: 3, shown: 8589934592 }"),
        (Take(1), "NotYet { piece: 3, shown: 8589934592 }"),
        (
            Ready(1, 0, &[0, 1, 2, 3]),
            "Ok(Marked { round: 1, partition: 0, sent: 1 })",
        ),
        (Take(0), "(1, 0, [0, 1, 2, 3, 4, 5])"),
        (Take(0), "AlreadyTaken { round: 1 }"),
        (TestRecv, "Untaken { q: 1 }"),
        (
            Ready(1, 2, &[8, 9, 10, 11]),
            "Ok(Marked { round: 1, partition: 2, sent: 1 })",
        ),
        (Test, "Unreleased { seen: 0 }"),
        (Take(1), "(1, 1, [6, 7, 8, 9, 10, 11])"),
        (TestRecv, "Out { q: 0 }"),
        (Back(0), "true"),
        (Back(1), "true"),
        (TestRecv, "Done"),
        (Test, "Done"),
        (Test, "Idle"),
    ]
}

#[test]
fn a_round_goes_through(rt: HostRuntime) {
    let mut run = Running::of(&rt, [3, 4, 2, 6, 1, 1]);
    compare(&rt, &mut run, &whole_round());
    compare(
        &rt,
        &mut run,
        &[(
            Ready(1, 0, &[0; 4]),
            "Err(NotActive { shown: 12884901895 })",
        )],
    );
    assert_eq!(rt; run.close(&rt), (1, 1, 4));
}

#[test]
fn a_second_round_goes_through(rt: HostRuntime) {
    let mut run = Running::of(&rt, [3, 4, 2, 6, 1, 1]);
    compare(&rt, &mut run, &whole_round());
    let rows = [
        (Start, "Ok(2)"),
        (Start, "Err(AlreadyActive { round: 2 })"),
        (
            Ready(1, 0, &[0; 4]),
            "Err(NotActive { shown: 17179869184 })",
        ),
        (Watch(1, 0), "Past { shown: 17179869184 }"),
        (
            Ready(2, 0, &[20, 21, 22, 23]),
            "Ok(Marked { round: 2, partition: 0, sent: 1 })",
        ),
        (
            Ready(2, 1, &[24, 25, 26, 27]),
            "Ok(Marked { round: 2, partition: 1, sent: 2 })",
        ),
        (
            Ready(2, 2, &[28, 29, 30, 31]),
            "Ok(Marked { round: 2, partition: 2, sent: 1 })",
        ),
        (Look(0), "Idle"),
        (Take(0), "Idle"),
        (TestRecv, "Idle"),
        (Learn, "()"),
        (StartRecv, "Ok(2)"),
        (StartRecv, "Err(AlreadyActive { round: 2 })"),
        (Look(0), "Arrived"),
        (Take(0), "(2, 0, [20, 21, 22, 23, 24, 25])"),
        (Look(2), "BadPartition"),
        (Take(2), "BadPartition"),
        (Watch(2, 2), "BadPartition"),
    ];
    compare(&rt, &mut run, &rows);
}

#[test]
fn a_sender_is_as_many_rounds_ahead_as_the_depth(rt: HostRuntime) {
    let mut run = Running::of(&rt, [1, 1, 1, 1, 1, 2]);
    let rows = [
        (Start, "Ok(1)"),
        (
            Ready(1, 0, &[170]),
            "Ok(Marked { round: 1, partition: 0, sent: 1 })",
        ),
        (Test, "Done"),
        (Start, "Ok(2)"),
        (
            Ready(2, 0, &[204]),
            "Ok(Marked { round: 2, partition: 0, sent: 1 })",
        ),
        (Test, "Unreleased { seen: 0 }"),
        (StartRecv, "Ok(1)"),
        (Watch(1, 0), "Arrived"),
        (Watch(2, 0), "Arrived"),
        (Take(0), "(1, 0, [170])"),
        (Back(0), "true"),
        (TestRecv, "Done"),
        (Test, "Done"),
        (Start, "Ok(3)"),
        (Watch(1, 0), "Past { shown: 25769803776 }"),
    ];
    compare(&rt, &mut run, &rows);
}

#[test]
fn a_piece_waits_for_each_partition_that_it_touches(rt: HostRuntime) {
    let mut run = Running::of(&rt, [3, 4, 2, 6, 6, 1]);
    let rows = [
        (Start, "Ok(1)"),
        (
            Ready(1, 1, &[4, 5, 6, 7]),
            "Ok(Marked { round: 1, partition: 1, sent: 0 })",
        ),
        (Watch(1, 0), "NotYet { piece: 0, shown: 8589934594 }"),
        (Watch(1, 1), "NotYet { piece: 1, shown: 8589934593 }"),
        (
            Ready(1, 0, &[0, 1, 2, 3]),
            "Ok(Marked { round: 1, partition: 0, sent: 1 })",
        ),
        (Watch(1, 0), "Arrived"),
    ];
    compare(&rt, &mut run, &rows);
}

#[test]
fn partitions_of_two_claim_words(rt: HostRuntime) {
    let mut run = Running::of(&rt, [33, 2, 2, 33, 1, 1]);
    let rows = [
        (
            Ready(1, 32, &[64, 65]),
            "Err(NotActive { shown: 4294967297 })",
        ),
        (Start, "Ok(1)"),
        (
            Ready(1, 16, &[32, 33]),
            "Ok(Marked { round: 1, partition: 16, sent: 2 })",
        ),
        (
            Ready(1, 32, &[64, 65]),
            "Ok(Marked { round: 1, partition: 32, sent: 1 })",
        ),
        (
            Ready(1, 32, &[64, 65]),
            "Err(AlreadyMarked { shown: 8589934593 })",
        ),
        (Test, "Unmarked { partition: 0, shown: 8590000128 }"),
    ];
    compare(&rt, &mut run, &rows);
}

#[test]
fn ranges_and_lists_mark_in_order(rt: HostRuntime) {
    let mut run = Running::of(&rt, [4, 1, 4, 1, 1, 1]);
    let rows = [
        (Start, "Ok(1)"),
        (
            Range(1, 1, 2, b"ab"),
            "Ok(Marks { round: 1, count: 2, sent: 2 })",
        ),
        (
            List(1, &[0, 1], b"cd"),
            "Err(ReadyStop { at: 1, cause: AlreadyMarked { shown: 8589934599 } })",
        ),
        (
            List(1, &[3], b"e"),
            "Ok(Marks { round: 1, count: 1, sent: 1 })",
        ),
        (StartRecv, "Ok(1)"),
        (Take(0), "(1, 0, [99])"),
        (Take(1), "(1, 1, [97])"),
        (Take(2), "(1, 2, [98])"),
        (Take(3), "(1, 3, [101])"),
    ];
    compare(&rt, &mut run, &rows);
}

#[test]
fn a_bad_range_or_list_marks_nothing(rt: HostRuntime) {
    let mut run = Running::of(&rt, [4, 1, 4, 1, 1, 1]);
    let rows = [
        (Start, "Ok(1)"),
        (
            Range(1, 3, 4, b"ef"),
            "Err(ReadyStop { at: 0, cause: BadRange })",
        ),
        (
            Range(1, 2, 1, b""),
            "Err(ReadyStop { at: 0, cause: BadRange })",
        ),
        (
            Range(1, 0, 3, b"e"),
            "Err(ReadyStop { at: 0, cause: BadLength })",
        ),
        (
            List(1, &[4], b"e"),
            "Err(ReadyStop { at: 0, cause: BadPartition })",
        ),
        (
            List(1, &[3], b""),
            "Err(ReadyStop { at: 0, cause: BadLength })",
        ),
        (
            List(7, &[], b""),
            "Ok(Marks { round: 7, count: 0, sent: 0 })",
        ),
        (Test, "Unmarked { partition: 0, shown: 8589934592 }"),
        (
            Counted(1, 0, b"a"),
            "Ok(Marked { round: 1, partition: 0, sent: 1 })",
        ),
    ];
    compare(&rt, &mut run, &rows);
}

#[test]
fn all_goes_on_beside_a_dropped_marker_and_a_dropped_arrival(rt: HostRuntime) {
    let mut run = Running::of(&rt, [3, 4, 2, 6, 1, 1]);
    let rows = [
        (Start, "Ok(1)"),
        (StartRecv, "Ok(1)"),
        (
            Ready(1, 1, &[4, 5, 6, 7]),
            "Ok(Marked { round: 1, partition: 1, sent: 2 })",
        ),
        (DropMarker, "()"),
        (
            Ready(1, 1, &[4, 5, 6, 7]),
            "Err(AlreadyMarked { shown: 8589934594 })",
        ),
        (
            Ready(1, 0, &[0, 1, 2, 3]),
            "Ok(Marked { round: 1, partition: 0, sent: 1 })",
        ),
        (Take(0), "(1, 0, [0, 1, 2, 3, 4, 5])"),
        (DropTaken(0), "()"),
        (Take(0), "AlreadyTaken { round: 1 }"),
        (
            Ready(1, 2, &[8, 9, 10, 11]),
            "Ok(Marked { round: 1, partition: 2, sent: 1 })",
        ),
        (Test, "Unreleased { seen: 0 }"),
        (TestRecv, "Untaken { q: 1 }"),
        (Take(1), "(1, 1, [6, 7, 8, 9, 10, 11])"),
        (Back(1), "true"),
        (TestRecv, "Out { q: 0 }"),
        (Watch(1, 0), "Arrived"),
    ];
    compare(&rt, &mut run, &rows);
}
