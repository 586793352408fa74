//! A pair of the greatest sizes goes through two rounds.

ghost use Rattle.std.specs.Prelude.{◌≡◌};
ghost use Rattle.pair_rule.specs.Seats.{IsOf};

use crate::ends::{close, ends, marker, ready, rejoin, start, test};
use pair_rule::{AnyBytes, Pair};
use part_geometry::RecvTest;
use part_recv::RecvEnd;
use part_send::{Marker, SendTest};
use std::alloc::{AllocError, Global};

/// Some bytes that differ from place to place and from round to round.
fn message(alloc: Global, len: u32, round: u32) -> Result<Vec<u8>, AllocError> {
    let mut bytes = Vec::with_capacity(alloc, len as usize)?;
    for place in 0..len {
        bytes.push((place.wrapping_mul(7).wrapping_add(round) % 251) as u8)?;
    }
    Ok(bytes)
}

/// Marks the 1,024 partitions of 1,023 bytes in a round, and answers how many pieces went out.
fn mark_all(
    pair: &Pair<AnyBytes>,
    marker: &mut Marker<AnyBytes>,
    round: u32,
    message: &[u8],
) -> Option<u32>
    requires { IsOf marker.old.table marker.old.view pair.now }
    ensures { IsOf marker.new.table marker.new.view pair.now }
{
    let mut rest = message;
    let mut sent = 0u32;
    for p in 0..1024 {
        let (part, others) = rest.split_at_checked(1023)?;
        let marked = ready(pair, marker, round, p, part).ok()?;
        sent = sent.wrapping_add(marked.sent);
        rest = others;
    }
    Some(sent)
}

/// Takes a partition of 1,024 bytes and gives it back, and answers whether it had these bytes.
fn has_bytes(pair: &Pair<AnyBytes>, end: &mut RecvEnd<AnyBytes>, q: u32, wanted: &[u8]) -> bool
    requires { IsOf end.old.table end.old.view pair.now }
    ensures { IsOf end.new.table end.new.view pair.now }
{
    let Ok(arrival) = end.take(pair, q) else {
        return false;
    };
    let mut bytes = [0; 1024];
    if arrival.len() == 1024 {
        let (front, back) = bytes.split_at_mut(300);
        arrival.copy_range(0, front);
        arrival.copy_range(300, back);
    }
    end.give_back(pair, arrival);
    bytes.as_slice() == wanted
}

/// Takes the 1,023 partitions of a round and gives them back, and answers how many had their bytes.
fn take_all(pair: &Pair<AnyBytes>, end: &mut RecvEnd<AnyBytes>, message: &[u8]) -> Option<u32>
    requires { IsOf end.old.table end.old.view pair.now }
    ensures { IsOf end.new.table end.new.view pair.now }
{
    let mut rest = message;
    let mut right = 0u32;
    for q in 0..1023 {
        let (part, others) = rest.split_at_checked(1024)?;
        right = right.wrapping_add(u32::from(has_bytes(pair, end, q, part)));
        rest = others;
    }
    Some(right)
}

#[test]
fn two_rounds_of_1024_by_1023_partitions(rt: HostRuntime) {
    let (pair, mut send, mut recv) = ends(&rt, [1024, 1023, 1023, 1024, 1, 4]);
    let mut marker = marker(&rt, &pair, &mut send);
    for round in [1, 2] {
        let bytes = message(rt.alloc(), 1_047_552, round).expect(&rt, "enough memory");
        let got = (
            start(&pair, &mut send),
            recv.start(&pair),
            mark_all(&pair, &mut marker, round, &bytes),
            take_all(&pair, &mut recv, &bytes),
            recv.test(&pair),
            test(&pair, &mut send),
        );
        let wanted = (
            Ok(round),
            Ok(round),
            Some(2046),
            Some(1023),
            RecvTest::Done,
            SendTest::Done,
        );
        assert_eq!(rt; got, wanted);
    }
    rejoin(&pair, &mut send, marker);
    assert_eq!(rt; close(&rt, pair, send, recv), (2, 2, 4092));
}
