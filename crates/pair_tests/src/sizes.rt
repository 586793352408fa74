//! Pairs of the greatest sizes, by checksums of their bytes: that calls with ample memory succeed is said by no clause.

use part_geometry::{Geometry, MAX_GRAIN, MAX_PART_BYTES, MAX_TOTAL, Marks, RecvTest};
use plain_pair::{PlainPair, PlainSendTest};
use std::alloc::{AllocError, Global};
use std::process::Abort;

/// Some bytes that differ from round to round.
fn message(alloc: Global, len: u32, round: u32) -> Result<Vec<u8>, AllocError> {
    let mut bytes = Vec::with_capacity(alloc, len as usize)?;
    for place in 0..len {
        bytes.push((place.wrapping_mul(7).wrapping_add(round) % 251) as u8)?;
    }
    Ok(bytes)
}

/// The checksum of bytes behind those of a checksum.
fn checksum(sum: u64, bytes: &[u8]) -> u64 {
    let mut sum = sum;
    for byte in bytes {
        sum = sum.wrapping_mul(31).wrapping_add(u64::from(*byte));
    }
    sum
}

/// Marks each partition in a round, and answers how many pieces went out.
fn mark_all(pair: &mut PlainPair, round: u32, parts: u32, size: u32, bytes: &[u8]) -> Option<u32> {
    let mut rest = bytes;
    let mut sent = 0u32;
    for p in 0..parts {
        let (part, others) = rest.split_at_checked(size as usize)?;
        let marked = pair.pready(round, p, part).ok()?;
        sent = sent.wrapping_add(marked.sent);
        rest = others;
    }
    Some(sent)
}

/// Takes each partition, gives it back, and answers the checksum of all bytes.
fn take_all(pair: &mut PlainPair, parts: u32) -> Option<u64> {
    let mut sum = 0;
    for q in 0..parts {
        let taken = pair.take(q).ok()?;
        sum = checksum(sum, taken.as_slice());
        pair.give_back(taken);
    }
    Some(sum)
}

/// The two tests at a round's end.
fn ends(pair: &mut PlainPair) -> (RecvTest, PlainSendTest) {
    (pair.test_recv(), pair.test_send())
}

/// A pair of six numbers.
fn pair_of<R: Abort + AllocGlobal>(rt: &R, n: [u32; 6]) -> PlainPair {
    let geometry = Geometry::new(n[0], n[1], n[2], n[3], n[4], n[5]).expect(
        rt,
        "within the limits",
    );
    PlainPair::create(rt.alloc(), geometry).expect(rt, "enough memory")
}

#[test]
fn two_rounds_of_1024_by_1023_partitions(rt: HostRuntime) {
    let mut pair = pair_of(&rt, [1024, 1023, 1023, 1024, 1, 4]);
    for round in [1, 2] {
        let bytes = message(rt.alloc(), 1_047_552, round).expect(&rt, "enough memory");
        let starts = (pair.start_send(), pair.start_recv());
        let sent = mark_all(&mut pair, round, 1024, 1023, &bytes);
        let sum = take_all(&mut pair, 1023);
        assert_eq!(rt;
            (starts, (sent, sum), ends(&mut pair)),
            (
                (Ok(round), Ok(round)),
                (Some(2046), Some(checksum(0, &bytes))),
                (RecvTest::Done, PlainSendTest::Done)
            )
        );
    }
    let closed = pair.close();
    assert_eq!(rt; (closed.released, closed.pieces_out), (2, 4092));
}

#[test]
fn the_greatest_message(rt: HostRuntime) {
    let mut pair = pair_of(&rt, [16, MAX_PART_BYTES, 16, MAX_PART_BYTES, MAX_GRAIN, 4]);
    let bytes = message(rt.alloc(), MAX_TOTAL, 1).expect(&rt, "enough memory");
    let starts = (pair.start_send(), pair.start_recv());
    let marked = pair.pready_range(1, 0, 15, &bytes);
    let sum = take_all(&mut pair, 16);
    let all = Marks {
        round: 1,
        count: 16,
        sent: 1,
    };
    assert_eq!(rt;
        (starts, (marked, sum), ends(&mut pair)),
        (
            (Ok(1), Ok(1)),
            (Ok(all), Some(checksum(0, &bytes))),
            (RecvTest::Done, PlainSendTest::Done)
        )
    );
}
