//! Lists of events: what is told of them is what their walk and their replay give, event by event.

use crate::events::{both_rounds, event, two_and_one};
use event_check::{
    Applied, CheckFault, MAX_CHECK_BYTES, Walk, WalkFault, check_events, read_number,
};
use pair_core::{Event, Replay, replay};
use part_geometry::Geometry;
use std::alloc::{AllocError, Global};
use std::test::*;

/// What is told of a text; nothing where it is too long.
fn told(alloc: Global, text: &[u8]) -> Result<Vec<u8>, CheckFault> {
    if text.len() > MAX_CHECK_BYTES {
        return Err(CheckFault::NoMemory);
    }
    check_events(alloc, text)
}

/// The text of some events of the pair of two send partitions and one receive partition.
fn text_of(alloc: Global, events: &[Event]) -> Result<Vec<u8>, AllocError> {
    let mut text = Vec::new(alloc);
    text.extend_from_slice(b"pair 2 1 1 2 1 2\n")?;
    for event in events {
        let line = format!(in alloc;
            "e {} {} {} {} {}\n",
            event.seat, event.kind, event.word, event.round, event.partition,
        )?;
        text.extend_from_slice(line.as_bytes())?;
    }
    Ok(text)
}

/// Puts the lines of an event that was made behind `text`.
fn push_made(alloc: Global, text: &mut Vec<u8>, made: Applied) -> Result<(), AllocError> {
    if let Some((round, piece)) = made.out {
        text.extend_from_slice(format!(in alloc; "out {round} {piece}\n")?.as_bytes())?;
    }
    if let Some((round, partition)) = made.take {
        text.extend_from_slice(format!(in alloc; "take {round} {partition}\n")?.as_bytes())?;
    }
    Ok(())
}

/// The lines of the events that a walk makes, up to the first that it doesn't.
fn walked(alloc: Global, geometry: Geometry, events: &[Event]) -> Result<Vec<u8>, AllocError> {
    let mut walk = Walk::new(alloc, geometry)?;
    let mut text = Vec::new(alloc);
    for event in events {
        let Ok(made) = walk.apply(event) else {
            return Ok(text);
        };
        push_made(alloc, &mut text, made)?;
    }
    Ok(text)
}

/// What a walk and a replay give.
fn wanted(alloc: Global, geometry: Geometry, events: &[Event]) -> Result<Vec<u8>, AllocError> {
    let mut text = walked(alloc, geometry, events)?;
    let end = match replay(alloc, geometry, events)? {
        Replay::Ran { .. } => format!(in alloc; "ran {}\n", events.len())?,
        Replay::Stopped { at } => format!(in alloc; "stopped {at}\n")?,
    };
    text.extend_from_slice(end.as_bytes())?;
    Ok(text)
}

/// The next random number, from 0 to 2,147,483,647.
fn next(x: u32) -> u32 {
    ((u64::from(x) * 1_103_515_245 + 12345) % 2_147_483_648) as u32
}

/// Exchanges, by random numbers, some events with others that stand near to them.
fn shuffle(events: &mut Vec<Event>, seed: u32) {
    let mut x = seed;
    for _ in 0..6 {
        x = next(x);
        let count = events.len();
        let at = (x / 65536) as usize;
        if count > 8 {
            events.swap(at % (count - 8), at % (count - 8) + at % 7);
        }
    }
}

#[test]
fn random_lists_are_told_as_they_are_replayed(rt: HostRuntime) -> Result<(), Fail> {
    let alloc = rt.alloc();
    let geometry = two_and_one(&rt);
    for seed in 0..24 {
        let mut events = both_rounds(&rt);
        shuffle(&mut events, seed);
        for n in 0..=events.len() {
            let front = &events[..n];
            let got = told(alloc, &text_of(alloc, front)?);
            let wanted = Ok(wanted(alloc, geometry, front)?);
            assert_eq!(rt; got, wanted, "list {seed} up to {n}");
        }
    }
    Ok(())
}

#[test]
fn a_walk_tells_what_each_event_did(rt: HostRuntime) {
    let geometry = Geometry::new(1, 1, 1, 1, 1, 1).expect(&rt, "within the limits");
    let mut walk = Walk::new(rt.alloc(), geometry).expect(&rt, "enough memory");
    let quiet = Ok(Applied {
        out: None,
        take: None,
    });
    let sent = Ok(Applied {
        out: Some((1, 0)),
        take: None,
    });
    let taken = Ok(Applied {
        out: None,
        take: Some((1, 0)),
    });
    // The claim word is 0, the take word 2, the return word 3, and the piece word 4. A take that isn't allowed leaves
    // the walk as it was: after the look it is.
    let steps = [
        ([0, 1, 4, 1, 0], quiet),
        ([0, 2, 0, 1, 0], quiet),
        ([2, 3, 0, 0, 0], quiet),
        ([2, 7, 0, 0, 0], quiet),
        ([2, 8, 4, 0, 0], sent),
        ([1, 9, 3, 1, 0], quiet),
        ([1, 10, 2, 1, 0], quiet),
        ([1, 11, 2, 0, 0], Err(WalkFault::NotAllowed)),
        ([1, 4, 4, 0, 0], quiet),
        ([1, 11, 2, 0, 0], taken),
        ([1, 11, 2, 0, 0], Err(WalkFault::NotAllowed)),
        ([66, 3, 0, 0, 0], quiet),
        ([2, 14, 0, 0, 0], Err(WalkFault::NotAllowed)),
    ];
    for (n, wanted) in steps {
        assert_eq!(rt; walk.apply(&event(n)), wanted);
    }
}

#[test]
fn numbers_are_read(rt: HostRuntime) {
    let words = [
        ("0", Some(0)),
        ("0000000000000000007", Some(7)),
        ("4294967295", Some(4_294_967_295)),
        ("4294967296", None),
        ("00000000000000000007", None),
        ("", None),
        ("-1", None),
        ("+1", None),
        ("1a", None),
        (" 1", None),
    ];
    for (word, number) in words {
        assert_eq!(rt; read_number(word.as_bytes()), number, "{word:?}");
    }
}
