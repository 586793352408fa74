//! Lists of events, with the numbers of the words counted by hand.

use pair_core::{Applied, CoreState, Event, Replay, Step, replay, step};
use part_geometry::Geometry;
use std::process::Abort;

/// An event of five numbers: a seat's step of a kind on a word, in a round or of a partition.
pub(crate) fn event(n: [u32; 5]) -> Event {
    Event {
        seat: n[0],
        kind: n[1],
        word: n[2],
        round: n[3],
        partition: n[4],
    }
}

/// Where a replay of some events stops.
fn stop<R: Abort + AllocGlobal>(rt: &R, geometry: Geometry, events: &[Event]) -> Option<usize> {
    match replay(rt.alloc(), geometry, events).expect(rt, "enough memory") {
        Replay::Ran { .. } => None,
        Replay::Stopped { at } => Some(at),
    }
}

/// A pair of two send partitions of a byte and one receive partition of two, with 2 rounds in flight and a piece for
/// each byte. Its words are the claim word, the release word, the take word, the return word, and the piece words: 4
/// and 5 of even rounds, 6 and 7 of odd ones.
pub(crate) fn two_and_one<R: Abort>(rt: &R) -> Geometry {
    Geometry::new(2, 1, 1, 2, 1, 2).expect(rt, "within the limits")
}

/// The numbers of both rounds of that pair. The first goes up to its shutting, by the send side, the markers 2 and 4,
/// the watcher 3 and the receive side; marker 4 loses an exchange to marker 2, and then gets its partition. The second
/// opens before the first is released, and goes up to its release and its shutting.
fn both_numbers() -> [[u32; 5]; 42] {
    [
        [0, 1, 6, 1, 0],
        [0, 1, 7, 1, 0],
        [0, 2, 0, 1, 0],
        [2, 3, 0, 0, 0],
        [4, 3, 0, 0, 0],
        [2, 7, 0, 0, 1],
        [4, 7, 0, 0, 0],
        [4, 7, 0, 0, 0],
        [2, 8, 7, 0, 1],
        [3, 4, 7, 0, 0],
        [4, 8, 6, 0, 0],
        [1, 9, 3, 1, 0],
        [1, 10, 2, 1, 0],
        [1, 4, 6, 0, 0],
        [1, 4, 7, 0, 0],
        [1, 11, 2, 0, 0],
        [3, 4, 6, 0, 0],
        [0, 3, 0, 0, 0],
        [0, 4, 6, 0, 0],
        [0, 4, 7, 0, 0],
        [0, 6, 0, 0, 0],
        // The second round.
        [0, 1, 4, 2, 0],
        [0, 1, 5, 2, 0],
        [0, 2, 0, 2, 0],
        [2, 3, 0, 0, 0],
        [2, 7, 0, 0, 0],
        [2, 8, 4, 0, 0],
        [2, 7, 0, 0, 1],
        [2, 8, 5, 0, 1],
        [1, 12, 3, 0, 0],
        [1, 13, 1, 1, 0],
        [1, 9, 3, 2, 0],
        [1, 10, 2, 2, 0],
        [1, 4, 4, 0, 0],
        [1, 4, 5, 0, 0],
        [1, 11, 2, 0, 0],
        [1, 12, 3, 0, 0],
        [0, 3, 0, 0, 0],
        [0, 4, 4, 0, 0],
        [0, 4, 5, 0, 0],
        [0, 5, 1, 0, 0],
        [0, 6, 0, 0, 0],
    ]
}

/// Both rounds.
pub(crate) fn both_rounds<R: Abort + AllocGlobal>(rt: &R) -> Vec<Event> {
    let mut events = Vec::new(rt.alloc());
    for n in both_numbers() {
        events.push(event(n)).expect(rt, "enough memory");
    }
    events
}

#[test]
fn two_rounds_are_replayed(rt: HostRuntime) {
    let geometry = two_and_one(&rt);
    let events = both_rounds(&rt);
    assert_eq!(rt; stop(&rt, geometry, &events), None);
    // Without the event at the first place, the first that isn't allowed stands at the second.
    let needed = [
        (0, 0),
        (2, 4),
        (3, 4),
        (8, 14),
        (14, 14),
        (20, 20),
        (29, 29),
        (40, 40),
    ];
    for (without, at) in needed {
        let mut fewer = both_rounds(&rt);
        if without < fewer.len() {
            fewer.remove(without);
        }
        assert_eq!(rt; stop(&rt, geometry, &fewer), Some(at), "without {without}");
    }
}

#[test]
fn each_step_tells_what_went_out_or_was_taken(rt: HostRuntime) {
    let events = both_rounds(&rt);
    let mut state = CoreState::start(rt.alloc(), two_and_one(&rt)).expect(&rt, "enough memory");
    let told = [
        (8, Some((1, 1)), None),
        (10, Some((1, 0)), None),
        (15, None, Some((1, 0))),
        (26, Some((2, 0)), None),
        (28, Some((2, 1)), None),
        (35, None, Some((2, 0))),
    ];
    for (at, event) in events.iter().enumerate() {
        let got = state.apply(rt.alloc(), event).expect(&rt, "enough memory");
        let mut wanted = Applied::Done {
            out: None,
            take: None,
        };
        for (place, out, take) in told {
            if place == at {
                wanted = Applied::Done { out, take };
            }
        }
        assert_eq!(rt; got, wanted, "event {at}");
    }
    for kind in [0, 14] {
        let got = state.apply(rt.alloc(), &event([0, kind, 0, 0, 0]));
        assert_eq!(rt; got.expect(&rt, "enough memory"), Applied::NotAllowed);
    }
}

/// The state after an event, if it is allowed.
fn stepped<R: Abort + AllocGlobal>(rt: &R, state: &CoreState, event: &Event) -> Option<CoreState> {
    match step(rt.alloc(), state, event).expect(rt, "enough memory") {
        Step::Next { state } => Some(state),
        Step::NotAllowed => None,
    }
}

#[test]
fn a_step_leaves_the_state_that_it_starts_from(rt: HostRuntime) {
    let events = both_rounds(&rt);
    let mut state = CoreState::start(rt.alloc(), two_and_one(&rt)).expect(&rt, "enough memory");
    for (at, event) in events.iter().enumerate() {
        let first = stepped(&rt, &state, event);
        let again = stepped(&rt, &state, event);
        assert_eq!(rt;
            (first.is_some(), again.is_some()),
            (true, true),
            "event {at}"
        );
        if let Some(after) = again {
            state = after;
        }
    }
}

#[test]
fn a_pair_of_33_and_2_partitions_has_two_claim_words(rt: HostRuntime) {
    let geometry = Geometry::new(33, 2, 2, 33, 1, 1).expect(&rt, "within the limits");
    let cases = [([0, 1, 5, 1, 0], Some(1)), ([0, 1, 4, 1, 0], Some(0))];
    let bad = event([0, 0, 0, 0, 0]);
    for (first, at) in cases {
        assert_eq!(rt; stop(&rt, geometry, &[event(first), bad]), at);
    }
}
