//! A running pair with a marker and a watcher, all on one thread, and its calls, each answered by a text.

ghost use Rattle.std.specs.Prelude.{◌≡◌};
ghost use Rattle.pair_rule.specs.Seats.{IsOf};

use crate::ends::{
    close, ends, marker, ready, ready_counted, ready_list, ready_range, rejoin, start, test, watch,
};
use crate::held::Receiving;
use pair_rule::{AnyBytes, Pair};
use part_recv::Watcher;
use part_send::{Marker, SendEnd};
use std::fmt::Debug;
use std::marker::Brand;
use std::process::Abort;
use std::sync::ledger::Blank;

/// A call of one of the ends, of the marker or of the watcher.
#[derive(Drop)]
pub(crate) enum Call {
    /// The send end starts a round.
    Start,
    /// The send end tests its round.
    Test,
    /// The marker marks a partition in a round.
    Ready(u32, u32, &'static [u8]),
    /// The same, with a count of its steps.
    Counted(u32, u32, &'static [u8]),
    /// The marker marks a range in a round.
    Range(u32, u32, u32, &'static [u8]),
    /// The marker marks a list in a round.
    List(u32, &'static [u32], &'static [u8]),
    /// The marker is dropped, and another one takes its place.
    DropMarker,
    /// The watcher looks at a partition in a round.
    Watch(u32, u32),
    /// The receive end starts a round.
    StartRecv,
    /// The receive end tests its round.
    TestRecv,
    /// The receive end looks at a partition.
    Look(u32),
    /// The receive end takes a partition, which is kept until it is given back.
    Take(u32),
    /// The receive end gives a partition back.
    Back(u32),
    /// What was taken of a partition is dropped.
    DropTaken(u32),
    /// The receive end learns what the marker has seen.
    Learn,
}

/// A pair with its two ends, a marker and a watcher.
#[derive(Drop)]
pub(crate) struct Running {
    pair: Pair<AnyBytes>,
    send: SendEnd<AnyBytes>,
    recv: Receiving,
    marker: Marker<AnyBytes>,
    watcher: Watcher<AnyBytes>,
    ghost send_of: { IsOf send.table send.view pair },
    ghost recv_of: { IsOf recv.table recv.view pair },
    ghost marker_of: { IsOf marker.table marker.view pair },
    ghost watcher_of: { IsOf watcher.table watcher.view pair },
}

/// A text of an answer.
pub(crate) fn text<R: Abort + AllocGlobal, T: Debug + Drop>(rt: &R, answer: T) -> String {
    format!(in rt.alloc(); "{answer:?}").expect(rt, "enough memory")
}

impl Running {
    /// A pair of six numbers.
    pub(crate) fn of<R: Abort + AllocGlobal>(rt: &R, n: [u32; 6]) -> Running {
        let (pair, mut send, mut recv) = ends(rt, n);
        let marker = marker(rt, &pair, &mut send);
        let watcher = recv.watcher(&pair);
        let recv = Receiving::of(rt, recv, pair.geometry().recv_parts());
        Running {
            pair,
            send,
            recv,
            marker,
            watcher,
        }
    }

    /// What a call answers.
    pub(crate) fn answer<R: Abort + AllocGlobal>(&mut self, rt: &R, call: &Call) -> String {
        let pair = &self.pair;
        let marks = &mut self.marker;
        match call {
            Call::Start => text(rt, start(pair, &mut self.send)),
            Call::Test => text(rt, test(pair, &mut self.send)),
            Call::Ready(k, p, bytes) => text(rt, ready(pair, marks, *k, *p, bytes)),
            Call::Counted(k, p, bytes) => {
                let blank = Blank::new(1);
                text(
                    rt,
                    ready_counted::<Brand>(pair, marks, *k, *p, bytes, blank),
                )
            }
            Call::Range(k, p, last, bytes) => text(
                rt,
                ready_range(pair, marks, *k, *p, *last, bytes),
            ),
            Call::List(k, parts, bytes) => text(rt, ready_list(rt, pair, marks, *k, parts, bytes)),
            Call::DropMarker => text(rt, self.marker = marker(rt, pair, &mut self.send)),
            Call::Watch(k, q) => text(rt, watch(rt, pair, &mut self.watcher, *k, *q)),
            Call::StartRecv => text(rt, self.recv.start(rt, pair)),
            Call::TestRecv => text(rt, self.recv.test(pair)),
            Call::Look(q) => text(rt, self.recv.look(pair, *q)),
            Call::Take(q) => self.recv.take(rt, pair, *q),
            Call::Back(q) => text(rt, self.recv.back(pair, *q)),
            Call::DropTaken(q) => text(rt, self.recv.forget(*q)),
            Call::Learn => text(rt, self.recv.learn(pair, self.marker.note(pair))),
        }
    }

    /// Takes the marker and the watcher back, and closes the pair. Answers the rounds sent and received, and the
    /// pieces that went out.
    pub(crate) fn close<R: Abort + AllocGlobal>(self, rt: &R) -> (u32, u32, u64) {
        let Running {
            pair,
            mut send,
            recv,
            marker,
            watcher,
        } = self;
        rejoin(&pair, &mut send, marker);
        let mut recv = recv.into_end();
        recv.rejoin(&pair, watcher);
        close(rt, pair, send, recv)
    }
}
