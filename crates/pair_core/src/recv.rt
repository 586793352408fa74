//! The steps of the receive side that open its rounds.

ghost use Rattle.std.specs.Prelude.{◌≡◌, ◌⊎◌, ◌↔◌, ℕ, ◌+◌, ◌<◌, ◌≤◌, IsTrue, length};
ghost use Rattle.pair_core.specs.Names.{claim_words, take_words};
ghost use Rattle.pair_core.specs.Core.{Core};
ghost use Rattle.pair_core.specs.State.{Plain};
ghost use Rattle.pair_core.specs.Events.{Becomes};

use crate::bits::empty_word;
use crate::event::{Applied, Event};
use crate::state::CoreState;
use crate::view::RecvSide;
use part_geometry::LAST_ROUND;

impl CoreState {
    ghost use Rattle.pair_core.specs.Shows.{Shows};

    /// Whether the receive side stores return word `t` of a round next.
    fn returns_next(&self, round: u32, t: usize) -> bool
        ensures { IsTrue result ↔ (((t ≡ 0) × (self.now.recv.released ≡ 1) × (round ≡ self.now.recv.round + 1))
            ⊎ ((1 ≤ t) × (t ≡ self.now.recv.returns) × (round ≡ self.now.recv.round))) }
    {
        if t == 0 {
            return self.recv.released == 1 && round >= 1 && round - 1 == self.recv.round;
        }
        t == self.recv.returns as usize && round == self.recv.round
    }

    /// The receive side stores a return word, empty for a round.
    pub(crate) fn store_return(&mut self, event: &Event) -> Applied
        requires { event.now.kind ≡ 9 }
        ensures tables { self.new.tables ≡ self.old.tables }
        ensures becomes { (core : Core Plain) → Shows self.old core
            → Becomes self.old.tables event.now (Shows self.new) core result }
    {
        let recv = self.recv;
        let round = event.round;
        let word = event.word as usize;
        let first = self.tables.claim_words() + 1 + self.tables.take_words();
        if event.seat != 1 {
            return Applied::NotAllowed;
        }
        if round > LAST_ROUND {
            return Applied::NotAllowed;
        }
        if word < first || word - first >= self.tables.take_words() {
            return Applied::NotAllowed;
        }
        let t = word - first;
        if !self.returns_next(round, t) {
            return Applied::NotAllowed;
        }
        self.write(1, word, empty_word(round));
        self.set_recv(RecvSide {
            round,
            returns: t as u32 + 1,
            takes: 0,
            released: 0,
            watchers: recv.watchers,
        });
        Applied::quietly()
    }

    /// Whether the receive side stores take word `t` of a round next.
    fn takes_next(&self, round: u32, t: usize) -> bool
        ensures few { IsTrue result → t < 32 }
        ensures next { IsTrue result ↔ ((t < take_words self.now.tables) × (round ≡ self.now.recv.round)
            × (self.now.recv.returns ≡ take_words self.now.tables) × (t ≡ self.now.recv.takes)) }
    {
        t < self.tables.take_words()
            && round == self.recv.round
            && self.recv.returns as usize == self.tables.take_words()
            && t == self.recv.takes as usize
    }

    /// The receive side stores a take word, empty for its round.
    pub(crate) fn store_take(&mut self, event: &Event) -> Applied
        requires { event.now.kind ≡ 10 }
        ensures tables { self.new.tables ≡ self.old.tables }
        ensures becomes { (core : Core Plain) → Shows self.old core
            → Becomes self.old.tables event.now (Shows self.new) core result }
    {
        let recv = self.recv;
        let word = event.word as usize;
        let first = self.tables.claim_words() + 1;
        if event.seat != 1 {
            return Applied::NotAllowed;
        }
        if word < first {
            return Applied::NotAllowed;
        }
        let t = word - first;
        if !self.takes_next(event.round, t) {
            return Applied::NotAllowed;
        }
        self.write(1, word, empty_word(event.round));
        self.set_recv(RecvSide {
            takes: t as u32 + 1,
            ..recv
        });
        Applied::quietly()
    }
}
