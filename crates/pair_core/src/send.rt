//! The steps of the send side.

ghost use Rattle.std.specs.Prelude.{◌≡◌, ◌⊎◌, ◌↔◌, ℕ, ◌+◌, ◌<◌, ◌≤◌, IsTrue, length};
ghost use Rattle.gate_word.specs.Words.{round_in};
ghost use Rattle.part_geometry.specs.Pieces.{pieces};
ghost use Rattle.pair_core.specs.Names.{Release, Claim, Piece, claim_words};
ghost use Rattle.pair_core.specs.Core.{Core};
ghost use Rattle.pair_core.specs.Reading.{IsFull, part_bit};
ghost use Rattle.pair_core.specs.Moves.{MayShut};
ghost use Rattle.pair_core.specs.State.{Plain, IsAt};
ghost use Rattle.pair_core.specs.Events.{Becomes};

use crate::bits::{SHUT, bit_of, empty_word, with_bit};
use crate::event::{Applied, Event};
use crate::state::CoreState;
use crate::view::SendSide;
use gate_word::round_of;
use part_geometry::LAST_ROUND;

impl CoreState {
    ghost use Rattle.std.specs.Prelude.{◌%◌, ◌/◌};
    ghost use Rattle.pair_core.specs.Shows.{Shows};

    /// The send side loads the release word.
    pub(crate) fn load_release(&mut self, event: &Event) -> Applied
        requires { event.now.kind ≡ 5 }
        ensures tables { self.new.tables ≡ self.old.tables }
        ensures becomes { (core : Core Plain) → Shows self.old core
            → Becomes self.old.tables event.now (Shows self.new) core result }
    {
        let release = self.tables.claim_words();
        if event.seat != 0 {
            return Applied::NotAllowed;
        }
        if event.word as usize != release {
            return Applied::NotAllowed;
        }
        self.look(0, release);
        Applied::quietly()
    }

    /// Whether the send side stores piece `i` of a round next, if it has room.
    fn begins_next(&self, round: u32, i: usize) -> bool
        ensures { IsTrue result
            ↔ (((i ≡ 0) × (self.now.send.shut ≡ claim_words self.now.tables) × (round ≡ self.now.send.round + 1))
            ⊎ ((1 ≤ i) × (i ≡ self.now.send.pieces) × (round ≡ self.now.send.round))) }
    {
        if i == 0 {
            let idle = self.send.shut as usize == self.tables.claim_words();
            return idle && round >= 1 && round - 1 == self.send.round;
        }
        i == self.send.pieces as usize && round == self.send.round
    }

    /// Whether a round is at most `depth` ahead of the release that the send side has seen.
    fn has_room(&self, round: u32) -> bool
        ensures { (core : Core Plain) → Shows self.now core
            → IsTrue result ↔ (round ≤ round_in (core.seen 0 Release) + self.now.tables.depth) }
    {
        let seen = self.seen(0, self.tables.claim_words());
        round <= round_of(seen) + self.tables.geometry().depth()
    }

    /// The send side stores a piece word, empty for a round.
    pub(crate) fn store_piece(&mut self, event: &Event) -> Applied
        requires { event.now.kind ≡ 1 }
        ensures tables { self.new.tables ≡ self.old.tables }
        ensures becomes { (core : Core Plain) → Shows self.old core
            → Becomes self.old.tables event.now (Shows self.new) core result }
    {
        let send = self.send;
        let round = event.round;
        if event.seat != 0 {
            return Applied::NotAllowed;
        }
        if round > LAST_ROUND {
            return Applied::NotAllowed;
        }
        let place = self.tables.place(round);
        let Some(i) = self.tables.piece_at(place, event.word as usize) else {
            return Applied::NotAllowed;
        };
        if !self.begins_next(round, i) {
            return Applied::NotAllowed;
        }
        if !self.has_room(round) {
            return Applied::NotAllowed;
        }
        self.write(0, event.word as usize, empty_word(round));
        self.set_send(SendSide {
            round,
            pieces: i as u32 + 1,
            opened: 0,
            shut: 0,
            markers: send.markers,
        });
        Applied::quietly()
    }

    /// Whether the send side stores claim word `c` of a round next.
    fn opens_next(&self, round: u32, c: usize) -> bool
        ensures few { IsTrue result → c < 32 }
        ensures next { IsTrue result ↔ ((c < claim_words self.now.tables) × (round ≡ self.now.send.round)
            × (self.now.send.pieces ≡ pieces self.now.tables) × (c ≡ self.now.send.opened)) }
    {
        c < self.tables.claim_words()
            && round == self.send.round
            && self.send.pieces as usize == self.tables.pieces()
            && c == self.send.opened as usize
    }

    /// The send side stores a claim word, empty for its round.
    pub(crate) fn store_claim(&mut self, event: &Event) -> Applied
        requires { event.now.kind ≡ 2 }
        ensures tables { self.new.tables ≡ self.old.tables }
        ensures becomes { (core : Core Plain) → Shows self.old core
            → Becomes self.old.tables event.now (Shows self.new) core result }
    {
        let send = self.send;
        let c = event.word as usize;
        if event.seat != 0 {
            return Applied::NotAllowed;
        }
        if !self.opens_next(event.round, c) {
            return Applied::NotAllowed;
        }
        self.write(0, c, empty_word(event.round));
        self.set_send(SendSide {
            opened: c as u32 + 1,
            ..send
        });
        Applied::quietly()
    }

    /// Whether a seat has seen piece `i` full in a round.
    pub(crate) fn sees_full(&self, at: usize, round: u32, i: usize) -> bool
        requires at { at < length self.now.seats.items }
        requires piece { i < pieces self.now.tables }
        ensures { (core : Core Plain) (n : ℕ) → Shows self.now core → IsAt self.now.seats.items at n
            → IsTrue result ↔ IsFull self.now.tables (core.seen n (Piece (round % self.now.tables.depth) i)) round i }
    {
        let place = self.tables.place(round);
        let word = self.seen(at, self.tables.piece_word(place, i));
        self.tables.is_full(word, round, i)
    }

    /// Whether the send side has seen each of its partitions claimed in a round.
    fn sees_claimed(&self, round: u32) -> bool
        ensures { (core : Core Plain) → Shows self.now core
            → IsTrue result ↔ ((p : ℕ) → p < self.now.tables.send_parts
            → (round_in (core.seen 0 (Claim (p / 32))) ≡ round) × (part_bit (λ c. core.seen 0 (Claim c)) p ≡ 1)) }
    {
        let parts = self.tables.geometry().send_parts();
        for p in 0..parts {
            let word = self.seen(0, (p / 32) as usize);
            if round_of(word) != round {
                return false;
            }
            if bit_of(word, p % 32) != 1 {
                return false;
            }
        }
        true
    }

    /// Whether the send side has seen each piece full in a round.
    fn sees_out(&self, round: u32) -> bool
        ensures { (core : Core Plain) → Shows self.now core
            → IsTrue result ↔ ((i : ℕ) → i < pieces self.now.tables
            → IsFull self.now.tables (core.seen 0 (Piece (round % self.now.tables.depth) i)) round i) }
    {
        for i in 0..self.tables.pieces() {
            if !self.sees_full(0, round, i) {
                return false;
            }
        }
        true
    }

    /// Whether what the send side has seen lets it shut its round.
    fn may_shut(&self) -> bool
        ensures { (core : Core Plain) → Shows self.now core
            → IsTrue result ↔ MayShut self.now.tables (core.seen 0) core.send.round }
    {
        let round = self.send.round;
        if !self.sees_claimed(round) {
            return false;
        }
        if !self.sees_out(round) {
            return false;
        }
        self.has_room(round + 1)
    }

    /// Whether the send side shuts claim word `c` next, if its round may be shut.
    fn shuts_next(&self, c: usize) -> bool
        ensures few { IsTrue result → c < 32 }
        ensures next { IsTrue result
            ↔ ((c < claim_words self.now.tables) × (self.now.send.opened ≡ claim_words self.now.tables)
            × (c ≡ self.now.send.shut)) }
    {
        c < self.tables.claim_words()
            && self.send.opened as usize == self.tables.claim_words()
            && c == self.send.shut as usize
    }

    /// The send side shuts a claim word.
    pub(crate) fn shut_claim(&mut self, event: &Event) -> Applied
        requires { event.now.kind ≡ 6 }
        ensures tables { self.new.tables ≡ self.old.tables }
        ensures becomes { (core : Core Plain) → Shows self.old core
            → Becomes self.old.tables event.now (Shows self.new) core result }
    {
        let send = self.send;
        let c = event.word as usize;
        if event.seat != 0 {
            return Applied::NotAllowed;
        }
        if !self.shuts_next(c) {
            return Applied::NotAllowed;
        }
        if !self.may_shut_word(c) {
            return Applied::NotAllowed;
        }
        let word = self.word(c);
        self.write(0, c, with_bit(word, SHUT));
        self.set_send(SendSide {
            shut: c as u32 + 1,
            ..send
        });
        Applied::quietly()
    }

    /// The same for the first word; for another the round is being shut already.
    fn may_shut_word(&self, c: usize) -> bool
        ensures { (core : Core Plain) → Shows self.now core
            → IsTrue result ↔ (c ≡ 0 → MayShut self.now.tables (core.seen 0) core.send.round) }
    {
        if c != 0 {
            return true;
        }
        self.may_shut()
    }
}
