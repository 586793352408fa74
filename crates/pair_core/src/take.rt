//! The steps of the receive side in an open round: it takes partitions, gives them back and releases the round.

ghost use Rattle.std.specs.Prelude.{◌≡◌, ◌⊎◌, ◌↔◌, ℕ, ◌+◌, ◌%◌, ◌<◌, ◌≤◌, IsTrue, IfOk, IfErr, length};
ghost use Rattle.part_geometry.specs.Cells.{cells, recv_of};
ghost use Rattle.part_geometry.specs.Pieces.{piece_of};
ghost use Rattle.pair_core.specs.Names.{Piece, Take, Return, claim_words, take_words};
ghost use Rattle.pair_core.specs.Core.{Core};
ghost use Rattle.pair_core.specs.Reading.{IsFull, part_bit};
ghost use Rattle.pair_core.specs.Moves.{AreSeen};
ghost use Rattle.pair_core.specs.State.{Plain};
ghost use Rattle.pair_core.specs.Events.{Becomes};

use crate::bits::{bit_of, empty_word, with_bit};
use crate::event::{Applied, Event};
use crate::seat::{Pick, Spot};
use crate::state::CoreState;
use crate::view::RecvSide;
use std::alloc::AllocError;

impl CoreState {
    ghost use Rattle.pair_core.specs.Shows.{Shows};

    /// Whether the receive side is active.
    fn is_recv_active(&self) -> bool
        ensures { IsTrue result ↔ ((self.now.recv.takes ≡ take_words self.now.tables) × (self.now.recv.released ≡ 0)) }
    {
        self.recv.takes as usize == self.tables.take_words() && self.recv.released == 0
    }

    /// Whether a receive partition is taken, 0 or 1.
    fn take_bit(&self, q: u32) -> u64
        requires { q < self.now.tables.recv_parts }
        ensures { (core : Core Plain) → Shows self.now core → result ≡ part_bit (λ t. core.word (Take t)) q }
    {
        bit_of(self.word(self.tables.take_word(q)), q % 32)
    }

    /// Whether a receive partition is given back, 0 or 1.
    fn return_bit(&self, q: u32) -> u64
        requires { q < self.now.tables.recv_parts }
        ensures { (core : Core Plain) → Shows self.now core → result ≡ part_bit (λ t. core.word (Return t)) q }
    {
        bit_of(self.word(self.tables.return_word(q)), q % 32)
    }

    /// Whether each receive partition is taken and given back.
    fn are_back(&self) -> bool
        ensures { (core : Core Plain) → Shows self.now core
            → IsTrue result ↔ ((q : ℕ) → q < self.now.tables.recv_parts → (part_bit (λ t. core.word (Take t)) q ≡ 1)
            × (part_bit (λ t. core.word (Return t)) q ≡ 1)) }
    {
        let geometry = self.tables.geometry();
        for q in 0..geometry.recv_parts() {
            if self.take_bit(q) != 1 {
                return false;
            }
            if self.return_bit(q) != 1 {
                return false;
            }
        }
        true
    }

    /// The receive side releases its round.
    pub(crate) fn store_release(&mut self, event: &Event) -> Applied
        requires { event.now.kind ≡ 13 }
        ensures tables { self.new.tables ≡ self.old.tables }
        ensures becomes { (core : Core Plain) → Shows self.old core
            → Becomes self.old.tables event.now (Shows self.new) core result }
    {
        let recv = self.recv;
        let release = self.tables.claim_words();
        if event.seat != 1 {
            return Applied::NotAllowed;
        }
        if event.word as usize != release {
            return Applied::NotAllowed;
        }
        if event.round != recv.round {
            return Applied::NotAllowed;
        }
        if !self.is_recv_active() {
            return Applied::NotAllowed;
        }
        if !self.are_back() {
            return Applied::NotAllowed;
        }
        self.write(1, release, empty_word(event.round));
        self.set_recv(RecvSide {
            released: 1,
            ..recv
        });
        Applied::quietly()
    }

    /// Whether the receive side has seen the piece of cell `c` full in a round, where the cell is of a partition.
    fn sees_cell(&self, round: u32, q: u32, c: usize) -> bool
        requires { c < cells self.now.tables }
        ensures { (core : Core Plain) → Shows self.now core → IsTrue result ↔ (recv_of self.now.tables c ≡ q
            → IsFull self.now.tables
            (core.seen 1 (Piece (round % self.now.tables.depth) (piece_of self.now.tables c))) round
            (piece_of self.now.tables c)) }
    {
        // The geometry's limits, for the proof.
        let _geometry = self.tables.geometry();
        let cell = self.tables.cell(c);
        if cell.recv != q {
            return true;
        }
        self.sees_full(1, round, cell.piece as usize)
    }

    /// Whether the receive side has seen each piece over a receive partition full in a round.
    fn sees_over(&self, round: u32, q: u32) -> bool
        ensures { (core : Core Plain) → Shows self.now core
            → IsTrue result ↔ AreSeen self.now.tables (core.seen 1) round q }
    {
        // The geometry's limits, for the proof.
        let _geometry = self.tables.geometry();
        for c in 0..self.tables.cells() {
            if !self.sees_cell(round, q, c) {
                return false;
            }
        }
        true
    }

    /// The receive side takes a partition.
    pub(crate) fn take_part(&mut self, event: &Event) -> Result<Applied, AllocError>
        requires { event.now.kind ≡ 11 }
        ensures tables { self.new.tables ≡ self.old.tables }
        ensures becomes { IfOk result (λ r. (core : Core Plain) → Shows self.old core
            → Becomes self.old.tables event.now (Shows self.new) core r) }
        ensures memory { IfErr result (λ _. (core : Core Plain) → Shows self.old core → Shows self.new core) }
    {
        let round = self.recv.round;
        let q = event.partition;
        if event.seat != 1 {
            return Ok(Applied::NotAllowed);
        }
        if q >= self.tables.geometry().recv_parts() {
            return Ok(Applied::NotAllowed);
        }
        let index = self.tables.take_word(q);
        if event.word as usize != index {
            return Ok(Applied::NotAllowed);
        }
        if !self.is_recv_active() {
            return Ok(Applied::NotAllowed);
        }
        if self.take_bit(q) != 0 {
            return Ok(Applied::NotAllowed);
        }
        if !self.sees_over(round, q) {
            return Ok(Applied::NotAllowed);
        }
        let word = self.word(index);
        self.add_take(round, q)?;
        let place = self.tables.place(round);
        self.put_slots(
            place,
            Pick::Received { partition: q },
            Spot::Lent { seat: 1 },
        );
        self.write(1, index, with_bit(word, q % 32));
        Ok(Applied::taking(round, q))
    }

    /// The receive side gives a partition back.
    pub(crate) fn return_part(&mut self, event: &Event) -> Applied
        requires { event.now.kind ≡ 12 }
        ensures tables { self.new.tables ≡ self.old.tables }
        ensures becomes { (core : Core Plain) → Shows self.old core
            → Becomes self.old.tables event.now (Shows self.new) core result }
    {
        let round = self.recv.round;
        let q = event.partition;
        if event.seat != 1 {
            return Applied::NotAllowed;
        }
        if q >= self.tables.geometry().recv_parts() {
            return Applied::NotAllowed;
        }
        let index = self.tables.return_word(q);
        if event.word as usize != index {
            return Applied::NotAllowed;
        }
        if !self.is_recv_active() {
            return Applied::NotAllowed;
        }
        if self.take_bit(q) != 1 {
            return Applied::NotAllowed;
        }
        if self.return_bit(q) != 0 {
            return Applied::NotAllowed;
        }
        let word = self.word(index);
        let place = self.tables.place(round);
        self.put_slots(
            place,
            Pick::Received { partition: q },
            Spot::Filled { round },
        );
        self.write(1, index, with_bit(word, q % 32));
        Applied::quietly()
    }
}
