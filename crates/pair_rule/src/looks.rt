//! Looks at the claim words and at the words of pieces, which any seat may take.

ghost use Rattle.std.specs.Prelude.{◌≡◌, ◌<◌, refl};
ghost use Rattle.part_geometry.specs.Pieces.{pieces};
ghost use Rattle.pair_core.specs.Names.{Claim, Piece, claim_words};
ghost use Rattle.pair_core.specs.Moves.{LoadClaim, LoadPiece};
ghost use Rattle.pair_rule.specs.Views.{saw};
ghost use Rattle.pair_rule.specs.Told.{Learns};
ghost use Rattle.pair_rule.specs.Seats.{IsOf};
ghost use Rattle.pair_rule.specs.declared.view.Standing.TheVariants.{Seated};

use crate::content::Content;
use crate::pair::Pair;
use crate::plays::{LoadsClaim, LoadsPiece, Numbers};
use crate::rule::Place;
use crate::seats::{MarkSeat, RecvSeat, SendSeat, WatchSeat};
use crate::words::{claim_word, piece_word};
use std::marker::Brand;

/// A seat of a pair. No type outside this crate can be one.
pub trait Seated<C: Content>: Sealed {
    ghost use Rattle.atomic_table.specs.Seated.{TableId};
    ghost use Rattle.pair_rule.specs.declared.view.View.{View};

    /// Its table.
    ghost table_of: { Self → TableId };

    /// What it knows.
    ghost view_of: { Self → View };

    /// The same seat where it knows something else.
    ghost with_view: { Self → View → Self };

    /// Looks at claim word `word`.
    fn claim_found(&mut self, pair: &Pair<C>, word: u32) -> u64
        requires pair { IsOf (table_of self.old) (view_of self.old) pair.now }
        requires word { word < claim_words (view_of self.old).geometry }
        ensures step { self.new ≡ with_view self.old (saw (Claim word) result (view_of self.old)) }
        ensures told { Learns (view_of self.old) (Claim word) result };

    /// Looks at the word of piece `piece` at place `place`.
    fn piece_found(&mut self, pair: &Pair<C>, place: u32, piece: u32) -> u64
        requires pair { IsOf (table_of self.old) (view_of self.old) pair.now }
        requires place { place < (view_of self.old).geometry.depth }
        requires piece { piece < pieces (view_of self.old).geometry }
        ensures step { self.new ≡ with_view self.old (saw (Piece place piece) result (view_of self.old)) }
        ensures told { Learns (view_of self.old) (Piece place piece) result };

    ghost has_view: { (s : Self) (d : View) → view_of (with_view s d) ≡ d };

    ghost has_table: { (s : Self) (d : View) → table_of (with_view s d) ≡ table_of s };

    ghost has_last: { (s : Self) (d e : View) → with_view (with_view s d) e ≡ with_view s e };
}

/// What keeps types outside this crate from being seats.
pub trait Sealed {}

impl<C: Content> Sealed for SendSeat<C> {}

impl<C: Content> Sealed for MarkSeat<C> {}

impl<C: Content> Sealed for WatchSeat<C> {}

impl<C: Content> Sealed for RecvSeat<C> {}

impl<C: Content> Pair<C> {
    pub(crate) fn load_claim_as<X: Numbers>(&self, seat: &mut Place, word: u32) -> u64
        requires said { word ≡ X.one }
        requires pair { IsOf seat.old.table_id seat.old.me.0 self.now }
        requires live { seat.old.me.0.standing ≡ Seated }
        requires word { word < claim_words seat.old.me.0.geometry }
        ensures seat { (seat.new.table_id ≡ seat.old.table_id) × (seat.new.id ≡ seat.old.id) }
        ensures step { seat.new.me ≡ (saw (Claim word) result seat.old.me.0, seat.old.me.1) }
        ensures told { Learns seat.old.me.0 (Claim word) result }
    {
        let index = claim_word(&self.tables, word as usize);
        self.table.shared.load::<LoadsClaim<X>>(seat, index)
    }

    pub(crate) fn load_piece_as<X: Numbers>(&self, seat: &mut Place, place: u32, piece: u32) -> u64
        requires said { (place ≡ X.one) × (piece ≡ X.two) }
        requires pair { IsOf seat.old.table_id seat.old.me.0 self.now }
        requires live { seat.old.me.0.standing ≡ Seated }
        requires place { place < seat.old.me.0.geometry.depth }
        requires piece { piece < pieces seat.old.me.0.geometry }
        ensures seat { (seat.new.table_id ≡ seat.old.table_id) × (seat.new.id ≡ seat.old.id) }
        ensures step { seat.new.me ≡ (saw (Piece place piece) result seat.old.me.0, seat.old.me.1) }
        ensures told { Learns seat.old.me.0 (Piece place piece) result }
    {
        let index = piece_word(&self.tables, place as usize, piece as usize);
        self.table.shared.load::<LoadsPiece<X>>(seat, index)
    }

    /// A seat looks at a claim word. Word `c` has the 32 send partitions from 32 c on: which of them are claimed in the
    /// word's round. The word found is the one last seen, or a later one.
    pub fn load_claim<S: Seated<C>>(&self, seat: &mut S, word: u32) -> u64
        requires pair { IsOf (S.table_of seat.old) (S.view_of seat.old) self.now }
        requires word { word < claim_words (S.view_of seat.old).geometry }
        ensures step { seat.new ≡ S.with_view seat.old (saw (Claim word) result (S.view_of seat.old)) }
        ensures told { Learns (S.view_of seat.old) (Claim word) result }
    {
        seat.claim_found(self, word)
    }

    /// A seat looks at the word of a piece at a place, which is a round's remainder by the depth: which of the send
    /// partitions that the piece touches it has in the word's round. The word found is the one last seen, or a later
    /// one.
    pub fn load_piece<S: Seated<C>>(&self, seat: &mut S, place: u32, piece: u32) -> u64
        requires pair { IsOf (S.table_of seat.old) (S.view_of seat.old) self.now }
        requires place { place < (S.view_of seat.old).geometry.depth }
        requires piece { piece < pieces (S.view_of seat.old).geometry }
        ensures step { seat.new ≡ S.with_view seat.old (saw (Piece place piece) result (S.view_of seat.old)) }
        ensures told { Learns (S.view_of seat.old) (Piece place piece) result }
    {
        seat.piece_found(self, place, piece)
    }
}

impl<C: Content> Seated<C> for SendSeat<C> {
    ghost table_of = { λ s. s.table };

    ghost view_of = { λ s. s.view };

    ghost with_view = { λ s d. record s { view = d } };

    fn claim_found(&mut self, pair: &Pair<C>, word: u32) -> u64 {
        pair.load_claim_as::<Brand>(&mut self.seat, word)
    }

    fn piece_found(&mut self, pair: &Pair<C>, place: u32, piece: u32) -> u64 {
        pair.load_piece_as::<Brand>(&mut self.seat, place, piece)
    }

    ghost has_view = { λ s d. refl };

    ghost has_table = { λ s d. refl };

    ghost has_last = { λ s d e. refl };
}

impl<C: Content> Seated<C> for MarkSeat<C> {
    ghost table_of = { λ s. s.table };

    ghost view_of = { λ s. s.view };

    ghost with_view = { λ s d. record s { view = d } };

    fn claim_found(&mut self, pair: &Pair<C>, word: u32) -> u64 {
        pair.load_claim_as::<Brand>(&mut self.seat, word)
    }

    fn piece_found(&mut self, pair: &Pair<C>, place: u32, piece: u32) -> u64 {
        pair.load_piece_as::<Brand>(&mut self.seat, place, piece)
    }

    ghost has_view = { λ s d. refl };

    ghost has_table = { λ s d. refl };

    ghost has_last = { λ s d e. refl };
}

impl<C: Content> Seated<C> for WatchSeat<C> {
    ghost table_of = { λ s. s.table };

    ghost view_of = { λ s. s.view };

    ghost with_view = { λ s d. record s { view = d } };

    fn claim_found(&mut self, pair: &Pair<C>, word: u32) -> u64 {
        pair.load_claim_as::<Brand>(&mut self.seat, word)
    }

    fn piece_found(&mut self, pair: &Pair<C>, place: u32, piece: u32) -> u64 {
        pair.load_piece_as::<Brand>(&mut self.seat, place, piece)
    }

    ghost has_view = { λ s d. refl };

    ghost has_table = { λ s d. refl };

    ghost has_last = { λ s d e. refl };
}

impl<C: Content> Seated<C> for RecvSeat<C> {
    ghost table_of = { λ s. s.table };

    ghost view_of = { λ s. s.view };

    ghost with_view = { λ s d. record s { view = d } };

    fn claim_found(&mut self, pair: &Pair<C>, word: u32) -> u64 {
        pair.load_claim_as::<Brand>(&mut self.seat, word)
    }

    fn piece_found(&mut self, pair: &Pair<C>, place: u32, piece: u32) -> u64 {
        pair.load_piece_as::<Brand>(&mut self.seat, place, piece)
    }

    ghost has_view = { λ s d. refl };

    ghost has_table = { λ s d. refl };

    ghost has_last = { λ s d e. refl };
}
