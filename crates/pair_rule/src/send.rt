//! The steps of the send side.

ghost use Rattle.std.specs.Prelude.{◌≡◌, ◌≤◌, ◌^◌, bit_or};
ghost use Rattle.pair_core.specs.Names.{Release};
ghost use Rattle.part_geometry.specs.declared.TheConstants.{LAST_ROUND};
ghost use Rattle.pair_core.specs.Moves.{StorePiece, StoreClaim, ShutClaim};
ghost use Rattle.pair_rule.specs.Views.{saw, stored_piece, stored_claim, shut_claim};
ghost use Rattle.pair_rule.specs.Told.{Learns};
ghost use Rattle.pair_rule.specs.Seats.{IsOf};
ghost use Rattle.pair_rule.specs.Steps.{MayMake};
ghost use Rattle.pair_rule.specs.declared.view.Standing.TheVariants.{Seated};

use crate::content::Content;
use crate::pair::Pair;
use crate::plays::{LoadsRelease, Numbers, ShutsClaim, StoresClaim, StoresPiece};
use crate::rule::Place;
use crate::seats::SendSeat;
use crate::words::{claim_word, empty_word, one_bit, piece_word, release_word};
use std::marker::Brand;

impl<C: Content> Pair<C> {
    fn store_piece_as<X: Numbers>(&self, seat: &mut Place, round: u32, piece: u32)
        requires said { (round ≡ X.one) × (piece ≡ X.two) }
        requires pair { IsOf seat.old.table_id seat.old.me.0 self.now }
        requires live { seat.old.me.0.standing ≡ Seated }
        requires allowed { MayMake seat.old.me.0 (StorePiece round piece) }
        ensures seat { (seat.new.table_id ≡ seat.old.table_id) × (seat.new.id ≡ seat.old.id) }
        ensures step { seat.new.me ≡ (stored_piece round piece seat.old.me.0, seat.old.me.1) }
    {
        let word = piece_word(&self.tables, self.tables.place(round), piece as usize);
        self.table
            .shared
            .store::<StoresPiece<X>>(seat, word, empty_word(round));
    }

    /// The send side stores the word of a piece at the round's place, empty for the round: for piece 0 where the side
    /// is idle and the round is its next one, which the release that it has seen leaves room for; for another piece
    /// where those before it are stored.
    pub fn store_piece(&self, seat: &mut SendSeat<C>, round: u32, piece: u32)
        requires pair { IsOf seat.old.table seat.old.view self.now }
        requires allowed { MayMake seat.old.view (StorePiece round piece) }
        ensures step { seat.new ≡ record seat.old { view = stored_piece round piece seat.old.view } }
    {
        self.store_piece_as::<Brand>(&mut seat.seat, round, piece);
        seat.round = round;
    }

    fn store_claim_as<X: Numbers>(&self, seat: &mut Place, round: u32, word: u32)
        requires said { word ≡ X.one }
        requires pair { IsOf seat.old.table_id seat.old.me.0 self.now }
        requires live { seat.old.me.0.standing ≡ Seated }
        requires allowed { MayMake seat.old.me.0 (StoreClaim round word) }
        requires limit { round ≤ LAST_ROUND }
        ensures seat { (seat.new.table_id ≡ seat.old.table_id) × (seat.new.id ≡ seat.old.id) }
        ensures step { seat.new.me ≡ (stored_claim word seat.old.me.0, seat.old.me.1) }
    {
        let index = claim_word(&self.tables, word as usize);
        self.table
            .shared
            .store::<StoresClaim<X>>(seat, index, empty_word(round));
    }

    /// The send side stores a claim word, empty for its round, where all piece words and the claim words before it are
    /// stored for it. Word `c` has the 32 send partitions from 32 c on. When the last one is stored all partitions may
    /// be claimed.
    pub fn store_claim(&self, seat: &mut SendSeat<C>, round: u32, word: u32)
        requires pair { IsOf seat.old.table seat.old.view self.now }
        requires allowed { MayMake seat.old.view (StoreClaim round word) }
        ensures step { seat.new ≡ record seat.old { view = stored_claim word seat.old.view } }
    {
        // What the seat says of its round, for the proof.
        let _round = seat.round();
        self.store_claim_as::<Brand>(&mut seat.seat, round, word);
    }

    /// The send side looks at the release word, whose round is the last that the receive side is done with. It is the
    /// word last seen, or a later one.
    pub fn load_release(&self, seat: &mut SendSeat<C>) -> u64
        requires pair { IsOf seat.old.table seat.old.view self.now }
        ensures step { seat.new ≡ record seat.old { view = saw Release result seat.old.view } }
        ensures told { Learns seat.old.view Release result }
    {
        let index = release_word(&self.tables);
        self.table
            .shared
            .load::<LoadsRelease>(&mut seat.seat, index)
    }

    fn shut_claim_as<X: Numbers>(&self, seat: &mut Place, word: u32) -> u64
        requires said { word ≡ X.one }
        requires pair { IsOf seat.old.table_id seat.old.me.0 self.now }
        requires live { seat.old.me.0.standing ≡ Seated }
        requires allowed { MayMake seat.old.me.0 (ShutClaim word) }
        ensures seat { (seat.new.table_id ≡ seat.old.table_id) × (seat.new.id ≡ seat.old.id) }
        ensures step { seat.new.me ≡ (shut_claim word (bit_or result (2 ^ 32)) seat.old.me.0, seat.old.me.1) }
    {
        let index = claim_word(&self.tables, word as usize);
        self.table
            .shared
            .fetch_or::<ShutsClaim<X>>(seat, index, one_bit(32))
    }

    /// The send side shuts a claim word, and answers the word that it found: the first one where it is active, has seen
    /// all partitions claimed and all pieces full in its round, and the release that it has seen has room for the next
    /// round; another where those before it are shut. When the last one is shut the round is ended.
    pub fn shut_claim(&self, seat: &mut SendSeat<C>, word: u32) -> u64
        requires pair { IsOf seat.old.table seat.old.view self.now }
        requires allowed { MayMake seat.old.view (ShutClaim word) }
        ensures step { seat.new ≡ record seat.old { view = shut_claim word (bit_or result (2 ^ 32)) seat.old.view } }
    {
        self.shut_claim_as::<Brand>(&mut seat.seat, word)
    }
}
