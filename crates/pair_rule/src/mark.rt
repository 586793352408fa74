//! The steps of a marking seat.

ghost use Rattle.std.specs.Prelude.{◌≡◌, ◌≢◌, ◌<◌, ◌/◌, ◌%◌, [], length, slice_set, Some, None};
ghost use Rattle.gate_word.specs.Words.{round_in};
ghost use Rattle.gate_word.specs.Order.{IsLater};
ghost use Rattle.part_geometry.specs.Cells.{cells};
ghost use Rattle.pair_core.specs.Names.{Claim, Piece};
ghost use Rattle.pair_core.specs.Reading.{laid};
ghost use Rattle.pair_core.specs.Moves.{TryClaim};
ghost use Rattle.pair_core.specs.declared.view.Pending.{Pending};
ghost use Rattle.slot_rows.specs.Lists.{row};
ghost use Rattle.atomic_table.specs.Table.{step};
ghost use mathlib.Core.Option.{some, none};
ghost use lib.ListN.{get_elem?};
ghost use Rattle.pair_rule.specs.Buf.{Buf, buf};
ghost use Rattle.pair_rule.specs.Rule.{cell_length, MayMark};
ghost use Rattle.pair_rule.specs.Views.{seen, saw};
ghost use Rattle.pair_rule.specs.Seats.{IsOf, values};
ghost use Rattle.pair_rule.specs.Steps.{MayMake};
ghost use Rattle.pair_rule.specs.Marking.{HasWon, IsFilled, HasOut, laid_at, tries, lays, spot, shared_slot};
ghost use Rattle.pair_rule.specs.declared.view.Standing.TheVariants.{Seated};

use crate::buf::CellBuf;
use crate::content::Content;
use crate::pair::Pair;
use crate::plays::{Claimed, LaysPiece, Numbers, TriesClaim};
use crate::rule::Place;
use crate::seats::MarkSeat;
use crate::words::{claim_word, one_bit, piece_word, slot_of};
use gate_word::round_of;
use slot_rows::{swap_at, turn_times};
use std::marker::Brand;

/// Fills the buffer that a slot has.
fn fill_held(held: &mut Option<CellBuf>, round: u32, bytes: &[u8])
    requires { (y : Buf) × (held.old ≡ Some y) × (length y.bytes ≡ length bytes.now) }
    ensures { held.new ≡ Some (buf round bytes.now) }
{
    let Some(own) = held else { unreachable!() };
    own.fill(round, bytes);
}

impl<C: Content> Pair<C> {
    fn try_claim_as<X: Claimed>(
        &self,
        seat: &mut Place,
        shown: u64,
        partition: u32,
        bytes: &[u8],
    ) -> u64
        requires said { (partition ≡ X.partition) × (bytes.now ≡ X.bytes) }
        requires pair { IsOf seat.old.table_id seat.old.me.0 self.now }
        requires live { seat.old.me.0.standing ≡ Seated }
        requires allowed { MayMake seat.old.me.0 (TryClaim seat.old.me.0.number partition bytes.now) }
        requires shown { shown ≡ seen seat.old.me.0 (Claim (partition / 32)) }
        requires bytes { MayMark C.may self.now.key (round_in shown) partition bytes.now }
        ensures seat { (seat.new.table_id ≡ seat.old.table_id) × (seat.new.id ≡ seat.old.id) }
        ensures step { tries partition bytes.now (step 0 0 shown 0 none) seat.old.me result seat.new.me }
    {
        // Only the proof speaks of the bytes here.
        let _ = bytes;
        let index = claim_word(&self.tables, (partition / 32) as usize);
        self.table
            .shared
            .compare_exchange::<TriesClaim<X>>(seat, index, shown, shown | one_bit(partition % 32))
    }

    /// A marker tries to claim a partition for these bytes, in the round of its claim word as it has last seen it,
    /// `shown`. It answers the word that it found. Where that is `shown` the claim is won: it pends, the mark is made,
    /// and the buffers of the partition's cells at the round's place are out with the seat. Else nothing happens, and
    /// the word found is a later one.
    pub fn try_claim(&self, seat: &mut MarkSeat<C>, shown: u64, partition: u32, bytes: &[u8]) -> u64
        requires pair { IsOf seat.old.table seat.old.view self.now }
        requires allowed { MayMake seat.old.view (TryClaim seat.old.view.number partition bytes.now) }
        requires shown { shown ≡ seen seat.old.view (Claim (partition / 32)) }
        requires bytes { MayMark C.may self.now.key (round_in shown) partition bytes.now }
        requires none { seat.old.out ≡ [] }
        ensures won { result ≡ shown → HasWon shown partition bytes.now seat.old seat.new }
        ensures lost { result ≢ shown
            → seat.new ≡ record seat.old { view = saw (Claim (partition / 32)) result seat.old.view } }
        ensures later { IsLater shown result }
    {
        let found = self.try_claim_as::<Brand>(&mut seat.seat, shown, partition, bytes);
        if found == shown {
            let (first, after) = self.tables.sent(partition as usize);
            let place = self.tables.place(round_of(shown));
            seat.first = slot_of(&self.tables, place, first);
            seat.count = after - first;
        }
        found
    }

    fn mark_piece_as<X: Numbers>(
        &self,
        seat: &mut Place,
        round: u32,
        partition: u32,
        piece: u32,
    ) -> u64
        requires said { (partition ≡ X.one) × (piece ≡ X.two) }
        requires pair { IsOf seat.old.table_id seat.old.me.0 self.now }
        requires live { seat.old.me.0.standing ≡ Seated }
        requires filled { IsFilled round partition piece seat.old.me.0
            (shared_slot seat.old.me.0.geometry round partition piece) (values seat.old.me.1) }
        requires row { seat.old.me.1
            ≡ row (shared_slot seat.old.me.0.geometry round partition piece) (values seat.old.me.1) }
        ensures seat { (seat.new.table_id ≡ seat.old.table_id) × (seat.new.id ≡ seat.old.id) }
        ensures step { lays partition piece (step 0 0 0 0 none) seat.old.me result seat.new.me }
    {
        let place = self.tables.place(round);
        let index = piece_word(&self.tables, place, piece as usize);
        let bit = one_bit(partition - self.tables.first_part(piece as usize));
        self.table.shared.fetch_or::<LaysPiece<X>>(seat, index, bit)
    }

    /// A marker lays its pending claim of a partition into a piece, and answers the word of the piece that it found,
    /// which has the claim's round and lacks the partition; it is the word last seen, or a later one. The buffers of
    /// the cells that both share go home. They are the first of those that are out, and each is filled with its part
    /// of the mark's bytes.
    pub fn mark_piece(&self, seat: &mut MarkSeat<C>, round: u32, partition: u32, piece: u32) -> u64
        requires pair { IsOf seat.old.table seat.old.view self.now }
        requires filled { IsFilled round partition piece seat.old.view seat.old.first seat.old.out }
        ensures step { (x : Pending) → seat.old.view.pending ≡ Some x
            → seat.new ≡ laid_at partition piece x result seat.old }
        ensures found { (round_in result ≡ round) × (laid seat.old.view.geometry result piece partition ≡ 0) }
        ensures later { IsLater (seen seat.old.view (Piece (round % seat.old.view.geometry.depth) piece)) result }
    {
        let place = self.tables.place(round);
        let (first, after) = self.tables.shared(partition as usize, piece as usize);
        let found = self.mark_piece_as::<Brand>(&mut seat.seat, round, partition, piece);
        seat.first = slot_of(&self.tables, place, after);
        seat.count -= after - first;
        found
    }

    fn swap_marked(
        &self,
        seat: &mut MarkSeat<C>,
        place: u32,
        cell: u32,
        new: Option<CellBuf>,
    ) -> Option<CellBuf>
        requires pair { IsOf seat.old.table seat.old.view self.now }
        requires place { place < seat.old.view.geometry.depth }
        requires cell { cell < cells seat.old.view.geometry }
        requires held { (old : _) × HasOut seat.old place cell old }
        ensures found { HasOut seat.old place cell result }
        ensures step { seat.new ≡ record seat.old { out = slice_set seat.old.out (spot seat.old place cell) new } }
    {
        let slot = slot_of(&self.tables, place as usize, cell as usize);
        swap_at(
            &self.table.shared,
            &mut seat.seat,
            slot - seat.first,
            seat.count,
            slot,
            new,
        )
    }

    /// Fills the buffer in the slot at the place `at` of the seat's list, which has `count` slots and keeps its order.
    fn fill_slot(
        &self,
        seat: &mut Place,
        at: usize,
        count: usize,
        slot: usize,
        round: u32,
        bytes: &[u8],
    )
        requires table { seat.old.table_id ≡ self.now.table }
        requires count { count ≡ length seat.old.me.1 }
        requires held { (y : Buf) × (get_elem? seat.old.me.1 at ≡ some (slot, Some y))
            × (length y.bytes ≡ length bytes.now) }
        ensures seat { (seat.new.table_id ≡ seat.old.table_id) × (seat.new.id ≡ seat.old.id) }
        ensures slots { seat.new.me ≡ (seat.old.me.0, slice_set seat.old.me.1 at (slot, Some (buf round bytes.now))) }
    {
        turn_times(seat, at);
        fill_held(seat.slot_mut(&self.table.shared, slot), round, bytes);
        turn_times(seat, count - at);
    }

    /// A marker fills the buffer of a cell at a place for a round, where it stands: its slot is out with the seat.
    pub fn fill_marked(
        &self,
        seat: &mut MarkSeat<C>,
        place: u32,
        cell: u32,
        round: u32,
        bytes: &[u8],
    )
        requires pair { IsOf seat.old.table seat.old.view self.now }
        requires place { place < seat.old.view.geometry.depth }
        requires cell { cell < cells seat.old.view.geometry }
        requires held { (y : Buf) × HasOut seat.old place cell (Some y) × (length y.bytes ≡ length bytes.now) }
        ensures step { seat.new ≡ record seat.old {
          out = slice_set seat.old.out (spot seat.old place cell) (Some (buf round bytes.now));
        } }
    {
        let slot = slot_of(&self.tables, place as usize, cell as usize);
        let at = slot - seat.first;
        self.fill_slot(&mut seat.seat, at, seat.count, slot, round, bytes);
    }

    /// A marker takes the buffer of a cell at a place out of its slot, which is out with the seat and has one.
    pub fn lend_marked(&self, seat: &mut MarkSeat<C>, place: u32, cell: u32) -> CellBuf
        requires pair { IsOf seat.old.table seat.old.view self.now }
        requires place { place < seat.old.view.geometry.depth }
        requires cell { cell < cells seat.old.view.geometry }
        requires held { (y : Buf) × HasOut seat.old place cell (Some y) }
        ensures found { HasOut seat.old place cell (Some result) }
        ensures step { seat.new ≡ record seat.old { out = slice_set seat.old.out (spot seat.old place cell) None } }
    {
        self.swap_marked(seat, place, cell, None).unwrap()
    }

    /// A marker puts a buffer of a cell's length into the cell's slot at a place, which is out with the seat and empty.
    pub fn put_marked(&self, seat: &mut MarkSeat<C>, place: u32, cell: u32, buf: CellBuf)
        requires pair { IsOf seat.old.table seat.old.view self.now }
        requires place { place < seat.old.view.geometry.depth }
        requires cell { cell < cells seat.old.view.geometry }
        requires held { HasOut seat.old place cell None }
        requires length { length buf.bytes ≡ cell_length seat.old.view.geometry cell }
        ensures step { seat.new ≡ record seat.old {
          out = slice_set seat.old.out (spot seat.old place cell) (Some buf);
        } }
    {
        let None = self.swap_marked(seat, place, cell, Some(buf)) else {
            unreachable!()
        };
    }
}
