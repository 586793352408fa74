//! The test of a round.

ghost use Rattle.std.specs.Prelude.{◌≡◌, ◌<◌, ◌≤◌, ◌%◌, true, false, MatchOption};
ghost use Rattle.part_geometry.specs.Pieces.{pieces};
ghost use Rattle.pair_core.specs.Names.{claim_words};
ghost use Rattle.pair_core.specs.Moves.{IsSendActive, MayShut};
ghost use Rattle.pair_rule.specs.Views.{seen};
ghost use Rattle.pair_rule.specs.Seats.{IsOf};
ghost use Rattle.part_send.specs.Ends.{is_active};
ghost use Rattle.part_send.specs.Looking.{OnlyLooked};
ghost use Rattle.part_send.specs.Testing.{AreClaimed, AreFull, Stops, TestTells};

use crate::answers::SendTest;
use crate::end::SendEnd;
use crate::look::{is_full, least_lacking};
use crate::start::claim_words;
use gate_word::round_of;
use pair_rule::{Content, Pair, SendSeat};

/// Looks at the claim words in order, up to the first that lacks a partition.
fn look_at_claims<C: Content>(seat: &mut SendSeat<C>, pair: &Pair<C>) -> Option<SendTest>
    requires pair { IsOf seat.old.table seat.old.view pair.now }
    requires active { IsSendActive seat.old.view.geometry seat.old.view.send }
    ensures table { seat.new.table ≡ seat.old.table }
    ensures looked { OnlyLooked seat.old.view seat.new.view }
    ensures answer { MatchOption result (AreClaimed seat.new.view seat.old.view.geometry.send_parts)
        (Stops seat.old.view seat.new.view) }
{
    let parts = pair.geometry().send_parts();
    // What the seat or the tables say of themselves, for the proof.
    let _round = seat.round();
    for c in 0..claim_words(pair) {
        let shown = pair.load_claim(seat, c);
        if let Some(partition) = least_lacking(shown, c, parts) {
            return Some(SendTest::Unmarked { partition, shown });
        }
    }
    None
}

/// Looks at the piece words of its round in order, up to the first that isn't full, where all partitions are marked.
fn look_at_pieces<C: Content>(seat: &mut SendSeat<C>, pair: &Pair<C>) -> Option<SendTest>
    requires pair { IsOf seat.old.table seat.old.view pair.now }
    requires active { IsSendActive seat.old.view.geometry seat.old.view.send }
    requires claimed { AreClaimed seat.old.view seat.old.view.geometry.send_parts }
    ensures table { seat.new.table ≡ seat.old.table }
    ensures looked { OnlyLooked seat.old.view seat.new.view }
    ensures claimed { AreClaimed seat.new.view seat.old.view.geometry.send_parts }
    ensures answer { MatchOption result (AreFull seat.new.view (pieces seat.old.view.geometry))
        (Stops seat.old.view seat.new.view) }
{
    // What the seat or the tables say of themselves, for the proof.
    let _geometry = pair.geometry();
    let tables = pair.tables();
    let round = seat.round();
    let place = tables.place(round) as u32;
    let pieces = tables.pieces() as u32;
    for piece in 0..pieces {
        let shown = pair.load_piece(seat, place, piece);
        if !is_full(tables, shown, round, piece as usize) {
            return Some(SendTest::Unsent { piece, shown });
        }
    }
    None
}

/// Looks at the release word, where all pieces are full.
fn look_at_release<C: Content>(seat: &mut SendSeat<C>, pair: &Pair<C>) -> Option<SendTest>
    requires pair { IsOf seat.old.table seat.old.view pair.now }
    requires claimed { AreClaimed seat.old.view seat.old.view.geometry.send_parts }
    requires full { AreFull seat.old.view (pieces seat.old.view.geometry) }
    ensures table { seat.new.table ≡ seat.old.table }
    ensures looked { OnlyLooked seat.old.view seat.new.view }
    ensures answer { MatchOption result
        (MayShut seat.old.view.geometry (seen seat.new.view) seat.old.view.send.round)
        (Stops seat.old.view seat.new.view) }
{
    let round = seat.round();
    let seen = round_of(pair.load_release(seat));
    if round < seen + pair.geometry().depth() {
        None
    } else {
        Some(SendTest::Unreleased { seen })
    }
}

/// Looks at all words of the round, up to the first that says that it can't be shut.
fn look<C: Content>(seat: &mut SendSeat<C>, pair: &Pair<C>) -> Option<SendTest>
    requires pair { IsOf seat.old.table seat.old.view pair.now }
    requires active { IsSendActive seat.old.view.geometry seat.old.view.send }
    ensures table { seat.new.table ≡ seat.old.table }
    ensures looked { OnlyLooked seat.old.view seat.new.view }
    ensures answer { MatchOption result
        (MayShut seat.old.view.geometry (seen seat.new.view) seat.old.view.send.round)
        (Stops seat.old.view seat.new.view) }
{
    if let Some(answer) = look_at_claims(seat, pair) {
        return Some(answer);
    }
    if let Some(answer) = look_at_pieces(seat, pair) {
        return Some(answer);
    }
    look_at_release(seat, pair)
}

/// Shuts the claim words in order.
fn shut_claims<C: Content>(seat: &mut SendSeat<C>, pair: &Pair<C>)
    requires pair { IsOf seat.old.table seat.old.view pair.now }
    requires active { IsSendActive seat.old.view.geometry seat.old.view.send }
    requires may { MayShut seat.old.view.geometry (seen seat.old.view) seat.old.view.send.round }
    ensures table { seat.new.table ≡ seat.old.table }
    ensures view { seat.new.view ≡ record seat.old.view {
      seen = seat.new.view.seen;
      looks = seat.new.view.looks;
      send = record seat.old.view.send { shut = claim_words seat.old.view.geometry };
    } }
{
    // What the seat or the tables say of themselves, for the proof.
    let _round = seat.round();
    for c in 0..claim_words(pair) {
        // The word found is in the end's view, which contracts alone see.
        let _found = pair.shut_claim(seat, c);
    }
}

impl<C: Content> SendEnd<C> {
    /// Tests the round (`MPI_Test`, MPI 4.0, 4.2.2): looks at the claim words, at the piece words of the round and at
    /// the release word, in this order. Where all partitions are marked, all pieces are full and the next round has
    /// room, it shuts the claim words and the end is inactive; with every other answer nothing but what the end has
    /// seen changes.
    pub fn test(&mut self, pair: &Pair<C>) -> SendTest
        requires pair { IsOf self.old.table self.old.view pair.now }
        ensures pair { IsOf self.new.table self.new.view pair.now }
        ensures table { self.new.table ≡ self.old.table }
        ensures answer { TestTells self.old.view self.new.view result }
        ensures idle { result ≡ SendTest.Done → is_active self.new.view ≡ false }
    {
        if !self.active {
            return SendTest::Idle;
        }
        if let Some(answer) = look(&mut self.seat, pair) {
            return answer;
        }
        shut_claims(&mut self.seat, pair);
        self.active = false;
        SendTest::Done
    }
}
