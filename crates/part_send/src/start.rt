//! The start of a round.

ghost use Rattle.std.specs.Prelude.{◌≡◌, ◌+◌, ◌<◌, ◌≤◌, IfOk, true};
ghost use Rattle.part_geometry.specs.declared.TheConstants.{LAST_ROUND};
ghost use Rattle.part_geometry.specs.Pieces.{pieces};
ghost use Rattle.pair_core.specs.Names.{Release, claim_words};
ghost use Rattle.pair_core.specs.Moves.{IsSendIdle};
ghost use Rattle.gate_word.specs.Words.{round_in};
ghost use Rattle.pair_rule.specs.Views.{seen};
ghost use Rattle.pair_rule.specs.Seats.{IsOf};
ghost use Rattle.part_send.specs.Ends.{is_active, start_answer, after_start, pieces_stored, claims_stored};

use crate::end::SendEnd;
use pair_rule::{Content, Pair, SendSeat};
use part_geometry::{LAST_ROUND, StartFault};

/// How many claim words a pair has.
pub(crate) fn claim_words<C: Content>(pair: &Pair<C>) -> u32
    ensures value { result ≡ claim_words pair.now.key.geometry }
    ensures limits { (1 ≤ result) × (result ≤ 32) }
{
    pair.geometry().send_parts().div_ceil(32)
}

/// Stores the piece words for the next round.
fn store_pieces<C: Content>(seat: &mut SendSeat<C>, pair: &Pair<C>, round: u32)
    requires pair { IsOf seat.old.table seat.old.view pair.now }
    requires idle { IsSendIdle seat.old.view.geometry seat.old.view.send }
    requires next { round ≡ seat.old.view.send.round + 1 }
    requires limit { round ≤ LAST_ROUND }
    ensures seat { seat.new ≡ record seat.old {
      view = pieces_stored round (pieces seat.old.view.geometry) seat.old.view;
    } }
    ensures geometry { seat.new.view.geometry ≡ seat.old.view.geometry }
    ensures side { seat.new.view.send ≡ record {
      round = round;
      pieces = pieces seat.old.view.geometry;
      opened = 0;
      shut = 0;
      markers = seat.old.view.send.markers;
    } }
{
    // What the seat or the tables say of themselves, for the proof.
    let _geometry = pair.geometry();
    // What the seat or the tables say of themselves, for the proof.
    let _round = seat.round();
    let pieces = pair.tables().pieces() as u32;
    for i in 0..pieces {
        pair.store_piece(seat, round, i);
    }
}

/// Stores the claim words for the round whose piece words are stored.
fn store_claims<C: Content>(seat: &mut SendSeat<C>, pair: &Pair<C>, round: u32)
    requires pair { IsOf seat.old.table seat.old.view pair.now }
    requires round { seat.old.view.send.round ≡ round }
    requires pieces { seat.old.view.send.pieces ≡ pieces seat.old.view.geometry }
    requires opened { seat.old.view.send.opened ≡ 0 }
    requires limit { round ≤ LAST_ROUND }
    ensures seat { seat.new ≡ record seat.old {
      view = claims_stored (claim_words seat.old.view.geometry) seat.old.view;
    } }
    ensures geometry { seat.new.view.geometry ≡ seat.old.view.geometry }
    ensures side { seat.new.view.send ≡ record seat.old.view.send { opened = claim_words seat.old.view.geometry } }
{
    // What the seat or the tables say of themselves, for the proof.
    let _round = seat.round();
    for c in 0..claim_words(pair) {
        pair.store_claim(seat, round, c);
    }
}

impl<C: Content> SendEnd<C> {
    /// Starts the next round (`MPI_Start`, MPI 4.0, 3.9), and answers it: all piece words are stored for it, and then
    /// all claim words, which opens it for marks. Refused where the end is active, or has had all 2,147,483,647 rounds;
    /// nothing changes then.
    pub fn start(&mut self, pair: &Pair<C>) -> Result<u32, StartFault>
        requires pair { IsOf self.old.table self.old.view pair.now }
        ensures pair { IsOf self.new.table self.new.view pair.now }
        ensures answer { result ≡ start_answer self.old.view }
        ensures end { self.new ≡ record self.old { view = after_start self.old.view result } }
        ensures side { IfOk result (λ k. (is_active self.new.view ≡ true) × (self.new.view.send.round ≡ k)
            × (self.new.view.send.markers ≡ self.old.view.send.markers)) }
    {
        let round = self.seat.round();
        if self.active {
            return Err(StartFault::AlreadyActive { round });
        }
        if round == LAST_ROUND {
            return Err(StartFault::RoundsSpent);
        }
        store_pieces(&mut self.seat, pair, round + 1);
        store_claims(&mut self.seat, pair, round + 1);
        self.active = true;
        Ok(round + 1)
    }
}
