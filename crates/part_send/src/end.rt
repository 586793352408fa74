//! The send end.

ghost use Rattle.std.specs.Prelude.{◌≡◌, ℕ, ◌-◌, ◌<◌, ◌≤◌, ◌^◌, true, false};
ghost use Rattle.part_geometry.specs.declared.TheConstants.{LAST_ROUND};
ghost use Rattle.gate_word.specs.Order.{IsLater};
ghost use Rattle.pair_core.specs.Names.{Claim};
ghost use Rattle.pair_core.specs.Moves.{IsSendActive, IsSendIdle};
ghost use Rattle.pair_rule.specs.First.{with_marker, marker, with_marker_back, note};
ghost use Rattle.pair_rule.specs.Told.{AreOpen, KnowsMarks};
ghost use Rattle.pair_rule.specs.Views.{seen, saw, told};
ghost use Rattle.pair_rule.specs.Seats.{IsOf};
ghost use Rattle.part_send.specs.Ends.{is_active};

use crate::marker::Marker;
use crate::told::none_told;
use pair_rule::{Content, Note, Pair, SendSeat};
use std::marker::Model;

/// The send side of a pair (MPI 4.0, 4.2.1): it starts and tests rounds, and makes the markers that mark partitions.
/// Contracts see its table and what it knows, its view, which takes no memory.
pub struct SendEnd<C: Content> {
    pub(crate) seat: SendSeat<C>,
    pub(crate) active: bool,
    out: u32,
}

impl<C: Content> Model for SendEnd<C> {
    ghost use Rattle.pair_rule.specs.Seats.{Held};
    ghost use Rattle.part_send.specs.Ends.{IsEnd};

    ghost Value = { Held };

    ghost view = { λ e. e.seat };

    ghost invariant = { λ e. IsEnd e.seat.view e.active e.out };
}

impl<C: Content> SendEnd<C> {
    /// The end over a seat of a pair, whose side is idle and has no marker out.
    pub fn from_seat(pair: &Pair<C>, seat: SendSeat<C>) -> SendEnd<C>
        requires pair { IsOf seat.table seat.view pair.now }
        requires idle { IsSendIdle seat.view.geometry seat.view.send }
        requires none { seat.view.send.markers ≡ 0 }
        ensures { result ≡ seat }
    {
        // What the seat or the tables say of themselves, for the proof.
        let _geometry = pair.geometry();
        SendEnd {
            seat,
            active: false,
            out: 0,
        }
    }

    /// The seat of an end that is inactive and has no marker out.
    pub fn into_seat(self) -> SendSeat<C>
        requires idle { is_active self.view ≡ false }
        requires none { self.view.send.markers ≡ 0 }
        ensures seat { result ≡ self }
        ensures idle { IsSendIdle self.view.geometry self.view.send }
    {
        let SendEnd {
            seat,
            active: _,
            out: _,
        } = self;
        seat
    }

    /// Its round, 0 before the first.
    pub fn round(&self) -> u32
        ensures value { result ≡ self.now.view.send.round }
        ensures limit { result ≤ LAST_ROUND }
    {
        self.seat.round()
    }

    /// Whether it is active in its round.
    pub fn is_active(&self) -> bool
        ensures value { result ≡ is_active self.now.view }
        ensures active { result ≡ true → IsSendActive self.now.view.geometry self.now.view.send }
        ensures idle { result ≡ false → IsSendIdle self.now.view.geometry self.now.view.send }
    {
        self.active
    }

    /// How many of its markers are out.
    pub fn markers_out(&self) -> u32
        ensures { result ≡ self.now.view.send.markers }
    {
        self.out
    }

    /// Makes a marker, which has seen what the end has seen, and has marked nothing. There may be 4,294,967,295 out.
    pub fn marker(&mut self, pair: &Pair<C>) -> Marker<C>
        requires pair { IsOf self.old.table self.old.view pair.now }
        requires few { self.old.view.send.markers < 2 ^ 32 - 1 }
        ensures pair { IsOf self.new.table self.new.view pair.now }
        ensures end { self.new ≡ record self.old { view = with_marker self.old.view } }
        ensures marker { result ≡ record { table = self.old.table; view = marker self.old.view } }
    {
        // What the seat or the tables say of themselves, for the proof.
        let _round = self.seat.round();
        let seat = pair.split_marker(&mut self.seat);
        self.out += 1;
        Marker {
            seat,
            told: none_told(),
        }
    }

    /// Takes a marker back. The end has then seen what both have seen, and has the marks of both; then it looks at
    /// claim word 0. Where it is active, each claim word, as it has last seen it, is open in its round; and where no
    /// marker is out any more, it has each mark of the round that these words show.
    pub fn rejoin(&mut self, pair: &Pair<C>, marker: Marker<C>)
        requires pair { IsOf self.old.table self.old.view pair.now }
        requires same { marker.table ≡ self.old.table }
        ensures pair { IsOf self.new.table self.new.view pair.now }
        ensures end { (w : ℕ) × IsLater (seen (with_marker_back self.old.view marker.view) (Claim 0)) w
            × (self.new ≡ record self.old { view = saw (Claim 0) w (with_marker_back self.old.view marker.view) }) }
        ensures opened { is_active self.new.view ≡ true → AreOpen self.new.view }
        ensures known { is_active self.new.view ≡ true → self.new.view.send.markers ≡ 0 → KnowsMarks self.new.view }
    {
        // What the seat or the tables say of themselves, for the proof.
        let _round = self.seat.round();
        // The word found is in the end's view, which contracts alone see.
        let _found = pair.join_marker(&mut self.seat, marker.into_seat());
        self.out = self.out.saturating_sub(1);
    }

    /// Learns what a note tells: the end has then seen what both it and the giver of the note had seen. Then it looks
    /// at claim word 0.
    pub fn learn(&mut self, pair: &Pair<C>, note: Note<C>)
        requires pair { IsOf self.old.table self.old.view pair.now }
        requires same { note.table ≡ self.old.table }
        ensures pair { IsOf self.new.table self.new.view pair.now }
        ensures told { (w : ℕ) × IsLater (seen (told self.old.view note.view) (Claim 0)) w
            × (self.new ≡ record self.old { view = saw (Claim 0) w (told self.old.view note.view) }) }
    {
        // The word found is in the end's view, which contracts alone see.
        let _found = pair.learn_send(&mut self.seat, note);
    }

    /// A note of what the end has seen, for another seat of the pair to learn. It may be dropped.
    pub fn note(&mut self, pair: &Pair<C>) -> Note<C>
        requires pair { IsOf self.old.table self.old.view pair.now }
        ensures pair { IsOf self.new.table self.new.view pair.now }
        ensures end { self.new ≡ self.old }
        ensures note { result ≡ record { table = self.old.table; view = note self.old.view } }
    {
        pair.note_of_send(&mut self.seat)
    }
}

impl<C: Content> Drop for SendEnd<C> {
    fn drop(self) {
        let SendEnd {
            seat: _,
            active: _,
            out: _,
        } = self;
    }
}
