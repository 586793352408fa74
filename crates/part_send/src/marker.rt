//! The marker.

ghost use Rattle.std.specs.Prelude.{◌≡◌, ℕ, [], None};
ghost use Rattle.gate_word.specs.Order.{IsLater};
ghost use Rattle.pair_core.specs.Names.{Claim};
ghost use Rattle.pair_rule.specs.First.{note};
ghost use Rattle.pair_rule.specs.Views.{seen, saw, told};
ghost use Rattle.pair_rule.specs.Seats.{IsOf};

use crate::told::Told;
use pair_rule::{Content, MarkSeat, Note, Pair};
use std::marker::Model;

/// What a thread marks partitions with (`MPI_Pready`, MPI 4.0, 4.2.2). Contracts see its table and its view. A marker
/// that is dropped is never taken back, and its pair can't be closed.
pub struct Marker<C: Content> {
    pub(crate) seat: MarkSeat<C>,
    pub(crate) told: Told,
}

impl<C: Content> Model for Marker<C> {
    ghost use Rattle.pair_rule.specs.Seats.{Held};
    ghost use Rattle.part_send.specs.Ends.{IsFree, IsTold};

    ghost Value = { Held };

    ghost view = { λ m. record { table = m.seat.table; view = m.seat.view } };

    ghost invariant = { λ m. IsFree m.seat × IsTold m.seat.view m.told.number m.told.word };
}

impl<C: Content> Marker<C> {
    /// The seat alone.
    pub(crate) fn into_seat(self) -> MarkSeat<C>
        ensures seat { (result.table ≡ self.table) × (result.view ≡ self.view) }
        ensures idle { (result.view.pending ≡ None) × (result.out ≡ []) }
    {
        let Marker { seat, told: _ } = self;
        seat
    }

    /// Learns what a note tells: the marker has then seen what both it and the giver of the note had seen. Then it
    /// looks at claim word 0.
    pub fn learn(&mut self, pair: &Pair<C>, note: Note<C>)
        requires pair { IsOf self.old.table self.old.view pair.now }
        requires same { note.table ≡ self.old.table }
        ensures pair { IsOf self.new.table self.new.view pair.now }
        ensures told { (w : ℕ) × IsLater (seen (told self.old.view note.view) (Claim 0)) w
            × (self.new ≡ record self.old { view = saw (Claim 0) w (told self.old.view note.view) }) }
    {
        let word = pair.learn_marker(&mut self.seat, note);
        self.told = Told { number: 0, word };
    }

    /// A note of what the marker has seen, for another seat of the pair to learn. It may be dropped.
    pub fn note(&mut self, pair: &Pair<C>) -> Note<C>
        requires pair { IsOf self.old.table self.old.view pair.now }
        ensures pair { IsOf self.new.table self.new.view pair.now }
        ensures marker { self.new ≡ self.old }
        ensures note { result ≡ record { table = self.old.table; view = note self.old.view } }
    {
        pair.note_of_marker(&mut self.seat)
    }
}

impl<C: Content> Drop for Marker<C> {
    fn drop(self) {
        let Marker { seat: _, told: _ } = self;
    }
}
