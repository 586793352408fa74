//! A thread's way to see partitions arrive.

ghost use Rattle.std.specs.Prelude.{◌≡◌, ◌≤◌};
ghost use Rattle.part_geometry.specs.declared.TheConstants.{LAST_ROUND};
ghost use Rattle.pair_rule.specs.First.{note};
ghost use Rattle.pair_rule.specs.Seats.{IsOf};
ghost use Rattle.part_recv.specs.Watching.{IsLook};
ghost use Rattle.part_recv.specs.Hearing.{Hears};
ghost use Rattle.pair_rule.specs.Views.{told};

use crate::answers::Look;
use crate::looking::{Missed, look_over};
use gate_word::round_of;
use pair_rule::{Content, Note, Pair, WatchSeat};
use std::marker::Model;

/// A watcher of a receive end: any thread may have one, and see by it which partitions have arrived. It takes
/// none. Contracts see its table and what it knows.
pub struct Watcher<C: Content> {
    seat: WatchSeat<C>,
}

impl<C: Content> Model for Watcher<C> {
    ghost use Rattle.pair_rule.specs.Seats.{Held};

    ghost Value = { Held };

    ghost view = { λ w. w.seat };
}

impl<C: Content> Watcher<C> {
    pub(crate) fn of(seat: WatchSeat<C>) -> Watcher<C>
        ensures { result ≡ seat }
    {
        Watcher { seat }
    }

    pub(crate) fn into_seat(self) -> WatchSeat<C>
        ensures { result ≡ self }
    {
        let Watcher { seat } = self;
        seat
    }

    /// Whether receive partition `q` has arrived in a round, 1 to 2,147,483,647 (`MPI_Parrived`, MPI 4.0,
    /// 4.2.2): looks at the pieces over it in order, up to the first that isn't full in the round. A piece that
    /// the watcher has seen full in the round is never the answer of `NotYet`.
    pub fn parrived(&mut self, pair: &Pair<C>, round: u32, q: u32) -> Look
        requires pair { IsOf self.old.table self.old.view pair.now }
        requires round { (1 ≤ round) × (round ≤ LAST_ROUND) }
        ensures pair { IsOf self.new.table self.new.view pair.now }
        ensures table { self.new.table ≡ self.old.table }
        ensures look { IsLook round q result self.old.view self.new.view }
    {
        if q >= pair.geometry().recv_parts() {
            return Look::BadPartition;
        }
        let Some(missed) = look_over(pair, &mut self.seat, round, q) else {
            return Look::Arrived;
        };
        let Missed { piece, shown } = missed;
        if round_of(shown) > round {
            return Look::Past { shown };
        }
        Look::NotYet { piece, shown }
    }

    /// A note of what the watcher has seen.
    pub fn note(&mut self, pair: &Pair<C>) -> Note<C>
        requires pair { IsOf self.old.table self.old.view pair.now }
        ensures pair { IsOf self.new.table self.new.view pair.now }
        ensures seat { self.new ≡ self.old }
        ensures note { result ≡ record { table = self.old.table; view = note self.old.view } }
    {
        pair.note_of_watcher(&mut self.seat)
    }

    /// The watcher is told what the giver of a note had seen, and has then seen what both had; then it looks at
    /// claim word 0.
    pub fn learn(&mut self, pair: &Pair<C>, note: Note<C>)
        requires pair { IsOf self.old.table self.old.view pair.now }
        requires same { note.table ≡ self.old.table }
        ensures pair { IsOf self.new.table self.new.view pair.now }
        ensures table { self.new.table ≡ self.old.table }
        ensures told { Hears (told self.old.view note.view) self.new.view }
    {
        pair.learn_watcher(&mut self.seat, note);
    }
}

impl<C: Content> Drop for Watcher<C> {
    fn drop(self) {
        let Watcher { seat: _ } = self;
    }
}
