//! How seats and notes are joined into other seats.

ghost use Rattle.std.specs.Prelude.{◌≡◌, ◌<◌, [], None};
ghost use Rattle.pair_rule.specs.First.{spent, with_marker_back, with_watcher_back};
ghost use Rattle.pair_core.specs.Names.{Claim, claim_words};
ghost use Rattle.pair_rule.specs.Views.{saw, told};
ghost use Rattle.pair_rule.specs.Told.{Learns};
ghost use Rattle.pair_rule.specs.Seats.{IsOf};
ghost use Rattle.pair_rule.specs.declared.view.Standing.TheVariants.{Seated};

use crate::content::Content;
use crate::pair::Pair;
use crate::rule::Place;
use crate::seats::{MarkSeat, Note, RecvSeat, SendSeat, WatchSeat};
use crate::view::View;
use atomic_table::Join;
use std::marker::Brand;

/// A marker is joined into the send side.
pub(crate) struct TakesInMarker;

impl Join<View> for TakesInMarker {
    ghost both = { with_marker_back };

    ghost spent = { spent };
}

/// A watcher is joined into the receive side.
pub(crate) struct TakesInWatcher;

impl Join<View> for TakesInWatcher {
    ghost both = { with_watcher_back };

    ghost spent = { spent };
}

/// A seat is told what a note says.
pub(crate) struct Hears;

impl Join<View> for Hears {
    ghost both = { told };

    ghost spent = { spent };
}

impl<C: Content> Pair<C> {
    /// A marker that has no claim pending is joined into the send side, which has then seen what both have seen, and
    /// has the marks of both; then the side looks at claim word 0, and what this finds is the answer.
    pub fn join_marker(&self, into: &mut SendSeat<C>, seat: MarkSeat<C>) -> u64
        requires pair { IsOf into.old.table into.old.view self.now }
        requires same { seat.table ≡ into.old.table }
        requires idle { (seat.view.pending ≡ None) × (seat.out ≡ []) }
        ensures step { into.new ≡ record into.old {
          view = saw (Claim 0) result (with_marker_back into.old.view seat.view);
        } }
        ensures told { Learns (with_marker_back into.old.view seat.view) (Claim 0) result }
    {
        self.table
            .shared
            .join_seat::<TakesInMarker>(&mut into.seat, seat.into_place());
        self.load_claim_as::<Brand>(&mut into.seat, 0)
    }

    /// A watcher is joined into the receive side, which has then seen what both have seen; then the side looks at
    /// claim word 0, and what this finds is the answer.
    pub fn join_watcher(&self, into: &mut RecvSeat<C>, seat: WatchSeat<C>) -> u64
        requires pair { IsOf into.old.table into.old.view self.now }
        requires same { seat.table ≡ into.old.table }
        ensures step { into.new ≡ record into.old {
          view = saw (Claim 0) result (with_watcher_back into.old.view seat.view);
        } }
        ensures told { Learns (with_watcher_back into.old.view seat.view) (Claim 0) result }
    {
        self.table
            .shared
            .join_seat::<TakesInWatcher>(&mut into.seat, seat.into_place());
        self.load_claim_as::<Brand>(&mut into.seat, 0)
    }

    fn hear(&self, place: &mut Place, note: Note<C>) -> u64
        requires pair { IsOf place.old.table_id place.old.me.0 self.now }
        requires live { place.old.me.0.standing ≡ Seated }
        requires same { note.table ≡ place.old.table_id }
        ensures place { (place.new.table_id ≡ place.old.table_id) × (place.new.id ≡ place.old.id) }
        ensures step { place.new.me ≡ (saw (Claim 0) result (told place.old.me.0 note.view), place.old.me.1) }
        ensures told { Learns (told place.old.me.0 note.view) (Claim 0) result }
        ensures words { 0 < claim_words place.old.me.0.geometry }
    {
        self.table
            .shared
            .join_seat::<Hears>(place, note.into_place());
        self.load_claim_as::<Brand>(place, 0)
    }

    /// The send side is told what the giver of a note had seen, and has then seen what both had; then it looks at
    /// claim word 0, and what this finds is the answer.
    pub fn learn_send(&self, seat: &mut SendSeat<C>, note: Note<C>) -> u64
        requires pair { IsOf seat.old.table seat.old.view self.now }
        requires same { note.table ≡ seat.old.table }
        ensures step { seat.new ≡ record seat.old { view = saw (Claim 0) result (told seat.old.view note.view) } }
        ensures told { Learns (told seat.old.view note.view) (Claim 0) result }
    {
        self.hear(&mut seat.seat, note)
    }

    /// A marker is told what the giver of a note had seen, and has then seen what both had; then it looks at claim
    /// word 0, and what this finds is the answer.
    pub fn learn_marker(&self, seat: &mut MarkSeat<C>, note: Note<C>) -> u64
        requires pair { IsOf seat.old.table seat.old.view self.now }
        requires same { note.table ≡ seat.old.table }
        ensures step { seat.new ≡ record seat.old { view = saw (Claim 0) result (told seat.old.view note.view) } }
        ensures told { Learns (told seat.old.view note.view) (Claim 0) result }
    {
        self.hear(&mut seat.seat, note)
    }

    /// The receive side is told what the giver of a note had seen, and has then seen what both had; then it looks at
    /// claim word 0, and what this finds is the answer.
    pub fn learn_recv(&self, seat: &mut RecvSeat<C>, note: Note<C>) -> u64
        requires pair { IsOf seat.old.table seat.old.view self.now }
        requires same { note.table ≡ seat.old.table }
        ensures step { seat.new ≡ record seat.old { view = saw (Claim 0) result (told seat.old.view note.view) } }
        ensures told { Learns (told seat.old.view note.view) (Claim 0) result }
    {
        self.hear(&mut seat.seat, note)
    }

    /// A watcher is told what the giver of a note had seen, and has then seen what both had; then it looks at claim
    /// word 0, and what this finds is the answer.
    pub fn learn_watcher(&self, seat: &mut WatchSeat<C>, note: Note<C>) -> u64
        requires pair { IsOf seat.old.table seat.old.view self.now }
        requires same { note.table ≡ seat.old.table }
        ensures step { seat.new ≡ record seat.old { view = saw (Claim 0) result (told seat.old.view note.view) } }
        ensures told { Learns (told seat.old.view note.view) (Claim 0) result }
    {
        self.hear(&mut seat.seat, note)
    }
}
