//! How seats are made, and notes of what they have seen.

ghost use Rattle.std.specs.Prelude.{◌≡◌, []};
ghost use Rattle.pair_rule.specs.First.{with_marker, marker, with_watcher, watcher, note};
ghost use Rattle.pair_rule.specs.Seats.{IsOf};
ghost use Rattle.pair_rule.specs.declared.view.Standing.TheVariants.{Seated};

use crate::content::Content;
use crate::pair::Pair;
use crate::rule::Place;
use crate::seats::{MarkSeat, Note, RecvSeat, SendSeat, WatchSeat};
use crate::view::View;
use atomic_table::Split;
use std::marker::PhantomData;

/// The send side makes a marker.
pub(crate) struct Marks;

impl Split<View> for Marks {
    ghost left = { with_marker };

    ghost right = { marker };
}

/// The receive side makes a watcher.
pub(crate) struct Watches;

impl Split<View> for Watches {
    ghost left = { with_watcher };

    ghost right = { watcher };
}

/// A seat makes a note.
pub(crate) struct Notes;

impl Split<View> for Notes {
    ghost left = { λ d. d };

    ghost right = { note };
}

impl<C: Content> Pair<C> {
    /// The send side makes a seat for a thread that marks. The new seat has seen what the send side has seen, and has
    /// marked nothing; the send side counts it until it is joined again.
    pub fn split_marker(&self, from: &mut SendSeat<C>) -> MarkSeat<C>
        requires pair { IsOf from.old.table from.old.view self.now }
        ensures from { from.new ≡ record from.old { view = with_marker from.old.view } }
        ensures seat { result ≡ record { table = from.old.table; view = marker from.old.view; first = 0; out = [] } }
    {
        MarkSeat {
            seat: self.table.shared.split_seat::<Marks>(&mut from.seat),
            first: 0,
            count: 0,
            content: PhantomData,
        }
    }

    /// The receive side makes a seat for a thread that watches partitions arrive. The new seat has seen what the
    /// receive side has seen; the receive side counts it until it is joined again.
    pub fn split_watcher(&self, from: &mut RecvSeat<C>) -> WatchSeat<C>
        requires pair { IsOf from.old.table from.old.view self.now }
        ensures from { from.new ≡ record from.old { view = with_watcher from.old.view } }
        ensures seat { result ≡ record { table = from.old.table; view = watcher from.old.view } }
    {
        WatchSeat {
            seat: self.table.shared.split_seat::<Watches>(&mut from.seat),
            content: PhantomData,
        }
    }

    fn note_of(&self, place: &mut Place) -> Note<C>
        requires pair { IsOf place.old.table_id place.old.me.0 self.now }
        requires live { place.old.me.0.standing ≡ Seated }
        ensures place { (place.new.table_id ≡ place.old.table_id) × (place.new.me ≡ place.old.me) }
        ensures note { result ≡ record { table = place.old.table_id; view = note place.old.me.0 } }
    {
        Note {
            seat: self.table.shared.split_seat::<Notes>(place),
            content: PhantomData,
        }
    }

    /// A note of what the send side has seen.
    pub fn note_of_send(&self, seat: &mut SendSeat<C>) -> Note<C>
        requires pair { IsOf seat.old.table seat.old.view self.now }
        ensures seat { seat.new ≡ seat.old }
        ensures note { result ≡ record { table = seat.old.table; view = note seat.old.view } }
    {
        self.note_of(&mut seat.seat)
    }

    /// A note of what a marker has seen.
    pub fn note_of_marker(&self, seat: &mut MarkSeat<C>) -> Note<C>
        requires pair { IsOf seat.old.table seat.old.view self.now }
        ensures seat { seat.new ≡ seat.old }
        ensures note { result ≡ record { table = seat.old.table; view = note seat.old.view } }
    {
        self.note_of(&mut seat.seat)
    }

    /// A note of what the receive side has seen.
    pub fn note_of_recv(&self, seat: &mut RecvSeat<C>) -> Note<C>
        requires pair { IsOf seat.old.table seat.old.view self.now }
        ensures seat { seat.new ≡ seat.old }
        ensures note { result ≡ record { table = seat.old.table; view = note seat.old.view } }
    {
        self.note_of(&mut seat.seat)
    }

    /// A note of what a watcher has seen.
    pub fn note_of_watcher(&self, seat: &mut WatchSeat<C>) -> Note<C>
        requires pair { IsOf seat.old.table seat.old.view self.now }
        ensures seat { seat.new ≡ seat.old }
        ensures note { result ≡ record { table = seat.old.table; view = note seat.old.view } }
    {
        self.note_of(&mut seat.seat)
    }
}
