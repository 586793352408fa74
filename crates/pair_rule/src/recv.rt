//! The steps of the receive side that move no slot.

ghost use Rattle.std.specs.Prelude.{◌≡◌, ◌^◌, ◌<◌};
ghost use Rattle.part_geometry.specs.Shape.{IsShape};
ghost use Rattle.pair_core.specs.Moves.{StoreReturn, StoreTake, StoreRelease};
ghost use Rattle.pair_rule.specs.Views.{stored_return, stored_take, released};
ghost use Rattle.pair_rule.specs.Seats.{IsOf};
ghost use Rattle.pair_rule.specs.Steps.{MayMake};
ghost use Rattle.pair_rule.specs.Parts.{fresh_lanes, renewed};
ghost use Rattle.pair_rule.specs.declared.view.Standing.TheVariants.{Seated};

use crate::content::Content;
use crate::pair::Pair;
use crate::plays::Numbers;
use crate::recv_plays::{Releases, StoresReturn, StoresTake};
use crate::rule::Place;
use crate::seats::RecvSeat;
use crate::words::{empty_word, release_word, return_word, take_word};
use slot_rows::{Lane, set_flags};
use std::marker::Brand;

/// The lanes of the partitions of a take word are neither taken nor out.
fn renew(lanes: &mut [Lane], word: u32)
    ensures { lanes.new ≡ fresh_lanes word lanes.old }
{
    let from = word as usize * 32;
    let to = (from + 32).min(lanes.len());
    for at in from..to {
        set_flags(lanes, at, false, false);
    }
}

impl<C: Content> Pair<C> {
    fn store_return_as<X: Numbers>(&self, seat: &mut Place, round: u32, word: u32)
        requires said { (round ≡ X.one) × (word ≡ X.two) }
        requires pair { IsOf seat.old.table_id seat.old.me.0 self.now }
        requires live { seat.old.me.0.standing ≡ Seated }
        requires allowed { MayMake seat.old.me.0 (StoreReturn round word) }
        ensures seat { (seat.new.table_id ≡ seat.old.table_id) × (seat.new.id ≡ seat.old.id) }
        ensures step { seat.new.me ≡ (stored_return round word seat.old.me.0, seat.old.me.1) }
        ensures shape { IsShape self.now.key.geometry }
    {
        let number = return_word(&self.tables, word as usize);
        self.table
            .shared
            .store::<StoresReturn<X>>(seat, number, empty_word(round));
    }

    fn store_take_as<X: Numbers>(&self, seat: &mut Place, round: u32, word: u32)
        requires said { word ≡ X.one }
        requires pair { IsOf seat.old.table_id seat.old.me.0 self.now }
        requires live { seat.old.me.0.standing ≡ Seated }
        requires round { round < 2 ^ 31 }
        requires allowed { MayMake seat.old.me.0 (StoreTake round word) }
        ensures seat { (seat.new.table_id ≡ seat.old.table_id) × (seat.new.id ≡ seat.old.id) }
        ensures step { seat.new.me ≡ (stored_take word seat.old.me.0, seat.old.me.1) }
    {
        let number = take_word(&self.tables, word as usize);
        self.table
            .shared
            .store::<StoresTake<X>>(seat, number, empty_word(round));
    }

    fn store_release_in(&self, seat: &mut Place, round: u32)
        requires pair { IsOf seat.old.table_id seat.old.me.0 self.now }
        requires live { seat.old.me.0.standing ≡ Seated }
        requires round { round < 2 ^ 31 }
        requires allowed { MayMake seat.old.me.0 (StoreRelease round) }
        ensures seat { (seat.new.table_id ≡ seat.old.table_id) × (seat.new.id ≡ seat.old.id) }
        ensures step { seat.new.me ≡ (released seat.old.me.0, seat.old.me.1) }
    {
        let number = release_word(&self.tables);
        self.table
            .shared
            .store::<Releases>(seat, number, empty_word(round));
    }

    /// The receive side stores a return word, empty for the round: word 0 where the side is idle and the round is its
    /// next one, another word where those before it are stored. A word has 32 partitions, and word 0 the first ones.
    pub fn store_return(&self, seat: &mut RecvSeat<C>, round: u32, word: u32)
        requires pair { IsOf seat.old.table seat.old.view self.now }
        requires allowed { MayMake seat.old.view (StoreReturn round word) }
        ensures step { seat.new ≡ record seat.old { view = stored_return round word seat.old.view } }
    {
        self.store_return_as::<Brand>(&mut seat.seat, round, word);
        seat.round = round;
    }

    /// The receive side stores a take word, empty for its round, where all return words and the take words before it
    /// are stored. The partitions of the word are untaken from then on.
    pub fn store_take(&self, seat: &mut RecvSeat<C>, round: u32, word: u32)
        requires pair { IsOf seat.old.table seat.old.view self.now }
        requires allowed { MayMake seat.old.view (StoreTake round word) }
        ensures step { seat.new ≡ renewed word seat.old }
    {
        self.store_take_as::<Brand>(&mut seat.seat, round, word);
        renew(&mut seat.lanes, word);
    }

    /// The receive side releases its round, once each partition is taken and given back. It is idle then.
    pub fn store_release(&self, seat: &mut RecvSeat<C>, round: u32)
        requires pair { IsOf seat.old.table seat.old.view self.now }
        requires allowed { MayMake seat.old.view (StoreRelease round) }
        ensures step { seat.new ≡ record seat.old { view = released seat.old.view } }
    {
        self.store_release_in(&mut seat.seat, round);
    }
}
