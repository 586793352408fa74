//! The seats of a pair, and the notes of what they have seen.

ghost use Rattle.std.specs.Prelude.{◌≡◌, ◌<◌, ◌≤◌, ◌++◌, ◌∷◌, [], length, IfOk};

use crate::buf::CellBuf;
use crate::content::Content;
use crate::rule::Place;
use slot_rows::Lane;
use std::alloc::{AllocError, Global};
use std::marker::{Model, PhantomData};

/// The seat of the send side, the only one that starts and ends its rounds. Contracts see its table and its view.
pub struct SendSeat<C: Content> {
    pub(crate) seat: Place,
    pub(crate) round: u32,
    pub(crate) content: PhantomData<C>,
}

impl<C: Content> Model for SendSeat<C> {
    ghost use Rattle.std.specs.Prelude.{◌≡◌, [], false};
    ghost use Rattle.pair_rule.specs.Seats.{Held, IsSendView};
    ghost use Rattle.pair_rule.specs.declared.view.Standing.TheVariants.{Seated};

    ghost Value = { Held };

    ghost view = { λ s. record { table = s.seat.table_id; view = s.seat.me.0 } };

    ghost invariant = { λ s. (s.seat.me.0.standing ≡ Seated) × (s.seat.me.0.number ≡ 0) × (s.seat.me.1 ≡ [])
        × (s.seat.me.0.alone ≡ false) × IsSendView s.seat.me.0 × (s.round ≡ s.seat.me.0.send.round) };
}

/// The seat of a thread that marks. While a claim of it pends, slots of the claimed partition are out with it:
/// `count` of them, numbered from `first` on.
pub struct MarkSeat<C: Content> {
    pub(crate) seat: Place,
    pub(crate) first: usize,
    pub(crate) count: usize,
    pub(crate) content: PhantomData<C>,
}

impl<C: Content> Model for MarkSeat<C> {
    ghost use Rattle.std.specs.Prelude.{◌≡◌, length, map};
    ghost use Rattle.slot_rows.specs.Lists.{row};
    ghost use Rattle.pair_core.specs.Core.{IsMarker};
    ghost use Rattle.pair_rule.specs.Seats.{MarkHeld, values};
    ghost use Rattle.pair_rule.specs.declared.view.Standing.TheVariants.{Seated};

    ghost Value = { MarkHeld };

    ghost view = { λ s. record {
      table = s.seat.table_id;
      view = s.seat.me.0;
      first = s.first;
      out = values s.seat.me.1;
    } };

    ghost invariant = { λ s. (s.seat.me.0.standing ≡ Seated) × IsMarker s.seat.me.0.number
        × (s.seat.me.1 ≡ row s.first (values s.seat.me.1)) × (s.count ≡ length s.seat.me.1) };
}

/// The seat of a thread that watches partitions arrive.
pub struct WatchSeat<C: Content> {
    pub(crate) seat: Place,
    pub(crate) content: PhantomData<C>,
}

impl<C: Content> Model for WatchSeat<C> {
    ghost use Rattle.std.specs.Prelude.{◌≡◌, []};
    ghost use Rattle.pair_core.specs.Core.{IsWatcher};
    ghost use Rattle.pair_rule.specs.Seats.{Held};
    ghost use Rattle.pair_rule.specs.declared.view.Standing.TheVariants.{Seated};

    ghost Value = { Held };

    ghost view = { λ s. record { table = s.seat.table_id; view = s.seat.me.0 } };

    ghost invariant = { λ s. (s.seat.me.0.standing ≡ Seated) × IsWatcher s.seat.me.0.number × (s.seat.me.1 ≡ []) };
}

/// A vector of buffers that has room for them from the start, and takes no memory later.
#[derive(Drop)]
pub struct Shelf {
    bufs: Vec<CellBuf>,
}

impl Model for Shelf {
    ghost use Rattle.std.specs.Prelude.{vec_capacity};
    ghost use Rattle.pair_rule.specs.Seats.{Room};

    ghost Value = { Room };

    ghost view = { λ s. record { bufs = s.bufs.items; room = vec_capacity s.bufs } };
}

impl Shelf {
    ghost use Rattle.std.specs.Prelude.{slice_index};
    ghost use mathlib.Core.Option.{some};
    ghost use lib.ListN.{get_elem?};

    /// A shelf with room for `room` buffers.
    pub(crate) fn with_room(alloc: Global, room: usize) -> Result<Shelf, AllocError>
        ensures { IfOk result (λ shelf. (shelf.bufs ≡ []) × (shelf.room ≡ room)) }
    {
        Ok(Shelf {
            bufs: Vec::with_capacity(alloc, room)?,
        })
    }

    /// How many buffers stand on it.
    pub fn len(&self) -> usize
        ensures { result ≡ length self.now.bufs }
    {
        self.bufs.len()
    }

    /// Buffer `i`, from 0 on.
    pub fn buf(&self, i: usize) -> &CellBuf
        requires { i < length self.now.bufs }
        ensures { get_elem? self.now.bufs i ≡ some result.now }
    {
        &self.bufs[i]
    }

    /// Puts a buffer behind the others, where there is room. It takes no memory.
    pub fn push(&mut self, buf: CellBuf)
        requires { length self.old.bufs < self.old.room }
        ensures { (self.new.bufs ≡ self.old.bufs ++ buf ∷ []) × (self.old.room ≤ self.new.room) }
    {
        let Ok(()) = self.bufs.push(buf) else {
            unreachable!()
        };
    }

    /// Takes the last buffer off.
    pub fn pop(&mut self) -> CellBuf
        requires { 0 < length self.old.bufs }
        ensures { (self.old.bufs ≡ self.new.bufs ++ result ∷ []) × (self.new.room ≡ self.old.room) }
    {
        self.bufs.pop().unwrap()
    }
}

/// The seat of the receive side, the only one that takes partitions, gives them back and releases rounds. It keeps an
/// empty shelf with room for the buffers of each receive partition, while the partition isn't out.
pub struct RecvSeat<C: Content> {
    pub(crate) seat: Place,
    pub(crate) round: u32,
    pub(crate) lanes: Vec<Lane>,
    pub(crate) shelves: Vec<Option<Shelf>>,
    pub(crate) content: PhantomData<C>,
}

impl<C: Content> Model for RecvSeat<C> {
    ghost use Rattle.std.specs.Prelude.{◌≡◌, length};
    ghost use Rattle.pair_rule.specs.Seats.{RecvHeld, AreLanes};
    ghost use Rattle.pair_rule.specs.declared.view.Standing.TheVariants.{Seated};

    ghost Value = { RecvHeld };

    ghost view = { λ s. record {
      table = s.seat.table_id;
      view = s.seat.me.0;
      lanes = s.lanes.items;
      slots = s.seat.me.1;
      shelves = s.shelves.items;
    } };

    ghost invariant = { λ s. (s.seat.me.0.standing ≡ Seated) × (s.seat.me.0.number ≡ 1)
        × AreLanes s.seat.me.0 (length s.seat.me.1) s.lanes.items
        × (length s.shelves.items ≡ s.seat.me.0.geometry.recv_parts) × (s.round ≡ s.seat.me.0.recv.round) };
}

/// What a seat had seen when it made the note. It is no seat, makes no step, and may be dropped.
pub struct Note<C: Content> {
    pub(crate) seat: Place,
    pub(crate) content: PhantomData<C>,
}

impl<C: Content> Model for Note<C> {
    ghost use Rattle.std.specs.Prelude.{◌≡◌, []};
    ghost use Rattle.pair_rule.specs.Seats.{Held};
    ghost use Rattle.pair_rule.specs.declared.view.Standing.TheVariants.{Told};

    ghost Value = { Held };

    ghost view = { λ s. record { table = s.seat.table_id; view = s.seat.me.0 } };

    ghost invariant = { λ s. (s.seat.me.0.standing ≡ Told) × (s.seat.me.1 ≡ []) };
}

impl<C: Content> SendSeat<C> {
    ghost use Rattle.std.specs.Prelude.{false};
    ghost use Rattle.pair_rule.specs.Seats.{IsSendView};
    ghost use Rattle.pair_rule.specs.declared.view.Standing.TheVariants.{Seated};

    /// The send side's round, 0 before the first.
    pub fn round(&self) -> u32
        ensures value { result ≡ self.now.view.send.round }
        ensures view { IsSendView self.now.view }
    {
        self.round
    }

    /// The seat of the table alone.
    pub(crate) fn into_place(self) -> Place
        ensures place { (result.table_id ≡ self.table) × (result.me ≡ (self.view, [])) }
        ensures live { (self.view.standing ≡ Seated) × (self.view.number ≡ 0) × (self.view.alone ≡ false) }
    {
        let SendSeat {
            seat,
            round: _,
            content: _,
        } = self;
        seat
    }
}

impl<C: Content> MarkSeat<C> {
    ghost use Rattle.pair_core.specs.Core.{IsMarker};
    ghost use Rattle.pair_rule.specs.declared.view.Standing.TheVariants.{Seated};
    ghost use Rattle.slot_rows.specs.Lists.{row};

    /// The seat of the table alone.
    pub(crate) fn into_place(self) -> Place
        ensures place { (result.table_id ≡ self.table) × (result.me ≡ (self.view, row self.first self.out)) }
        ensures live { (self.view.standing ≡ Seated) × IsMarker self.view.number }
    {
        let MarkSeat {
            seat,
            first: _,
            count: _,
            content: _,
        } = self;
        seat
    }
}

impl<C: Content> WatchSeat<C> {
    ghost use Rattle.pair_core.specs.Core.{IsWatcher};
    ghost use Rattle.pair_rule.specs.declared.view.Standing.TheVariants.{Seated};

    /// The seat of the table alone.
    pub(crate) fn into_place(self) -> Place
        ensures place { (result.table_id ≡ self.table) × (result.me ≡ (self.view, [])) }
        ensures live { (self.view.standing ≡ Seated) × IsWatcher self.view.number }
    {
        let WatchSeat { seat, content: _ } = self;
        seat
    }
}

impl<C: Content> RecvSeat<C> {
    ghost use Rattle.pair_core.specs.Moves.{IsRecvIdle};
    ghost use Rattle.pair_rule.specs.Seats.{AreLanes};
    ghost use Rattle.pair_rule.specs.declared.view.Standing.TheVariants.{Seated};

    /// The receive side's round, 0 before the first.
    pub fn round(&self) -> u32
        ensures { result ≡ self.now.view.recv.round }
    {
        self.round
    }

    /// A lane for each receive partition: whether it was taken in the side's round, and whether its slots are out.
    pub fn lanes(&self) -> &[Lane]
        ensures value { result.now ≡ self.now.lanes }
        ensures number { self.now.view.number ≡ 1 }
        ensures kept { AreLanes self.now.view (length self.now.slots) self.now.lanes }
        ensures shelves { length self.now.shelves ≡ self.now.view.geometry.recv_parts }
    {
        &self.lanes
    }

    /// The seat of the table alone.
    pub(crate) fn into_place(self) -> Place
        ensures place { (result.table_id ≡ self.table) × (result.me ≡ (self.view, self.slots)) }
        ensures live { (self.view.standing ≡ Seated) × (self.view.number ≡ 1) }
        ensures idle { IsRecvIdle self.view.recv → self.slots ≡ [] }
    {
        let RecvSeat {
            seat,
            round: _,
            lanes: _,
            shelves: _,
            content: _,
        } = self;
        seat
    }
}

impl<C: Content> Note<C> {
    ghost use Rattle.pair_rule.specs.declared.view.Standing.TheVariants.{Told};

    /// The seat of the table alone.
    pub(crate) fn into_place(self) -> Place
        ensures place { (result.table_id ≡ self.table) × (result.me ≡ (self.view, [])) }
        ensures live { self.view.standing ≡ Told }
    {
        let Note { seat, content: _ } = self;
        seat
    }
}

impl<C: Content> Drop for SendSeat<C> {
    fn drop(self) {
        let SendSeat {
            seat: _,
            round: _,
            content: _,
        } = self;
    }
}

impl<C: Content> Drop for MarkSeat<C> {
    fn drop(self) {
        let MarkSeat {
            seat: _,
            first: _,
            count: _,
            content: _,
        } = self;
    }
}

impl<C: Content> Drop for WatchSeat<C> {
    fn drop(self) {
        let WatchSeat {
            seat: _,
            content: _,
        } = self;
    }
}

impl<C: Content> Drop for RecvSeat<C> {
    fn drop(self) {
        let RecvSeat {
            seat: _,
            round: _,
            lanes: _,
            shelves: _,
            content: _,
        } = self;
    }
}

impl<C: Content> Drop for Note<C> {
    fn drop(self) {
        let Note {
            seat: _,
            content: _,
        } = self;
    }
}
