//! The steps of the receive side on a partition, the buffers of its cells, and the shelves of the receive seat.

ghost use Rattle.std.specs.Prelude.{◌≡◌, ◌+◌, ◌/◌, ◌%◌, ◌^◌, ◌<◌, ◌≤◌, ℕ, List, [], Option, Some, None};
ghost use Rattle.std.specs.Prelude.{length, map, drop, true, slice_set, IfOk, IfSome};
ghost use mathlib.Core.Option.{some};
ghost use lib.ListN.{get_elem?};
ghost use Rattle.part_geometry.specs.Cells.{cells, recv_of};
ghost use Rattle.part_tables.specs.Parts.{first_received};
ghost use Rattle.slot_rows.specs.Lists.{rotated};
ghost use Rattle.slot_rows.specs.Lanes.{HasFlags, wide};
ghost use Rattle.pair_core.specs.Moves.{TakePart, ReturnPart};
ghost use Rattle.pair_core.specs.Names.{Take, Return};
ghost use Rattle.pair_rule.specs.Buf.{Buf};
ghost use Rattle.pair_rule.specs.Views.{seen};
ghost use Rattle.pair_rule.specs.Seats.{IsOf, AreLanes, Room, cells_of};
ghost use Rattle.pair_rule.specs.Steps.{AreOf, MayMake};
ghost use Rattle.pair_rule.specs.Parts.{first_lanes, first_shelves, HasTaken, returned, HasOut, HasFilled, with_values};
ghost use Rattle.pair_rule.specs.Parts.{IsOut, with_value, WereTaken, brought_home, AreFilled, AreFull, IsRow, spot};
ghost use Rattle.pair_rule.specs.Parts.{with_part, IsPartOut, with_part_value};
ghost use Rattle.pair_rule.specs.Parts.{IsLeft, AreLeft, HasLeft, AreLent, or_own};
ghost use Rattle.pair_rule.specs.declared.view.Standing.TheVariants.{Seated};

use crate::buf::CellBuf;
use crate::content::Content;
use crate::pair::Pair;
use crate::plays::Numbers;
use crate::recv_plays::{Finds, ReturnsPart, TakesPart};
use crate::rule::Place;
use crate::seats::{RecvSeat, Shelf};
use crate::words::{one_bit, return_word, slot_row, take_word};
use part_tables::Tables;
use slot_rows::{Lane, pass_from, pass_to, set_flags, swap_in, turn_times};
use std::alloc::{AllocError, Global};
use std::marker::Brand;

/// The lanes of the receive side before its first round: each partition is taken, and none is out.
pub(crate) fn lay_lanes(alloc: Global, tables: &Tables) -> Result<Vec<Lane>, AllocError>
    ensures { IfOk result (λ lanes. lanes.items ≡ first_lanes tables.now) }
{
    let parts = tables.geometry().recv_parts();
    // The tables' limits, for the proof.
    let _cells = tables.cells();
    let mut lanes = Vec::with_capacity(alloc, parts as usize)?;
    for q in 0..parts {
        let (first, after) = tables.received(q as usize);
        lanes.push(Lane {
            first: first as u32,
            count: (after - first) as u32,
            taken: true,
            out: false,
        })?;
    }
    Ok(lanes)
}

/// An empty shelf for each receive partition, with room for the buffers of its cells.
pub(crate) fn lay_shelves(alloc: Global, tables: &Tables) -> Result<Vec<Option<Shelf>>, AllocError>
    ensures { IfOk result (λ shelves. shelves.items ≡ first_shelves tables.now) }
{
    let parts = tables.geometry().recv_parts();
    let mut shelves = Vec::with_capacity(alloc, parts as usize)?;
    for q in 0..parts {
        let (first, after) = tables.received(q as usize);
        shelves.push(Some(Shelf::with_room(alloc, after - first)?))?;
    }
    Ok(shelves)
}

impl<C: Content> RecvSeat<C> {
    /// Takes the shelf of partition `q` out of the seat.
    pub fn take_shelf(&mut self, q: u32) -> Shelf
        requires there { (shelf : Room) × (get_elem? self.old.shelves q ≡ some (Some shelf)) }
        ensures shelf { get_elem? self.old.shelves q ≡ some (Some result) }
        ensures seat { self.new ≡ record self.old { shelves = slice_set self.old.shelves q None } }
    {
        self.shelves[q as usize].take().unwrap()
    }

    /// Puts a shelf for partition `q` into the seat.
    pub fn put_shelf(&mut self, q: u32, shelf: Shelf)
        requires part { q < self.old.view.geometry.recv_parts }
        ensures seat { self.new ≡ record self.old { shelves = slice_set self.old.shelves q (Some shelf) } }
    {
        self.shelves[q as usize] = Some(shelf);
    }
}

/// Turns the seat's list to a slot of a lane that is out, the one numbered `index` in it. It does nothing when it runs.
fn turn_to(seat: &mut Place, lanes: &[Lane], at: usize, index: usize)
    requires at { at ≤ length lanes.now }
    requires here { spot lanes.now at + index ≤ length seat.old.me.1 }
    ensures seat { (seat.new.table_id ≡ seat.old.table_id) × (seat.new.id ≡ seat.old.id) }
    ensures turned { seat.new.me ≡ (seat.old.me.0, rotated (spot lanes.now at + index) seat.old.me.1) }
{
    pass_to(seat, lanes, at);
    turn_times(seat, index);
}

/// Turns the list on behind the lane, where `count` slots of the lane are left. It does nothing when it runs.
fn turn_back(seat: &mut Place, lanes: &[Lane], at: usize, count: usize)
    requires at { at < length lanes.now }
    requires here { count + wide (drop (at + 1) lanes.now) ≤ length seat.old.me.1 }
    ensures seat { (seat.new.table_id ≡ seat.old.table_id) × (seat.new.id ≡ seat.old.id) }
    ensures turned { seat.new.me
        ≡ (seat.old.me.0, rotated (count + wide (drop (at + 1) lanes.now)) seat.old.me.1) }
{
    turn_times(seat, count);
    pass_from(seat, lanes, at + 1);
}

/// A copy of the buffer that a slot has, where it is short.
#[inline]
fn copy_held(held: &Option<CellBuf>) -> Option<CellBuf>
    ensures { IfSome result (λ b. held.now ≡ Some b) }
{
    match held {
        Some(buf) => buf.copy(),
        None => None,
    }
}

/// The buffer that a slot has, or a copy of it where it is short, which leaves the slot as it is.
#[inline]
fn lend_held(held: &mut Option<CellBuf>) -> CellBuf
    requires { (buf : Buf) × (held.old ≡ Some buf) }
    ensures found { held.old ≡ Some result }
    ensures left { IsLeft result held.new }
{
    match copy_held(held) {
        Some(buf) => buf,
        None => held.take().unwrap(),
    }
}

/// Puts a buffer into a slot that is empty. One that has a buffer keeps it.
#[inline]
fn put_held(held: &mut Option<CellBuf>, buf: CellBuf)
    ensures { held.new ≡ Some (or_own buf held.old) }
{
    if held.is_none() {
        *held = Some(buf);
    }
}

impl<C: Content> Pair<C> {
    fn take_bit_as<X: Finds>(&self, seat: &mut Place, lanes: &[Lane], q: u32) -> u64
        requires said { q ≡ X.part }
        requires may { (k i b : ℕ) → C.may self.now.key.tag k i b → X.may k i b }
        requires pair { IsOf seat.old.table_id seat.old.me.0 self.now }
        requires live { seat.old.me.0.standing ≡ Seated }
        requires lanes { AreLanes seat.old.me.0 (length seat.old.me.1) lanes.now }
        requires allowed { MayMake seat.old.me.0 (TakePart q []) }
        ensures seat { (seat.new.table_id ≡ seat.old.table_id) × (seat.new.id ≡ seat.old.id) }
        ensures word { result ≡ seen seat.old.me.0 (Take (q / 32)) }
        ensures step { WereTaken X.may lanes.now q result seat.old.me seat.new.me }
    {
        let mask = one_bit(q % 32);
        let at = q as usize;
        let (first, after) = self.tables.received(at);
        let word = take_word(&self.tables, at / 32);
        pass_to(seat, lanes, at);
        let found = self.table.shared.fetch_or::<TakesPart<X>>(seat, word, mask);
        turn_times(seat, after - first);
        pass_from(seat, lanes, at);
        found
    }

    fn return_bit_as<X: Numbers>(&self, seat: &mut Place, lanes: &[Lane], q: u32) -> u64
        requires said { q ≡ X.one }
        requires pair { IsOf seat.old.table_id seat.old.me.0 self.now }
        requires live { seat.old.me.0.standing ≡ Seated }
        requires lanes { AreLanes seat.old.me.0 (length seat.old.me.1) lanes.now }
        requires allowed { MayMake seat.old.me.0 (ReturnPart q) }
        requires held { AreFilled lanes.now q seat.old.me }
        ensures seat { (seat.new.table_id ≡ seat.old.table_id) × (seat.new.id ≡ seat.old.id) }
        ensures word { result ≡ seen seat.old.me.0 (Return (q / 32)) }
        ensures step { seat.new.me ≡ brought_home lanes.now q result seat.old.me }
    {
        let mask = one_bit(q % 32);
        let at = q as usize;
        let word = return_word(&self.tables, at / 32);
        pass_to(seat, lanes, at);
        let found = self
            .table
            .shared
            .fetch_or::<ReturnsPart<X>>(seat, word, mask);
        pass_from(seat, lanes, at + 1);
        found
    }

    /// The receive side takes partition `q` of its round, in one atomic step: the slots of its cells go out to the
    /// seat. The side is active, the partition isn't taken in its round, and the seat has seen all pieces over it
    /// full. Answers the partition's take word as the step found it, which is as the seat has last seen it.
    pub fn take_bit(&self, seat: &mut RecvSeat<C>, q: u32) -> u64
        requires pair { IsOf seat.old.table seat.old.view self.now }
        requires allowed { MayMake seat.old.view (TakePart q []) }
        ensures word { result ≡ seen seat.old.view (Take (q / 32)) }
        ensures step { HasTaken (C.may self.now.key.tag) q result seat.old seat.new }
    {
        let found = self.take_bit_as::<Brand>(&mut seat.seat, &seat.lanes, q);
        set_flags(&mut seat.lanes, q as usize, true, true);
        found
    }

    /// The receive side gives partition `q` back, in one atomic step: the slots of its cells come home, each with a
    /// buffer of the round and its cell's length. The side is active, and the partition is taken in its round and not
    /// given back. Answers the partition's return word as the step found it, which is as the seat has last seen it.
    pub fn return_bit(&self, seat: &mut RecvSeat<C>, q: u32) -> u64
        requires pair { IsOf seat.old.table seat.old.view self.now }
        requires allowed { MayMake seat.old.view (ReturnPart q) }
        requires held { HasFilled q seat.old }
        ensures word { result ≡ seen seat.old.view (Return (q / 32)) }
        ensures step { seat.new ≡ returned q result seat.old }
    {
        let found = self.return_bit_as::<Brand>(&mut seat.seat, &seat.lanes, q);
        set_flags(&mut seat.lanes, q as usize, true, false);
        found
    }

    /// A plain exchange of the slot of a cell of partition `q`, `index` cells behind its first one.
    fn swap_part(
        &self,
        seat: &mut Place,
        lanes: &[Lane],
        place: u32,
        q: u32,
        index: usize,
        new: Option<CellBuf>,
    ) -> Option<CellBuf>
        requires pair { IsOf seat.old.table_id seat.old.me.0 self.now }
        requires lanes { AreLanes seat.old.me.0 (length seat.old.me.1) lanes.now }
        requires place { place < self.now.key.geometry.depth }
        requires out { HasFlags true true q lanes.now }
        requires index { index < cells_of seat.old.me.0.geometry q }
        requires held { (old : Option Buf) × IsPartOut lanes.now place q index old seat.old.me }
        ensures seat { (seat.new.table_id ≡ seat.old.table_id) × (seat.new.id ≡ seat.old.id) }
        ensures found { IsPartOut lanes.now place q index result seat.old.me }
        ensures slots { seat.new.me ≡ with_part_value lanes.now place q index new seat.old.me }
    {
        let (first, _after) = self.tables.received(q as usize);
        let slot = place as usize * slot_row(&self.tables) + first + index;
        swap_in(
            &self.table.shared,
            seat,
            lanes,
            q as usize,
            index,
            slot,
            new,
        )
    }

    /// Lends the buffer of a cell of partition `q`, `index` cells behind its first one: a short one is copied.
    fn lend_part(
        &self,
        seat: &mut Place,
        lanes: &[Lane],
        place: u32,
        q: u32,
        index: usize,
    ) -> CellBuf
        requires pair { IsOf seat.old.table_id seat.old.me.0 self.now }
        requires lanes { AreLanes seat.old.me.0 (length seat.old.me.1) lanes.now }
        requires place { place < self.now.key.geometry.depth }
        requires out { HasFlags true true q lanes.now }
        requires index { index < cells_of seat.old.me.0.geometry q }
        requires held { (buf : Buf) × IsPartOut lanes.now place q index (Some buf) seat.old.me }
        ensures seat { (seat.new.table_id ≡ seat.old.table_id) × (seat.new.id ≡ seat.old.id) }
        ensures found { IsPartOut lanes.now place q index (Some result) seat.old.me }
        ensures slots { (left : Option Buf) × IsLeft result left
            × (seat.new.me ≡ with_part_value lanes.now place q index left seat.old.me) }
    {
        let (first, after) = self.tables.received(q as usize);
        let slot = place as usize * slot_row(&self.tables) + first + index;
        turn_to(seat, lanes, q as usize, index);
        let buf = lend_held(seat.slot_mut(&self.table.shared, slot));
        turn_back(seat, lanes, q as usize, after - first - index);
        buf
    }

    /// Puts a buffer into the slot of a cell of partition `q`, `index` cells behind its first one, if it is empty.
    fn put_part(
        &self,
        seat: &mut Place,
        lanes: &[Lane],
        place: u32,
        q: u32,
        index: usize,
        buf: CellBuf,
    )
        requires pair { IsOf seat.old.table_id seat.old.me.0 self.now }
        requires lanes { AreLanes seat.old.me.0 (length seat.old.me.1) lanes.now }
        requires place { place < self.now.key.geometry.depth }
        requires out { HasFlags true true q lanes.now }
        requires index { index < cells_of seat.old.me.0.geometry q }
        requires held { (old : Option Buf) × IsPartOut lanes.now place q index old seat.old.me }
        ensures seat { (seat.new.table_id ≡ seat.old.table_id) × (seat.new.id ≡ seat.old.id) }
        ensures slots { (old : Option Buf) × IsPartOut lanes.now place q index old seat.old.me
            × (seat.new.me ≡ with_part_value lanes.now place q index (Some (or_own buf old)) seat.old.me) }
    {
        let (first, after) = self.tables.received(q as usize);
        let slot = place as usize * slot_row(&self.tables) + first + index;
        turn_to(seat, lanes, q as usize, index);
        put_held(seat.slot_mut(&self.table.shared, slot), buf);
        turn_back(seat, lanes, q as usize, after - first - index);
    }

    /// The buffers of partition `q`, or copies of them, go onto the shelf, the first one first.
    fn lend_row(&self, seat: &mut Place, lanes: &[Lane], place: u32, q: u32, shelf: &mut Shelf)
        requires pair { IsOf seat.old.table_id seat.old.me.0 self.now }
        requires lanes { AreLanes seat.old.me.0 (length seat.old.me.1) lanes.now }
        requires place { place < self.now.key.geometry.depth }
        requires out { HasFlags true true q lanes.now }
        requires held { AreFull lanes.now place q seat.old.me }
        requires room { (shelf.old.bufs ≡ []) × (cells_of seat.old.me.0.geometry q ≤ shelf.old.room) }
        ensures seat { (seat.new.table_id ≡ seat.old.table_id) × (seat.new.id ≡ seat.old.id) }
        ensures slots { (left : List (Option Buf)) × AreLeft shelf.new.bufs left
            × (seat.new.me ≡ with_part lanes.now place q left seat.old.me) }
        ensures long { length seat.new.me.1 ≡ length seat.old.me.1 }
        ensures size { length shelf.new.bufs ≡ cells_of seat.old.me.0.geometry q }
        ensures room { shelf.old.room ≤ shelf.new.room }
        ensures bufs { IsRow lanes.now place q (map Some shelf.new.bufs) seat.old.me }
    {
        let (first, after) = self.tables.received(q as usize);
        for index in 0..after - first {
            let buf = self.lend_part(seat, lanes, place, q, index);
            shelf.push(buf);
        }
    }

    /// The buffers of the shelf go into the slots of partition `q` that are empty, the last one first.
    fn put_row(&self, seat: &mut Place, lanes: &[Lane], place: u32, q: u32, shelf: &mut Shelf)
        requires pair { IsOf seat.old.table_id seat.old.me.0 self.now }
        requires lanes { AreLanes seat.old.me.0 (length seat.old.me.1) lanes.now }
        requires place { place < self.now.key.geometry.depth }
        requires out { HasFlags true true q lanes.now }
        requires full { length shelf.old.bufs ≡ cells_of seat.old.me.0.geometry q }
        requires of { let d = seat.old.me.0 in
            AreOf d.geometry d.recv.round (first_received d.geometry q) shelf.old.bufs }
        requires held { AreLent lanes.now place q seat.old.me }
        ensures seat { (seat.new.table_id ≡ seat.old.table_id) × (seat.new.id ≡ seat.old.id) }
        ensures slots { let d = seat.old.me.0 in (bufs : List Buf) × (length bufs ≡ cells_of d.geometry q)
            × AreOf d.geometry d.recv.round (first_received d.geometry q) bufs
            × (seat.new.me ≡ with_part lanes.now place q (map Some bufs) seat.old.me) }
        ensures long { length seat.new.me.1 ≡ length seat.old.me.1 }
        ensures shelf { (shelf.new.bufs ≡ []) × (shelf.new.room ≡ shelf.old.room) }
    {
        while shelf.len() > 0 {
            let buf = shelf.pop();
            let index = shelf.len();
            self.put_part(seat, lanes, place, q, index, buf);
        }
    }

    /// Takes the buffer of a cell at a place out of its slot, which is out with the seat.
    pub fn lend_taken(&self, seat: &mut RecvSeat<C>, place: u32, cell: u32) -> CellBuf
        requires pair { IsOf seat.old.table seat.old.view self.now }
        requires place { place < self.now.key.geometry.depth }
        requires cell { cell < cells self.now.key.geometry }
        requires out { HasFlags true true (recv_of self.now.key.geometry cell) seat.old.lanes }
        requires held { (buf : Buf) × IsOut place cell (Some buf) seat.old }
        ensures found { IsOut place cell (Some result) seat.old }
        ensures seat { seat.new ≡ with_value place cell None seat.old }
    {
        let q = self.tables.cell(cell as usize).recv;
        let (first, _after) = self.tables.received(q as usize);
        let index = cell as usize - first;
        let old = self.swap_part(&mut seat.seat, &seat.lanes, place, q, index, None);
        old.unwrap()
    }

    /// Puts a buffer into the slot of a cell at a place, which is out with the seat and empty.
    pub fn put_taken(&self, seat: &mut RecvSeat<C>, place: u32, cell: u32, buf: CellBuf)
        requires pair { IsOf seat.old.table seat.old.view self.now }
        requires place { place < self.now.key.geometry.depth }
        requires cell { cell < cells self.now.key.geometry }
        requires out { HasFlags true true (recv_of self.now.key.geometry cell) seat.old.lanes }
        requires held { IsOut place cell None seat.old }
        ensures seat { seat.new ≡ with_value place cell (Some buf) seat.old }
    {
        let q = self.tables.cell(cell as usize).recv;
        let (first, _after) = self.tables.received(q as usize);
        let index = cell as usize - first;
        let old = self.swap_part(&mut seat.seat, &seat.lanes, place, q, index, Some(buf));
        let None = old else { unreachable!() };
    }

    /// Puts the buffers of all cells of partition `q` at a place, whose slots are out with the seat, on an empty shelf
    /// with room for them, in the order of the cells. A short buffer is copied and stays in its slot. It takes no
    /// memory.
    pub fn lend_all(&self, seat: &mut RecvSeat<C>, place: u32, q: u32, shelf: &mut Shelf)
        requires pair { IsOf seat.old.table seat.old.view self.now }
        requires place { place < self.now.key.geometry.depth }
        requires out { HasFlags true true q seat.old.lanes }
        requires held { (bufs : List Buf) × HasOut place q (map Some bufs) seat.old }
        requires room { (shelf.old.bufs ≡ []) × (cells_of seat.old.view.geometry q ≤ shelf.old.room) }
        ensures seat { (left : List (Option Buf)) × AreLeft shelf.new.bufs left
            × (seat.new ≡ with_values place q left seat.old) }
        ensures shelf { HasOut place q (map Some shelf.new.bufs) seat.old × (shelf.old.room ≤ shelf.new.room) }
    {
        self.lend_row(&mut seat.seat, &seat.lanes, place, q, shelf);
    }

    /// Puts the buffers of a shelf into the empty ones of the slots of all cells of partition `q` at a place, which are
    /// out with the seat, in the order of the cells. All have a buffer of the round and the cell's length then, and the
    /// shelf is empty.
    pub fn put_all(&self, seat: &mut RecvSeat<C>, place: u32, q: u32, shelf: &mut Shelf)
        requires pair { IsOf seat.old.table seat.old.view self.now }
        requires place { place < self.now.key.geometry.depth }
        requires out { HasFlags true true q seat.old.lanes }
        requires full { length shelf.old.bufs ≡ cells_of seat.old.view.geometry q }
        requires of { let d = seat.old.view in
            AreOf d.geometry d.recv.round (first_received d.geometry q) shelf.old.bufs }
        requires held { HasLeft place q seat.old }
        ensures seat { let d = seat.old.view in (bufs : List Buf) × (length bufs ≡ cells_of d.geometry q)
            × AreOf d.geometry d.recv.round (first_received d.geometry q) bufs
            × (seat.new ≡ with_values place q (map Some bufs) seat.old) }
        ensures shelf { (shelf.new.bufs ≡ []) × (shelf.new.room ≡ shelf.old.room) }
    {
        self.put_row(&mut seat.seat, &seat.lanes, place, q, shelf);
    }
}
