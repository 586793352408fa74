//! How a partition is taken with its buffers, and given back.

ghost use Rattle.std.specs.Prelude.{◌≡◌, [], length, true};
ghost use Rattle.pair_core.specs.Moves.{TakePart, ReturnPart};
ghost use Rattle.part_tables.specs.Parts.{first_received};
ghost use Rattle.slot_rows.specs.Lanes.{HasFlags};
ghost use Rattle.pair_rule.specs.Seats.{IsOf, cells_of};
ghost use Rattle.pair_rule.specs.Steps.{MayMake, AreOf};
ghost use Rattle.pair_rule.specs.Parts.{HasLeft, place_of};
ghost use Rattle.part_recv.specs.Receiving.{HasShelf};
ghost use Rattle.part_recv.specs.Parting.{PartTaken, part_returned};

use pair_rule::{Content, Pair, RecvSeat, Shelf};

/// Takes partition `q`, and lends its buffers onto its shelf.
pub(crate) fn take_part<C: Content>(pair: &Pair<C>, seat: &mut RecvSeat<C>, q: u32) -> Shelf
    requires pair { IsOf seat.old.table seat.old.view pair.now }
    requires allowed { MayMake seat.old.view (TakePart q []) }
    requires shelf { HasShelf q seat.old }
    ensures { PartTaken (C.may pair.now.key.tag) q result seat.old seat.new }
{
    // What the seat or the tables say of themselves, for the proof.
    let _lanes = seat.lanes();
    let place = pair.tables().place(seat.round()) as u32;
    let mut shelf = seat.take_shelf(q);
    pair.take_bit(seat, q);
    pair.lend_all(seat, place, q, &mut shelf);
    shelf
}

/// Puts the buffers of a shelf into the slots of partition `q`, which are out, where they are empty, and gives the
/// partition back.
pub(crate) fn return_part<C: Content>(
    pair: &Pair<C>,
    seat: &mut RecvSeat<C>,
    q: u32,
    mut shelf: Shelf,
)
    requires pair { IsOf seat.old.table seat.old.view pair.now }
    requires allowed { MayMake seat.old.view (ReturnPart q) }
    requires flags { HasFlags true true q seat.old.lanes }
    requires out { HasLeft (place_of seat.old.view) q seat.old }
    requires full { length shelf.bufs ≡ cells_of seat.old.view.geometry q }
    requires of { let g = seat.old.view.geometry in
        AreOf g seat.old.view.recv.round (first_received g q) shelf.bufs }
    ensures { seat.new ≡ part_returned q shelf seat.old }
{
    // What the seat or the tables say of themselves, for the proof.
    let _lanes = seat.lanes();
    let place = pair.tables().place(seat.round()) as u32;
    pair.put_all(seat, place, q, &mut shelf);
    seat.put_shelf(q, shelf);
    pair.return_bit(seat, q);
}
