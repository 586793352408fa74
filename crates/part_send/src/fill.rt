//! The bytes of a mark, put into the buffers of its cells.

ghost use Rattle.std.specs.Prelude.{◌≡◌, ◌+◌, ◌-◌, ◌*◌, ◌%◌, ◌<◌, ◌≤◌, length, slice_set, Some};
ghost use Rattle.part_geometry.specs.Cells.{cells, send_of};
ghost use Rattle.part_tables.specs.Bytes.{cut};
ghost use Rattle.pair_rule.specs.Buf.{Buf, buf};
ghost use Rattle.pair_rule.specs.Rule.{cell_length};
ghost use Rattle.pair_rule.specs.Seats.{IsOf};
ghost use Rattle.pair_rule.specs.Marking.{HasOut, spot};
ghost use Rattle.part_send.specs.Marking.{IsRight, AreLent, AreFilled};

use pair_rule::{Content, MarkSeat, Pair};
use part_tables::Tables;

/// The bytes of a cell, which are part of those of its send partition.
fn cell_part<'a>(tables: &Tables, cell: usize, bytes: &'a [u8]) -> &'a [u8]
    requires cell { cell < cells tables.now }
    requires long { length bytes.now ≡ tables.now.send_bytes }
    ensures value { result.now ≡ cut tables.now cell bytes.now }
    ensures long { length result.now ≡ cell_length tables.now cell }
{
    let size = tables.geometry().send_bytes();
    let here = tables.cell(cell);
    let start = here.send * size;
    &bytes[(here.start - start) as usize..(here.end - start) as usize]
}

/// Fills the buffer of a cell for a round with its part of the partition's bytes.
fn fill_cell<C: Content>(
    seat: &mut MarkSeat<C>,
    pair: &Pair<C>,
    round: u32,
    cell: usize,
    bytes: &[u8],
)
    requires pair { IsOf seat.old.table seat.old.view pair.now }
    requires cell { cell < cells seat.old.view.geometry }
    requires long { length bytes.now ≡ seat.old.view.geometry.send_bytes }
    requires held { (y : Buf) × HasOut seat.old (round % seat.old.view.geometry.depth) cell (Some y)
        × (length y.bytes ≡ cell_length seat.old.view.geometry cell) }
    ensures { seat.new ≡ record seat.old {
      out = slice_set seat.old.out (spot seat.old (round % seat.old.view.geometry.depth) cell)
          (Some (buf round (cut seat.old.view.geometry cell bytes.now)));
    } }
{
    let tables = pair.tables();
    let place = tables.place(round) as u32;
    // What the seat or the tables say of themselves, for the proof.
    let _cells = tables.cells();
    let part = cell_part(tables, cell, bytes);
    pair.fill_marked(seat, place, cell as u32, round, part);
}

/// Fills the buffers of a partition's cells, which are out, for a round with the partition's bytes.
pub(crate) fn fill<C: Content>(
    seat: &mut MarkSeat<C>,
    pair: &Pair<C>,
    round: u32,
    partition: u32,
    bytes: &[u8],
)
    requires pair { IsOf seat.old.table seat.old.view pair.now }
    requires right { IsRight seat.old.view.geometry partition bytes.now }
    requires lent { AreLent round partition seat.old }
    ensures seat { seat.new ≡ record seat.old { out = seat.new.out } }
    ensures filled { AreFilled round partition bytes.now seat.new }
{
    // What the seat or the tables say of themselves, for the proof.
    let _geometry = pair.geometry();
    let (first, after) = pair.tables().sent(partition as usize);
    for cell in first..after {
        fill_cell(seat, pair, round, cell, bytes);
    }
}
