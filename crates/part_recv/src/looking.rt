//! Looks at the pieces over a receive partition.

ghost use Rattle.std.specs.Prelude.{◌≡◌, ◌↔◌, ◌<◌, ◌≤◌, IsTrue};
ghost use Rattle.part_geometry.specs.Pieces.{pieces};
ghost use Rattle.pair_core.specs.Reading.{IsFull};
ghost use Rattle.pair_rule.specs.Seats.{IsOf};
ghost use Rattle.part_recv.specs.Seeing.{first_piece, after_piece};
ghost use Rattle.part_recv.specs.Found.{Found};

use gate_word::{bits_of, round_of};
use pair_rule::{Content, Pair, Seated};
use part_tables::Tables;

/// A piece whose word isn't full in the round that was asked for.
#[derive(Clone, Copy)]
pub(crate) struct Missed {
    pub(crate) piece: u32,
    pub(crate) shown: u64,
}

/// Whether a word of piece `i` is full in a round.
fn is_full(tables: &Tables, word: u64, round: u32, i: usize) -> bool
    requires { i < pieces tables.now }
    ensures { IsTrue result ↔ IsFull tables.now word round i }
{
    // What the seat or the tables say of themselves, for the proof.
    let _geometry = tables.geometry();
    let need = tables.need(i);
    round_of(word) == round && need & bits_of(word) == need
}

/// The first piece over receive partition `q`, and the one behind the last.
fn pieces_over(tables: &Tables, q: u32) -> (u32, u32)
    requires { q < tables.now.recv_parts }
    ensures value { result ≡ (first_piece tables.now q, after_piece tables.now q) }
    ensures inside { (result.0 < result.1) × (result.1 ≤ pieces tables.now) }
{
    // What the seat or the tables say of themselves, for the proof.
    let _geometry = tables.geometry();
    // What the seat or the tables say of themselves, for the proof.
    let _few = tables.pieces();
    let (first, after) = tables.received(q as usize);
    (tables.cell(first).piece, tables.cell(after - 1).piece + 1)
}

/// Looks at the pieces over receive partition `q` in order, up to the first that isn't full in the round.
pub(crate) fn look_over<C: Content, S: Seated<C>>(
    pair: &Pair<C>,
    seat: &mut S,
    round: u32,
    q: u32,
) -> Option<Missed>
    requires pair { IsOf (S.table_of seat.old) (S.view_of seat.old) pair.now }
    requires part { q < pair.now.key.geometry.recv_parts }
    ensures pair { IsOf (S.table_of seat.new) (S.view_of seat.new) pair.now }
    ensures found { (d : _) × (seat.new ≡ S.with_view seat.old d) × Found round q result (S.view_of seat.old) d }
{
    let tables = pair.tables();
    let place = tables.place(round) as u32;
    let (first, after) = pieces_over(tables, q);
    for piece in first..after {
        let shown = pair.load_piece(seat, place, piece);
        if !is_full(tables, shown, round, piece as usize) {
            return Some(Missed { piece, shown });
        }
    }
    None
}
