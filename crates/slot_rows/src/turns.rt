//! Turning a seat's list of slots, and exchanging a slot that stands anywhere in it.
ghost use Rattle.std.specs.Prelude.{◌≡◌, ◌≤◌, length, slice_set};
ghost use mathlib.Core.Option.{some};
ghost use lib.ListN.{get_elem?};
ghost use Rattle.slot_rows.specs.Lists.{rotated};

use atomic_table::{Seat, Shared, TableRule};

/// The first `count` slots of the seat's list go behind the others. It does nothing when it runs.
pub fn turn_times<S, V>(seat: &mut Seat<S, V>, count: usize)
    requires { count ≤ length seat.old.me.1 }
    ensures seat { (seat.new.table_id ≡ seat.old.table_id) × (seat.new.id ≡ seat.old.id) }
    ensures turned { seat.new.me ≡ (seat.old.me.0, rotated count seat.old.me.1) }
{
    for _ in 0..count {
        seat.turn();
    }
}

/// A plain read and write of the slot at the place `at` of the seat's list, which has `count` slots and keeps its
/// order. `slot` is that slot's number.
pub fn swap_at<S, V, K, P: TableRule<S, V, K>>(
    shared: &Shared<S, V, K, P>,
    seat: &mut Seat<S, V>,
    at: usize,
    count: usize,
    slot: usize,
    new: S,
) -> S
    requires table { seat.old.table_id ≡ shared.now.table_id }
    requires count { count ≡ length seat.old.me.1 }
    requires held { (old : S) × (get_elem? seat.old.me.1 at ≡ some (slot, old)) }
    ensures seat { (seat.new.table_id ≡ seat.old.table_id) × (seat.new.id ≡ seat.old.id) }
    ensures found { get_elem? seat.old.me.1 at ≡ some (slot, result) }
    ensures slots { seat.new.me ≡ (seat.old.me.0, slice_set seat.old.me.1 at (slot, new)) }
{
    turn_times(seat, at);
    let old = shared.exchange(seat, slot, new);
    turn_times(seat, count - at);
    old
}
