#![tactic(auto)]

ghost use Rattle.std.specs.Prelude.{◌≡◌, ◌+◌, length, slice_set, Some, None};
ghost use mathlib.Core.Option.{some};
ghost use lib.ListN.{get_elem?};
ghost use Rattle.slot_rows.specs.Lanes.{wide, place, HasSlot};

use atomic_table::{Seat, Shared, TableRule};
use slot_rows::{Lane, swap_in};

/// Takes the value out of the slot with this index in the lane.
pub fn take_out<T, V, K, P: TableRule<Option<T>, V, K>>(
    shared: &Shared<Option<T>, V, K, P>,
    seat: &mut Seat<Option<T>, V>,
    lanes: &[Lane],
    lane: usize,
    index: usize,
    slot: usize,
) -> T
    requires table { seat.old.table_id ≡ shared.now.table_id }
    requires lanes { length seat.old.me.1 ≡ wide lanes.now }
    requires slot { HasSlot lane index lanes.now }
    requires full { (old : T) × (get_elem? seat.old.me.1 (place lanes.now lane + index) ≡ some (slot, Some old)) }
    ensures found { get_elem? seat.old.me.1 (place lanes.now lane + index) ≡ some (slot, Some result) }
    ensures slots { seat.new.me ≡ (seat.old.me.0, slice_set seat.old.me.1 (place lanes.now lane + index) (slot, None)) }
{
    swap_in(shared, seat, lanes, lane, index, slot, None).unwrap()
}
