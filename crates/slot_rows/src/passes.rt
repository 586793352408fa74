//! Turning a seat's list of slots by lanes.
ghost use Rattle.std.specs.Prelude.{◌≡◌, ◌+◌, ◌<◌, ◌≤◌, length, drop, slice_set};
ghost use mathlib.Core.Option.{some};
ghost use lib.ListN.{get_elem?};
ghost use Rattle.slot_rows.specs.Lists.{rotated};
ghost use Rattle.slot_rows.specs.Lanes.{width, wide, place, flagged, HasSlot};

use crate::lane::Lane;
use crate::turns::turn_times;
use atomic_table::{Seat, Shared, TableRule};

fn pass_one<S, V>(seat: &mut Seat<S, V>, lane: &Lane)
    requires { width lane.now ≤ length seat.old.me.1 }
    ensures seat { (seat.new.table_id ≡ seat.old.table_id) × (seat.new.id ≡ seat.old.id) }
    ensures turned { seat.new.me ≡ (seat.old.me.0, rotated (width lane.now) seat.old.me.1) }
{
    if lane.out {
        turn_times(seat, lane.count as usize);
    }
}

/// The slots of these lanes, which are the first of the seat's list, go behind the others. It does nothing when it
/// runs.
pub fn pass<S, V>(seat: &mut Seat<S, V>, lanes: &[Lane])
    requires { wide lanes.now ≤ length seat.old.me.1 }
    ensures seat { (seat.new.table_id ≡ seat.old.table_id) × (seat.new.id ≡ seat.old.id) }
    ensures turned { seat.new.me ≡ (seat.old.me.0, rotated (wide lanes.now) seat.old.me.1) }
{
    for lane in lanes {
        pass_one(seat, lane);
    }
}

/// The slots of the lanes before `to` go behind the others, so that those of the lane `to` come first.
pub fn pass_to<S, V>(seat: &mut Seat<S, V>, lanes: &[Lane], to: usize)
    requires to { to ≤ length lanes.now }
    requires here { place lanes.now to ≤ length seat.old.me.1 }
    ensures seat { (seat.new.table_id ≡ seat.old.table_id) × (seat.new.id ≡ seat.old.id) }
    ensures turned { seat.new.me ≡ (seat.old.me.0, rotated (place lanes.now to) seat.old.me.1) }
{
    pass(seat, &lanes[..to]);
}

/// The slots of the lanes from `from` on go behind the others.
pub fn pass_from<S, V>(seat: &mut Seat<S, V>, lanes: &[Lane], from: usize)
    requires from { from ≤ length lanes.now }
    requires here { wide (drop from lanes.now) ≤ length seat.old.me.1 }
    ensures seat { (seat.new.table_id ≡ seat.old.table_id) × (seat.new.id ≡ seat.old.id) }
    ensures turned { seat.new.me ≡ (seat.old.me.0, rotated (wide (drop from lanes.now)) seat.old.me.1) }
{
    pass(seat, &lanes[from..]);
}

/// A plain read and write of a slot of a lane that is out: the one numbered `index` in it, from 0. `slot` is its number
/// in the table. The seat's list has the slots of `lanes`, and keeps its order.
pub fn swap_in<S, V, K, P: TableRule<S, V, K>>(
    shared: &Shared<S, V, K, P>,
    seat: &mut Seat<S, V>,
    lanes: &[Lane],
    lane: usize,
    index: usize,
    slot: usize,
    new: S,
) -> S
    requires table { seat.old.table_id ≡ shared.now.table_id }
    requires lanes { length seat.old.me.1 ≡ wide lanes.now }
    requires slot { HasSlot lane index lanes.now }
    requires held { (old : S) × (get_elem? seat.old.me.1 (place lanes.now lane + index) ≡ some (slot, old)) }
    ensures seat { (seat.new.table_id ≡ seat.old.table_id) × (seat.new.id ≡ seat.old.id) }
    ensures found { get_elem? seat.old.me.1 (place lanes.now lane + index) ≡ some (slot, result) }
    ensures slots { seat.new.me ≡ (seat.old.me.0, slice_set seat.old.me.1 (place lanes.now lane + index) (slot, new)) }
{
    let count = lanes[lane].count as usize;
    pass_to(seat, lanes, lane);
    turn_times(seat, index);
    let old = shared.exchange(seat, slot, new);
    turn_times(seat, count - index);
    pass_from(seat, lanes, lane + 1);
    old
}

/// Sets the flags of the lane `at`.
pub fn set_flags(lanes: &mut [Lane], at: usize, taken: bool, out: bool)
    requires { at < length lanes.old }
    ensures { lanes.new ≡ flagged taken out at lanes.old }
{
    let lane = &mut lanes[at];
    lane.taken = taken;
    lane.out = out;
}
