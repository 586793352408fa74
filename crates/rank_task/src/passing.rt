//! The rows of an edge through its pair.

ghost use Rattle.std.specs.Prelude.{◌≡◌, ◌≤◌, ◌-◌, ◌*◌, length, IfOk};
ghost use Rattle.std.specs.List.{All};
ghost use Rattle.part_geometry.specs.declared.TheConstants.{LAST_ROUND};
ghost use Rattle.halo_message.specs.declared.TheConstants.{ELEMENT_BYTES};
ghost use Rattle.halo_message.specs.Elements.{IsWord};
ghost use Rattle.halo_message.specs.Passing.{RestsAt};
ghost use Rattle.halo_plan.specs.Plan.{elements, shape_of, values};

use halo_plan::HaloPlan;
use plain_pair::PlainPair;
use std::alloc::{AllocError, Global};

/// A pair for an edge of a plan, before its first round. It takes all memory that the pair will ever use.
pub fn pair_at_rest(alloc: Global, plan: &HaloPlan) -> Result<PlainPair, AllocError>
    ensures { IfOk result (RestsAt (shape_of plan.now) 0) }
{
    halo_message::pair_at_rest(alloc, plan.message())
}

/// Passes the rows of an edge through its pair in the pair's next round, which is `round`, from 1 to 2,147,483,647: all
/// partitions are marked with the message (MPI 4.0, 4.2.2), and each receive partition is taken and given back. `rows`
/// has the rows' values, one row after another, and `out` gets them; `message` is where the bytes of the message are
/// made. The pair then rests after this round. It takes no memory and has no refusal.
pub fn pass(
    pair: &mut PlainPair,
    plan: &HaloPlan,
    round: u32,
    rows: &[i64],
    message: &mut [u8],
    out: &mut [i64],
)
    requires rests { RestsAt (shape_of plan.now) (round - 1) pair.old }
    requires round { 1 ≤ round }
    requires last { round ≤ LAST_ROUND }
    requires rows { length rows.now ≡ values plan.now }
    requires words { All IsWord rows.now }
    requires message { length message.old ≡ elements plan.now * ELEMENT_BYTES }
    requires out { length out.old ≡ values plan.now }
    ensures rests { RestsAt (shape_of plan.now) round pair.new }
    ensures rows { out.new ≡ rows.now }
{
    halo_message::pass(pair, plan.message(), round, rows, message, out);
}
