#![tactic(auto)]

ghost use Rattle.std.specs.Prelude.{◌≡◌, ◌-◌, IfSome, Some, length, slice_get};
ghost use Rattle.init_match.specs.Matching.{pairs_of};
ghost use Rattle.init_match.specs.World.{matched_pairs};

use init_match::{Matched, World};

/// The pair that was completed last.
pub fn last_pair(world: &World) -> Option<Matched>
    ensures { IfSome result (λ pair.
        slice_get (matched_pairs world.now) (length (pairs_of world.now.calls) - 1) ≡ Some pair) }
{
    let count = world.pair_count();
    if count == 0 {
        return None;
    }
    Some(world.pair(count - 1))
}
