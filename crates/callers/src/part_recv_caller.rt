#![tactic(auto)]

ghost use Rattle.std.specs.Prelude.{IsTrue};
ghost use Rattle.pair_rule.specs.Seats.{IsOf};
ghost use Rattle.part_recv.specs.Taking.{LookedAll, MayLook};

use pair_rule::{Content, Pair};
use part_recv::{EndLook, RecvEnd};

/// Whether receive partition `q` has arrived in the round of an active end, as a look tells now.
pub fn has_arrived<C: Content>(end: &mut RecvEnd<C>, pair: &Pair<C>, q: u32) -> bool
    requires { IsOf end.old.table end.old.view pair.now }
    ensures { IsTrue result → MayLook q end.old × LookedAll q end.old end.new }
{
    match end.parrived(pair, q) {
        EndLook::Arrived => true,
        EndLook::Idle => false,
        EndLook::BadPartition => false,
        EndLook::NotYet { piece: _, shown: _ } => false,
    }
}
