//! How the receive side begins a round.

ghost use Rattle.std.specs.Prelude.{◌≡◌, ◌+◌, ◌≤◌};
ghost use Rattle.part_geometry.specs.declared.TheConstants.{LAST_ROUND};
ghost use Rattle.pair_core.specs.Moves.{IsRecvActive, IsRecvIdle};
ghost use Rattle.pair_rule.specs.Seats.{IsOf};
ghost use Rattle.part_recv.specs.Receiving.{opened, all_untaken};
ghost use Rattle.part_recv.specs.Parting.{AreHome};

use pair_rule::{Content, Pair, RecvSeat};

/// Stores all return words and then all take words, empty for the next round.
pub(crate) fn open_round<C: Content>(pair: &Pair<C>, seat: &mut RecvSeat<C>, round: u32)
    requires pair { IsOf seat.old.table seat.old.view pair.now }
    requires idle { IsRecvIdle seat.old.view.recv }
    requires round { (round ≡ seat.old.view.recv.round + 1) × (round ≤ LAST_ROUND) }
    ensures seat { seat.new ≡ record seat.old { view = opened seat.old.view; lanes = all_untaken seat.old.lanes } }
    ensures home { AreHome seat.old.lanes }
    ensures geometry { seat.new.view.geometry ≡ seat.old.view.geometry }
    ensures side { IsRecvActive seat.new.view.geometry seat.new.view.recv }
    ensures round { seat.new.view.recv.round ≡ round }
    ensures watchers { seat.new.view.recv.watchers ≡ seat.old.view.recv.watchers }
{
    // What the seat or the tables say of themselves, for the proof.
    let _lanes = seat.lanes();
    let words = pair.geometry().recv_parts().div_ceil(32);
    'returns: for word in 0..words {
        pair.store_return(seat, round, word);
    }
    'takes: for word in 0..words {
        pair.store_take(seat, round, word);
    }
}
