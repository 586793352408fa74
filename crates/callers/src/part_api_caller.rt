#![tactic(auto)]

ghost use Rattle.std.specs.Prelude.{◌≡◌, Ok};
ghost use Rattle.plain_pair.specs.Sides.{send_side};
ghost use Rattle.pair_rule.specs.Seats.{IsOf};
ghost use Rattle.part_api.specs.Ruled.{recv_side};
ghost use Rattle.part_api.specs.States.{Agrees};

use pair_rule::{Content, Pair};
use part_api::{ReqFault, ReqState, Request, Side, start_recv_ruled, start_send_plain};
use part_recv::RecvEnd;
use plain_pair::PlainPair;

/// Starts the first round of a send that is matched, over a pair of one thread, which can't be refused.
pub fn first_round(send: &mut Request, pair: &mut PlainPair) -> Result<u32, ReqFault>
    requires side { send.old.side ≡ Side.SendSide }
    requires fresh { send.old.state ≡ ReqState.Inactive }
    requires agrees { Agrees send.old.state (send_side pair.old) }
    ensures { result ≡ Ok 1 }
{
    start_send_plain(send, pair)
}

/// Starts the first round of a receive that is matched, by the end of a running pair, which can't be refused.
pub fn first_round_received<C: Content>(
    recv: &mut Request,
    end: &mut RecvEnd<C>,
    pair: &Pair<C>,
) -> Result<u32, ReqFault>
    requires side { recv.old.side ≡ Side.RecvSide }
    requires fresh { recv.old.state ≡ ReqState.Inactive }
    requires agrees { Agrees recv.old.state (recv_side end.old.view) }
    requires pair { IsOf end.old.table end.old.view pair.now }
    ensures { result ≡ Ok 1 }
{
    start_recv_ruled(recv, end, pair)
}
