//! Starts and tests of requests over a pair that many threads use.

ghost use Rattle.std.specs.Prelude.{◌≡◌, ◌≢◌, ◌↔◌, true, false, Ok, IfOk, IsErr};
ghost use Rattle.pair_rule.specs.Seats.{IsOf};
ghost use Rattle.part_send.specs.Testing.{TestTells};
ghost use Rattle.part_recv.specs.Receiving.{test_answer, after_test};
ghost use Rattle.part_api.specs.Ruled.{SendStarts, RecvStarts, recv_side, send_side, state_tested};
ghost use Rattle.part_api.specs.States.{Agrees, is_idle, is_in_use, start_by_state, state_received, state_started};

use crate::faults::{Freed, ReqFault};
use crate::request::{ReqState, Request};
use pair_rule::{Content, Pair};
use part_geometry::{RecvTest, Side};
use part_recv::RecvEnd;
use part_send::{SendEnd, SendTest};

/// Starts the next round of a send (`MPI_Start`, MPI 4.0, 3.9) by the send end of a pair, and answers its number.
/// Refused where the request is freed, isn't matched, is active or has had its last round; nothing changes then.
pub fn start_send_ruled<C: Content>(
    req: &mut Request,
    end: &mut SendEnd<C>,
    pair: &Pair<C>,
) -> Result<u32, ReqFault>
    requires side { req.old.side ≡ Side.SendSide }
    requires agrees { Agrees req.old.state (send_side end.old.view) }
    requires pair { IsOf end.old.table end.old.view pair.now }
    ensures by_state { result ≡ start_by_state req.old.state }
    ensures state { req.new ≡ record req.old { state = state_started result req.old.state } }
    ensures agrees { Agrees req.new.state (send_side end.new.view) }
    ensures pair { IsOf end.new.table end.new.view pair.now }
    ensures call { is_in_use req.old.state ≡ true → SendStarts end.old end.new result }
    ensures unused { is_in_use req.old.state ≡ false → end.new ≡ end.old }
    ensures unchanged { IsErr result → end.new ≡ end.old }
{
    req.refuse()?;
    req.note_start(end.start(pair))
}

/// Starts the next round of a receive by the receive end of a pair, and answers its number. Refused as the start of a
/// send.
pub fn start_recv_ruled<C: Content>(
    req: &mut Request,
    end: &mut RecvEnd<C>,
    pair: &Pair<C>,
) -> Result<u32, ReqFault>
    requires side { req.old.side ≡ Side.RecvSide }
    requires agrees { Agrees req.old.state (recv_side end.old.view) }
    requires pair { IsOf end.old.table end.old.view pair.now }
    ensures by_state { result ≡ start_by_state req.old.state }
    ensures state { req.new ≡ record req.old { state = state_started result req.old.state } }
    ensures agrees { Agrees req.new.state (recv_side end.new.view) }
    ensures pair { IsOf end.new.table end.new.view pair.now }
    ensures call { is_in_use req.old.state ≡ true → RecvStarts end.old end.new result }
    ensures unused { is_in_use req.old.state ≡ false → end.new ≡ end.old }
    ensures unchanged { IsErr result → end.new ≡ end.old }
{
    req.refuse()?;
    req.note_start(end.start(pair))
}

/// Tests a send (`MPI_Test`, MPI 4.0, 4.2.2) by the send end of a pair, and completes it where the end's test answers
/// `Done`. A request that isn't matched is idle, and one that is freed is refused; nothing changes then.
pub fn test_send_ruled<C: Content>(
    req: &mut Request,
    end: &mut SendEnd<C>,
    pair: &Pair<C>,
) -> Result<SendTest, Freed>
    requires side { req.old.side ≡ Side.SendSide }
    requires agrees { Agrees req.old.state (send_side end.old.view) }
    requires pair { IsOf end.old.table end.old.view pair.now }
    ensures freed { IsErr result ↔ (req.old.state ≡ ReqState.Freed) }
    ensures idle { is_idle req.old.state ≡ true → (result ≡ Ok SendTest.Idle) × (end.new ≡ end.old) }
    ensures state { req.new ≡ record req.old { state = state_tested result req.old.state } }
    ensures agrees { Agrees req.new.state (send_side end.new.view) }
    ensures pair { IsOf end.new.table end.new.view pair.now }
    ensures call { is_in_use req.old.state ≡ true → IfOk result (λ r. TestTells end.old.view end.new.view r) }
    ensures unused { is_in_use req.old.state ≡ false → end.new ≡ end.old }
{
    if !req.is_in_use()? {
        return Ok(SendTest::Idle);
    }
    let answer = end.test(pair);
    if let SendTest::Done = answer {
        req.complete();
    }
    Ok(answer)
}

/// Tests a receive by the receive end of a pair, and completes it where the end's test answers `Done`, which releases
/// the round. Otherwise as the test of a send.
pub fn test_recv_ruled<C: Content>(
    req: &mut Request,
    end: &mut RecvEnd<C>,
    pair: &Pair<C>,
) -> Result<RecvTest, Freed>
    requires side { req.old.side ≡ Side.RecvSide }
    requires agrees { Agrees req.old.state (recv_side end.old.view) }
    requires pair { IsOf end.old.table end.old.view pair.now }
    ensures freed { IsErr result ↔ (req.old.state ≡ ReqState.Freed) }
    ensures idle { is_idle req.old.state ≡ true → result ≡ Ok RecvTest.Idle }
    ensures state { req.new ≡ record req.old { state = state_received result req.old.state } }
    ensures agrees { Agrees req.new.state (recv_side end.new.view) }
    ensures pair { IsOf end.new.table end.new.view pair.now }
    ensures call { is_in_use req.old.state ≡ true
        → (result ≡ Ok (test_answer end.old)) × (end.new ≡ after_test end.old) }
    ensures unused { is_in_use req.old.state ≡ false → end.new ≡ end.old }
    ensures unchanged { result ≢ Ok RecvTest.Done → end.new ≡ end.old }
{
    if !req.is_in_use()? {
        return Ok(RecvTest::Idle);
    }
    let answer = end.test(pair);
    if let RecvTest::Done = answer {
        req.complete();
    }
    Ok(answer)
}
