//! Starts and tests of requests over a pair of one thread.

ghost use Rattle.std.specs.Prelude.{◌≡◌, ◌≢◌, ◌↔◌, true, false, Ok, IsErr};
ghost use Rattle.plain_pair.specs.Moves.{after_start_recv, after_start_send, after_test_recv, after_test_send, start_recv_answer, start_send_answer, test_recv_answer, test_send_answer};
ghost use Rattle.plain_pair.specs.Sides.{recv_side, send_side};
ghost use Rattle.plain_pair.specs.StandsFor.{Follows};
ghost use Rattle.part_api.specs.States.{Agrees, is_idle, is_in_use, start_by_state, start_told, state_received, state_sent, state_started};

use crate::faults::{Freed, ReqFault};
use crate::request::{ReqState, Request};
use part_geometry::{RecvTest, Side};
use plain_pair::{PlainPair, PlainSendTest};

/// Starts the next round of a send (`MPI_Start`, MPI 4.0, 3.9), and answers its number. Refused where the request is
/// freed, isn't matched, is active or has had its last round; nothing changes then.
pub fn start_send_plain(req: &mut Request, pair: &mut PlainPair) -> Result<u32, ReqFault>
    requires side { req.old.side ≡ Side.SendSide }
    requires agrees { Agrees req.old.state (send_side pair.old) }
    ensures by_state { result ≡ start_by_state req.old.state }
    ensures state { req.new ≡ record req.old { state = state_started result req.old.state } }
    ensures agrees { Agrees req.new.state (send_side pair.new) }
    ensures call { is_in_use req.old.state ≡ true → Follows pair.old pair.new result
        (λ r. start_told (start_send_answer r)) after_start_send }
    ensures unused { is_in_use req.old.state ≡ false → pair.new ≡ pair.old }
    ensures unchanged { IsErr result → pair.new ≡ pair.old }
    ensures shape { pair.new.shape ≡ pair.old.shape }
    ensures other_side { recv_side pair.new ≡ recv_side pair.old }
{
    req.refuse()?;
    req.note_start(pair.start_send())
}

/// Starts the next round of a receive, and answers its number. Refused as the start of a send.
pub fn start_recv_plain(req: &mut Request, pair: &mut PlainPair) -> Result<u32, ReqFault>
    requires side { req.old.side ≡ Side.RecvSide }
    requires agrees { Agrees req.old.state (recv_side pair.old) }
    ensures by_state { result ≡ start_by_state req.old.state }
    ensures state { req.new ≡ record req.old { state = state_started result req.old.state } }
    ensures agrees { Agrees req.new.state (recv_side pair.new) }
    ensures call { is_in_use req.old.state ≡ true → Follows pair.old pair.new result
        (λ r. start_told (start_recv_answer r)) after_start_recv }
    ensures unused { is_in_use req.old.state ≡ false → pair.new ≡ pair.old }
    ensures unchanged { IsErr result → pair.new ≡ pair.old }
    ensures shape { pair.new.shape ≡ pair.old.shape }
    ensures other_side { send_side pair.new ≡ send_side pair.old }
{
    req.refuse()?;
    req.note_start(pair.start_recv())
}

/// Tests a send (`MPI_Test`, MPI 4.0, 4.2.2), and completes it where the pair's test answers `Done`. A request that
/// isn't matched is idle, and one that is freed is refused; nothing changes then.
pub fn test_send_plain(req: &mut Request, pair: &mut PlainPair) -> Result<PlainSendTest, Freed>
    requires side { req.old.side ≡ Side.SendSide }
    requires agrees { Agrees req.old.state (send_side pair.old) }
    ensures freed { IsErr result ↔ (req.old.state ≡ ReqState.Freed) }
    ensures idle { is_idle req.old.state ≡ true → result ≡ Ok PlainSendTest.Idle }
    ensures state { req.new ≡ record req.old { state = state_sent result req.old.state } }
    ensures agrees { Agrees req.new.state (send_side pair.new) }
    ensures call { is_in_use req.old.state ≡ true → Follows pair.old pair.new result
        (λ r. Ok (test_send_answer pair.old.shape r)) (λ r. after_test_send pair.old.shape r) }
    ensures unused { is_in_use req.old.state ≡ false → pair.new ≡ pair.old }
    ensures unchanged { result ≢ Ok PlainSendTest.Done → pair.new ≡ pair.old }
    ensures shape { pair.new.shape ≡ pair.old.shape }
    ensures other_side { recv_side pair.new ≡ recv_side pair.old }
{
    if !req.is_in_use()? {
        return Ok(PlainSendTest::Idle);
    }
    let answer = pair.test_send();
    if let PlainSendTest::Done = answer {
        req.complete();
    }
    Ok(answer)
}

/// Tests a receive, and completes it where the pair's test answers `Done`, which releases the round. Otherwise as the
/// test of a send.
pub fn test_recv_plain(req: &mut Request, pair: &mut PlainPair) -> Result<RecvTest, Freed>
    requires side { req.old.side ≡ Side.RecvSide }
    requires agrees { Agrees req.old.state (recv_side pair.old) }
    ensures freed { IsErr result ↔ (req.old.state ≡ ReqState.Freed) }
    ensures idle { is_idle req.old.state ≡ true → result ≡ Ok RecvTest.Idle }
    ensures state { req.new ≡ record req.old { state = state_received result req.old.state } }
    ensures agrees { Agrees req.new.state (recv_side pair.new) }
    ensures call { is_in_use req.old.state ≡ true → Follows pair.old pair.new result
        (λ r. Ok (test_recv_answer pair.old.shape r)) (λ r. after_test_recv pair.old.shape r) }
    ensures unused { is_in_use req.old.state ≡ false → pair.new ≡ pair.old }
    ensures unchanged { result ≢ Ok RecvTest.Done → pair.new ≡ pair.old }
    ensures shape { pair.new.shape ≡ pair.old.shape }
    ensures other_side { send_side pair.new ≡ send_side pair.old }
{
    if !req.is_in_use()? {
        return Ok(RecvTest::Idle);
    }
    let answer = pair.test_recv();
    if let RecvTest::Done = answer {
        req.complete();
    }
    Ok(answer)
}
