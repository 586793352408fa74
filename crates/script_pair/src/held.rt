//! A pair with its two requests, and what was taken of it.

ghost use Rattle.std.specs.Prelude.{◌≡◌, true, false, IfOk, None, length};
ghost use Rattle.std.specs.List.{All};
ghost use Rattle.part_api.specs.States.{start_told, is_in_use, free_answer};
ghost use Rattle.plain_pair.specs.Closing.{closed_answer};
ghost use Rattle.plain_pair.specs.Moves.{pready_answer, after_pready, parrived_answer, take_answer, after_take, test_send_answer, test_recv_answer};
ghost use Rattle.plain_pair.specs.Many.{pready_range_answer, after_pready_range, pready_list_answer, after_pready_list};
ghost use Rattle.script_pair.specs.Answers.{with_record, start_of, started, tested_send, tested_recv, after_back, freed};
ghost use Rattle.script_pair.specs.Desk.{first_desk, is_freed, is_kept, state_of};
ghost use Rattle.script_pair.specs.Held.{Stands, Follows, Tells, request_of, is_matched};
ghost use Rattle.script_pair.specs.Texts.{take_text};

use crate::texts;
use part_api::{
    FreeFault, ReqFault, ReqState, Request, Side, start_recv_plain, start_send_plain,
    test_recv_plain, test_send_plain,
};
use part_geometry::{Geometry, Marked, Marks, RecvTest};
use plain_pair::{
    PlainArrival, PlainClosed, PlainLook, PlainPair, PlainRefusal, PlainSendTest, PlainStop,
};
use std::alloc::{AllocError, Global};
use std::marker::Model;

/// A pair of a script whose two requests are matched, with the arrivals that the script keeps. Contracts say what it
/// does by the desks that it stands for.
#[derive(Drop)]
pub struct MatchedPair {
    pair: PlainPair,
    send: Request,
    recv: Request,
    kept: Vec<Option<PlainArrival>>,
}

impl Model for MatchedPair {
    ghost use Rattle.script_pair.specs.Held.{Held, IsHeld};

    ghost Value = { Held };

    ghost view = { λ p. record { pair = p.pair; send = p.send; recv = p.recv; kept = p.kept.items } };

    ghost invariant = { λ p. IsHeld record { pair = p.pair; send = p.send; recv = p.recv; kept = p.kept.items } };
}

/// No arrival for each of `count` partitions.
fn no_arrivals(alloc: Global, count: usize) -> Result<Vec<Option<PlainArrival>>, AllocError>
    ensures len { IfOk result (λ v. length v.items ≡ count) }
    ensures none { IfOk result (λ v. All (λ slot. slot ≡ None) v.items) }
{
    let mut kept = Vec::with_capacity(alloc, count)?;
    for _i in 0..count {
        kept.push(None)?;
    }
    Ok(kept)
}

/// A request of this side that is matched.
fn matched(side: Side) -> Request
    ensures { result ≡ record { side = side; state = ReqState.Inactive } }
{
    let mut request = Request::new(side);
    request.matched();
    request
}

/// Whether a state is that of a freed request.
fn is_freed_state(state: ReqState) -> bool
    ensures { result ≡ is_freed state }
{
    matches!(state, ReqState::Freed)
}

impl MatchedPair {
    /// A pair of this geometry, whose requests were matched just now.
    pub fn create(alloc: Global, geometry: Geometry) -> Result<MatchedPair, AllocError>
        ensures shape { IfOk result (λ held. held.pair.shape ≡ geometry) }
        ensures first { IfOk result (λ held. Stands held first_desk) }
    {
        let kept = no_arrivals(alloc, geometry.recv_parts() as usize)?;
        let pair = PlainPair::create(alloc, geometry)?;
        Ok(MatchedPair {
            pair,
            send: matched(Side::SendSide),
            recv: matched(Side::RecvSide),
            kept,
        })
    }

    /// The state of the request of a side.
    fn state(&self, side: Side) -> ReqState
        ensures value { result ≡ (request_of side self.now).state }
        ensures matched { is_matched result ≡ true }
    {
        match side {
            Side::SendSide => self.send.state(),
            Side::RecvSide => self.recv.state(),
        }
    }

    /// Whether the request of a side is freed.
    pub(crate) fn is_freed(&self, side: Side) -> bool
        ensures value { (d : _) → Stands self.now d → result ≡ is_freed (state_of side d) }
        ensures in_use { result ≡ false → is_in_use (request_of side self.now).state ≡ true }
    {
        is_freed_state(self.state(side))
    }

    /// Starts the next round of a side.
    pub(crate) fn start(&mut self, side: Side) -> Result<u32, ReqFault>
        requires { is_in_use (request_of side self.old).state ≡ true }
        ensures shape { self.new.pair.shape ≡ self.old.pair.shape }
        ensures answer { Follows self.old self.new result (λ d. start_told (start_of side d.record_)) (started side) }
    {
        match side {
            Side::SendSide => start_send_plain(&mut self.send, &mut self.pair),
            Side::RecvSide => start_recv_plain(&mut self.recv, &mut self.pair),
        }
    }

    /// Tests the send.
    pub(crate) fn test_send(&mut self) -> PlainSendTest
        requires { is_in_use self.old.send.state ≡ true }
        ensures shape { self.new.pair.shape ≡ self.old.pair.shape }
        ensures answer { Follows self.old self.new result
            (λ d. test_send_answer self.old.pair.shape d.record_) (tested_send self.old.pair.shape) }
    {
        let Ok(answer) = test_send_plain(&mut self.send, &mut self.pair) else {
            unreachable!();
        };
        answer
    }

    /// Tests the receive.
    pub(crate) fn test_recv(&mut self) -> RecvTest
        requires { is_in_use self.old.recv.state ≡ true }
        ensures shape { self.new.pair.shape ≡ self.old.pair.shape }
        ensures answer { Follows self.old self.new result
            (λ d. test_recv_answer self.old.pair.shape d.record_) (tested_recv self.old.pair.shape) }
    {
        let Ok(answer) = test_recv_plain(&mut self.recv, &mut self.pair) else {
            unreachable!();
        };
        answer
    }

    /// Gives up the request of a side, unless it is active.
    pub(crate) fn free(&mut self, side: Side) -> Result<(), FreeFault>
        requires { is_in_use (request_of side self.old).state ≡ true }
        ensures shape { self.new.pair.shape ≡ self.old.pair.shape }
        ensures answer { Follows self.old self.new result (λ d. free_answer (state_of side d)) (freed side) }
    {
        match side {
            Side::SendSide => self.send.free(),
            Side::RecvSide => self.recv.free(),
        }
    }

    /// Marks a send partition.
    pub(crate) fn ready(&mut self, round: u32, p: u32, bytes: &[u8]) -> Result<Marked, PlainRefusal>
        ensures shape { self.new.pair.shape ≡ self.old.pair.shape }
        ensures answer { Follows self.old self.new result
            (λ d. pready_answer self.old.pair.shape d.record_ round p bytes.now)
            (λ d. with_record d (after_pready self.old.pair.shape d.record_ round p bytes.now)) }
    {
        self.pair.pready(round, p, bytes)
    }

    /// Marks a range of send partitions.
    pub(crate) fn ready_range(
        &mut self,
        round: u32,
        low: u32,
        high: u32,
        bytes: &[u8],
    ) -> Result<Marks, PlainStop>
        ensures shape { self.new.pair.shape ≡ self.old.pair.shape }
        ensures answer { Follows self.old self.new result
            (λ d. pready_range_answer self.old.pair.shape d.record_ round low high bytes.now)
            (λ d. with_record d (after_pready_range self.old.pair.shape d.record_ round low high bytes.now)) }
    {
        self.pair.pready_range(round, low, high, bytes)
    }

    /// Marks the send partitions of a list.
    pub(crate) fn ready_list(
        &mut self,
        round: u32,
        parts: &[u32],
        bytes: &[u8],
    ) -> Result<Marks, PlainStop>
        ensures shape { self.new.pair.shape ≡ self.old.pair.shape }
        ensures answer { Follows self.old self.new result
            (λ d. pready_list_answer self.old.pair.shape d.record_ round parts.now bytes.now)
            (λ d. with_record d (after_pready_list self.old.pair.shape d.record_ round parts.now bytes.now)) }
    {
        self.pair.pready_list(round, parts, bytes)
    }

    /// Whether a receive partition has arrived.
    pub(crate) fn arrived(&self, q: u32) -> PlainLook
        ensures { (d : _) → Stands self.now d → result ≡ parrived_answer self.now.pair.shape d.record_ q }
    {
        self.pair.parrived(q)
    }

    /// Takes a receive partition, keeps what was taken, and tells its bytes.
    pub(crate) fn take(&mut self, alloc: Global, q: u32) -> Result<String, AllocError>
        ensures shape { self.new.pair.shape ≡ self.old.pair.shape }
        ensures answer { Tells self.old self.new result
            (λ d. take_text (take_answer self.old.pair.shape d.record_ q))
            (λ d. with_record d (after_take self.old.pair.shape d.record_ q)) }
    {
        match self.pair.take(q) {
            Ok(arrival) => {
                let text = texts::bytes(alloc, arrival.as_slice());
                self.kept[q as usize] = Some(arrival);
                text
            }
            Err(cause) => texts::untaken(alloc, cause),
        }
    }

    /// Gives back what is kept of a receive partition, and tells whether anything is.
    pub(crate) fn back(&mut self, q: u32) -> bool
        ensures shape { self.new.pair.shape ≡ self.old.pair.shape }
        ensures answer { Follows self.old self.new result
            (λ d. is_kept self.old.pair.shape d.record_ q)
            (λ d. with_record d (after_back self.old.pair.shape d.record_ q)) }
    {
        let index = q as usize;
        if index >= self.kept.len() {
            return false;
        }
        match self.kept[index].take() {
            Some(arrival) => {
                self.pair.give_back(arrival);
                true
            }
            None => false,
        }
    }

    /// Ends the pair, and tells how far it came.
    pub fn close(self) -> PlainClosed
        ensures { (d : _) → Stands self d → result ≡ closed_answer self.pair.shape d.record_ }
    {
        self.pair.close()
    }
}
