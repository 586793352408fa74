//! A request and its states.

ghost use Rattle.std.specs.Prelude.{◌≡◌, ◌↔◌, IfOk, IsErr, Ok};
ghost use Rattle.part_api.specs.States.{completed, free_answer, is_in_use, refusal, start_told, state_freed, state_started};

use crate::faults::{FreeFault, Freed, ReqFault};
use part_geometry::{Side, StartFault};
use std::marker::Model;

/// Where a request stands.
#[derive(Clone, Copy, Debug, PartialEq, Eq)]
pub enum ReqState {
    /// It has no partner yet.
    Unmatched,
    /// It is matched, and before its first round.
    Inactive,
    /// It is active in this round.
    Started { round: u32 },
    /// It is inactive after this round, which a test answered `Done`.
    Complete { round: u32 },
    /// It is freed, and can't be used any more.
    Freed,
}

/// A persistent request of a partitioned send or receive. Contracts see its side and its state.
#[derive(Drop)]
pub struct Request {
    side: Side,
    state: ReqState,
}

impl Model for Request {
    ghost use Rattle.part_api.specs.Req.{Req};

    ghost Value = { Req };

    ghost view = { λ r. record { side = r.side; state = r.state } };
}

impl Request {
    /// A request of this side that isn't matched yet.
    pub fn new(side: Side) -> Request
        ensures value { result ≡ record { side = side; state = ReqState.Unmatched } }
    {
        Request {
            side,
            state: ReqState::Unmatched,
        }
    }

    /// Where it stands.
    pub fn state(&self) -> ReqState
        ensures value { result ≡ self.now.state }
    {
        self.state
    }

    /// Which side it is.
    pub fn side(&self) -> Side
        ensures value { result ≡ self.now.side }
    {
        self.side
    }

    /// Notes that it has a partner: it is inactive, before its first round.
    pub fn matched(&mut self)
        requires unmatched { self.old.state ≡ ReqState.Unmatched }
        ensures state { self.new ≡ record self.old { state = ReqState.Inactive } }
    {
        self.state = ReqState::Inactive;
    }

    /// Frees it (`MPI_Request_free`, MPI 4.0, 3.7.3). Refused where it is freed already, isn't matched or is active;
    /// nothing changes then. The request of the other side stays as it is.
    pub fn free(&mut self) -> Result<(), FreeFault>
        ensures answer { result ≡ free_answer self.old.state }
        ensures state { self.new ≡ record self.old { state = state_freed result self.old.state } }
    {
        match self.state {
            ReqState::Freed => Err(FreeFault::Freed),
            ReqState::Unmatched => Err(FreeFault::Unmatched),
            ReqState::Started { round } => Err(FreeFault::Active { round }),
            ReqState::Inactive | ReqState::Complete { .. } => {
                self.state = ReqState::Freed;
                Ok(())
            }
        }
    }

    /// What the request itself refuses.
    pub(crate) fn refuse(&self) -> Result<(), ReqFault>
        ensures answer { result ≡ refusal self.now.state }
    {
        match self.state {
            ReqState::Freed => Err(ReqFault::Freed),
            ReqState::Unmatched => Err(ReqFault::Unmatched),
            _ => Ok(()),
        }
    }

    /// Whether it is matched, where it isn't freed.
    pub(crate) fn is_in_use(&self) -> Result<bool, Freed>
        ensures freed { IsErr result ↔ (self.now.state ≡ ReqState.Freed) }
        ensures in_use { IfOk result (λ yes. yes ≡ is_in_use self.now.state) }
    {
        match self.state {
            ReqState::Freed => Err(Freed),
            ReqState::Unmatched => Ok(false),
            _ => Ok(true),
        }
    }

    /// Notes what a start of its side answered.
    pub(crate) fn note_start(&mut self, answer: Result<u32, StartFault>) -> Result<u32, ReqFault>
        ensures told { result ≡ start_told answer }
        ensures state { self.new ≡ record self.old { state = state_started result self.old.state } }
    {
        match answer {
            Ok(round) => {
                self.state = ReqState::Started { round };
                Ok(round)
            }
            Err(StartFault::AlreadyActive { round }) => Err(ReqFault::AlreadyActive { round }),
            Err(StartFault::RoundsSpent) => Err(ReqFault::RoundsSpent),
        }
    }

    /// Notes that a test of its side answered `Done`.
    pub(crate) fn complete(&mut self)
        ensures state { self.new ≡ record self.old { state = completed self.old.state } }
    {
        if let ReqState::Started { round } = self.state {
            self.state = ReqState::Complete { round };
        }
    }
}
