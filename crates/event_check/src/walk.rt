//! A pair's state, moved on event by event.

ghost use Rattle.std.specs.Prelude.{◌≡◌, IfOk};
ghost use Rattle.pair_core.specs.Core.{Core};
ghost use Rattle.pair_core.specs.Moves.{first_state};
ghost use Rattle.pair_core.specs.State.{Plain};

use crate::fault::WalkFault;
use pair_core::{CoreState, Event};
use part_geometry::Geometry;
use std::alloc::{AllocError, Global};

/// What an event did that was made.
#[derive(Clone, Copy, Debug, PartialEq, Eq)]
pub struct Applied {
    /// The round and the number of the piece that went out by it, if one did.
    pub out: Option<(u32, u32)>,
    /// The round and the number of the receive partition that was taken by it, if one was.
    pub take: Option<(u32, u32)>,
}

/// The state of a pair after some events. Contracts see the core that it stands for.
#[derive(Drop)]
pub struct Walk {
    alloc: Global,
    state: CoreState,
}

impl Walk {
    ghost use Rattle.event_check.specs.Walking.{StandsFor, Walks, geometry_of};

    /// Before the first event of a pair: round 0 counts as sent, taken, given back and released. The only refusal is
    /// want of memory.
    pub fn new(alloc: Global, geometry: Geometry) -> Result<Walk, AllocError>
        ensures first { IfOk result (λ walk. StandsFor walk (first_state geometry)) }
        ensures geometry { IfOk result (λ walk. geometry_of walk ≡ geometry) }
    {
        let state = CoreState::start(alloc, geometry)?;
        Ok(Walk { alloc, state })
    }

    /// Makes an event, and says which piece went out by it or which partition was taken. `NotAllowed` comes exactly
    /// where no move that the event is, is allowed. After a refusal the walk stands for the same core.
    pub fn apply(&mut self, event: &Event) -> Result<Applied, WalkFault>
        ensures geometry { geometry_of self.new ≡ geometry_of self.old }
        ensures walks { (core : Core Plain) → StandsFor self.old core
            → Walks (geometry_of self.old) event.now (StandsFor self.new) core result }
    {
        match self.state.apply(self.alloc, event) {
            Ok(pair_core::Applied::Done { out, take }) => Ok(Applied { out, take }),
            Ok(pair_core::Applied::NotAllowed) => Err(WalkFault::NotAllowed),
            Err(_) => Err(WalkFault::NoMemory),
        }
    }
}
