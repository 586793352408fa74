//! The steps of a pair, by event.

ghost use Rattle.std.specs.Prelude.{◌≡◌, IfOk, IfErr};
ghost use Rattle.pair_core.specs.Core.{Core};
ghost use Rattle.pair_core.specs.State.{Plain};
ghost use Rattle.pair_core.specs.Events.{Becomes};

use crate::event::{Applied, Event};
use crate::state::CoreState;
use std::alloc::{AllocError, Global};

impl CoreState {
    ghost use Rattle.pair_core.specs.Shows.{Shows, geometry_of};

    /// Makes the step of an event, if it is allowed. The result says whether it was, and which piece went out or which
    /// partition was taken by it. Where it isn't allowed, or memory is wanting, the state is as before.
    pub fn apply(&mut self, alloc: Global, event: &Event) -> Result<Applied, AllocError>
        ensures geometry { geometry_of self.new ≡ geometry_of self.old }
        ensures becomes { IfOk result (λ r. (core : Core Plain) → Shows self.old core
            → Becomes (geometry_of self.old) event.now (Shows self.new) core r) }
        ensures memory { IfErr result (λ _. (core : Core Plain) → Shows self.old core → Shows self.new core) }
    {
        match event.kind {
            1 => Ok(self.store_piece(event)),
            2 => Ok(self.store_claim(event)),
            3 => self.load_claim(alloc, event),
            4 => self.load_piece(alloc, event),
            5 => Ok(self.load_release(event)),
            6 => Ok(self.shut_claim(event)),
            7 => self.try_claim(alloc, event),
            8 => self.lay_piece(event),
            9 => Ok(self.store_return(event)),
            10 => Ok(self.store_take(event)),
            11 => self.take_part(event),
            12 => Ok(self.return_part(event)),
            13 => Ok(self.store_release(event)),
            _ => Ok(Applied::NotAllowed),
        }
    }
}
