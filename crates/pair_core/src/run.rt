//! Steps from a state that stays as it is, and lists of steps.

ghost use Rattle.std.specs.Prelude.{◌≡◌, IfOk};
ghost use Rattle.pair_core.specs.Core.{Core};
ghost use Rattle.pair_core.specs.State.{Plain};
ghost use Rattle.pair_core.specs.Shows.{Shows, geometry_of};
ghost use Rattle.pair_core.specs.Replaying.{Replays, Steps};

use crate::event::{Applied, Event};
use crate::outcome::{Replay, Step};
use crate::state::CoreState;
use part_geometry::Geometry;
use std::alloc::{AllocError, Global};

/// The state after the step of an event, if the step is allowed. It copies the state; `CoreState::apply` changes it in
/// place.
pub fn step(alloc: Global, state: &CoreState, event: &Event) -> Result<Step, AllocError>
    ensures { IfOk result (λ r. (core : Core Plain) → Shows state.now core
        → Steps (geometry_of state.now) event.now core r) }
{
    let mut next = state.copy(alloc)?;
    match next.apply(alloc, event)? {
        Applied::Done { .. } => Ok(Step::Next { state: next }),
        Applied::NotAllowed => Ok(Step::NotAllowed),
    }
}

/// Makes the steps of some events one after the other, from the state before the first step on, up to the first that
/// isn't allowed.
pub fn replay(alloc: Global, geometry: Geometry, events: &[Event]) -> Result<Replay, AllocError>
    ensures { IfOk result (λ r. Replays geometry events.now r) }
{
    let mut state = CoreState::start(alloc, geometry)?;
    for (at, event) in events.iter().enumerate() {
        match state.apply(alloc, event)? {
            Applied::Done { .. } => {}
            Applied::NotAllowed => return Ok(Replay::Stopped { at }),
        }
    }
    Ok(Replay::Ran { state })
}
