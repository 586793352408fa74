#![tactic(auto)]

ghost use Rattle.std.specs.Prelude.{IfOk, IfSome, length};
ghost use Rattle.pair_core.specs.Shows.{Shows};
ghost use Rattle.pair_core.specs.Replaying.{LeadsTo};

use pair_core::{CoreState, Event, Replay, replay};
use part_geometry::Geometry;
use std::alloc::{AllocError, Global};

/// The state that some events lead to, if each is allowed in turn.
pub fn end_of(
    alloc: Global,
    geometry: Geometry,
    events: &[Event],
) -> Result<Option<CoreState>, AllocError>
    ensures { IfOk result (λ end. IfSome end (λ state. LeadsTo geometry events.now (length events.now) (Shows state))) }
{
    match replay(alloc, geometry, events)? {
        Replay::Ran { state } => Ok(Some(state)),
        Replay::Stopped { .. } => Ok(None),
    }
}
