//! What comes of events.

use crate::state::CoreState;

/// What comes of an event.
#[derive(Drop)]
pub enum Step {
    /// It is allowed, and leads to this state.
    Next {
        /// The state after it.
        state: CoreState,
    },
    /// It isn't allowed.
    NotAllowed,
}

/// What comes of a list of events.
#[derive(Drop)]
pub enum Replay {
    /// Each of them was allowed in turn, and they lead to this state.
    Ran {
        /// The state after the last of them.
        state: CoreState,
    },
    /// The first that isn't allowed.
    Stopped {
        /// Its place in the list, from 0 on.
        at: usize,
    },
}
