//! The loads of claim and piece words, which any seat may make.

ghost use Rattle.std.specs.Prelude.{◌≡◌, ◌↔◌, ℕ, ◌+◌, ◌<◌, ◌≤◌, IsTrue, IfOk, IfErr, MatchResult, length};
ghost use Rattle.pair_core.specs.Names.{Piece, number};
ghost use Rattle.pair_core.specs.Core.{Core};
ghost use Rattle.pair_core.specs.State.{Plain};
ghost use Rattle.pair_core.specs.Events.{Becomes};

use crate::event::{Applied, Event};
use crate::state::CoreState;
use std::alloc::{AllocError, Global};

impl CoreState {
    ghost use Rattle.pair_core.specs.Shows.{Shows};

    /// A seat loads a claim word.
    pub(crate) fn load_claim(&mut self, alloc: Global, event: &Event) -> Result<Applied, AllocError>
        requires { event.now.kind ≡ 3 }
        ensures tables { self.new.tables ≡ self.old.tables }
        ensures becomes { IfOk result (λ r. (core : Core Plain) → Shows self.old core
            → Becomes self.old.tables event.now (Shows self.new) core r) }
        ensures memory { IfErr result (λ _. (core : Core Plain) → Shows self.old core → Shows self.new core) }
    {
        let c = event.word as usize;
        if c >= self.tables.claim_words() {
            return Ok(Applied::NotAllowed);
        }
        let at = self.enter(alloc, event.seat)?;
        self.look(at, c);
        Ok(Applied::quietly())
    }

    /// A seat loads a piece word.
    pub(crate) fn load_piece(&mut self, alloc: Global, event: &Event) -> Result<Applied, AllocError>
        requires { event.now.kind ≡ 4 }
        ensures tables { self.new.tables ≡ self.old.tables }
        ensures becomes { IfOk result (λ r. (core : Core Plain) → Shows self.old core
            → Becomes self.old.tables event.now (Shows self.new) core r) }
        ensures memory { IfErr result (λ _. (core : Core Plain) → Shows self.old core → Shows self.new core) }
    {
        let word = event.word as usize;
        if !self.tables.is_piece(word) {
            return Ok(Applied::NotAllowed);
        }
        let at = self.enter(alloc, event.seat)?;
        self.look(at, word);
        Ok(Applied::quietly())
    }
}
