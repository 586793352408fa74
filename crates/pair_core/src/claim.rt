//! The claims of markers.

ghost use Rattle.std.specs.Prelude.{◌≡◌, ◌↔◌, ℕ, ◌+◌, ◌<◌, ◌≤◌, IsTrue, IfOk, IfErr, length};
ghost use Rattle.pair_core.specs.Core.{Core};
ghost use Rattle.pair_core.specs.Moves.{MayClaim};
ghost use Rattle.pair_core.specs.State.{Plain, IsAt};
ghost use Rattle.pair_core.specs.Events.{Becomes, quiet};

use crate::bits::{SHUT, bit_of, with_bit};
use crate::event::{Applied, Event};
use crate::seat::{Pick, Spot};
use crate::state::CoreState;
use crate::view::Pending;
use std::alloc::{AllocError, Global};
use std::collections::LinkedList;

impl CoreState {
    ghost use Rattle.pair_core.specs.Shows.{Shows};
    ghost use Rattle.pair_core.specs.Steps.{claims};

    /// Whether what a seat has seen lets it claim a partition.
    fn may_claim(&self, at: usize, p: u32) -> bool
        requires at { at < length self.now.seats.items }
        requires part { p < self.now.tables.send_parts }
        ensures { (core : Core Plain) (n : ℕ) → Shows self.now core → IsAt self.now.seats.items at n
            → IsTrue result ↔ MayClaim (core.seen n) p }
    {
        let word = self.seen(at, (p / 32) as usize);
        if bit_of(word, SHUT) != 0 {
            return false;
        }
        bit_of(word, p % 32) == 0
    }

    /// A seat claims a partition of the sender's round, whose claim word is `word`.
    fn claim(&mut self, alloc: Global, at: usize, seat: u32, p: u32) -> Result<(), AllocError>
        requires at { IsAt self.old.seats.items at seat }
        requires part { p < self.old.tables.send_parts }
        ensures tables { self.new.tables ≡ self.old.tables }
        ensures shows { IfOk result (λ _. (core : Core Plain) → Shows self.old core
            → Shows self.new (claims self.old.tables seat p tt core)) }
        ensures memory { IfErr result (λ _. (core : Core Plain) → Shows self.old core → Shows self.new core) }
    {
        let round = self.send.round;
        let index = (p / 32) as usize;
        let word = self.word(index);
        self.add_mark(at, round, p)?;
        let pending = Pending {
            round,
            partition: p,
            laid: LinkedList::new(alloc),
        };
        self.set_pending(at, Some(pending));
        let place = self.tables.place(round);
        self.put_slots(place, Pick::Sent { partition: p }, Spot::Lent { seat });
        self.write(at, index, with_bit(word, p % 32));
        Ok(())
    }

    /// A marker tries to claim a partition: it wins where the word is the one that it has last seen.
    pub(crate) fn try_claim(&mut self, alloc: Global, event: &Event) -> Result<Applied, AllocError>
        requires { event.now.kind ≡ 7 }
        ensures tables { self.new.tables ≡ self.old.tables }
        ensures becomes { IfOk result (λ r. (core : Core Plain) → Shows self.old core
            → Becomes self.old.tables event.now (Shows self.new) core r) }
        ensures memory { IfErr result (λ _. (core : Core Plain) → Shows self.old core → Shows self.new core) }
    {
        let p = event.partition;
        let index = (p / 32) as usize;
        if event.seat < 2 || event.seat % 2 != 0 {
            return Ok(Applied::NotAllowed);
        }
        if p >= self.tables.geometry().send_parts() {
            return Ok(Applied::NotAllowed);
        }
        if event.word as usize != index {
            return Ok(Applied::NotAllowed);
        }
        let Some(at) = self.find(event.seat) else {
            return Ok(Applied::NotAllowed);
        };
        if !self.is_free(at) {
            return Ok(Applied::NotAllowed);
        }
        if !self.may_claim(at, p) {
            return Ok(Applied::NotAllowed);
        }
        if self.word(index) != self.seen(at, index) {
            self.look(at, index);
            return Ok(Applied::quietly());
        }
        self.claim(alloc, at, event.seat, p)?;
        Ok(Applied::quietly())
    }
}
