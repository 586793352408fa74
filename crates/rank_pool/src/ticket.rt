//! What goes through the queue: a job with its numbers, in a block of memory of its own.
ghost use Rattle.std.specs.Prelude.{◌≡◌, ◌∷◌, ◌++◌, [], ◌<◌, ◌+◌, ◌-◌, ◌^◌, min, if◌then◌else◌, length};

use crate::job::{Gate, Job, JobTurn};
use std::collections::LinkedList;
use std::marker::Model;
use std::snapshot::Snapshot;

/// A job with its place in the list, and the number of its next turn. Proofs also see the values that it belongs to.
#[derive(Drop)]
pub struct Ticket<J: Job> {
    pub number: u32,
    pub turn: u64,
    pub job: J,
    pub home: Snapshot<J::Shared>,
}

impl<J: Job> Ticket<J> {
    /// Gives the job its next turn, behind the gate.
    fn take_turn<G: Gate>(&mut self, shared: &J::Shared, gate: &G) -> JobTurn
        requires { J.belongs self.old.job shared.now }
        ensures same { (self.new.number ≡ self.old.number) × (self.new.home ≡ self.old.home) }
        ensures turn { self.new.turn ≡ min (self.old.turn + 1) (2 ^ 64 - 1) }
        ensures belongs { J.belongs self.new.job shared.now }
        ensures which { J.which self.new.job ≡ J.which self.old.job }
        ensures over { result ≡ (if J.over self.new.job then JobTurn.Over else JobTurn.More) }
    {
        gate.before(self.number, self.turn);
        self.turn = self.turn.saturating_add(1);
        self.job.turn(shared)
    }
}

/// A ticket in a block of its own: it is handed on by its pointer, and chained to others without memory. Contracts
/// see it as the ticket.
#[derive(Drop)]
pub struct Parcel<J: Job> {
    block: LinkedList<Ticket<J>>,
    shown: Snapshot<Ticket<J>>,
}

impl<J: Job> Model for Parcel<J> {
    ghost use Rattle.std.specs.Prelude.{◌≡◌, ◌∷◌, []};
    ghost use Rattle.rank_pool.specs.declared.ticket.Ticket.{Ticket};

    ghost Value = { Ticket J J.Shared };

    ghost view = { λ p. p.shown.value };

    ghost invariant = { λ p. p.block ≡ p.shown.value ∷ [] };
}

impl<J: Job> Parcel<J> {
    /// The first ticket of a row, in its block.
    pub(crate) fn unchain(row: &mut LinkedList<Ticket<J>>) -> Parcel<J>
        requires some { 0 < length row.old }
        ensures { row.old ≡ result ∷ row.new }
    {
        let Ok(mut rest) = row.split_off(1) else {
            unreachable!()
        };
        std::mem::swap(row, &mut rest);
        wrap(rest)
    }

    /// Puts the ticket behind a row.
    pub(crate) fn chain(self, row: &mut LinkedList<Ticket<J>>)
        requires short { length row.old < 2 ^ 62 }
        ensures { row.new ≡ row.old ++ self ∷ [] }
    {
        let Parcel {
            mut block,
            shown: _,
        } = self;
        let Ok(()) = row.append(&mut block) else {
            unreachable!()
        };
    }

    /// Gives the job its next turn, behind the gate.
    pub(crate) fn take_turn<G: Gate>(&mut self, shared: &J::Shared, gate: &G) -> JobTurn
        requires { J.belongs self.old.job shared.now }
        ensures same { (self.new.number ≡ self.old.number) × (self.new.home ≡ self.old.home) }
        ensures turn { self.new.turn ≡ min (self.old.turn + 1) (2 ^ 64 - 1) }
        ensures belongs { J.belongs self.new.job shared.now }
        ensures which { J.which self.new.job ≡ J.which self.old.job }
        ensures over { result ≡ (if J.over self.new.job then JobTurn.Over else JobTurn.More) }
    {
        match self.block.front_mut() {
            Some(ticket) => {
                let answer = ticket.take_turn(shared, gate);
                self.shown = Snapshot::of(ticket);
                answer
            }
            None => unreachable!(),
        }
    }

    /// Gives the job its next turns, behind the gate, until it is over or has had as many as `count`, and at least one.
    pub(crate) fn take_turns<G: Gate>(
        &mut self,
        count: u32,
        shared: &J::Shared,
        gate: &G,
    ) -> JobTurn
        requires { J.belongs self.old.job shared.now }
        ensures same { (self.new.number ≡ self.old.number) × (self.new.home ≡ self.old.home) }
        ensures belongs { J.belongs self.new.job shared.now }
        ensures which { J.which self.new.job ≡ J.which self.old.job }
        ensures over { result ≡ (if J.over self.new.job then JobTurn.Over else JobTurn.More) }
    {
        for _ in 1..count {
            match self.take_turn(shared, gate) {
                JobTurn::More => {}
                JobTurn::Over => return JobTurn::Over,
            }
        }
        self.take_turn(shared, gate)
    }
}

fn wrap<J: Job>(block: LinkedList<Ticket<J>>) -> Parcel<J>
    requires { length block ≡ 1 }
    ensures { block ≡ result ∷ [] }
{
    let shown = match block.front() {
        Some(ticket) => Snapshot::of(ticket),
        None => unreachable!(),
    };
    Parcel { block, shown }
}
