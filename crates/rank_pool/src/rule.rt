//! The rule that the queue goes by: each job stands in the queue, with one worker or among the finished ones.

use crate::job::Job;
use crate::ticket::Parcel;
use crossbeam_queue::protocol::{Join, Lesson, Outcome, Protocol, Split};
use crossbeam_queue::{Pass, RuledArrayQueue};
use std::collections::LinkedList;
use std::marker::PhantomData;

/// What a pass knows: its parts of the right to know the whole, the jobs that were entered, by number, and the numbers
/// that it holds and has finished. No value of it is made.
pub struct Known<O> {
    pub parts: u64,
    pub entered: LinkedList<O>,
    pub held: LinkedList<u32>,
    pub done: LinkedList<u32>,
}

/// What is remembered of a job that was entered: which it is, and to which shared values it belongs.
pub type Origin<J> = (u64, <J as Job>::Shared);

/// The rule itself.
pub struct Shares<J: Job> {
    of: PhantomData<J>,
}

impl<J: Job> Protocol<Parcel<J>, Known<Origin<J>>> for Shares<J> {
    ghost use Rattle.std.specs.Prelude.{[]};
    ghost use Rattle.rank_pool.specs.Places.{knows, every, InOnePlace};

    ghost holds = { InOnePlace every (λ x. x.number) (λ x. (J.which x.job, x.home.value))
        (λ x. J.belongs x.job x.home.value) };

    ghost first = { knows every [] [] [] };
}

/// A job is entered under the next number.
pub struct Enters<J: Job> {
    of: PhantomData<J>,
}

impl<J: Job> Outcome<Parcel<J>, Known<Origin<J>>> for Enters<J> {
    ghost use Rattle.std.specs.Prelude.{◌≡◌, ◌∷◌, ◌++◌, []};
    ghost use Rattle.rank_pool.specs.Places.{knows};

    ghost then = { λ v x w. w ≡ knows v.parts (v.entered ++ (J.which x.job, x.home.value) ∷ []) v.held v.done };
}

/// A job that is held goes back.
pub struct Puts;

impl<J: Job> Outcome<Parcel<J>, Known<Origin<J>>> for Puts {
    ghost use Rattle.std.specs.Prelude.{◌≡◌, []};
    ghost use Rattle.rank_pool.specs.Places.{knows};

    ghost then = { λ v x w. w ≡ knows v.parts v.entered [] v.done };
}

/// A job is taken. It was entered under its number.
pub struct Takes;

impl<J: Job> Outcome<Parcel<J>, Known<Origin<J>>> for Takes {
    ghost use Rattle.std.specs.Prelude.{◌≡◌, ◌∷◌};
    ghost use mathlib.Core.Option.{some};
    ghost use lib.ListN.{get_elem?};
    ghost use Rattle.rank_pool.specs.Places.{knows};

    ghost then = { λ v x w. (w ≡ knows v.parts v.entered (x.number ∷ v.held) v.done)
        × (get_elem? v.entered x.number ≡ some (J.which x.job, x.home.value)) × J.belongs x.job x.home.value };
}

/// The jobs that are held are finished.
pub struct Notes;

impl<O> Split<Known<O>> for Notes {
    ghost use Rattle.std.specs.Prelude.{◌++◌, []};
    ghost use Rattle.rank_pool.specs.Places.{knows};

    ghost left = { λ v. knows v.parts v.entered [] (v.done ++ v.held) };

    ghost right = { λ v. knows 0 [] [] [] };
}

/// A pass for a worker.
pub struct Deals;

impl<O> Split<Known<O>> for Deals {
    ghost use Rattle.std.specs.Prelude.{◌-◌, []};
    ghost use Rattle.rank_pool.specs.Places.{knows};

    ghost left = { λ v. knows (v.parts - 1) v.entered v.held v.done };

    ghost right = { λ v. knows 1 v.entered [] [] };
}

/// A worker's pass comes back.
pub struct Gathers;

impl<O> Join<Known<O>> for Gathers {
    ghost use Rattle.std.specs.Prelude.{◌+◌, ◌++◌, []};
    ghost use Rattle.rank_pool.specs.Places.{knows};

    ghost both = { λ v w. knows (v.parts + w.parts) v.entered (v.held ++ w.held) (v.done ++ w.done) };

    ghost spent = { knows 0 [] [] [] };
}

/// What a worker holds and has finished is no more than was entered.
pub struct Room;

impl<T, O> Lesson<T, Known<O>> for Room {
    ghost use Rattle.std.specs.Prelude.{◌+◌, ◌≤◌, length};

    ghost fact = { λ v items. length v.held + length v.done ≤ length v.entered };
}

/// What the pass with every part knows of all: each job is in the queue, held or finished, once.
pub struct Whole<J: Job> {
    of: PhantomData<J>,
}

impl<J: Job> Lesson<Parcel<J>, Known<Origin<J>>> for Whole<J> {
    ghost use Rattle.std.specs.Prelude.{◌≡◌, ◌+◌, ℕ, map, length};
    ghost use Rattle.rank_pool.specs.Places.{weigh, below};

    ghost fact = { λ v items. (h : ℕ → ℕ)
        → weigh h (map (λ x. x.number) items) + weigh h v.held + weigh h v.done ≡ below h (length v.entered) };
}

/// The queue of jobs.
pub type JobQueue<J> = RuledArrayQueue<Parcel<J>, Known<Origin<J>>, Shares<J>>;

/// What one worker carries into each call of the queue. It has no bytes.
pub type JobPass<J> = Pass<Parcel<J>, Known<Origin<J>>>;
