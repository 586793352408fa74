//! A receive end that keeps what was taken until it is given back.

ghost use Rattle.std.specs.Prelude.{◌≡◌, length};
ghost use Rattle.std.specs.List.{All};
ghost use Rattle.std.specs.Prelude.{None};
ghost use Rattle.pair_rule.specs.Seats.{IsOf};

use crate::calls::text;
use pair_rule::{AnyBytes, Note, Pair};
use part_geometry::{RecvTest, StartFault};
use part_recv::{Arrival, EndLook, RecvEnd, TakeRefusal};
use std::marker::Model;
use std::process::Abort;

/// A receive end, and what is kept of each receive partition.
#[derive(Drop)]
pub(crate) struct Receiving {
    end: RecvEnd<AnyBytes>,
    kept: Vec<Option<Arrival<AnyBytes>>>,
}

impl Model for Receiving {
    ghost use Rattle.part_recv.specs.Receiving.{End};
    ghost use Rattle.running_tests.specs.Held.{AreHeld};

    ghost Value = { End };

    ghost view = { λ r. r.end };

    ghost invariant = { λ r. AreHeld r.kept.items r.end };
}

/// No arrival for each of `count` partitions.
fn no_arrivals<R: Abort + AllocGlobal>(rt: &R, count: usize) -> Vec<Option<Arrival<AnyBytes>>>
    ensures { All (λ slot. slot ≡ None) result.items }
{
    let mut kept = Vec::new(rt.alloc());
    for _i in 0..count {
        kept.push(None).expect(rt, "enough memory");
    }
    kept
}

/// What an arrival says: its round, its partition and its bytes.
fn told<R: Abort + AllocGlobal>(rt: &R, arrival: &Arrival<AnyBytes>) -> String {
    let mut bytes = vec![in rt.alloc(); 0u8; arrival.len() as usize].expect(rt, "enough memory");
    arrival.copy_into(&mut bytes);
    text(rt, (arrival.round(), arrival.partition(), bytes))
}

impl Receiving {
    /// Nothing is kept.
    pub(crate) fn of<R: Abort + AllocGlobal>(
        rt: &R,
        end: RecvEnd<AnyBytes>,
        parts: u32,
    ) -> Receiving
        ensures { result ≡ end }
    {
        Receiving {
            end,
            kept: no_arrivals(rt, parts as usize),
        }
    }

    /// The end alone.
    pub(crate) fn into_end(self) -> RecvEnd<AnyBytes>
        ensures { result ≡ self }
    {
        let Receiving { end, kept: _ } = self;
        end
    }

    /// Starts a round.
    pub(crate) fn start<R: Abort + AllocGlobal>(
        &mut self,
        rt: &R,
        pair: &Pair<AnyBytes>,
    ) -> Result<u32, StartFault>
        requires { IsOf self.old.table self.old.view pair.now }
        ensures { IsOf self.new.table self.new.view pair.now }
    {
        if self.end.is_active() {
            return self.end.start(pair);
        }
        // Nothing of a round that is over is out.
        self.kept = no_arrivals(rt, self.kept.len());
        self.end.start(pair)
    }

    /// Tests the round.
    pub(crate) fn test(&mut self, pair: &Pair<AnyBytes>) -> RecvTest
        requires { IsOf self.old.table self.old.view pair.now }
        ensures { IsOf self.new.table self.new.view pair.now }
    {
        self.end.test(pair)
    }

    /// Looks at a partition.
    pub(crate) fn look(&mut self, pair: &Pair<AnyBytes>, q: u32) -> EndLook
        requires { IsOf self.old.table self.old.view pair.now }
        ensures { IsOf self.new.table self.new.view pair.now }
    {
        self.end.parrived(pair, q)
    }

    /// Learns a note.
    pub(crate) fn learn(&mut self, pair: &Pair<AnyBytes>, note: Note<AnyBytes>)
        requires end { IsOf self.old.table self.old.view pair.now }
        requires note { note.table ≡ self.old.table }
        ensures { IsOf self.new.table self.new.view pair.now }
    {
        self.end.learn(pair, note);
    }

    /// Takes a partition and keeps it; its round, its number and its bytes, as a text.
    pub(crate) fn take<R: Abort + AllocGlobal>(
        &mut self,
        rt: &R,
        pair: &Pair<AnyBytes>,
        q: u32,
    ) -> String
        requires { IsOf self.old.table self.old.view pair.now }
        ensures { IsOf self.new.table self.new.view pair.now }
    {
        match self.end.take(pair, q) {
            Ok(arrival) => {
                let told = told(rt, &arrival);
                let index = q as usize;
                if index >= self.kept.len() {
                    panic!(rt; "there is no place for it");
                }
                self.kept[index] = Some(arrival);
                told
            }
            Err(refusal) => text(rt, refusal),
        }
    }

    /// Gives a partition back, and answers whether it was kept.
    pub(crate) fn back(&mut self, pair: &Pair<AnyBytes>, q: u32) -> bool
        requires { IsOf self.old.table self.old.view pair.now }
        ensures { IsOf self.new.table self.new.view pair.now }
    {
        let index = q as usize;
        if index >= self.kept.len() {
            return false;
        }
        match self.kept[index].take() {
            Some(arrival) => {
                self.end.give_back(pair, arrival);
                true
            }
            None => false,
        }
    }
    /// Drops what is kept of a partition.
    pub(crate) fn forget(&mut self, q: u32)
        ensures { self.new ≡ self.old }
    {
        let index = q as usize;
        if index < self.kept.len() {
            self.kept[index] = None;
        }
    }
}
