//! The records of pairs that were closed.

ghost use Rattle.std.specs.Prelude.{◌≡◌, ◌+◌, ◌≤◌, [], ◌∷◌, ◌++◌, length, OnOk};
ghost use Rattle.std.specs.Slice.{IsItemAt};

use pair_rule::Closed;
use std::alloc::{AllocError, Global};
use std::marker::Model;

/// A list of the records that closed pairs leave, in the order in which they were added. Contracts see the records, and
/// for how many more there is room without taking memory.
#[derive(Drop)]
pub struct Census {
    records: Vec<Closed>,
}

impl Model for Census {
    ghost use Rattle.part_api.specs.Records.{Records};
    ghost use Rattle.std.specs.Prelude.{◌-◌, vec_len, vec_capacity};

    ghost Value = { Records };

    ghost view = { λ c. record { records = c.records.items; spare = vec_capacity c.records - vec_len c.records } };
}

impl Census {
    /// A list with no records. It takes no memory.
    pub fn new(alloc: Global) -> Census
        ensures { result.records ≡ [] }
    {
        Census {
            records: Vec::new(alloc),
        }
    }

    /// Makes room for `n` more records. Refused where there is no memory; the records stay as they are in either case.
    pub fn reserve(&mut self, n: u32) -> Result<(), AllocError>
        ensures records { self.new.records ≡ self.old.records }
        ensures spare { OnOk result (n ≤ self.new.spare) }
    {
        self.records.reserve(n as usize)
    }

    /// Adds a record at the end, for which there is room. It takes no memory.
    pub fn add(&mut self, closed: Closed)
        requires room { 1 ≤ self.old.spare }
        ensures records { self.new.records ≡ self.old.records ++ closed ∷ [] }
        ensures spare { self.old.spare ≤ self.new.spare + 1 }
    {
        self.records.push_reserved(closed);
    }

    /// How many records there are.
    pub fn len(&self) -> usize
        ensures { result ≡ length self.now.records }
    {
        self.records.len()
    }

    /// Record `i`, counted from 0, where there are so many.
    pub fn get(&self, i: usize) -> Option<&Closed>
        ensures { IsItemAt self.now.records i result }
    {
        self.records.get(i)
    }
}
