//! A shelf in memory, of which chosen reads fail.

ghost use Rattle.std.specs.Prelude.{◌≡◌, ◌≤◌, ◌↔◌, None, Some, Err, OnOk, OnErr, IfOk, vec_len};
ghost use Rattle.std.specs.List.{Contains};
ghost use Rattle.part_io.specs.Causes.{Next};
ghost use Rattle.part_io.specs.Shelf.{Reads, HasReadCause};
ghost use Rattle.part_io.specs.SteadyShelf.{Puts};

use crate::{ReadAnswer, Shelf, SteadyShelf};
use std::alloc::{AllocError, Global};

/// A shelf in memory, which tells its files. Its reads are numbered from 0, and those of a list fail.
#[derive(Drop)]
pub struct MemShelf {
    shelf: SteadyShelf,
    failing: Vec<u32>,
    reads: u32,
    faults: u64,
}

impl MemShelf {
    ghost use Rattle.part_io.specs.MemShelf.{held, failing_reads, read_count, shelf_faults};

    /// A shelf with no files, whose reads of these numbers fail.
    pub fn new(alloc: Global, failing: Vec<u32>) -> MemShelf
        ensures files { (name : _) → held result name ≡ None }
        ensures failing { failing_reads result ≡ failing.items }
        ensures reads { read_count result ≡ 0 }
        ensures faults { shelf_faults result ≡ 0 }
    {
        MemShelf {
            shelf: SteadyShelf::new(alloc),
            failing,
            reads: 0,
            faults: 0,
        }
    }

    /// Adds a file, or puts these bytes in the place of those of that name.
    ///
    /// Where there is no memory, the files stay as they were. It is no read.
    pub fn put(&mut self, name: &str, bytes: &[u8]) -> Result<(), AllocError>
        ensures ok { OnOk result (Puts (held self.old) (held self.new) name.now bytes.now) }
        ensures err { OnErr result (held self.new ≡ held self.old) }
        ensures failing { failing_reads self.new ≡ failing_reads self.old }
        ensures reads { read_count self.new ≡ read_count self.old }
        ensures faults { shelf_faults self.new ≡ shelf_faults self.old }
    {
        self.shelf.put(name, bytes)
    }

    /// How many reads there were. The count stops at the last of a `u32`, which is then the number of each further
    /// read.
    pub fn reads(&self) -> u32
        ensures { result ≡ read_count self.now }
    {
        self.reads
    }

    /// How many reads have failed. The count stops at the last of a `u64`.
    pub fn faults(&self) -> u64
        ensures { result ≡ shelf_faults self.now }
    {
        self.faults
    }
}

impl Shelf for MemShelf {
    ghost use Rattle.part_io.specs.MemShelf.{held, failing_reads, read_count, shelf_faults};

    ghost files = { λ shelf. Some (held shelf) };

    ghost faults = { shelf_faults };

    /// Reads the file, or fails where the number of this read is in the list.
    fn read(&mut self, alloc: Global, name: &str, limit: u32) -> Result<Vec<u8>, ReadAnswer>
        // What any shelf does.
        ensures answer { Reads (Some (held self.old)) name.now limit result }
        ensures within { IfOk result (λ bytes. vec_len bytes ≤ limit) }
        ensures files { Some (held self.new) ≡ Some (held self.old) }
        ensures cause { HasReadCause (shelf_faults self.old) (shelf_faults self.new) result }

        // What this one does.
        ensures fails { (result ≡ Err ReadAnswer.Failed) ↔ Contains (failing_reads self.old) (read_count self.old) }
        ensures failing { failing_reads self.new ≡ failing_reads self.old }
        ensures reads { Next u32.MAX (read_count self.old) (read_count self.new) }
    {
        let number = self.reads;
        self.reads = self.reads.saturating_add(1);
        if self.failing.contains(&number) {
            self.faults = self.faults.saturating_add(1);
            return Err(ReadAnswer::Failed);
        }
        self.shelf.read(alloc, name, limit)
    }
}
