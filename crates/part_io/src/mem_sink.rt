//! A sink in memory, of which chosen writes fail.

ghost use Rattle.std.specs.Prelude.{◌≡◌, ◌≤◌, ◌↔◌, ◌++◌, ◌-◌, [], Some, length, take, IfOk, IsOk};
ghost use Rattle.std.specs.List.{Contains};
ghost use Rattle.part_io.specs.Causes.{HasCause, Next};
ghost use Rattle.part_io.specs.Sink.{Writes};

use crate::{Failed, Sink, SteadySink};
use std::alloc::{AllocError, Global};

/// A sink in memory, which tells what was written. It takes its room when it is made. Its writes are numbered from 0,
/// and those of a list fail, as does a piece that does not fit.
#[derive(Drop)]
pub struct MemSink {
    sink: SteadySink,
    failing: Vec<u32>,
    writes: u32,
    faults: u64,
}

impl MemSink {
    ghost use Rattle.part_io.specs.MemSink.{mem_bytes, mem_room, failing_writes, write_count, mem_faults};

    /// An empty sink with room for this many bytes, whose writes of these numbers fail.
    pub fn new(alloc: Global, room: u32, failing: Vec<u32>) -> Result<MemSink, AllocError>
        ensures empty { IfOk result (λ sink. mem_bytes sink ≡ []) }
        ensures room { IfOk result (λ sink. mem_room sink ≡ room) }
        ensures failing { IfOk result (λ sink. failing_writes sink ≡ failing.items) }
        ensures writes { IfOk result (λ sink. write_count sink ≡ 0) }
        ensures faults { IfOk result (λ sink. mem_faults sink ≡ 0) }
    {
        let sink = SteadySink::new(alloc, room)?;
        Ok(MemSink {
            sink,
            failing,
            writes: 0,
            faults: 0,
        })
    }

    /// What was written.
    pub fn bytes(&self) -> &[u8]
        ensures { result.now ≡ mem_bytes self.now }
    {
        self.sink.bytes()
    }

    /// How many writes there were. The count stops at the last of a `u32`, which is then the number of each further
    /// write.
    pub fn writes(&self) -> u32
        ensures { result ≡ write_count self.now }
    {
        self.writes
    }

    /// How many writes have failed. The count stops at the last of a `u64`.
    pub fn faults(&self) -> u64
        ensures { result ≡ mem_faults self.now }
    {
        self.faults
    }

    /// Adds the piece as far as it fits, where the number of the write isn't in the list, and else nothing.
    fn take(&mut self, number: u32, piece: &[u8]) -> Result<(), Failed>
        ensures adds { Writes (Some (mem_bytes self.old)) (Some (mem_bytes self.new)) piece.now result }
        ensures done { IsOk result ↔ ((¬ Contains (failing_writes self.old) number) ×
            (length piece.now ≤ mem_room self.old)) }
        ensures refused { Contains (failing_writes self.old) number →
            (mem_bytes self.new ≡ mem_bytes self.old) × (mem_room self.new ≡ mem_room self.old) }
        ensures taken { ¬ Contains (failing_writes self.old) number →
            (mem_bytes self.new ≡ mem_bytes self.old ++ take (mem_room self.old) piece.now)
            × (mem_room self.new ≡ mem_room self.old - length piece.now) }
        ensures failing { failing_writes self.new ≡ failing_writes self.old }
        ensures writes { write_count self.new ≡ write_count self.old }
        ensures faults { mem_faults self.new ≡ mem_faults self.old }
    {
        if self.failing.contains(&number) {
            return Err(Failed);
        }
        self.sink.write(piece)
    }
}

impl Sink for MemSink {
    ghost use Rattle.part_io.specs.MemSink.{mem_bytes, mem_room, failing_writes, write_count, mem_faults};

    ghost written = { λ sink. Some (mem_bytes sink) };

    ghost faults = { mem_faults };

    /// Adds the piece. A write whose number is in the list adds nothing, and a piece that does not fit is added as far
    /// as it fits: both are faults.
    fn write(&mut self, piece: &[u8]) -> Result<(), Failed>
        // What any sink does.
        ensures adds { Writes (Some (mem_bytes self.old)) (Some (mem_bytes self.new)) piece.now result }
        ensures cause { HasCause (mem_faults self.old) (mem_faults self.new) result }

        // What this one does.
        ensures done { IsOk result ↔ ((¬ Contains (failing_writes self.old) (write_count self.old)) ×
            (length piece.now ≤ mem_room self.old)) }
        ensures refused { Contains (failing_writes self.old) (write_count self.old) →
            (mem_bytes self.new ≡ mem_bytes self.old) × (mem_room self.new ≡ mem_room self.old) }
        ensures taken { ¬ Contains (failing_writes self.old) (write_count self.old) →
            (mem_bytes self.new ≡ mem_bytes self.old ++ take (mem_room self.old) piece.now)
            × (mem_room self.new ≡ mem_room self.old - length piece.now) }
        ensures failing { failing_writes self.new ≡ failing_writes self.old }
        ensures writes { Next u32.MAX (write_count self.old) (write_count self.new) }
    {
        let number = self.writes;
        self.writes = self.writes.saturating_add(1);
        let taken = self.take(number, piece);
        if taken.is_err() {
            self.faults = self.faults.saturating_add(1);
        }
        taken
    }
}
