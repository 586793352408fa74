//! A sink in memory, of a room that is taken when it is made.

ghost use Rattle.std.specs.Prelude.{◌≡◌, ◌≤◌, ◌+◌, ◌-◌, ◌^◌, ◌↔◌, ◌++◌, [], Some, min, length, take, IfOk, IsOk, OnErr};
ghost use Rattle.std.specs.Prelude.{vec_len, vec_capacity};
ghost use Rattle.part_io.specs.Causes.{HasCause};
ghost use Rattle.part_io.specs.Sink.{Writes};

use crate::{Failed, Sink};
use std::alloc::{AllocError, Global};

/// A sink in memory, which tells what was written. It takes its room when it is made, so that only
/// a piece that does not fit into what is left fails.
#[derive(Drop)]
pub struct SteadySink {
    bytes: Vec<u8>,
    left: u32,
    faults: u64,
    ghost has_room: { vec_len bytes + left ≤ vec_capacity bytes },
}

impl SteadySink {
    ghost use Rattle.part_io.specs.SteadySink.{sink_bytes, room_left, sink_faults};

    /// An empty sink with room for this many bytes.
    pub fn new(alloc: Global, room: u32) -> Result<SteadySink, AllocError>
        ensures empty { IfOk result (λ sink. sink_bytes sink ≡ []) }
        ensures room { IfOk result (λ sink. room_left sink ≡ room) }
        ensures faults { IfOk result (λ sink. sink_faults sink ≡ 0) }
    {
        let bytes = Vec::with_capacity(alloc, room as usize)?;
        Ok(SteadySink {
            bytes,
            left: room,
            faults: 0,
        })
    }

    /// What was written.
    pub fn bytes(&self) -> &[u8]
        ensures { result.now ≡ sink_bytes self.now }
    {
        &self.bytes
    }

    /// How many bytes the sink still takes.
    pub fn room_left(&self) -> u32
        ensures { result ≡ room_left self.now }
    {
        self.left
    }

    /// How many pieces did not fit. The count stops at the last of a `u64`.
    pub fn faults(&self) -> u64
        ensures { result ≡ sink_faults self.now }
    {
        self.faults
    }
}

impl Sink for SteadySink {
    ghost use Rattle.part_io.specs.SteadySink.{sink_bytes, room_left, sink_faults};

    ghost written = { λ sink. Some (sink_bytes sink) };

    ghost faults = { sink_faults };

    /// Adds the piece as far as it fits. One that does not fit is a fault.
    fn write(&mut self, piece: &[u8]) -> Result<(), Failed>
        // What any sink does.
        ensures adds { Writes (Some (sink_bytes self.old)) (Some (sink_bytes self.new))
            piece.now result }
        ensures cause { HasCause (sink_faults self.old) (sink_faults self.new) result }

        // What this one does.
        ensures fits { IsOk result ↔ (length piece.now ≤ room_left self.old) }
        ensures front { sink_bytes self.new ≡
            sink_bytes self.old ++ take (room_left self.old) piece.now }
        ensures room { room_left self.new ≡ room_left self.old - length piece.now }
        ensures fault { OnErr result
            (sink_faults self.new ≡ min (sink_faults self.old + 1) (2 ^ 64 - 1)) }
    {
        let fitting = piece.len().min(self.left as usize);
        self.bytes.extend_from_slice(&piece[..fitting]).unwrap();
        self.left -= fitting as u32;
        if fitting < piece.len() {
            self.faults = self.faults.saturating_add(1);
            return Err(Failed);
        }
        Ok(())
    }
}
