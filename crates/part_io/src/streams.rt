//! Sinks over the standard output and the standard error.

ghost use Rattle.std.specs.Prelude.{◌≡◌, ◌≤◌, ℕ, None, OnOk, OnErr, length, take};
ghost use Rattle.std.specs.Io.KnownBytes.{Appends};
ghost use Rattle.part_io.specs.Causes.{HasCause};
ghost use Rattle.part_io.specs.Sink.{Writes};

use crate::{Failed, Sink};
use std::io::{ErrorKind, Write};

/// The standard output. It tells nothing of what was written.
#[derive(Drop)]
pub struct OutSink<W> {
    writer: W,
    faults: u64,
}

impl<W: Write> OutSink<W> {
    /// A sink over this writer, as a runtime's `stdout()` or `io::writer` of a runtime.
    pub fn new(writer: W) -> OutSink<W>
        ensures { ⟦<OutSink<W> as Sink>⟧.faults result ≡ 0 }
    {
        OutSink { writer, faults: 0 }
    }

    /// How many pieces did not go out whole. The count stops at the last of a `u64`.
    pub fn faults(&self) -> u64
        ensures { result ≡ ⟦<OutSink<W> as Sink>⟧.faults self.now }
    {
        self.faults
    }
}

impl<W: Write> Sink for OutSink<W> {
    ghost use Rattle.part_io.specs.Streams.{PassesOn, out_contents};

    ghost written = { λ _. None };

    ghost faults = { λ sink. sink.faults };

    /// Passes the piece on to the writer, until it is out or the writer fails.
    fn write(&mut self, piece: &[u8]) -> Result<(), Failed>
        // What any sink does, where it tells nothing.
        ensures adds { Writes None None piece.now result }
        ensures cause { HasCause (⟦<OutSink<W> as Sink>⟧.faults self.old)
            (⟦<OutSink<W> as Sink>⟧.faults self.new) result }

        // What its writer gets.
        ensures passes { PassesOn (out_contents W.contents self.old) (out_contents W.contents self.new)
            piece.now result }
    {
        let written = write_whole(&mut self.writer, piece);
        if written.is_err() {
            self.faults = self.faults.saturating_add(1);
        }
        written
    }
}

/// The standard error, for notes beside the output. It tells nothing of what was written.
#[derive(Drop)]
pub struct NoteSink<W> {
    writer: W,
    faults: u64,
}

impl<W: Write> NoteSink<W> {
    /// A sink over this writer, as a runtime's `stderr()`.
    pub fn new(writer: W) -> NoteSink<W>
        ensures { ⟦<NoteSink<W> as Sink>⟧.faults result ≡ 0 }
    {
        NoteSink { writer, faults: 0 }
    }

    /// How many pieces did not go out whole. The count stops at the last of a `u64`.
    pub fn faults(&self) -> u64
        ensures { result ≡ ⟦<NoteSink<W> as Sink>⟧.faults self.now }
    {
        self.faults
    }
}

impl<W: Write> Sink for NoteSink<W> {
    ghost use Rattle.part_io.specs.Streams.{PassesOn, note_contents};

    ghost written = { λ _. None };

    ghost faults = { λ sink. sink.faults };

    /// Passes the piece on to the writer, until it is out or the writer fails.
    fn write(&mut self, piece: &[u8]) -> Result<(), Failed>
        // What any sink does, where it tells nothing.
        ensures adds { Writes None None piece.now result }
        ensures cause { HasCause (⟦<NoteSink<W> as Sink>⟧.faults self.old)
            (⟦<NoteSink<W> as Sink>⟧.faults self.new) result }

        // What its writer gets.
        ensures passes { PassesOn (note_contents W.contents self.old) (note_contents W.contents self.new)
            piece.now result }
    {
        let written = write_whole(&mut self.writer, piece);
        if written.is_err() {
            self.faults = self.faults.saturating_add(1);
        }
        written
    }
}

// Writes until the piece is out. A write that takes nothing is a failure; one that a signal
// interrupts is tried again.
fn write_whole<W: Write>(writer: &mut W, piece: &[u8]) -> Result<(), Failed>
    ensures ok { OnOk result (Appends (W.contents writer.old) (W.contents writer.new) piece.now) }
    ensures err { OnErr result ((n : ℕ) × (n ≤ length piece.now)
        × Appends (W.contents writer.old) (W.contents writer.new) (take n piece.now)) }
{
    let mut done = 0;
    // A loop has an end: after 2^64 - 1 turns, nearly all of them interrupted, the write counts as one that failed.
    for _ in 0..u64::MAX {
        if done == piece.len() {
            return Ok(());
        }
        match writer.write(&piece[done..]) {
            Ok(0) => return Err(Failed),
            Ok(count) => done += count,
            Err(error) => {
                if error.kind() != ErrorKind::Interrupted {
                    return Err(Failed);
                }
            }
        }
    }
    Err(Failed)
}
