//! A shelf over the files of the system.

ghost use Rattle.std.specs.Prelude.{◌≡◌, ◌+◌, ◌≤◌, ◌<◌, None, IfOk, IfErr, OnErr, length, take, vec_len};
ghost use Rattle.std.specs.Io.KnownBytes.{Consumes, IsAtEnd, Keeps};
ghost use Rattle.std.specs.Io.{ReadsAtMost};
ghost use Rattle.part_io.specs.Shelf.{Reads, HasReadCause};
ghost use Rattle.part_io.specs.Block.{ReadsToEnd, ReadsSomeFile, TakesAtMost, TakesBlock, IsOfOutside};

use crate::{ReadAnswer, Shelf};
use std::alloc::Global;
use std::fs;
use std::io::{ErrorKind, Read};
use std::rt::Files;

/// A shelf over the files of the system, whose names are paths. It tells no files.
#[derive(Drop)]
pub struct FileShelf<R> {
    rt: R,
    faults: u64,
}

impl<R: Files> FileShelf<R> {
    /// A shelf over the files that this runtime, or a reference to one, opens.
    pub fn new(rt: R) -> FileShelf<R>
        ensures { ⟦<FileShelf<R> as Shelf>⟧.faults result ≡ 0 }
    {
        FileShelf { rt, faults: 0 }
    }

    /// How many reads have failed. The count stops at the last of a `u64`.
    pub fn faults(&self) -> u64
        ensures { result ≡ ⟦<FileShelf<R> as Shelf>⟧.faults self.now }
    {
        self.faults
    }
}

impl<R: Files> Shelf for FileShelf<R> {
    ghost files = { λ _. None };

    ghost faults = { λ shelf. shelf.faults };

    /// Reads the file at this path. One that is not there is a fault, and the answer is `Failed`.
    fn read(&mut self, alloc: Global, name: &str, limit: u32) -> Result<Vec<u8>, ReadAnswer>
        // What any shelf does, where it tells no files.
        ensures answer { Reads None name.now limit result }
        ensures within { IfOk result (λ bytes. vec_len bytes ≤ limit) }
        ensures cause { HasReadCause (⟦<FileShelf<R> as Shelf>⟧.faults self.old)
            (⟦<FileShelf<R> as Shelf>⟧.faults self.new) result }

        // Where the bytes come from.
        ensures file { ReadsSomeFile R.File.remaining limit result }
    {
        match file_bytes(&self.rt, alloc, name, limit) {
            Err(ReadAnswer::Failed) => {
                self.faults = self.faults.saturating_add(1);
                Err(ReadAnswer::Failed)
            }
            answer => answer,
        }
    }
}

// The bytes of the file at this path.
fn file_bytes<R: Files>(
    rt: &R,
    alloc: Global,
    path: &str,
    limit: u32,
) -> Result<Vec<u8>, ReadAnswer>
    ensures answer { Reads None path.now limit result }
    ensures within { IfOk result (λ bytes. vec_len bytes ≤ limit) }
    ensures file { ReadsSomeFile R.File.remaining limit result }
{
    match fs::open(rt, path) {
        Ok(mut file) => bytes_to_end(&mut file, alloc, limit),
        Err(_) => Err(ReadAnswer::Failed),
    }
}

/// All that a reader has left, where that is at most `limit` bytes. At most `limit + 1` bytes are read.
///
/// A reader with more is `TooLong`, with that limit. `Failed` is a read that failed, and `NoMemory` may be answered
/// anywhere. A read that a signal interrupts is tried again.
pub fn bytes_to_end<R: Read>(
    reader: &mut R,
    alloc: Global,
    limit: u32,
) -> Result<Vec<u8>, ReadAnswer>
    ensures answer { ReadsToEnd (R.remaining reader.old) limit result }
    ensures within { IfOk result (λ bytes. vec_len bytes ≤ limit) }
    ensures taken { TakesAtMost (R.remaining reader.old) (R.remaining reader.new) (limit + 1) }
{
    let most = limit as usize;
    let mut bytes = Vec::new(alloc);
    // Each turn that isn't the last takes a byte, and there are at most `most` of them.
    for _turn in 0..most + 1 {
        let room = most + 1 - bytes.len();
        let count = add_block(reader, &mut bytes, room)?;
        if count == 0 {
            return Ok(bytes);
        }
        if most < bytes.len() {
            return Err(ReadAnswer::TooLong { limit });
        }
    }
    unreachable!()
}

// How many bytes one read asks for.
const BLOCK: usize = 16384;

// One read of at most `most` bytes, which go to the end of `bytes`. Their count is 0 only at the end.
fn add_block<R: Read>(reader: &mut R, bytes: &mut Vec<u8>, most: usize) -> Result<usize, ReadAnswer>
    requires { 0 < most }
    ensures block { IfOk result (TakesBlock bytes.old.items bytes.new.items
        (R.remaining reader.old) (R.remaining reader.new) most) }
    ensures end { IfOk result (λ count. count ≡ 0 → IsAtEnd (R.remaining reader.new)) }
    ensures taken { OnErr result (TakesAtMost (R.remaining reader.old) (R.remaining reader.new) most) }
    ensures error { IfErr result IsOfOutside }
{
    let mut block = [0u8; BLOCK];
    let wanted = most.min(BLOCK);
    let count = read_some(reader, &mut block[..wanted])?;
    bytes.extend_from_slice(&block[..count])?;
    Ok(count)
}

// One read, which is tried again where a signal interrupts it. It gives nothing only at the end.
fn read_some<R: Read>(reader: &mut R, block: &mut [u8]) -> Result<usize, ReadAnswer>
    requires { 0 < length block.old }
    ensures bound { ReadsAtMost result block.new }
    ensures given { IfOk result (λ count.
        Consumes (R.remaining reader.old) (R.remaining reader.new) (take count block.new)) }
    ensures end { IfOk result (λ count. count ≡ 0 → IsAtEnd (R.remaining reader.new)) }
    ensures none_lost { OnErr result (Keeps (R.remaining reader.old) (R.remaining reader.new)) }
    ensures error { IfErr result (λ e. e ≡ ReadAnswer.Failed) }
{
    // A loop has an end: after 2^64 - 1 interruptions the read counts as one that failed.
    for _ in 0..u64::MAX {
        match reader.read(block) {
            Ok(count) => return Ok(count),
            Err(error) => {
                if error.kind() != ErrorKind::Interrupted {
                    return Err(ReadAnswer::Failed);
                }
            }
        }
    }
    Err(ReadAnswer::Failed)
}
