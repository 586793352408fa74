//! The bytes of a receive partition.

ghost use Rattle.std.specs.Prelude.{◌≡◌, ◌+◌, ◌<◌, ◌≤◌, ℕ, List, [], length, replicate, slice_index_or, slice_set, IfOk};
ghost use Rattle.plain_pair.specs.Written.{written};

use std::alloc::{AllocError, Global};
use std::marker::Model;
use std::mem;

/// Some bytes that move as one. Contracts see the list of them.
#[derive(Drop)]
pub(crate) struct Buffer {
    bytes: Vec<u8>,
}

impl Model for Buffer {
    ghost Value = { List ℕ };

    ghost view = { λ b. b.bytes.items };
}

/// Writes a piece over what stands from `at` on.
fn overwrite(bytes: &mut [u8], at: usize, piece: &[u8])
    requires { at + length piece.now ≤ length bytes.old }
    ensures { bytes.new ≡ written bytes.old at piece.now }
{
    let end = at + piece.len();
    bytes[at..end].copy_from_slice(piece);
}

impl Buffer {
    /// A buffer of `len` zeros.
    pub(crate) fn zeros(alloc: Global, len: usize) -> Result<Buffer, AllocError>
        ensures { IfOk result (λ buffer. buffer ≡ replicate len 0) }
    {
        Ok(Buffer {
            bytes: vec![in alloc; 0; len]?,
        })
    }

    /// A buffer of no bytes, which takes no memory.
    fn empty(alloc: Global) -> Buffer
        ensures { result ≡ [] }
    {
        Buffer {
            bytes: Vec::new(alloc),
        }
    }

    /// All of the bytes, in order.
    pub(crate) fn as_slice(&self) -> &[u8]
        ensures { result.now ≡ self.now }
    {
        self.bytes.as_slice()
    }

    /// Writes a piece over the bytes from `at` on.
    pub(crate) fn write(&mut self, at: usize, piece: &[u8])
        requires { at + length piece.now ≤ length self.old }
        ensures { self.new ≡ written self.old at piece.now }
    {
        overwrite(self.bytes.as_mut_slice(), at, piece);
    }
}

/// `count` buffers of `len` zeros each.
pub(crate) fn zero_buffers(
    alloc: Global,
    count: usize,
    len: usize,
) -> Result<Vec<Buffer>, AllocError>
    ensures { IfOk result (λ buffers. buffers.items ≡ replicate count (replicate len 0)) }
{
    let mut buffers = Vec::with_capacity(alloc, count)?;
    for _i in 0..count {
        buffers.push(Buffer::zeros(alloc, len)?)?;
    }
    Ok(buffers)
}

/// Writes a piece into one of the buffers.
pub(crate) fn write_at(buffers: &mut Vec<Buffer>, index: usize, at: usize, piece: &[u8])
    requires index { index < length buffers.old.items }
    requires fits { at + length piece.now ≤ length (slice_index_or buffers.old.items index []) }
    ensures { buffers.new.items
        ≡ slice_set buffers.old.items index (written (slice_index_or buffers.old.items index []) at piece.now) }
{
    let buffer = &mut buffers[index];
    buffer.write(at, piece);
}

/// Takes one of the buffers out, and leaves an empty one.
pub(crate) fn take_at(buffers: &mut Vec<Buffer>, index: usize) -> Buffer
    requires { index < length buffers.old.items }
    ensures taken { result ≡ slice_index_or buffers.old.items index [] }
    ensures left { buffers.new.items ≡ slice_set buffers.old.items index [] }
{
    let alloc = *buffers.allocator();
    mem::replace(&mut buffers[index], Buffer::empty(alloc))
}

/// Puts a buffer in the place of another.
pub(crate) fn put_at(buffers: &mut Vec<Buffer>, index: usize, buffer: Buffer)
    requires { index < length buffers.old.items }
    ensures { buffers.new.items ≡ slice_set buffers.old.items index buffer }
{
    buffers[index] = buffer;
}
