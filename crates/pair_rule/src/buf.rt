//! The buffer of a cell.

ghost use Rattle.std.specs.Prelude.{◌≡◌, ◌+◌, ◌<◌, ◌^◌, length, replicate, slice_index, IfOk, IfSome};
ghost use Rattle.pair_rule.specs.Buf.{buf};
ghost use Rattle.pair_rule.specs.Kept.{copy_of, kept};
ghost use Rattle.pair_rule.specs.declared.TheConstants.{FREE_BYTES};

use crate::few::{Few, copy_bytes};
use crate::{FREE_BYTES, SHORT};
use std::alloc::{AllocError, Global};
use std::marker::Model;

/// Where the bytes of a cell stand: in the buffer itself where they are few, so that they need no cache line of their
/// own.
#[derive(Drop)]
pub(crate) enum Kept {
    /// In the buffer itself.
    Short(Few),
    /// On the heap.
    Long(Vec<u8>),
}

impl Kept {
    /// So many zeros. No two on the heap share a cache line.
    fn zeros(alloc: Global, count: usize) -> Result<Kept, AllocError>
        requires { count + FREE_BYTES < 2 ^ 64 }
        ensures { IfOk result (λ b. kept b ≡ replicate count 0) }
    {
        if count <= SHORT {
            return Ok(Kept::Short(Few::zeros(count)));
        }
        let mut bytes = Vec::from_elem(alloc, 0u8, count + FREE_BYTES)?;
        bytes.truncate(count);
        Ok(Kept::Long(bytes))
    }

    #[inline]
    fn as_slice(&self) -> &[u8]
        ensures { result.now ≡ kept self.now }
    {
        match self {
            Kept::Short(bytes) => bytes.as_slice(),
            Kept::Long(bytes) => bytes.as_slice(),
        }
    }

    /// The same bytes once more, where they stand in the buffer itself.
    #[inline]
    fn copy(&self) -> Option<Kept>
        ensures { result ≡ copy_of self.now }
    {
        match self {
            Kept::Short(bytes) => Some(Kept::Short(bytes.copy())),
            Kept::Long(_) => None,
        }
    }

    #[inline]
    fn fill(&mut self, bytes: &[u8])
        requires { length bytes.now ≡ length (kept self.old) }
        ensures { kept self.new ≡ bytes.now }
    {
        match self {
            Kept::Short(own) => own.fill(bytes),
            Kept::Long(own) => own.as_mut_slice().copy_from_slice(bytes),
        }
    }
}

/// The bytes of one cell, with the round that they were put there for. It is made with the pair, one for each cell and
/// depth place, and its length is the cell's.
#[derive(Drop)]
pub struct CellBuf {
    round: u32,
    bytes: Kept,
}

impl Model for CellBuf {
    ghost use Rattle.pair_rule.specs.Buf.{Buf};

    ghost Value = { Buf };

    ghost use Rattle.pair_rule.specs.Kept.{kept};

    ghost view = { λ b. record { round = b.round; bytes = kept b.bytes } };
}

impl CellBuf {
    /// A buffer of round 0 with so many zeros.
    pub(crate) fn zeros(alloc: Global, count: usize) -> Result<CellBuf, AllocError>
        requires { count + FREE_BYTES < 2 ^ 64 }
        ensures { IfOk result (λ b. b ≡ buf 0 (replicate count 0)) }
    {
        Ok(CellBuf {
            round: 0,
            bytes: Kept::zeros(alloc, count)?,
        })
    }

    /// The round that it was filled for, 0 before the first.
    pub fn round(&self) -> u32
        ensures { result ≡ self.now.round }
    {
        self.round
    }

    /// How many bytes it has.
    pub fn len(&self) -> usize
        ensures { result ≡ length self.now.bytes }
    {
        self.bytes.as_slice().len()
    }

    /// Byte `i`, from 0 on.
    pub fn byte(&self, i: usize) -> u8
        requires { i < length self.now.bytes }
        ensures { result ≡ slice_index self.now.bytes i }
    {
        self.bytes.as_slice()[i]
    }

    /// All of its bytes, in order.
    pub fn as_slice(&self) -> &[u8]
        ensures { result.now ≡ self.now.bytes }
    {
        self.bytes.as_slice()
    }

    /// A copy of it, where its bytes stand in it itself. It takes no memory.
    #[inline]
    pub(crate) fn copy(&self) -> Option<CellBuf>
        ensures { IfSome result (λ b. b ≡ self.now) }
    {
        match self.bytes.copy() {
            Some(bytes) => Some(CellBuf {
                round: self.round,
                bytes,
            }),
            None => None,
        }
    }

    /// Puts as many bytes into it as it has, for a round. It takes no memory.
    pub fn fill(&mut self, round: u32, bytes: &[u8])
        requires { length bytes.now ≡ length self.old.bytes }
        ensures { self.new ≡ buf round bytes.now }
    {
        self.round = round;
        self.bytes.fill(bytes);
    }

    /// Copies its bytes out.
    pub fn copy_into(&self, out: &mut [u8])
        requires { length out.old ≡ length self.now.bytes }
        ensures { out.new ≡ self.now.bytes }
    {
        copy_bytes(out, self.bytes.as_slice());
    }
}
