//! What a take hands over.

ghost use Rattle.std.specs.Prelude.{◌≡◌, ◌<◌, ◌≤◌, length, slice_index};
ghost use Rattle.part_geometry.specs.declared.TheConstants.{MAX_PART_BYTES};

use crate::buffer::Buffer;
use std::marker::Model;

/// The bytes of one receive partition in one round, owned by whoever took them. Contracts see the round, the
/// partition and the bytes.
#[derive(Drop)]
pub struct PlainArrival {
    round: u32,
    partition: u32,
    buffer: Buffer,
}

impl Model for PlainArrival {
    ghost use Rattle.std.specs.Prelude.{◌≤◌, length};
    ghost use Rattle.part_geometry.specs.declared.TheConstants.{MAX_PART_BYTES};
    ghost use Rattle.plain_pair.specs.Taken.{Taken};

    ghost Value = { Taken };

    ghost view = { λ a. record { round = a.round; partition = a.partition; bytes = a.buffer } };

    ghost invariant = { λ a. length a.buffer ≤ MAX_PART_BYTES };
}

impl PlainArrival {
    pub(crate) fn new(round: u32, partition: u32, buffer: Buffer) -> PlainArrival
        requires few { length buffer ≤ MAX_PART_BYTES }
        ensures value { result ≡ record { round = round; partition = partition; bytes = buffer } }
    {
        PlainArrival {
            round,
            partition,
            buffer,
        }
    }

    /// The bytes alone.
    pub(crate) fn into_buffer(self) -> Buffer
        ensures value { result ≡ self.bytes }
    {
        self.buffer
    }

    /// The round that it was taken in.
    pub fn round(&self) -> u32
        ensures value { result ≡ self.now.round }
    {
        self.round
    }

    /// The receive partition.
    pub fn partition(&self) -> u32
        ensures value { result ≡ self.now.partition }
    {
        self.partition
    }

    /// How many bytes it has, those of a receive partition.
    pub fn len(&self) -> u32
        ensures value { result ≡ length self.now.bytes }
    {
        self.buffer.as_slice().len() as u32
    }

    /// Byte `i`, from 0 on.
    pub fn byte(&self, i: u32) -> u8
        requires inside { i < length self.now.bytes }
        ensures value { result ≡ slice_index self.now.bytes i }
    {
        self.buffer.as_slice()[i as usize]
    }

    /// All of the bytes, in order.
    pub fn as_slice(&self) -> &[u8]
        ensures value { result.now ≡ self.now.bytes }
    {
        self.buffer.as_slice()
    }

    /// Copies all bytes to a slice of their number.
    pub fn copy_into(&self, out: &mut [u8])
        requires size { length out.old ≡ length self.now.bytes }
        ensures copied { out.new ≡ self.now.bytes }
    {
        out.copy_from_slice(self.buffer.as_slice());
    }
}
