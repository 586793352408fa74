//! What a take hands over.

ghost use Rattle.std.specs.Prelude.{◌≡◌, ◌<◌, ◌≤◌, ◌+◌, length, slice_index, slice_range};
ghost use Rattle.part_recv.specs.Taking.{IsArrival, bytes_in};

use pair_rule::{Content, Shelf};
use part_geometry::Geometry;
use std::marker::{Model, PhantomData};

/// The bytes of one receive partition in one round, with the buffers that have them, owned by whoever took
/// them. It may be moved to another thread. Where it is dropped the partition stays out. Contracts see the
/// round, the partition and the bytes.
pub struct Arrival<C: Content> {
    geometry: Geometry,
    round: u32,
    partition: u32,
    shelf: Shelf,
    content: PhantomData<C>,
}

impl<C: Content> Model for Arrival<C> {
    ghost use Rattle.part_recv.specs.Taking.{Arrived, IsArrival, bytes_in};

    ghost Value = { Arrived };

    ghost view = { λ a. record {
      geometry = a.geometry;
      round = a.round;
      partition = a.partition;
      bytes = bytes_in a.shelf.bufs;
    } };

    ghost invariant = { λ a. IsArrival a.geometry a.round a.partition a.shelf };
}

impl<C: Content> Arrival<C> {
    /// What a shelf has of a partition and a round.
    pub(crate) fn of(geometry: Geometry, round: u32, partition: u32, shelf: Shelf) -> Arrival<C>
        requires { IsArrival geometry round partition shelf }
        ensures { result ≡ record {
          geometry = geometry;
          round = round;
          partition = partition;
          bytes = bytes_in shelf.bufs;
        } }
    {
        Arrival {
            geometry,
            round,
            partition,
            shelf,
            content: PhantomData,
        }
    }

    /// The shelf alone.
    pub(crate) fn into_shelf(self) -> Shelf
        ensures { IsArrival self.geometry self.round self.partition result }
    {
        let Arrival {
            geometry: _,
            round: _,
            partition: _,
            shelf,
            content: _,
        } = self;
        shelf
    }

    /// The round that it was taken in.
    pub fn round(&self) -> u32
        ensures { result ≡ self.now.round }
    {
        self.round
    }

    /// The receive partition.
    pub fn partition(&self) -> u32
        ensures { result ≡ self.now.partition }
    {
        self.partition
    }

    /// How many bytes it has, those of a receive partition.
    pub fn len(&self) -> u32
        ensures { result ≡ length self.now.bytes }
    {
        self.geometry.recv_bytes()
    }

    /// Byte `i`, from 0 on. It is found by a walk over the partition's cells.
    pub fn byte(&self, i: u32) -> u8
        requires { i < length self.now.bytes }
        ensures { result ≡ slice_index self.now.bytes i }
    {
        let mut at = i as usize;
        for cell in 0..self.shelf.len() {
            let buf = self.shelf.buf(cell);
            if at < buf.len() {
                return buf.byte(at);
            }
            at -= buf.len();
        }
        unreachable!()
    }

    /// Copies all bytes to a slice of their number, cell by cell.
    pub fn copy_into(&self, out: &mut [u8])
        requires { length out.old ≡ length self.now.bytes }
        ensures { out.new ≡ self.now.bytes }
    {
        let mut at = 0;
        for cell in 0..self.shelf.len() {
            let buf = self.shelf.buf(cell);
            let end = at + buf.len();
            buf.copy_into(&mut out[at..end]);
            at = end;
        }
    }

    /// Copies the bytes from `start` on, as many as `out` has, cell by cell.
    pub fn copy_range(&self, start: u32, out: &mut [u8])
        requires { start + length out.old ≤ length self.now.bytes }
        ensures { out.new ≡ slice_range self.now.bytes start (start + length out.old) }
    {
        let mut skip = start as usize;
        let mut at = 0;
        for cell in 0..self.shelf.len() {
            if at == out.len() {
                return;
            }
            let bytes = self.shelf.buf(cell).as_slice();
            let first = skip.min(bytes.len());
            let count = (bytes.len() - first).min(out.len() - at);
            out[at..at + count].copy_from_slice(&bytes[first..first + count]);
            skip -= first;
            at += count;
        }
    }
}

impl<C: Content> Drop for Arrival<C> {
    fn drop(self) {
        let Arrival {
            geometry: _,
            round: _,
            partition: _,
            shelf: _,
            content: _,
        } = self;
    }
}
