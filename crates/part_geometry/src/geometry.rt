//! The six numbers of a pair.

ghost use Rattle.std.specs.Prelude.{◌≡◌, ◌*◌, ◌↔◌, ◌≤◌, IfOk, IsTrue};
ghost use Rattle.part_geometry.specs.declared.TheConstants.{MAX_PARTS, MAX_PART_BYTES, MAX_GRAIN, MAX_DEPTH};
ghost use Rattle.part_geometry.specs.Shape.{IsShape, IsWithin, send_total};
ghost use Rattle.part_geometry.specs.Making.{both_within, geometry_of, parts_answer};

use crate::{MAX_DEPTH, MAX_GRAIN, MAX_PART_BYTES, MAX_PARTS, MAX_TOTAL};
use std::error::Error;
use std::fmt;
use std::marker::Model;

/// Why six numbers make no geometry. They are tried in this order.
#[derive(Clone, Copy, Debug, PartialEq, Eq)]
pub enum GeometryFault {
    /// A number of partitions isn't from 1 to 1,024.
    BadParts,
    /// The bytes of a partition aren't from 1 to 1,048,576.
    BadBytes,
    /// A side has more than 16,777,216 bytes in all.
    TooLong,
    /// The sides have different totals, in bytes.
    SizeMismatch { send_total: u32, recv_total: u32 },
    /// The grain isn't from 1 to 16,777,216.
    BadGrain,
    /// The depth isn't from 1 to 4.
    BadDepth,
}

impl fmt::Display for GeometryFault {
    fn fmt<W: fmt::Write>(&self, f: &mut fmt::Formatter<W>) -> fmt::Result {
        f.write_str(match self {
            GeometryFault::BadParts => "a side has 1 to 1024 partitions",
            GeometryFault::BadBytes => "a partition has 1 to 1048576 bytes",
            GeometryFault::TooLong => "a message has at most 16777216 bytes",
            GeometryFault::SizeMismatch {
                send_total,
                recv_total,
            } => {
                return write!(
                    f,
                    "the sender has {send_total} bytes and the receiver {recv_total}"
                );
            }
            GeometryFault::BadGrain => "the grain is 1 to 16777216 bytes",
            GeometryFault::BadDepth => "the depth is 1 to 4 rounds",
        })
    }
}

impl Error for GeometryFault {}

/// How the two sides of a pair cut one message into partitions (MPI 4.0, 4.2), how many bytes a piece has at
/// least, and how many rounds may be in flight. Contracts see the six numbers.
#[derive(Clone, Copy)]
pub struct Geometry {
    send_parts: u32,
    send_bytes: u32,
    recv_parts: u32,
    recv_bytes: u32,
    grain: u32,
    depth: u32,
}

impl Model for Geometry {
    ghost use Rattle.part_geometry.specs.Shape.{Shape, IsShape};

    ghost Value = { Shape };

    ghost view = { λ g. record {
      send_parts = g.send_parts;
      send_bytes = g.send_bytes;
      recv_parts = g.recv_parts;
      recv_bytes = g.recv_bytes;
      grain = g.grain;
      depth = g.depth;
    } };

    ghost invariant = { λ g. IsShape record {
      send_parts = g.send_parts;
      send_bytes = g.send_bytes;
      recv_parts = g.recv_parts;
      recv_bytes = g.recv_bytes;
      grain = g.grain;
      depth = g.depth;
    } };

    ghost inverse = { λ g. record {
      send_parts = g.send_parts;
      send_bytes = g.send_bytes;
      recv_parts = g.recv_parts;
      recv_bytes = g.recv_bytes;
      grain = g.grain;
      depth = g.depth;
    } };
}

/// Whether both numbers are from `low` to `high`.
fn both_in(low: u32, high: u32, m: u32, n: u32) -> bool
    ensures { result ≡ both_within low high m n }
{
    low <= m && m <= high && low <= n && n <= high
}

/// Refuses numbers of partitions, and then bytes of a partition, that are out of their ranges.
fn check_parts(
    send_parts: u32,
    send_bytes: u32,
    recv_parts: u32,
    recv_bytes: u32,
) -> Result<(), GeometryFault>
    ensures { result ≡ parts_answer send_parts send_bytes recv_parts recv_bytes }
{
    if !both_in(1, MAX_PARTS, send_parts, recv_parts) {
        return Err(GeometryFault::BadParts);
    }
    if !both_in(1, MAX_PART_BYTES, send_bytes, recv_bytes) {
        return Err(GeometryFault::BadBytes);
    }
    Ok(())
}

impl Geometry {
    /// The geometry of `send_parts` partitions of `send_bytes` bytes at the sender and `recv_parts` partitions of
    /// `recv_bytes` bytes at the receiver, with pieces of at least `grain` bytes and `depth` rounds in flight.
    /// Refused with the first fault in the order of `GeometryFault`.
    pub fn new(
        send_parts: u32,
        send_bytes: u32,
        recv_parts: u32,
        recv_bytes: u32,
        grain: u32,
        depth: u32,
    ) -> Result<Geometry, GeometryFault>
        ensures exact { result ≡ geometry_of record {
          send_parts = send_parts;
          send_bytes = send_bytes;
          recv_parts = recv_parts;
          recv_bytes = recv_bytes;
          grain = grain;
          depth = depth;
        } }
        ensures limits { IfOk result IsShape }
    {
        check_parts(send_parts, send_bytes, recv_parts, recv_bytes)?;
        let send_total = send_parts * send_bytes;
        let recv_total = recv_parts * recv_bytes;
        if !both_in(0, MAX_TOTAL, send_total, recv_total) {
            return Err(GeometryFault::TooLong);
        }
        if send_total != recv_total {
            return Err(GeometryFault::SizeMismatch {
                send_total,
                recv_total,
            });
        }
        if !both_in(1, MAX_GRAIN, grain, grain) {
            return Err(GeometryFault::BadGrain);
        }
        if !both_in(1, MAX_DEPTH, depth, depth) {
            return Err(GeometryFault::BadDepth);
        }
        Ok(Geometry {
            send_parts,
            send_bytes,
            recv_parts,
            recv_bytes,
            grain,
            depth,
        })
    }

    /// How many partitions the sender has, 1 to 1,024.
    pub fn send_parts(&self) -> u32
        ensures value { result ≡ self.now.send_parts }
        ensures limits { IsWithin 1 MAX_PARTS result }
    {
        self.send_parts
    }

    /// How many bytes a send partition has, 1 to 1,048,576.
    pub fn send_bytes(&self) -> u32
        ensures value { result ≡ self.now.send_bytes }
        ensures limits { IsWithin 1 MAX_PART_BYTES result }
    {
        self.send_bytes
    }

    /// How many partitions the receiver has, 1 to 1,024.
    pub fn recv_parts(&self) -> u32
        ensures value { result ≡ self.now.recv_parts }
        ensures limits { IsWithin 1 MAX_PARTS result }
    {
        self.recv_parts
    }

    /// How many bytes a receive partition has, 1 to 1,048,576.
    pub fn recv_bytes(&self) -> u32
        ensures value { result ≡ self.now.recv_bytes }
        ensures limits { IsWithin 1 MAX_PART_BYTES result }
    {
        self.recv_bytes
    }

    /// The least bytes of a piece, 1 to 16,777,216.
    pub fn grain(&self) -> u32
        ensures value { result ≡ self.now.grain }
        ensures limits { IsWithin 1 MAX_GRAIN result }
    {
        self.grain
    }

    /// How many rounds may be in flight, 1 to 4.
    pub fn depth(&self) -> u32
        ensures value { result ≡ self.now.depth }
        ensures limits { IsWithin 1 MAX_DEPTH result }
    {
        self.depth
    }

    /// The bytes of the message, which both sides cut. The geometry keeps all limits.
    pub fn total(&self) -> u32
        ensures value { result ≡ send_total self.now }
        ensures limits { IsShape self.now }
    {
        self.send_parts * self.send_bytes
    }
}
