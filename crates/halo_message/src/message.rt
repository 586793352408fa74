//! The numbers of a message.

ghost use Rattle.std.specs.Prelude.{◌≡◌, ◌<◌, ◌≤◌, ◌+◌, ◌*◌, IfOk, IsTrue, Ok, true};
ghost use Rattle.part_geometry.specs.declared.TheConstants.{MAX_DEPTH, MAX_GRAIN, MAX_PARTS};
ghost use Rattle.part_geometry.specs.Shape.{IsShape, IsWithin, send_total};
ghost use Rattle.halo_message.specs.declared.TheConstants.{ELEMENT_BYTES, MAX_MULTIPLE, MAX_VALUES};
ghost use Rattle.halo_message.specs.Message.{IsMessage, cut_as, elements, is_shared, shape_of, shares_few};

use crate::ELEMENT_BYTES;
use crate::parts::first_shared;
use part_geometry::{Geometry, GeometryFault};
use std::marker::Model;

/// A message of values that are sent in order, an element each, with zero elements behind them up to a length that the
/// partitions of both sides divide. Contracts see how many values there are, the numbers of partitions, the grain and
/// the depth.
#[derive(Drop)]
pub struct Message {
    values: u32,
    elements: u32,
    geometry: Geometry,
}

impl Model for Message {
    ghost use Rattle.halo_message.specs.Message.{Message};

    ghost Value = { Message };

    ghost use Rattle.halo_message.specs.Kept.{message_of, IsKept};

    ghost view = { message_of };

    ghost invariant = { IsKept };
}

/// How both sides cut so many elements, a multiple of both numbers of partitions.
fn cut(
    elements: u32,
    send_parts: u32,
    recv_parts: u32,
    grain: u32,
    depth: u32,
) -> Result<Geometry, GeometryFault>
    requires elements { IsWithin 1 (MAX_VALUES + MAX_MULTIPLE) elements }
    requires shared { is_shared send_parts recv_parts elements ≡ true }
    requires send_parts { IsWithin 1 MAX_PARTS send_parts }
    requires recv_parts { IsWithin 1 MAX_PARTS recv_parts }
    requires grain { IsWithin 1 MAX_GRAIN grain }
    requires depth { IsWithin 1 MAX_DEPTH depth }
    ensures value { result ≡ Ok (cut_as elements send_parts recv_parts grain depth) }
    ensures limits { IfOk result IsShape }
{
    let send_bytes = elements / send_parts * ELEMENT_BYTES;
    let recv_bytes = elements / recv_parts * ELEMENT_BYTES;
    Geometry::new(send_parts, send_bytes, recv_parts, recv_bytes, grain, depth)
}

impl Message {
    /// The message of so many values, 1 to 8,200, that has `send_parts` partitions at the sender and `recv_parts` at
    /// the receiver, each 1 to 1,024, with pieces of at least `grain` bytes and `depth` rounds in flight. The least
    /// common multiple of the numbers of partitions is at most 8,192, which `shares_few` tells. It takes no memory and
    /// has no refusal.
    pub fn new(values: u32, send_parts: u32, recv_parts: u32, grain: u32, depth: u32) -> Message
        requires values { IsWithin 1 MAX_VALUES values }
        requires send_parts { IsWithin 1 MAX_PARTS send_parts }
        requires recv_parts { IsWithin 1 MAX_PARTS recv_parts }
        requires multiple { IsTrue (shares_few send_parts recv_parts) }
        requires grain { IsWithin 1 MAX_GRAIN grain }
        requires depth { IsWithin 1 MAX_DEPTH depth }
        ensures value { result ≡ record {
          values = values;
          send_parts = send_parts;
          recv_parts = recv_parts;
          grain = grain;
          depth = depth;
        } }
        ensures limits { IsMessage result }
    {
        let elements = first_shared(send_parts, recv_parts, values).unwrap();
        let geometry = cut(elements, send_parts, recv_parts, grain, depth).unwrap();
        Message {
            values,
            elements,
            geometry,
        }
    }

    /// How many values are sent.
    pub fn values(&self) -> u32
        ensures value { result ≡ self.now.values }
        ensures limits { IsMessage self.now }
    {
        self.values
    }

    /// How many elements the message has: the least number from that of its values on that is a multiple of the numbers
    /// of partitions of both sides.
    pub fn elements(&self) -> u32
        ensures value { result ≡ elements self.now }
        ensures enough { self.now.values ≤ result }
        ensures few { result < self.now.values + MAX_MULTIPLE }
        ensures limits { IsMessage self.now }
    {
        self.elements
    }

    /// How both sides cut the message.
    pub fn geometry(&self) -> Geometry
        ensures value { result ≡ shape_of self.now }
        ensures whole { send_total result ≡ elements self.now * ELEMENT_BYTES }
        ensures limits { IsShape result }
    {
        self.geometry
    }
}
