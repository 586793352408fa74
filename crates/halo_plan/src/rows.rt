//! The rows of an edge as a message.

ghost use Rattle.std.specs.Prelude.{◌≡◌, ◌<◌, ◌≤◌, ◌-◌, ◌*◌, ℤ, List, length, slice_range};
ghost use Rattle.std.specs.List.{All};
ghost use Rattle.part_geometry.specs.Shape.{IsShape, send_total};
ghost use Rattle.halo_message.specs.declared.TheConstants.{ELEMENT_BYTES};
ghost use Rattle.halo_message.specs.Elements.{IsWord, decoded, encoded, part_bytes, part_end, part_start};
ghost use Rattle.halo_plan.specs.Plan.{IsPlan, elements, message_of, shape_of, values};

use crate::HaloPlan;
use pair_rule::Content;
use part_geometry::Geometry;
use part_recv::Arrival;

impl HaloPlan {
    /// How many elements a message has: the least number from that of its values on that is a multiple of the numbers
    /// of partitions of both sides.
    pub fn elements(&self) -> u32
        ensures value { result ≡ elements self.now }
        ensures enough { values self.now ≤ result }
        ensures limits { IsPlan self.now }
    {
        self.message().elements()
    }

    /// How both sides of each edge cut its messages.
    pub fn geometry(&self) -> Geometry
        ensures value { result ≡ shape_of self.now }
        ensures whole { send_total result ≡ elements self.now * ELEMENT_BYTES }
        ensures limits { IsShape result }
    {
        self.message().geometry()
    }

    /// Makes the message of the rows of an edge, whose values come one row after another: an element each, 8 bytes in
    /// two's complement, low byte first, and then zeros.
    pub fn encode_rows(&self, rows: &[i64], out: &mut [u8])
        requires values { length rows.now ≡ values self.now }
        requires bytes { length out.old ≡ elements self.now * ELEMENT_BYTES }
        ensures { out.new ≡ encoded (message_of self.now) rows.now }
    {
        self.message().encode(rows, out);
    }

    /// Gives the values of receive partition `q` of a message, without the padding, of the partition's bytes. Where
    /// these are the partition of a message that was made of some rows, they are the rows' values.
    pub fn decode_bytes(&self, q: u32, bytes: &[u8], out: &mut [i64])
        requires part { q < self.now.recv_parts }
        requires bytes { length bytes.now ≡ (shape_of self.now).recv_bytes }
        requires out { length out.old ≡ part_end (message_of self.now) q - part_start (message_of self.now) q }
        ensures values { out.new ≡ decoded (length out.old) bytes.now }
        ensures rows { (rows : List ℤ) → length rows ≡ values self.now → All IsWord rows →
            bytes.now ≡ part_bytes (message_of self.now) q (encoded (message_of self.now) rows) →
            out.new ≡ slice_range rows (part_start (message_of self.now) q) (part_end (message_of self.now) q) }
    {
        self.message().decode_bytes(q, bytes, out);
    }

    /// Gives what `decode_bytes` gives of the bytes of an arrival of receive partition `q`. It takes no memory.
    pub fn decode_part<C: Content>(&self, q: u32, arrival: &Arrival<C>, out: &mut [i64])
        requires part { q < self.now.recv_parts }
        requires partition { arrival.now.partition ≡ q }
        requires bytes { length arrival.now.bytes ≡ (shape_of self.now).recv_bytes }
        requires out { length out.old ≡ part_end (message_of self.now) q - part_start (message_of self.now) q }
        ensures values { out.new ≡ decoded (length out.old) arrival.now.bytes }
        ensures rows { (rows : List ℤ) → length rows ≡ values self.now → All IsWord rows →
            arrival.now.bytes ≡ part_bytes (message_of self.now) q (encoded (message_of self.now) rows) →
            out.new ≡ slice_range rows (part_start (message_of self.now) q) (part_end (message_of self.now) q) }
    {
        self.message().decode_part(q, arrival, out);
    }
}
