//! Values as bytes, and back.

ghost use Rattle.std.specs.Prelude.{◌≡◌, ◌<◌, ◌≤◌, ◌+◌, ◌-◌, ◌*◌, ℤ, List, length, replicate, flat_map, slice_range};
ghost use Rattle.std.specs.List.{All};
ghost use Rattle.halo_message.specs.declared.TheConstants.{ELEMENT_BYTES};
ghost use Rattle.halo_message.specs.Message.{elements, shape_of};
ghost use Rattle.halo_message.specs.Elements.{IsWord, decoded, encoded, element, part_bytes, part_end, part_start};

use crate::{ELEMENT_BYTES, Message};
use pair_rule::Content;
use part_recv::Arrival;

/// How many bytes an element has.
const SIZE: usize = ELEMENT_BYTES as usize;

/// How many elements are read from an arrival at a time.
const CHUNK: usize = 64;

/// The elements of values, one after another.
fn encode_all(values: &[i64], out: &mut [u8])
    requires { length out.old ≡ length values.now * ELEMENT_BYTES }
    ensures { out.new ≡ flat_map element values.now }
{
    for i in 0..values.len() {
        let start = i * SIZE;
        out[start..start + SIZE].copy_from_slice(&values[i].to_le_bytes());
    }
}

/// Makes each byte 0.
fn zero_all(out: &mut [u8])
    ensures { out.new ≡ replicate (length out.old) 0 }
{
    out.fill(0);
}

/// The values of the elements at the front of bytes, as many as there is room for.
fn decode_all(bytes: &[u8], out: &mut [i64])
    requires { length out.old * ELEMENT_BYTES ≤ length bytes.now }
    ensures { out.new ≡ decoded (length out.old) bytes.now }
{
    let mut element = [0; SIZE];
    for i in 0..out.len() {
        let start = i * SIZE;
        element.copy_from_slice(&bytes[start..start + SIZE]);
        out[i] = i64::from_le_bytes(element);
    }
}

/// The values of the elements at the front of an arrival, as many as there is room for. Its bytes are copied by chunks.
fn decode_chunks<C: Content>(arrival: &Arrival<C>, out: &mut [i64])
    requires { length out.old * ELEMENT_BYTES ≤ length arrival.now.bytes }
    ensures { out.new ≡ decoded (length out.old) arrival.now.bytes }
{
    // The number of its bytes has 32 bits, for the proof.
    let _len = arrival.len();
    let mut bytes = [0; CHUNK * SIZE];
    let mut done = 0;
    while done < out.len() {
        let count = CHUNK.min(out.len() - done);
        let chunk = &mut bytes[..count * SIZE];
        arrival.copy_range((done * SIZE) as u32, chunk);
        decode_all(chunk, &mut out[done..done + count]);
        done += count;
    }
}

impl Message {
    /// Which values are in receive partition `q`: the first, and the place behind the last. What the partition has
    /// behind them is padding.
    pub fn part(&self, q: u32) -> (u32, u32)
        requires { q < self.now.recv_parts }
        ensures value { result ≡ (part_start self.now q, part_end self.now q) }
        ensures inside { (result.0 ≤ result.1) × (result.1 ≤ self.now.values) }
        ensures room { (result.1 - result.0) * ELEMENT_BYTES ≤ (shape_of self.now).recv_bytes }
    {
        let own = self.geometry().recv_bytes() / ELEMENT_BYTES;
        let values = self.values();
        ((q * own).min(values), ((q + 1) * own).min(values))
    }

    /// Makes the bytes of the message of these values: an element each, 8 bytes in two's complement, low byte first,
    /// and then zeros.
    pub fn encode(&self, values: &[i64], out: &mut [u8])
        requires values { length values.now ≡ self.now.values }
        requires bytes { length out.old ≡ elements self.now * ELEMENT_BYTES }
        ensures { out.new ≡ encoded self.now values.now }
    {
        // The message has room for the values, for the proof.
        let _elements = self.elements();
        let end = values.len() * SIZE;
        encode_all(values, &mut out[..end]);
        zero_all(&mut out[end..]);
    }

    /// Gives the values of receive partition `q`, without the padding, of the partition's bytes. Where these are the
    /// partition of a message that was made of some values, they are those values.
    pub fn decode_bytes(&self, q: u32, bytes: &[u8], out: &mut [i64])
        requires part { q < self.now.recv_parts }
        requires bytes { length bytes.now ≡ (shape_of self.now).recv_bytes }
        requires out { length out.old ≡ part_end self.now q - part_start self.now q }
        ensures values { out.new ≡ decoded (length out.old) bytes.now }
        ensures sent { (sent : List ℤ) → length sent ≡ self.now.values → All IsWord sent →
            bytes.now ≡ part_bytes self.now q (encoded self.now sent) →
            out.new ≡ slice_range sent (part_start self.now q) (part_end self.now q) }
    {
        // The cut of the message, for the proof.
        let _geometry = self.geometry();
        // How many elements there are, for the proof.
        let _elements = self.elements();
        // The partition has room for its values, for the proof.
        let _part = self.part(q);
        decode_all(bytes, out);
    }

    /// Gives what `decode_bytes` gives of the bytes of an arrival of receive partition `q`. It takes no memory.
    pub fn decode_part<C: Content>(&self, q: u32, arrival: &Arrival<C>, out: &mut [i64])
        requires part { q < self.now.recv_parts }
        requires partition { arrival.now.partition ≡ q }
        requires bytes { length arrival.now.bytes ≡ (shape_of self.now).recv_bytes }
        requires out { length out.old ≡ part_end self.now q - part_start self.now q }
        ensures values { out.new ≡ decoded (length out.old) arrival.now.bytes }
        ensures sent { (sent : List ℤ) → length sent ≡ self.now.values → All IsWord sent →
            arrival.now.bytes ≡ part_bytes self.now q (encoded self.now sent) →
            out.new ≡ slice_range sent (part_start self.now q) (part_end self.now q) }
    {
        // The cut of the message, for the proof.
        let _geometry = self.geometry();
        // How many elements there are, for the proof.
        let _elements = self.elements();
        // The partition has room for its values, for the proof.
        let _part = self.part(q);
        decode_chunks(arrival, out);
    }
}
