//! A message through a pair of one thread.

ghost use Rattle.std.specs.Prelude.{◌≡◌, ◌<◌, ◌≤◌, ◌+◌, ◌-◌, ◌*◌, length, IfOk};
ghost use Rattle.std.specs.List.{All};
ghost use Rattle.part_geometry.specs.declared.TheConstants.{LAST_ROUND};
ghost use Rattle.part_geometry.specs.Shape.{Shape, send_total};
ghost use Rattle.halo_message.specs.declared.TheConstants.{ELEMENT_BYTES};
ghost use Rattle.halo_message.specs.Message.{elements, shape_of};
ghost use Rattle.halo_message.specs.Elements.{IsWord, encoded};
ghost use Rattle.halo_message.specs.Passing.{IsMarking, IsTaking, RestsAt, Stands};

use crate::Message;
use part_geometry::Geometry;
use plain_pair::PlainPair;
use std::alloc::{AllocError, Global};

/// A pair for a message, before its first round. It takes all memory that the pair will ever use.
pub fn pair_at_rest(alloc: Global, message: &Message) -> Result<PlainPair, AllocError>
    ensures { IfOk result (RestsAt (shape_of message.now) 0) }
{
    PlainPair::create(alloc, message.geometry())
}

/// Starts the sender's next round, and marks each of its partitions with its part of the bytes.
fn send(pair: &mut PlainPair, geometry: Geometry, round: u32, bytes: &[u8])
    requires rests { RestsAt geometry (round - 1) pair.old }
    requires round { 1 ≤ round }
    requires last { round ≤ LAST_ROUND }
    requires bytes { length bytes.now ≡ send_total geometry }
    ensures marked { Stands geometry pair.new (IsMarking geometry round bytes.now geometry.send_parts) }
{
    let size = geometry.send_bytes() as usize;
    // A pair at rest starts.
    let _started = pair.start_send();
    for p in 0..geometry.send_parts() {
        let start = p as usize * size;
        // The partition has no mark in this round, so this one is accepted.
        let _marked = pair.pready(round, p, &bytes[start..start + size]);
    }
}

/// Passes values through the pair of a message in the pair's next round, which is `round`, from 1 to 2,147,483,647: all
/// partitions are marked with the message (MPI 4.0, 4.2.2), and each receive partition is taken and given back. `out`
/// gets the values; `bytes` is where the bytes of the message are made. The pair then rests after this round. It takes
/// no memory and has no refusal.
pub fn pass(
    pair: &mut PlainPair,
    message: &Message,
    round: u32,
    values: &[i64],
    bytes: &mut [u8],
    out: &mut [i64],
)
    requires rests { RestsAt (shape_of message.now) (round - 1) pair.old }
    requires round { 1 ≤ round }
    requires last { round ≤ LAST_ROUND }
    requires values { length values.now ≡ message.now.values }
    requires words { All IsWord values.now }
    requires bytes { length bytes.old ≡ elements message.now * ELEMENT_BYTES }
    requires out { length out.old ≡ message.now.values }
    ensures rests { RestsAt (shape_of message.now) round pair.new }
    ensures values { out.new ≡ values.now }
{
    let geometry = message.geometry();
    // The message has all values, for the proof.
    let _elements = message.elements();
    message.encode(values, bytes);
    send(pair, geometry, round, bytes);
    // The receiver starts too.
    let _started = pair.start_recv();
    for q in 0..geometry.recv_parts() {
        let (start, end) = message.part(q);
        match pair.take(q) {
            Ok(arrival) => {
                message.decode_bytes(
                    q,
                    arrival.as_slice(),
                    &mut out[start as usize..end as usize],
                );
                pair.give_back(arrival);
            }
            Err(_) => unreachable!(),
        }
    }
    // All is taken and given back, so the round is released.
    let _released = pair.test_recv();
    // All is marked, and the next round has room.
    let _sent = pair.test_send();
}
