#![tactic(auto)]

ghost use Rattle.std.specs.Prelude.{◌≡◌, ◌<◌, ◌-◌, ◌*◌, length, OnOk};
ghost use Rattle.std.specs.List.{All};
ghost use Rattle.halo_message.specs.declared.TheConstants.{ELEMENT_BYTES};
ghost use Rattle.halo_message.specs.Message.{elements, shape_of};
ghost use Rattle.halo_message.specs.Elements.{IsWord, decoded, part_end, part_start};

use halo_message::{Message, pair_at_rest, pass};
use pair_rule::AnyBytes;
use part_recv::Arrival;
use std::alloc::{AllocError, Global};

/// Passes values through a new pair in its first two rounds.
pub fn send_twice(
    alloc: Global,
    message: &Message,
    values: &[i64],
    bytes: &mut [u8],
    out: &mut [i64],
) -> Result<(), AllocError>
    requires values { length values.now ≡ message.now.values }
    requires words { All IsWord values.now }
    requires bytes { length bytes.old ≡ elements message.now * ELEMENT_BYTES }
    requires out { length out.old ≡ message.now.values }
    ensures { OnOk result (out.new ≡ values.now) }
{
    let mut pair = pair_at_rest(alloc, message)?;
    pass(&mut pair, message, 1, values, bytes, out);
    pass(&mut pair, message, 2, values, bytes, out);
    Ok(())
}

/// Reads the values in what was taken of a receive partition of the running pair.
pub fn read_taken(message: &Message, arrival: &Arrival<AnyBytes>, out: &mut [i64])
    requires part { arrival.now.partition < message.now.recv_parts }
    requires bytes { length arrival.now.bytes ≡ (shape_of message.now).recv_bytes }
    requires out { length out.old
        ≡ part_end message.now arrival.now.partition - part_start message.now arrival.now.partition }
    ensures { out.new ≡ decoded (length out.old) arrival.now.bytes }
{
    message.decode_part(arrival.partition(), arrival, out);
}
