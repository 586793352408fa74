//! Numbers that are multiples of both numbers of partitions.

ghost use Rattle.std.specs.Prelude.{◌≡◌, ◌≤◌};
ghost use Rattle.part_geometry.specs.declared.TheConstants.{MAX_PARTS};
ghost use Rattle.part_geometry.specs.Shape.{IsWithin};
ghost use Rattle.halo_message.specs.declared.TheConstants.{MAX_VALUES};
ghost use Rattle.halo_message.specs.Message.{first_shared, is_shared, shares_few};

use crate::MAX_MULTIPLE;

/// Whether a number is a multiple of both numbers of partitions.
fn is_shared(send_parts: u32, recv_parts: u32, n: u32) -> bool
    requires send_parts { IsWithin 1 MAX_PARTS send_parts }
    requires recv_parts { IsWithin 1 MAX_PARTS recv_parts }
    ensures { result ≡ is_shared send_parts recv_parts n }
{
    n % send_parts == 0 && n % recv_parts == 0
}

/// The first of the 8,192 numbers from `from` on that is a multiple of both numbers of partitions, if there is one.
pub(crate) fn first_shared(send_parts: u32, recv_parts: u32, from: u32) -> Option<u32>
    requires send_parts { IsWithin 1 MAX_PARTS send_parts }
    requires recv_parts { IsWithin 1 MAX_PARTS recv_parts }
    requires from { from ≤ MAX_VALUES }
    ensures { result ≡ first_shared send_parts recv_parts from }
{
    let step = send_parts.max(recv_parts);
    let mut n = from.div_ceil(step) * step;
    while n < from + MAX_MULTIPLE {
        if is_shared(send_parts, recv_parts, n) {
            return Some(n);
        }
        n += step;
    }
    None
}

/// Whether the least common multiple of the numbers of partitions of the two sides, each from 1 to 1,024, is at most
/// 8,192.
pub fn shares_few(send_parts: u32, recv_parts: u32) -> bool
    requires send_parts { IsWithin 1 MAX_PARTS send_parts }
    requires recv_parts { IsWithin 1 MAX_PARTS recv_parts }
    ensures { result ≡ shares_few send_parts recv_parts }
{
    first_shared(send_parts, recv_parts, 1).is_some()
}
