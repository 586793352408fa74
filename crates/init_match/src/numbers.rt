//! The numbers of a call.

ghost use Rattle.std.specs.Prelude.{◌≡◌, OnOk};
ghost use Rattle.init_match.specs.Sound.{IsFit};
ghost use Rattle.init_match.specs.World.{is_within, number_answer};

use crate::answers::InitFault;
use crate::keys::Call;
use crate::{MAX_COMM, MAX_TAG};
use part_geometry::{MAX_PART_BYTES, MAX_PARTS, MAX_TOTAL};

/// Whether a number is from `low` to `high`.
pub(crate) fn is_within(low: u32, high: u32, n: u32) -> bool
    ensures { result ≡ is_within low high n }
{
    low <= n && n <= high
}

/// The first fault in the numbers of a call.
pub(crate) fn check_numbers(ranks: u32, call: Call) -> Result<(), InitFault>
    ensures answer { result ≡ number_answer ranks call }
    ensures fit { OnOk result (IsFit call) }
{
    if call.key.from >= ranks || call.key.to >= ranks {
        return Err(InitFault::BadRank);
    }
    if call.key.tag > MAX_TAG {
        return Err(InitFault::BadTag);
    }
    if call.key.comm > MAX_COMM {
        return Err(InitFault::BadComm);
    }
    if !is_within(1, MAX_PARTS, call.parts) {
        return Err(InitFault::BadParts);
    }
    if !is_within(1, MAX_PART_BYTES, call.bytes) {
        return Err(InitFault::BadBytes);
    }
    if call.parts * call.bytes > MAX_TOTAL {
        return Err(InitFault::TooLong);
    }
    Ok(())
}
