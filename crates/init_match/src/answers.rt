//! The answers of a world.

use part_geometry::Geometry;
use std::alloc::AllocError;

/// Why three numbers make no world. They are tried in this order.
#[derive(Clone, Copy, Debug, PartialEq, Eq)]
pub enum WorldFault {
    /// The ranks aren't from 1 to 64.
    BadRanks,
    /// The grain isn't from 1 to 16,777,216.
    BadGrain,
    /// The depth isn't from 1 to 4.
    BadDepth,
}

/// Why an initialisation was refused. The causes are tried in this order, but for `NoMemory`, which may come in place
/// of any other answer.
#[derive(Clone, Copy, Debug, PartialEq, Eq)]
pub enum InitFault {
    /// There is no such rank.
    BadRank,
    /// The tag is above 32,767.
    BadTag,
    /// The communicator is above 15.
    BadComm,
    /// The number of partitions isn't from 1 to 1,024.
    BadParts,
    /// The bytes of a partition aren't from 1 to 1,048,576.
    BadBytes,
    /// There are more than 16,777,216 bytes in all.
    TooLong,
    /// The call that this one would be paired with has another number of bytes in all.
    SizeMismatch { send_total: u32, recv_total: u32 },
    /// With this call the accepted ones would have this many bytes in all, which is more than 67,108,864.
    WorldFull { sum: u64 },
    /// There is no memory for it.
    NoMemory,
}

impl From<AllocError> for InitFault {
    ghost use Rattle.std.specs.Prelude.{◌≡◌};
    ghost use Rattle.init_match.specs.declared.answers.InitFault.TheVariants.{NoMemory};

    ghost from_gives = { λ _ fault. fault ≡ NoMemory };

    fn from(_error: AllocError) -> InitFault {
        InitFault::NoMemory
    }
}

/// A pair: the slots of its two initialisations, and its geometry.
#[derive(Clone, Copy)]
pub struct Matched {
    /// The slot of the sender's initialisation.
    pub send_slot: u32,
    /// The slot of the receiver's.
    pub recv_slot: u32,
    /// How both sides cut the message.
    pub geometry: Geometry,
}
