//! The answers of the receive end and of its watchers.

use thiserror::Error;

/// Whether a receive partition has arrived in the named round, by a watcher's look (`MPI_Parrived`, MPI 4.0,
/// 4.2.2).
#[derive(Clone, Copy, Debug, PartialEq, Eq)]
pub enum Look {
    /// The receiver has no such partition.
    BadPartition,
    /// This piece, the least such one over the partition, isn't full in the round. `shown` is its word.
    NotYet { piece: u32, shown: u64 },
    /// The word of a piece over the partition is of a later round already.
    Past { shown: u64 },
    /// All pieces over the partition were seen full in the round.
    Arrived,
}

/// Whether a receive partition has arrived in the end's round (`MPI_Parrived`, MPI 4.0, 4.2.2).
#[derive(Clone, Copy, Debug, PartialEq, Eq)]
pub enum EndLook {
    /// The end is inactive.
    Idle,
    /// The receiver has no such partition.
    BadPartition,
    /// This piece, the least such one over the partition, isn't full in the end's round. `shown` is its word.
    NotYet { piece: u32, shown: u64 },
    /// All pieces over the partition were seen full in the round.
    Arrived,
}

/// Why a partition wasn't taken. The causes are tried in this order.
#[derive(Clone, Copy, Debug, PartialEq, Eq, Error)]
pub enum TakeRefusal {
    /// The end is inactive.
    #[error("the receiver is inactive")]
    Idle,
    /// The receiver has no such partition.
    #[error("no such partition")]
    BadPartition,
    /// The partition was taken in this round already.
    #[error("already taken in round {round}")]
    AlreadyTaken { round: u32 },
    /// This piece, the least such one over the partition, isn't full in the end's round. `shown` is its word.
    #[error("piece {piece} isn't out yet")]
    NotYet { piece: u32, shown: u64 },
}
