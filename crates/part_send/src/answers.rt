//! The answers of the send end and of its markers.

use thiserror::Error;

/// Why a mark was refused. The causes are tried in this order, but for `BadRange`, which comes first where a range
/// is marked.
#[derive(Clone, Copy, Debug, PartialEq, Eq, Error)]
pub enum ReadyRefusal {
    /// The sender has no such partition.
    #[error("no such partition")]
    BadPartition,
    /// The bytes aren't as many as the partitions have.
    #[error("a wrong number of bytes")]
    BadLength,
    /// The partition's claim word was shut or of another round: `shown`, as the marker saw it last.
    #[error("not active in this round")]
    NotActive { shown: u64 },
    /// The partition's claim word, open in this round, had the partition: `shown`, as the marker saw it last.
    #[error("already marked")]
    AlreadyMarked { shown: u64 },
    /// The range is empty or ends past the last partition.
    #[error("a bad range")]
    BadRange,
}

/// Why the marks of a range or a list stopped. The partitions before stay marked.
#[derive(Clone, Copy, Debug, PartialEq, Eq, Error)]
#[error("{cause} after {at} marks")]
pub struct ReadyStop {
    /// How many partitions this call had marked.
    pub at: u32,
    /// Why the next one was refused, or the whole range or list, with `at` 0.
    pub cause: ReadyRefusal,
}

/// What a test of the send answers (`MPI_Test` of a partitioned send, MPI 4.0, 4.2.2).
#[derive(Clone, Copy, Debug, PartialEq, Eq)]
pub enum SendTest {
    /// The sender is inactive.
    Idle,
    /// This send partition, the least such one, isn't marked yet by its claim word, `shown`.
    Unmarked { partition: u32, shown: u64 },
    /// All are marked, and this piece, the least such one, isn't full yet by its word, `shown`.
    Unsent { piece: u32, shown: u64 },
    /// All is sent, and as many rounds as the depth are in flight after this released one.
    Unreleased { seen: u32 },
    /// All is sent, and the next round has room: the side is inactive.
    Done,
}
