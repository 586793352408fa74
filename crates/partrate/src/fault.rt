//! Why nothing was measured.

use part_geometry::{GeometryFault, RecvTest, StartFault};
use part_recv::TakeRefusal;
use part_send::{ReadyRefusal, SendTest};
use std::alloc::AllocError;
use thiserror::Error;

/// Why nothing was measured.
#[derive(Clone, Copy, Debug, Error)]
pub enum Fault {
    /// The words are no command line.
    #[error("the words are no command line: partrate --help")]
    BadWords,
    /// The receive partitions can't have as many bytes each as the send partitions have in all.
    #[error("{total} bytes can't be shared by {recv_parts} partitions")]
    Uneven { total: u64, recv_parts: u32 },
    /// The numbers make no pair.
    #[error("{0}")]
    BadGeometry(GeometryFault),
    /// The number of rounds is out of its range.
    #[error("there are 1 to 2147483647 rounds")]
    BadRounds,
    /// A number of threads is out of its range.
    #[error("there are 1 to 256 marking threads, and at most 256 watching ones")]
    BadThreads,
    /// Memory ran out.
    #[error("memory ran out")]
    OutOfMemory(#[from(alloc)] AllocError),
    /// A thread couldn't be started.
    #[error("a thread can't be started")]
    NoThread,
    /// The clock couldn't be read.
    #[error("the clock can't be read")]
    NoClock,
    /// A byte that was taken isn't the one that was marked in that round.
    #[error("round {round}, partition {partition}: a wrong byte")]
    WrongByte { round: u32, partition: u32 },
    /// As many pieces went out as the rounds don't have.
    #[error("{sent} pieces were counted, and {closed} went out")]
    WrongPieces { sent: u64, closed: u64 },
    /// A round wasn't started.
    #[error("not started: {0}")]
    NotStarted(StartFault),
    /// A partition wasn't marked.
    #[error("not marked: {0}")]
    NotMarked(ReadyRefusal),
    /// A partition wasn't taken.
    #[error("not taken: {0}")]
    NotTaken(TakeRefusal),
    /// A round of the sender wasn't over where it had to be.
    #[error("not sent: {0:?}")]
    NotSent(SendTest),
    /// A round of the receiver wasn't over where it had to be.
    #[error("not received: {0:?}")]
    NotReceived(RecvTest),
    /// A watcher asked for a partition that isn't there.
    #[error("not watched")]
    NotWatched,
    /// A side was active or had threads out at the end.
    #[error("not ended")]
    NotEnded,
}

impl Fault {
    /// The status that the program ends with: 2 where the words are wrong, 3 where the system gave out, and else 1.
    pub fn status(self) -> u8 {
        match self {
            Fault::BadWords
            | Fault::Uneven { .. }
            | Fault::BadGeometry(_)
            | Fault::BadRounds
            | Fault::BadThreads => 2,
            Fault::OutOfMemory(_) | Fault::NoThread | Fault::NoClock => 3,
            _ => 1,
        }
    }
}
