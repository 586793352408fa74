//! Answers that every kind of pair gives.

use std::error::Error;
use std::fmt;

/// A side of a pair (MPI 4.0, 4.2.1).
#[derive(Clone, Copy, Debug, PartialEq, Eq)]
pub enum Side {
    /// The sender (`MPI_Psend_init`).
    SendSide,
    /// The receiver (`MPI_Precv_init`).
    RecvSide,
}

/// What an accepted mark did (`MPI_Pready`, MPI 4.0, 4.2.2).
#[derive(Clone, Copy, Debug, PartialEq, Eq)]
pub struct Marked {
    /// The round of the mark, from 1 on.
    pub round: u32,
    /// The send partition that was marked.
    pub partition: u32,
    /// How many pieces this mark sent out.
    pub sent: u32,
}

/// What the marks of a range or a list did (`MPI_Pready_range`, `MPI_Pready_list`, MPI 4.0, 4.2.2).
#[derive(Clone, Copy, Debug, PartialEq, Eq)]
pub struct Marks {
    /// The round of the marks, from 1 on.
    pub round: u32,
    /// How many partitions were marked.
    pub count: u32,
    /// How many pieces these marks sent out.
    pub sent: u32,
}

/// Why a side wasn't started (`MPI_Start`, MPI 4.0, 3.9).
#[derive(Clone, Copy, Debug, PartialEq, Eq)]
pub enum StartFault {
    /// The side is active already, in this round.
    AlreadyActive { round: u32 },
    /// The side has had all 2,147,483,647 rounds.
    RoundsSpent,
}

impl fmt::Display for StartFault {
    fn fmt<W: fmt::Write>(&self, f: &mut fmt::Formatter<W>) -> fmt::Result {
        match self {
            StartFault::AlreadyActive { round } => write!(f, "already active in round {round}"),
            StartFault::RoundsSpent => f.write_str("all rounds are spent"),
        }
    }
}

impl Error for StartFault {}

/// What a test of a receive answers (`MPI_Test` of a partitioned receive, MPI 4.0, 4.2.2).
#[derive(Clone, Copy, Debug, PartialEq, Eq)]
pub enum RecvTest {
    /// The side is inactive.
    Idle,
    /// This receive partition, the least such one, isn't taken yet.
    Untaken { q: u32 },
    /// All are taken, and this one, the least such one, isn't given back.
    Out { q: u32 },
    /// All were taken and given back: the round is released and the side is inactive.
    Done,
}
