//! What a request refuses.

/// Why a request wasn't started. The causes are tried in this order.
#[derive(Clone, Copy, Debug, PartialEq, Eq)]
pub enum ReqFault {
    /// The request is freed.
    Freed,
    /// The request isn't matched yet.
    Unmatched,
    /// The request is active already, in this round.
    AlreadyActive { round: u32 },
    /// The request has had all 2,147,483,647 rounds.
    RoundsSpent,
}

/// Why a request wasn't freed. The causes are tried in this order.
#[derive(Clone, Copy, Debug, PartialEq, Eq)]
pub enum FreeFault {
    /// The request is freed already.
    Freed,
    /// The request isn't matched yet.
    Unmatched,
    /// The request is active in this round.
    Active { round: u32 },
}

/// The request is freed, so it can't be tested.
#[derive(Clone, Copy, Debug, PartialEq, Eq)]
pub struct Freed;
