//! What the sides and the seats of a pair know.

use std::collections::LinkedList;

/// A mark of a send partition, or a take of a receive partition, in a round. `with` is what a layer above keeps of
/// it; the core reads nothing of it.
#[derive(Clone, Copy)]
pub struct Mark<A> {
    /// The round, from 1 on.
    pub round: u32,
    /// The partition.
    pub partition: u32,
    /// What a layer above keeps of it.
    pub with: A,
}

/// A claim that pends: a partition was claimed in a round, and not all of its pieces have it yet.
#[derive(Drop)]
pub struct Pending {
    /// The round.
    pub round: u32,
    /// The send partition.
    pub partition: u32,
    /// The pieces that have it so far, the newest first.
    pub laid: LinkedList<u32>,
}

/// How far the send side has come in its round. Where `shut` is the number of claim words the side is idle; where
/// only `opened` is, it is active.
#[derive(Clone, Copy)]
pub struct SendSide {
    /// The round, 0 before the first one.
    pub round: u32,
    /// How many piece words are stored for this round.
    pub pieces: u32,
    /// How many claim words are stored for this round.
    pub opened: u32,
    /// How many claim words are shut in this round.
    pub shut: u32,
    /// How many markers are out.
    pub markers: u64,
}

/// How far the receive side has come in its round. Where `released` is 1 the side is idle; where it isn't and
/// `takes` is the number of take words, the side is active.
#[derive(Clone, Copy)]
pub struct RecvSide {
    /// The round, 0 before the first one.
    pub round: u32,
    /// How many return words are stored for this round.
    pub returns: u32,
    /// How many take words are stored for this round.
    pub takes: u32,
    /// 1 where the release of this round is stored, else 0.
    pub released: u32,
    /// How many watchers are out.
    pub watchers: u64,
}

/// Whether a seat has a view.
pub enum Life {
    /// It has none so far.
    Blank,
    /// It has one.
    Live,
    /// It had one, which was joined into its side's.
    Spent,
}
