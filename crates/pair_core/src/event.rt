//! One step of a pair as five numbers.

/// An atomic step that a seat made on a word. A field that its kind doesn't use may hold any number.
///
/// | Kind | Step | Fields that it uses, besides the seat and the word |
/// |---|---|---|
/// | 1 | the send side stores a piece word, empty for a round | `round` |
/// | 2 | the send side stores a claim word, empty for its round | `round` |
/// | 3 | a seat loads a claim word | |
/// | 4 | a seat loads a piece word | |
/// | 5 | the send side loads the release word | |
/// | 6 | the send side shuts a claim word | |
/// | 7 | a marker tries to claim a send partition | `partition` |
/// | 8 | a marker lays its claimed partition into a piece | `partition` |
/// | 9 | the receive side stores a return word, empty for a round | `round` |
/// | 10 | the receive side stores a take word, empty for its round | `round` |
/// | 11 | the receive side takes a receive partition | `partition` |
/// | 12 | the receive side gives a receive partition back | `partition` |
/// | 13 | the receive side releases its round | `round` |
#[derive(Clone, Copy)]
pub struct Event {
    /// Who made it: 0 is the send side, 1 the receive side, an even number from 2 on a marker, an odd one from 3 on a
    /// watcher.
    pub seat: u32,
    /// Which step it was, 1 to 13.
    pub kind: u32,
    /// The number of the word.
    pub word: u32,
    /// The round, from 1 on.
    pub round: u32,
    /// The send or the receive partition.
    pub partition: u32,
}

/// What became of an event.
#[derive(Clone, Copy, Debug, PartialEq, Eq)]
pub enum Applied {
    /// It was allowed, and was made.
    Done {
        /// The round and the piece that went out by it, if one did.
        out: Option<(u32, u32)>,
        /// The round and the receive partition that was taken by it, if one was.
        take: Option<(u32, u32)>,
    },
    /// It isn't allowed, and nothing changed.
    NotAllowed,
}

impl Applied {
    ghost use Rattle.std.specs.Prelude.{◌≡◌, Some, None};
    ghost use Rattle.pair_core.specs.Events.{quiet};

    /// It was made, and nothing went out or was taken.
    pub(crate) fn quietly() -> Applied
        ensures { result ≡ quiet }
    {
        Applied::Done {
            out: None,
            take: None,
        }
    }

    /// It was made, and a receive partition was taken by it.
    pub(crate) fn taking(round: u32, partition: u32) -> Applied
        ensures { result ≡ Applied.Done None (Some (round, partition)) }
    {
        Applied::Done {
            out: None,
            take: Some((round, partition)),
        }
    }
    /// It was made, and a piece went out by it.
    pub(crate) fn sending(round: u32, piece: u32) -> Applied
        ensures { result ≡ Applied.Done (Some (round, piece)) None }
    {
        Applied::Done {
            out: Some((round, piece)),
            take: None,
        }
    }
}
