//! What a seat of the table knows.

use pair_core::view::{Mark, Pending, RecvSide, SendSide};
use part_geometry::Geometry;
use std::collections::LinkedList;

/// What a view is.
pub enum Standing {
    /// That of a seat of the pair.
    Seated,
    /// That of a note: it tells what its giver had seen, and makes no step.
    Told,
    /// One that was joined into another.
    Spent,
    /// That of a pair that was closed: it has what both sides had.
    Closed,
}

/// What a seat knows, as contracts see it. No value of it is made.
pub struct View {
    /// What it is the view of.
    pub standing: Standing,
    /// The seat's number in the core: 0 is the send side, 1 the receive side, the even numbers from 2 on are markers,
    /// the odd ones from 3 on watchers, in the order in which they are made.
    pub number: u64,
    /// The pair's geometry.
    pub geometry: Geometry,
    /// Of a side: how many markers or watchers it has made.
    pub made: u64,
    /// Of the send side: the receive side isn't made yet.
    pub alone: bool,
    /// Of the send side: how far it has come in its round.
    pub send: SendSide,
    /// Of the receive side: how far it has come in its round.
    pub recv: RecvSide,
    /// The word that it has last seen of each, by number.
    pub seen: LinkedList<u64>,
    /// How often it has stepped on each word, by number.
    pub looks: LinkedList<u64>,
    /// Of a marker: the claim that it has pending.
    pub pending: Option<Pending>,
    /// The marks that it has made or that were joined into it, the newest first, each with its bytes.
    pub marks: LinkedList<Mark<LinkedList<u8>>>,
    /// Of the receive side: the takes that it has made, the newest first, each with its bytes.
    pub takes: LinkedList<Mark<LinkedList<u8>>>,
}
