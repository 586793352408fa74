//! What each step tells. These types are for proofs alone.

ghost use Rattle.std.specs.Prelude.{◌^◌, bit_or};
ghost use Rattle.pair_core.specs.Names.{Claim, Release, Piece};
ghost use Rattle.pair_rule.specs.Steps.{goes};
ghost use Rattle.pair_rule.specs.Views.{saw, stored_piece, stored_claim, shut_claim};
ghost use Rattle.pair_rule.specs.Told.{Learns};
ghost use Rattle.pair_rule.specs.Marking.{tries, lays};

use crate::buf::CellBuf;
use crate::view::View;
use atomic_table::Play;
use std::marker::{Brand, PhantomData};

/// The numbers of a call: its round, partition, piece or word, as the call picks them.
pub trait Numbers {
    ghost use Rattle.std.specs.Prelude.{ℕ};

    ghost one: { ℕ };

    ghost two: { ℕ };
}

impl Numbers for Brand {
    ghost one = { 0 };

    ghost two = { 0 };
}

/// The send side stores the word of a piece.
pub(crate) struct StoresPiece<X> {
    numbers: PhantomData<X>,
}

impl<X: Numbers> Play<Option<CellBuf>, View> for StoresPiece<X> {
    ghost then = { goes (λ _ d. stored_piece X.one X.two d) (λ _ _. Unit {0}) };
}

/// The send side stores a claim word.
pub(crate) struct StoresClaim<X> {
    numbers: PhantomData<X>,
}

impl<X: Numbers> Play<Option<CellBuf>, View> for StoresClaim<X> {
    ghost then = { goes (λ _ d. stored_claim X.one d) (λ _ _. Unit {0}) };
}

/// The send side shuts a claim word.
pub(crate) struct ShutsClaim<X> {
    numbers: PhantomData<X>,
}

impl<X: Numbers> Play<Option<CellBuf>, View> for ShutsClaim<X> {
    ghost then = { goes (λ found d. shut_claim X.one (bit_or found (2 ^ 32)) d) (λ _ _. Unit {0}) };
}

/// The send side looks at the release word.
pub(crate) struct LoadsRelease;

impl Play<Option<CellBuf>, View> for LoadsRelease {
    ghost then = { goes (saw Release) (λ found d. Learns d Release found) };
}

/// A seat looks at a claim word.
pub(crate) struct LoadsClaim<X> {
    numbers: PhantomData<X>,
}

impl<X: Numbers> Play<Option<CellBuf>, View> for LoadsClaim<X> {
    ghost then = { goes (saw (Claim X.one)) (λ found d. Learns d (Claim X.one) found) };
}

/// A seat looks at the word of a piece at a place.
pub(crate) struct LoadsPiece<X> {
    numbers: PhantomData<X>,
}

impl<X: Numbers> Play<Option<CellBuf>, View> for LoadsPiece<X> {
    ghost then = { goes (saw (Piece X.one X.two)) (λ found d. Learns d (Piece X.one X.two) found) };
}

/// What a marker claims: the partition and the bytes of its mark.
pub trait Claimed {
    ghost use Rattle.std.specs.Prelude.{ℕ, List};

    ghost partition: { ℕ };

    ghost bytes: { List ℕ };
}

impl Claimed for Brand {
    ghost use Rattle.std.specs.Prelude.{[]};

    ghost partition = { 0 };

    ghost bytes = { [] };
}

/// A marker tries to claim a partition.
pub(crate) struct TriesClaim<X> {
    claimed: PhantomData<X>,
}

impl<X: Claimed> Play<Option<CellBuf>, View> for TriesClaim<X> {
    ghost then = { tries X.partition X.bytes };
}

/// A marker lays its pending partition into a piece.
pub(crate) struct LaysPiece<X> {
    numbers: PhantomData<X>,
}

impl<X: Numbers> Play<Option<CellBuf>, View> for LaysPiece<X> {
    ghost then = { lays X.one X.two };
}
