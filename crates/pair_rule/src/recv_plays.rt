//! What each step of the receive side tells. These types are for proofs alone.

ghost use Rattle.pair_rule.specs.Steps.{goes};
ghost use Rattle.pair_rule.specs.Views.{stored_return, stored_take, released};
ghost use Rattle.pair_rule.specs.Parts.{takes_out, gives_home};

use crate::buf::CellBuf;
use crate::plays::Numbers;
use crate::view::View;
use atomic_table::Play;
use std::marker::{Brand, PhantomData};

/// The receive side stores a return word.
pub(crate) struct StoresReturn<X> {
    numbers: PhantomData<X>,
}

impl<X: Numbers> Play<Option<CellBuf>, View> for StoresReturn<X> {
    ghost then = { goes (λ _ d. stored_return X.one X.two d) (λ _ _. Unit {0}) };
}

/// The receive side stores a take word.
pub(crate) struct StoresTake<X> {
    numbers: PhantomData<X>,
}

impl<X: Numbers> Play<Option<CellBuf>, View> for StoresTake<X> {
    ghost then = { goes (λ _ d. stored_take X.one d) (λ _ _. Unit {0}) };
}

/// The receive side releases its round.
pub(crate) struct Releases;

impl Play<Option<CellBuf>, View> for Releases {
    ghost then = { goes (λ _ d. released d) (λ _ _. Unit {0}) };
}

/// The partition of a call, and which bytes it may find there, by round, place of the message and byte.
pub trait Finds {
    ghost use Rattle.std.specs.Prelude.{ℕ};

    ghost part: { ℕ };

    ghost may: { ℕ → ℕ → ℕ → Type 0 };
}

impl Finds for Brand {
    ghost part = { 0 };

    ghost may = { λ _ _ _. Unit {0} };
}

/// The receive side takes a partition.
pub(crate) struct TakesPart<X> {
    finds: PhantomData<X>,
}

impl<X: Finds> Play<Option<CellBuf>, View> for TakesPart<X> {
    ghost then = { takes_out X.may X.part };
}

/// The receive side gives a partition back.
pub(crate) struct ReturnsPart<X> {
    numbers: PhantomData<X>,
}

impl<X: Numbers> Play<Option<CellBuf>, View> for ReturnsPart<X> {
    ghost then = { gives_home X.one };
}
