//! The rule of the table.

use crate::buf::CellBuf;
use crate::content::Content;
use crate::view::View;
use atomic_table::{Seat, TableRule};
use part_geometry::Geometry;
use std::marker::PhantomData;

/// What the table is told once, when it is made.
#[derive(Drop)]
pub struct Key<T> {
    /// The pair's geometry.
    pub geometry: Geometry,
    /// What its marks may say.
    pub tag: T,
}

/// The rule of a pair whose marks are of a content.
pub struct Ruled<C> {
    content: PhantomData<C>,
}

impl<C: Content> TableRule<Option<CellBuf>, View, Key<C::Tag>> for Ruled<C> {
    ghost use Rattle.pair_rule.specs.Rule.{Holds};
    ghost use Rattle.pair_rule.specs.First.{first_view};

    ghost holds = { λ key s. Holds C.may key s };

    ghost first = { λ key. first_view key.geometry };
}

/// A seat of the table.
pub(crate) type Place = Seat<Option<CellBuf>, View>;
