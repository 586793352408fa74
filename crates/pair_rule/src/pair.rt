//! The pair.

ghost use Rattle.std.specs.Prelude.{◌≡◌};
ghost use Rattle.part_geometry.specs.Shape.{IsShape};
ghost use Rattle.pair_rule.specs.Addresses.{table_size};

use crate::buf::CellBuf;
use crate::content::Content;
use crate::rule::{Key, Ruled};
use crate::view::View;
use atomic_table::Table;
use part_geometry::Geometry;
use part_tables::Tables;
use std::alloc::Global;
use std::marker::Model;

pub(crate) type Top<C> = Table<Option<CellBuf>, View, Key<<C as Content>::Tag>, Ruled<C>, Global>;

/// A partitioned send and the receive that it is paired with, for many threads (MPI 4.0, 4.2): atomic words and the
/// buffers of the cells, which are read and written through the seats of the pair. It may be shared by reference.
/// Contracts see which table it is, its geometry and its tag.
pub struct Pair<C: Content> {
    pub(crate) table: Top<C>,
    pub(crate) tables: Tables,
}

impl<C: Content> Model for Pair<C> {
    ghost use Rattle.std.specs.Prelude.{◌≡◌, ◌*◌};
    ghost use Rattle.part_geometry.specs.Shape.{IsShape};
    ghost use Rattle.pair_rule.specs.Addresses.{table_size};
    ghost use Rattle.pair_rule.specs.Rule.{slot_row};
    ghost use Rattle.pair_rule.specs.Seats.{PairOf};

    ghost Value = { PairOf C.Tag };

    ghost view = { λ p. record { table = p.table.shared.table_id; key = p.table.shared.key } };

    ghost invariant = { λ p. (p.tables ≡ p.table.shared.key.geometry) × IsShape p.table.shared.key.geometry
        × (p.table.shared.table_id.words ≡ table_size p.table.shared.key.geometry)
        × (p.table.shared.table_id.slots ≡ p.table.shared.key.geometry.depth * slot_row p.table.shared.key.geometry) };
}

impl<C: Content> Pair<C> {
    /// The pair's geometry.
    pub fn geometry(&self) -> Geometry
        ensures value { result ≡ self.now.key.geometry }
        ensures limits { IsShape self.now.key.geometry }
    {
        self.tables.geometry()
    }

    /// The tables of its geometry.
    pub fn tables(&self) -> &Tables
        ensures { result.now ≡ self.now.key.geometry }
    {
        &self.tables
    }

    /// Its parts.
    pub(crate) fn into_parts(self) -> (Top<C>, Tables)
        ensures parts { (result.0.shared.table_id ≡ self.table) × (result.0.shared.key ≡ self.key)
            × (result.1 ≡ self.key.geometry) }
        ensures limits { IsShape self.key.geometry × (self.table.words ≡ table_size self.key.geometry) }
    {
        let Pair { table, tables } = self;
        (table, tables)
    }
}

impl<C: Content> Drop for Pair<C> {
    fn drop(self) {
        drop(self.into_parts());
    }
}
