//! How a pair is made.

ghost use Rattle.std.specs.Prelude.{◌≡◌, [], IfOk};
ghost use Rattle.pair_rule.specs.First.{first_view, in_company, receiver};
ghost use Rattle.pair_rule.specs.Parts.{first_lanes, first_shelves};

use crate::content::Content;
use crate::first::{first_bufs, first_table};
use crate::pair::Pair;
use crate::rule::Key;
use crate::seats::{RecvSeat, SendSeat};
use crate::take::{lay_lanes, lay_shelves};
use crate::view::View;
use atomic_table::{Split, Table};
use part_geometry::Geometry;
use part_tables::Tables;
use std::alloc::{AllocError, Global};
use std::marker::PhantomData;

/// The receive side is made.
pub(crate) struct Receives;

impl Split<View> for Receives {
    ghost left = { in_company };

    ghost right = { receiver };
}

impl<C: Content> Pair<C> {
    /// A pair of a geometry, whose marks may say what the content allows with this tag, and the seats of its two
    /// sides (MPI 4.0, 4.2.1). Both sides are idle in round 0. All memory that the pair and its sides need is taken
    /// here; where some isn't given the answer is `AllocError`, and nothing is kept.
    pub fn create(
        alloc: Global,
        geometry: Geometry,
        tag: C::Tag,
    ) -> Result<(Pair<C>, SendSeat<C>, RecvSeat<C>), AllocError>
        ensures pair { IfOk result (λ made. made.0.key ≡ record { geometry = geometry; tag = tag }) }
        ensures send { IfOk result (λ made. made.1 ≡ record {
          table = made.0.table;
          view = in_company (first_view geometry);
        }) }
        ensures recv { IfOk result (λ made. made.2 ≡ record {
          table = made.0.table;
          view = receiver (first_view geometry);
          lanes = first_lanes geometry;
          slots = [];
          shelves = first_shelves geometry;
        }) }
    {
        let tables = Tables::new(alloc, geometry)?;
        // Before the lanes, so that these don't stand beside the tables, which other threads read.
        let words = first_table(alloc, &tables)?;
        let lanes = lay_lanes(alloc, &tables)?;
        let shelves = lay_shelves(alloc, &tables)?;
        let bufs = first_bufs(alloc, &tables)?;
        let key = Key { geometry, tag };
        let made = Table::new(alloc, &words, bufs, &key);
        let Ok((table, mut send)) = made else {
            return Err(AllocError);
        };
        let recv = table.shared.split_seat::<Receives>(&mut send);
        let send = SendSeat {
            seat: send,
            round: 0,
            content: PhantomData,
        };
        let recv = RecvSeat {
            seat: recv,
            round: 0,
            lanes,
            shelves,
            content: PhantomData,
        };
        Ok((Pair { table, tables }, send, recv))
    }
}
