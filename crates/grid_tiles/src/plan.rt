//! The plan.

ghost use Rattle.std.specs.Prelude.{◌≡◌, ◌<◌, ◌≤◌, ◌+◌, ◌*◌, IfOk};
ghost use Rattle.part_geometry.specs.declared.TheConstants.{MAX_RANKS};
ghost use Rattle.part_geometry.specs.Shape.{IsWithin};
ghost use Rattle.stencil_def.specs.declared.limits.TheConstants.{MAX_CELLS};
ghost use Rattle.stencil_def.specs.Limits.{IsSide};
ghost use Rattle.grid_tiles.specs.Plan.{IsPlan, IsTileShape, cut_at, tile_of, tiles};
ghost use Rattle.grid_tiles.specs.Making.{needs_more, plan_answer};

use crate::{Tile, TileShape};
use std::marker::Model;

/// Why numbers make no plan.
#[derive(Clone, Copy)]
pub enum TileFault {
    /// There are two rows of tiles or more, and together they need more rows than there are, or two columns of tiles or
    /// more, and together they need more columns: each tile needs as many as the weights reach.
    TooManyTiles {
        tile_rows: u32,
        tile_cols: u32,
        rows: u32,
        cols: u32,
    },
}

/// How the rows and columns of a grid go to tiles, and which messages pass between tiles in each step. Contracts see
/// the numbers that it was made of.
#[derive(Drop)]
pub struct TilePlan {
    pub(crate) rows: u32,
    pub(crate) cols: u32,
    pub(crate) tile_rows: u32,
    pub(crate) tile_cols: u32,
    pub(crate) shape: TileShape,
}

impl Model for TilePlan {
    ghost use Rattle.grid_tiles.specs.Plan.{Plan};

    ghost Value = { Plan };

    ghost use Rattle.grid_tiles.specs.Kept.{plan_of, IsKept};

    ghost view = { plan_of };

    ghost invariant = { IsKept };
}

/// Whether there are two parts or more, and together they need more rows, or columns, than there are.
fn needs_more(size: u32, parts: u32, reach: u32) -> bool
    requires parts { IsWithin 1 MAX_RANKS parts }
    requires reach { IsWithin 1 2 reach }
    ensures { result ≡ needs_more size parts reach }
{
    parts >= 2 && parts * reach > size
}

/// Where part `i` begins of so many rows, or columns, that are cut into so many parts.
pub(crate) fn cut_at(size: u32, parts: u32, i: u32) -> u32
    requires size { IsSide size }
    requires parts { IsWithin 1 MAX_RANKS parts }
    requires i { i ≤ parts }
    ensures value { result ≡ cut_at size parts i }
    ensures inside { result ≤ size }
{
    i * size / parts
}

impl TilePlan {
    /// The plan of a grid of this size over `tile_rows` times `tile_cols` tiles, 1 to 64 together, with messages of
    /// this shape. Refused with `TooManyTiles` exactly where there are two rows of tiles or more and their number times
    /// the reach is above the rows, or two columns of tiles or more and their number times the reach is above the
    /// columns; nothing else is refused. It takes no memory.
    pub fn new(
        rows: u32,
        cols: u32,
        tile_rows: u32,
        tile_cols: u32,
        shape: TileShape,
    ) -> Result<TilePlan, TileFault>
        requires rows { IsSide rows }
        requires cols { IsSide cols }
        requires cells { rows * cols ≤ MAX_CELLS }
        requires tile_rows { IsWithin 1 MAX_RANKS tile_rows }
        requires tile_cols { IsWithin 1 MAX_RANKS tile_cols }
        requires tiles { tile_rows * tile_cols ≤ MAX_RANKS }
        requires shape { IsTileShape shape }
        ensures answer { result ≡ plan_answer record {
          rows = rows;
          cols = cols;
          tile_rows = tile_rows;
          tile_cols = tile_cols;
          shape = shape;
        } }
        ensures limits { IfOk result IsPlan }
    {
        if needs_more(rows, tile_rows, shape.reach) || needs_more(cols, tile_cols, shape.reach) {
            return Err(TileFault::TooManyTiles {
                tile_rows,
                tile_cols,
                rows,
                cols,
            });
        }
        Ok(TilePlan {
            rows,
            cols,
            tile_rows,
            tile_cols,
            shape,
        })
    }

    /// How many rows the grid has.
    pub fn rows(&self) -> u32
        ensures value { result ≡ self.now.rows }
        ensures limits { IsPlan self.now }
    {
        self.rows
    }

    /// How many columns the grid has.
    pub fn cols(&self) -> u32
        ensures value { result ≡ self.now.cols }
        ensures limits { IsPlan self.now }
    {
        self.cols
    }

    /// How many rows of tiles there are.
    pub fn tile_rows(&self) -> u32
        ensures value { result ≡ self.now.tile_rows }
        ensures limits { IsPlan self.now }
    {
        self.tile_rows
    }

    /// How many columns of tiles there are.
    pub fn tile_cols(&self) -> u32
        ensures value { result ≡ self.now.tile_cols }
        ensures limits { IsPlan self.now }
    {
        self.tile_cols
    }

    /// How far the weights reach, 1 or 2.
    pub fn reach(&self) -> u32
        ensures value { result ≡ self.now.shape.reach }
        ensures limits { IsPlan self.now }
    {
        self.shape.reach
    }

    /// How many tiles there are, 1 to 64.
    pub fn tile_count(&self) -> u32
        ensures value { result ≡ tiles self.now }
        ensures limits { IsPlan self.now }
    {
        self.tile_rows * self.tile_cols
    }

    /// Which rows and columns tile `t` has. Tiles are counted row by row.
    pub fn tile(&self, t: u32) -> Tile
        requires { t < tiles self.now }
        ensures value { result ≡ tile_of self.now t }
        ensures some { (1 ≤ result.rows) × (1 ≤ result.cols) }
        ensures inside { (result.first_row + result.rows ≤ self.now.rows)
            × (result.first_col + result.cols ≤ self.now.cols) }
    {
        let (a, b) = (t / self.tile_cols, t % self.tile_cols);
        let first_row = cut_at(self.rows, self.tile_rows, a);
        let first_col = cut_at(self.cols, self.tile_cols, b);
        Tile {
            first_row,
            rows: cut_at(self.rows, self.tile_rows, a + 1) - first_row,
            first_col,
            cols: cut_at(self.cols, self.tile_cols, b + 1) - first_col,
        }
    }
}
