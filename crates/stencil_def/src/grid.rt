//! A grid of whole numbers.

ghost use Rattle.std.specs.Prelude.{◌≡◌, ◌*◌, ◌<◌, ◌≤◌, IfOk, vec_len};
ghost use Rattle.std.specs.List.{All};
ghost use Rattle.stencil_def.specs.Limits.{IsSide, IsValue};
ghost use Rattle.stencil_def.specs.Plane.{IsPlane, cell, row_of, zero_plane, with_cell, plane_of};

use crate::MAX_CELLS;
use std::alloc::{AllocError, Global};
use std::marker::Model;

/// A grid of 1 to 4,096 rows and 1 to 4,096 columns, with at most 1,000,000 cells, each from -10^12 to 10^12.
/// Rows and columns are numbered from 0. Contracts see a `Plane`.
#[derive(Drop)]
pub struct Grid {
    rows: u32,
    cols: u32,
    values: Vec<i64>,
}

impl Model for Grid {
    ghost use Rattle.stencil_def.specs.Plane.{Plane, IsPlane};

    ghost Value = { Plane };

    ghost view = { λ g. record {
      rows = g.rows;
      cols = g.cols;
      values = g.values.items;
    } };

    ghost invariant = { λ g. IsPlane record {
      rows = g.rows;
      cols = g.cols;
      values = g.values.items;
    } };
}

impl Grid {
    /// The grid of this many rows and columns with 0 in each cell.
    pub fn zeros(alloc: Global, rows: u32, cols: u32) -> Result<Grid, AllocError>
        requires rows { IsSide rows }
        requires cols { IsSide cols }
        requires cells { rows * cols ≤ MAX_CELLS }
        ensures zeros { IfOk result (λ grid. grid ≡ zero_plane rows cols) }
        ensures limits { IfOk result IsPlane }
    {
        let values = vec![in alloc; 0; (rows * cols) as usize]?;
        Ok(Grid { rows, cols, values })
    }

    /// The grid of this many rows and columns with these values, row by row. It takes no memory.
    pub fn from_values(rows: u32, cols: u32, values: Vec<i64>) -> Grid
        requires rows { IsSide rows }
        requires cols { IsSide cols }
        requires cells { rows * cols ≤ MAX_CELLS }
        requires length { vec_len values ≡ rows * cols }
        requires values { All IsValue values.items }
        ensures value { result ≡ plane_of rows cols values.items }
        ensures limits { IsPlane result }
    {
        Grid { rows, cols, values }
    }

    /// How many rows there are, 1 to 4,096.
    pub fn rows(&self) -> u32
        ensures value { result ≡ self.now.rows }
        ensures limits { IsPlane self.now }
    {
        self.rows
    }

    /// How many columns there are, 1 to 4,096.
    pub fn cols(&self) -> u32
        ensures value { result ≡ self.now.cols }
        ensures limits { IsPlane self.now }
    {
        self.cols
    }

    /// The value of the cell at this row and column, from -10^12 to 10^12.
    pub fn at(&self, row: u32, col: u32) -> i64
        requires row { row < self.now.rows }
        requires col { col < self.now.cols }
        ensures value { result ≡ cell self.now row col }
        ensures limits { IsValue result }
    {
        self.values[(row * self.cols + col) as usize]
    }

    /// Puts a value, from -10^12 to 10^12, into the cell at this row and column.
    pub fn set(&mut self, row: u32, col: u32, value: i64)
        requires row { row < self.old.rows }
        requires col { col < self.old.cols }
        requires value { IsValue value }
        ensures value { self.new ≡ with_cell self.old row col value }
        ensures limits { IsPlane self.new }
    {
        self.values[(row * self.cols + col) as usize] = value;
    }

    /// The values of this row, as many as there are columns, from the left.
    pub fn row(&self, row: u32) -> &[i64]
        requires { row < self.now.rows }
        ensures values { result.now ≡ row_of self.now row }
        ensures limits { IsPlane self.now }
    {
        let start = (row * self.cols) as usize;
        &self.values[start..start + self.cols as usize]
    }

    /// All values, row by row.
    pub fn values(&self) -> &[i64]
        ensures values { result.now ≡ self.now.values }
        ensures limits { IsPlane self.now }
    {
        &self.values
    }

    /// The same grid in memory of its own.
    pub(crate) fn copy(&self, alloc: Global) -> Result<Grid, AllocError>
        ensures same { IfOk result (λ grid. grid ≡ self.now) }
        ensures limits { IfOk result IsPlane }
    {
        let values = self.values.to_vec(alloc)?;
        Ok(Grid {
            rows: self.rows,
            cols: self.cols,
            values,
        })
    }
}
