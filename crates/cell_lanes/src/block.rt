//! A part of a grid with a halo, for whoever computes a grid in parts.

ghost use Rattle.std.specs.Prelude.{◌≡◌, ◌⊎◌, ℕ, ◌+◌, ◌*◌, ◌<◌, ◌≤◌, ◌++◌, pos, length, take, drop};
ghost use Rattle.std.specs.Prelude.{slice_index_or, IfOk};
ghost use Rattle.std.specs.List.{All};
ghost use Rattle.stencil_def.specs.declared.rule.Rule.{Rule};
ghost use Rattle.stencil_def.specs.Limits.{IsSide, IsValue, IsWithin};
ghost use Rattle.stencil_def.specs.Plane.{Plane, IsPlane};
ghost use Rattle.stencil_def.specs.Step.{next_plane};
ghost use Rattle.cell_lanes.specs.Block.{Holds, HoldsMiddle, HoldsOwn, HoldsOwnBelow, HoldsRow};
ghost use Rattle.cell_lanes.specs.Block.{IsInside, IsPart, SameRow, SameSize};
ghost use Rattle.cell_lanes.specs.Block.{cells_at, height, own_cells, part_of, width, with_cells};
ghost use Rattle.cell_lanes.specs.Change.{IsChange, change_within};
ghost use Rattle.cell_lanes.specs.Padding.{end_or, with_ends};

use crate::change::row_change;
use crate::padded::zeros;
use crate::row::set_ends;
use crate::{Divisor, LaneWeights, new_cells};
use std::alloc::{AllocError, Global};
use std::marker::Model;
use std::mem;
use stencil_def::{Grid, Rule};

/// A part of a grid: some rows and columns of its own, and a halo round them, as wide as the weights reach, which its
/// caller fills before each step. Contracts see a `Part`, whose places are counted from the halo's first row and
/// column.
#[derive(Drop)]
pub struct Block {
    rows: u32,
    cols: u32,
    reach: u32,
    values: Vec<i64>,
    next: Vec<i64>,
}

impl Model for Block {
    ghost use Rattle.std.specs.Prelude.{◌≡◌, length};
    ghost use Rattle.std.specs.List.{All};
    ghost use Rattle.stencil_def.specs.Limits.{IsValue};
    ghost use Rattle.cell_lanes.specs.Block.{Part, IsPart, part_of};

    ghost Value = { Part };

    ghost view = { λ b. part_of b.rows b.cols b.reach b.values.items };

    ghost invariant = { λ b. IsPart (part_of b.rows b.cols b.reach b.values.items)
        × IsPart (part_of b.rows b.cols b.reach b.next.items) };
}

/// Computes the own cells of a row of a part, whose values these are, into the same places of `next`.
fn next_own_row(
    values: &[i64],
    rows: u32,
    cols: u32,
    reach: u32,
    row: u32,
    weights: &LaneWeights,
    divisor: &Divisor,
    next: &mut [i64],
)
    requires part { IsPart (part_of rows cols reach values.now) }
    requires next { IsPart (part_of rows cols reach next.old) }
    requires reach { weights.now.reach ≡ reach }
    requires row { row < rows }
    ensures own { (g : Plane) (rule : Rule) (top left : ℕ) → weights.now ≡ rule.weights → divisor.now ≡ rule.div →
        Holds g rule top left (part_of rows cols reach values.now) →
        IsInside g top left (part_of rows cols reach values.now) →
        HoldsOwnBelow (next_plane g rule) top left row (part_of rows cols reach next.old) →
        HoldsOwnBelow (next_plane g rule) top left (row + 1) (part_of rows cols reach next.new) }
    ensures limits { IsPart (part_of rows cols reach next.new) }
{
    let width = cols + 2 * reach;
    let above = (row * width) as usize;
    let start = ((reach + row) * width + reach) as usize;
    let window = &values[above..above + ((2 * reach + 1) * width) as usize];
    let cells = &mut next[start..start + cols as usize];
    new_cells(window, width, weights, divisor, cells);
}

/// Computes the own cells of a part, whose values these are, into the own places of `next`.
fn next_own(
    values: &[i64],
    rows: u32,
    cols: u32,
    reach: u32,
    weights: &LaneWeights,
    divisor: &Divisor,
    next: &mut [i64],
)
    requires part { IsPart (part_of rows cols reach values.now) }
    requires next { IsPart (part_of rows cols reach next.old) }
    requires reach { weights.now.reach ≡ reach }
    ensures own { (g : Plane) (rule : Rule) (top left : ℕ) → weights.now ≡ rule.weights → divisor.now ≡ rule.div →
        Holds g rule top left (part_of rows cols reach values.now) →
        IsInside g top left (part_of rows cols reach values.now) →
        HoldsOwn (next_plane g rule) top left (part_of rows cols reach next.new) }
    ensures limits { IsPart (part_of rows cols reach next.new) }
{
    for row in 0..rows {
        next_own_row(values, rows, cols, reach, row, weights, divisor, next);
    }
}

/// The same, and the greatest change of an own cell. It is found in each row right after the row is computed.
fn next_own_changed(
    values: &[i64],
    rows: u32,
    cols: u32,
    reach: u32,
    weights: &LaneWeights,
    divisor: &Divisor,
    next: &mut [i64],
) -> i64
    requires part { IsPart (part_of rows cols reach values.now) }
    requires next { IsPart (part_of rows cols reach next.old) }
    requires reach { weights.now.reach ≡ reach }
    ensures own { (g : Plane) (rule : Rule) (top left : ℕ) → weights.now ≡ rule.weights → divisor.now ≡ rule.div →
        Holds g rule top left (part_of rows cols reach values.now) →
        IsInside g top left (part_of rows cols reach values.now) →
        HoldsOwn (next_plane g rule) top left (part_of rows cols reach next.new) }
    ensures change { (g : Plane) (rule : Rule) (top left : ℕ) → weights.now ≡ rule.weights → divisor.now ≡ rule.div →
        Holds g rule top left (part_of rows cols reach values.now) →
        IsInside g top left (part_of rows cols reach values.now) →
        result ≡ pos (change_within g (next_plane g rule) top rows left cols) }
    ensures range { IsChange result }
    ensures limits { IsPart (part_of rows cols reach next.new) }
{
    let mut most = 0;
    for row in 0..rows {
        next_own_row(values, rows, cols, reach, row, weights, divisor, next);
        most = most.max(row_change(values, next, rows, cols, reach, row));
    }
    most
}

/// Puts values into the place of those from `start` on.
fn put_cells(values: &mut [i64], rows: u32, cols: u32, reach: u32, start: usize, cells: &[i64])
    requires part { IsPart (part_of rows cols reach values.old) }
    requires room { start + length cells.now ≤ length values.old }
    requires cells { All IsValue cells.now }
    ensures put { values.new ≡ take start values.old ++ (cells.now ++ drop (start + length cells.now) values.old) }
    ensures limits { IsPart (part_of rows cols reach values.new) }
{
    values[start..start + cells.len()].copy_from_slice(cells);
}

/// Gives the places of a row before and behind its own columns what lies there.
fn set_row_ends(rule: &Rule, cols: u32, row: &mut [i64])
    requires cols { IsSide cols }
    requires row { length row.old ≡ with_ends rule.now cols }
    requires values { All IsValue row.old }
    ensures cells { (x : ℕ) → x < with_ends rule.now cols → slice_index_or row.new x (pos 0) ≡
        end_or rule.now cols (λ col. slice_index_or row.old (rule.now.weights.reach + col) (pos 0)) x }
    ensures limits { All IsValue row.new }
{
    let reach = rule.weights.reach();
    let end = reach + cols;
    set_ends(rule, cols, 0, reach, row);
    set_ends(rule, cols, end, end + reach, row);
}

/// Gives the ends of some rows of a part what lies there.
fn set_all_ends(rule: &Rule, rows: u32, cols: u32, from: u32, to: u32, values: &mut [i64])
    requires part { IsPart (part_of rows cols rule.now.weights.reach values.old) }
    requires order { from ≤ to }
    requires end { to ≤ rows + 2 * rule.now.weights.reach }
    ensures ends { (g : Plane) (top y : ℕ) → g.cols ≡ cols → from ≤ y → y < to →
        HoldsMiddle g rule.now top y (part_of rows cols rule.now.weights.reach values.old) →
        HoldsRow g rule.now top y (part_of rows cols rule.now.weights.reach values.new) }
    ensures rest { (y : ℕ) → (y < from) ⊎ (to ≤ y) →
        SameRow y (part_of rows cols rule.now.weights.reach values.old)
        (part_of rows cols rule.now.weights.reach values.new) }
    ensures limits { IsPart (part_of rows cols rule.now.weights.reach values.new) }
{
    let width = cols + 2 * rule.weights.reach();
    for y in from..to {
        let start = (y * width) as usize;
        set_row_ends(rule, cols, &mut values[start..start + width as usize]);
    }
}

impl Block {
    /// A part of so many rows and columns with a halo of so many more on each side, 1 or 2, with 0 in each place.
    pub fn zeros(alloc: Global, rows: u32, cols: u32, reach: u32) -> Result<Block, AllocError>
        requires rows { IsSide rows }
        requires cols { IsSide cols }
        requires reach { IsWithin 1 2 reach }
        ensures size { IfOk result (λ block. (block.rows ≡ rows) × (block.cols ≡ cols) × (block.reach ≡ reach)) }
        ensures limits { IfOk result IsPart }
    {
        let len = ((rows + 2 * reach) * (cols + 2 * reach)) as usize;
        let values = zeros(alloc, len)?;
        let next = zeros(alloc, len)?;
        Ok(Block {
            rows,
            cols,
            reach,
            values,
            next,
        })
    }

    /// How many rows it has of its own.
    pub fn rows(&self) -> u32
        ensures value { result ≡ self.now.rows }
        ensures limits { IsPart self.now }
    {
        self.rows
    }

    /// How many columns it has of its own.
    pub fn cols(&self) -> u32
        ensures value { result ≡ self.now.cols }
        ensures limits { IsPart self.now }
    {
        self.cols
    }

    /// How many rows and columns more there are on each side, 1 or 2.
    pub fn reach(&self) -> u32
        ensures value { result ≡ self.now.reach }
        ensures limits { IsPart self.now }
    {
        self.reach
    }

    /// Computes its own cells after one step, from what it and its halo hold. What the halo holds then is for its
    /// caller to put.
    pub fn step(&mut self, weights: &LaneWeights, divisor: &Divisor)
        requires reach { weights.now.reach ≡ self.old.reach }
        ensures own { (g : Plane) (rule : Rule) (top left : ℕ) → weights.now ≡ rule.weights → divisor.now ≡ rule.div →
            Holds g rule top left self.old → IsInside g top left self.old →
            HoldsOwn (next_plane g rule) top left self.new }
        ensures size { SameSize self.old self.new }
        ensures limits { IsPart self.new }
    {
        next_own(
            &self.values,
            self.rows,
            self.cols,
            self.reach,
            weights,
            divisor,
            &mut self.next,
        );
        mem::swap(&mut self.values, &mut self.next);
    }

    /// Makes a step as `step` does, and answers by how much the cell changed that changed most.
    ///
    /// Each row is compared right after it is computed.
    pub fn step_changed(&mut self, weights: &LaneWeights, divisor: &Divisor) -> i64
        requires reach { weights.now.reach ≡ self.old.reach }
        ensures own { (g : Plane) (rule : Rule) (top left : ℕ) → weights.now ≡ rule.weights → divisor.now ≡ rule.div →
            Holds g rule top left self.old → IsInside g top left self.old →
            HoldsOwn (next_plane g rule) top left self.new }
        ensures change { (g : Plane) (rule : Rule) (top left : ℕ) → weights.now ≡ rule.weights →
            divisor.now ≡ rule.div → Holds g rule top left self.old → IsInside g top left self.old →
            result ≡ pos (change_within g (next_plane g rule) top self.old.rows left self.old.cols) }
        ensures range { IsChange result }
        ensures size { SameSize self.old self.new }
        ensures limits { IsPart self.new }
    {
        let most = next_own_changed(
            &self.values,
            self.rows,
            self.cols,
            self.reach,
            weights,
            divisor,
            &mut self.next,
        );
        mem::swap(&mut self.values, &mut self.next);
        most
    }

    /// The own cells of one of its own rows, from the left.
    pub fn own_row(&self, row: u32) -> &[i64]
        requires { row < self.now.rows }
        ensures value { result.now ≡ own_cells self.now row }
        ensures length { length result.now ≡ self.now.cols }
        ensures limits { All IsValue result.now }
    {
        let start = ((self.reach + row) * (self.cols + 2 * self.reach) + self.reach) as usize;
        &self.values[start..start + self.cols as usize]
    }

    /// So many values of row `y`, from column `x` on, both counted from the halo's first.
    pub fn row_range(&self, y: u32, x: u32, len: u32) -> &[i64]
        requires row { y < height self.now }
        requires room { x + len ≤ width self.now }
        ensures value { result.now ≡ cells_at self.now y x len }
        ensures length { length result.now ≡ len }
        ensures limits { All IsValue result.now }
    {
        let start = (y * (self.cols + 2 * self.reach) + x) as usize;
        &self.values[start..start + len as usize]
    }

    /// Puts values, each from -10^12 to 10^12, into row `y` from column `x` on, both counted from the halo's first.
    pub fn put(&mut self, y: u32, x: u32, cells: &[i64])
        requires row { y < height self.old }
        requires room { x + length cells.now ≤ width self.old }
        requires values { All IsValue cells.now }
        ensures put { self.new ≡ with_cells y x cells.now self.old }
        ensures limits { IsPart self.new }
    {
        let start = (y * (self.cols + 2 * self.reach) + x) as usize;
        put_cells(
            &mut self.values,
            self.rows,
            self.cols,
            self.reach,
            start,
            cells,
        );
    }

    /// Gives the places before and behind the own columns what lies there, in the rows from `from` up to and without
    /// `to`, counted from the halo's first. It is for a part that has all columns of its grid.
    pub fn set_ends(&mut self, rule: &Rule, from: u32, to: u32)
        requires reach { rule.now.weights.reach ≡ self.old.reach }
        requires order { from ≤ to }
        requires end { to ≤ height self.old }
        ensures ends { (g : Plane) (top y : ℕ) → g.cols ≡ self.old.cols → from ≤ y → y < to →
            HoldsMiddle g rule.now top y self.old → HoldsRow g rule.now top y self.new }
        ensures rest { (y : ℕ) → (y < from) ⊎ (to ≤ y) → SameRow y self.old self.new }
        ensures size { SameSize self.old self.new }
        ensures limits { IsPart self.new }
    {
        set_all_ends(rule, self.rows, self.cols, from, to, &mut self.values);
    }
}
