//! A grid with more rows and columns on each side, as many as the weights reach. It is a slice, row by row.

ghost use Rattle.std.specs.Prelude.{◌≡◌, ℕ, ℤ, ◌+◌, ◌*◌, ◌<◌, ◌≤◌, pos, length, slice_index_or, IfOk};
ghost use Rattle.std.specs.List.{All};
ghost use Rattle.stencil_def.specs.Limits.{IsSide, IsValue};
ghost use Rattle.stencil_def.specs.Plane.{Plane, IsPlane, cell};
ghost use Rattle.stencil_def.specs.Step.{new_cell, next_plane};
ghost use Rattle.cell_lanes.specs.Change.{IsChange, change};
ghost use Rattle.cell_lanes.specs.Padding.{with_ends, end_or, row_value, IsPadded, RowsAre};

use crate::change::row_change;
use crate::row::{copied_row, end_value, next_row};
use crate::{Divisor, LaneWeights};
use std::alloc::{AllocError, Global};
use stencil_def::{Grid, MAX_CELLS, Rule};

/// Where row `y` starts, with this many places in each row.
fn start_of(y: u32, width: u32) -> usize
    requires y { y ≤ 5000 }
    requires width { width ≤ 5000 }
    ensures { result ≡ y * width }
{
    (y * width) as usize
}

/// Gives row `y`, which is none of the grid's own, what lies there.
fn set_end_row(rule: &Rule, rows: u32, cols: u32, y: u32, values: &mut [i64])
    requires rows { IsSide rows }
    requires cols { IsSide cols }
    requires length { length values.old ≡ with_ends rule.now rows * with_ends rule.now cols }
    requires values { All IsValue values.old }
    requires row { y < with_ends rule.now rows }
    requires outside { (row : ℕ) → row < rows → rule.now.weights.reach + row ≡ y → ⊥ }
    ensures row { (x : ℕ) → x < with_ends rule.now cols →
        slice_index_or values.new (y * with_ends rule.now cols + x) (pos 0) ≡
        end_or rule.now rows (λ row. row_value rule.now cols values.old row x) y }
    ensures below { (k : ℕ) → k < y * with_ends rule.now cols →
        slice_index_or values.new k (pos 0) ≡ slice_index_or values.old k (pos 0) }
    ensures above { (k : ℕ) → (y + 1) * with_ends rule.now cols ≤ k →
        slice_index_or values.new k (pos 0) ≡ slice_index_or values.old k (pos 0) }
    ensures values { All IsValue values.new }
{
    let reach = rule.weights.reach();
    let width = cols + 2 * reach;
    let start = start_of(y, width);
    let own = start_of(reach, width);
    for x in 0..width {
        let first = own + x as usize;
        values[start + x as usize] = end_value(rule, rows, y, values, first, width as usize);
    }
}

/// Gives the rows from `from` up to and without `to`, which are all before or all behind the grid's own, what lies
/// there.
fn set_end_rows(rule: &Rule, rows: u32, cols: u32, from: u32, to: u32, values: &mut [i64])
    requires rows { IsSide rows }
    requires cols { IsSide cols }
    requires length { length values.old ≡ with_ends rule.now rows * with_ends rule.now cols }
    requires values { All IsValue values.old }
    requires order { from ≤ to }
    requires end { to ≤ with_ends rule.now rows }
    requires outside { (row : ℕ) → row < rows → from ≤ rule.now.weights.reach + row →
        rule.now.weights.reach + row < to → ⊥ }
    ensures ends { (y x : ℕ) → from ≤ y → y < to → x < with_ends rule.now cols →
        slice_index_or values.new (y * with_ends rule.now cols + x) (pos 0) ≡
        end_or rule.now rows (λ row. row_value rule.now cols values.old row x) y }
    ensures below { (k : ℕ) → k < from * with_ends rule.now cols →
        slice_index_or values.new k (pos 0) ≡ slice_index_or values.old k (pos 0) }
    ensures above { (k : ℕ) → to * with_ends rule.now cols ≤ k →
        slice_index_or values.new k (pos 0) ≡ slice_index_or values.old k (pos 0) }
    ensures values { All IsValue values.new }
{
    for y in from..to {
        set_end_row(rule, rows, cols, y, values);
    }
}

/// Gives all rows before and behind the grid's own what lies there.
fn set_all_end_rows(rule: &Rule, rows: u32, cols: u32, values: &mut [i64])
    requires rows { IsSide rows }
    requires cols { IsSide cols }
    requires length { length values.old ≡ with_ends rule.now rows * with_ends rule.now cols }
    requires values { All IsValue values.old }
    ensures padded { (own : ℕ → ℕ → ℤ) → RowsAre own rule.now cols values.old rows →
        IsPadded own rule.now rows cols values.new }
    ensures values { All IsValue values.new }
{
    let reach = rule.weights.reach();
    set_end_rows(rule, rows, cols, 0, reach, values);
    set_end_rows(rule, rows, cols, reach + rows, rows + 2 * reach, values);
}

/// Copies the rows of the grid, with their ends.
fn copy_rows(grid: &Grid, rule: &Rule, values: &mut [i64])
    requires length { length values.old ≡ with_ends rule.now grid.now.rows * with_ends rule.now grid.now.cols }
    requires values { All IsValue values.old }
    ensures rows { RowsAre (cell grid.now) rule.now grid.now.cols values.new grid.now.rows }
    ensures values { All IsValue values.new }
{
    let reach = rule.weights.reach();
    let cols = grid.cols();
    let width = cols + 2 * reach;
    for row in 0..grid.rows() {
        let start = start_of(reach + row, width);
        let place = &mut values[start..start + width as usize];
        copied_row(grid.row(row), rule, cols, place);
    }
}

/// Computes a row of the next grid, with its ends.
fn put_next_row(
    values: &[i64],
    rule: &Rule,
    weights: &LaneWeights,
    divisor: &Divisor,
    rows: u32,
    cols: u32,
    row: u32,
    next: &mut [i64],
)
    requires rows { IsSide rows }
    requires cols { IsSide cols }
    requires length { length values.now ≡ with_ends rule.now rows * with_ends rule.now cols }
    requires same_length { length next.old ≡ length values.now }
    requires values { All IsValue values.now }
    requires next_values { All IsValue next.old }
    requires weights { weights.now ≡ rule.now.weights }
    requires divisor { divisor.now ≡ rule.now.div }
    requires row { row < rows }
    ensures rows { (g : Plane) → g.rows ≡ rows → g.cols ≡ cols → IsPadded (cell g) rule.now rows cols values.now →
        RowsAre (new_cell g rule.now) rule.now cols next.old row →
        RowsAre (new_cell g rule.now) rule.now cols next.new (row + 1) }
    ensures values { All IsValue next.new }
{
    let reach = rule.weights.reach();
    let width = cols + 2 * reach;
    let above = start_of(row, width);
    let start = start_of(reach + row, width);
    let window = &values[above..above + start_of(2 * reach + 1, width)];
    let place = &mut next[start..start + width as usize];
    next_row(window, rule, weights, divisor, cols, place);
}

/// Computes the rows of the next grid, with their ends.
fn next_rows(
    values: &[i64],
    rule: &Rule,
    weights: &LaneWeights,
    divisor: &Divisor,
    rows: u32,
    cols: u32,
    next: &mut [i64],
)
    requires rows { IsSide rows }
    requires cols { IsSide cols }
    requires length { length values.now ≡ with_ends rule.now rows * with_ends rule.now cols }
    requires same_length { length next.old ≡ length values.now }
    requires values { All IsValue values.now }
    requires next_values { All IsValue next.old }
    requires weights { weights.now ≡ rule.now.weights }
    requires divisor { divisor.now ≡ rule.now.div }
    ensures rows { (g : Plane) → g.rows ≡ rows → g.cols ≡ cols → IsPadded (cell g) rule.now rows cols values.now →
        RowsAre (new_cell g rule.now) rule.now cols next.new rows }
    ensures values { All IsValue next.new }
{
    for row in 0..rows {
        put_next_row(values, rule, weights, divisor, rows, cols, row, next);
    }
}

/// The same, and the greatest change of a cell. It is found in each row right after the row is computed.
fn next_rows_changed(
    values: &[i64],
    rule: &Rule,
    weights: &LaneWeights,
    divisor: &Divisor,
    rows: u32,
    cols: u32,
    next: &mut [i64],
) -> i64
    requires rows { IsSide rows }
    requires cols { IsSide cols }
    requires length { length values.now ≡ with_ends rule.now rows * with_ends rule.now cols }
    requires same_length { length next.old ≡ length values.now }
    requires values { All IsValue values.now }
    requires next_values { All IsValue next.old }
    requires weights { weights.now ≡ rule.now.weights }
    requires divisor { divisor.now ≡ rule.now.div }
    ensures rows { (g : Plane) → g.rows ≡ rows → g.cols ≡ cols → IsPadded (cell g) rule.now rows cols values.now →
        RowsAre (new_cell g rule.now) rule.now cols next.new rows }
    ensures change { (g : Plane) → g.rows ≡ rows → g.cols ≡ cols →
        IsPadded (cell g) rule.now rows cols values.now → result ≡ pos (change g (next_plane g rule.now)) }
    ensures range { IsChange result }
    ensures values { All IsValue next.new }
{
    let reach = rule.weights.reach();
    let mut most = 0;
    for row in 0..rows {
        put_next_row(values, rule, weights, divisor, rows, cols, row, next);
        most = most.max(row_change(values, next, rows, cols, reach, row));
    }
    most
}

/// So many zeros.
pub(crate) fn zeros(alloc: Global, len: usize) -> Result<Vec<i64>, AllocError>
    ensures length { IfOk result (λ values. length values.items ≡ len) }
    ensures values { IfOk result (λ values. All IsValue values.items) }
{
    let values = vec![in alloc; 0; len]?;
    Ok(values)
}

/// The grid with more rows and columns on each side.
pub(crate) fn padded(alloc: Global, grid: &Grid, rule: &Rule) -> Result<Vec<i64>, AllocError>
    ensures length { IfOk result (λ values. length values.items ≡
        with_ends rule.now grid.now.rows * with_ends rule.now grid.now.cols) }
    ensures padded { IfOk result (λ values.
        IsPadded (cell grid.now) rule.now grid.now.rows grid.now.cols values.items) }
    ensures values { IfOk result (λ values. All IsValue values.items) }
{
    let reach = rule.weights.reach();
    let (rows, cols) = (grid.rows(), grid.cols());
    let mut values = zeros(alloc, start_of(rows + 2 * reach, cols + 2 * reach))?;
    copy_rows(grid, rule, &mut values);
    set_all_end_rows(rule, rows, cols, &mut values);
    Ok(values)
}

/// Computes the next grid, with more rows and columns on each side.
pub(crate) fn next_padded(
    values: &[i64],
    rule: &Rule,
    weights: &LaneWeights,
    divisor: &Divisor,
    rows: u32,
    cols: u32,
    next: &mut [i64],
)
    requires rows { IsSide rows }
    requires cols { IsSide cols }
    requires length { length values.now ≡ with_ends rule.now rows * with_ends rule.now cols }
    requires same_length { length next.old ≡ length values.now }
    requires values { All IsValue values.now }
    requires next_values { All IsValue next.old }
    requires weights { weights.now ≡ rule.now.weights }
    requires divisor { divisor.now ≡ rule.now.div }
    ensures padded { (g : Plane) → g.rows ≡ rows → g.cols ≡ cols → IsPadded (cell g) rule.now rows cols values.now →
        IsPadded (new_cell g rule.now) rule.now rows cols next.new }
    ensures values { All IsValue next.new }
{
    next_rows(values, rule, weights, divisor, rows, cols, next);
    set_all_end_rows(rule, rows, cols, next);
}

/// Computes the next grid, with more rows and columns on each side, and the greatest change of a cell.
pub(crate) fn next_padded_changed(
    values: &[i64],
    rule: &Rule,
    weights: &LaneWeights,
    divisor: &Divisor,
    rows: u32,
    cols: u32,
    next: &mut [i64],
) -> i64
    requires rows { IsSide rows }
    requires cols { IsSide cols }
    requires length { length values.now ≡ with_ends rule.now rows * with_ends rule.now cols }
    requires same_length { length next.old ≡ length values.now }
    requires values { All IsValue values.now }
    requires next_values { All IsValue next.old }
    requires weights { weights.now ≡ rule.now.weights }
    requires divisor { divisor.now ≡ rule.now.div }
    ensures padded { (g : Plane) → g.rows ≡ rows → g.cols ≡ cols → IsPadded (cell g) rule.now rows cols values.now →
        IsPadded (new_cell g rule.now) rule.now rows cols next.new }
    ensures change { (g : Plane) → g.rows ≡ rows → g.cols ≡ cols →
        IsPadded (cell g) rule.now rows cols values.now → result ≡ pos (change g (next_plane g rule.now)) }
    ensures range { IsChange result }
    ensures values { All IsValue next.new }
{
    let most = next_rows_changed(values, rule, weights, divisor, rows, cols, next);
    set_all_end_rows(rule, rows, cols, next);
    most
}

/// Puts these values into a row of the grid.
fn set_row(grid: &mut Grid, row: u32, cells: &[i64])
    requires row { row < grid.old.rows }
    requires length { length cells.now ≡ grid.old.cols }
    requires values { All IsValue cells.now }
    ensures rows { grid.new.rows ≡ grid.old.rows }
    ensures cols { grid.new.cols ≡ grid.old.cols }
    ensures row { (col : ℕ) → col < grid.old.cols →
        slice_index_or grid.new.values (row * grid.old.cols + col) (pos 0) ≡ slice_index_or cells.now col (pos 0) }
    ensures below { (k : ℕ) → k < row * grid.old.cols →
        slice_index_or grid.new.values k (pos 0) ≡ slice_index_or grid.old.values k (pos 0) }
    ensures limits { IsPlane grid.new }
{
    for col in 0..grid.cols() {
        grid.set(row, col, cells[col as usize]);
    }
}

/// The grid's own cells, without the rows and columns round them.
pub(crate) fn middle(
    alloc: Global,
    values: &[i64],
    rule: &Rule,
    rows: u32,
    cols: u32,
) -> Result<Grid, AllocError>
    requires rows { IsSide rows }
    requires cols { IsSide cols }
    requires cells { rows * cols ≤ MAX_CELLS }
    requires length { length values.now ≡ with_ends rule.now rows * with_ends rule.now cols }
    requires values { All IsValue values.now }
    ensures cells { IfOk result (λ grid. (g : Plane) → g.rows ≡ rows → g.cols ≡ cols → length g.values ≡ rows * cols →
        IsPadded (cell g) rule.now rows cols values.now → grid ≡ g) }
    ensures limits { IfOk result IsPlane }
{
    let reach = rule.weights.reach();
    let width = cols + 2 * reach;
    let mut grid = Grid::zeros(alloc, rows, cols)?;
    for row in 0..rows {
        let start = start_of(reach + row, width) + reach as usize;
        set_row(&mut grid, row, &values[start..start + cols as usize]);
    }
    Ok(grid)
}
