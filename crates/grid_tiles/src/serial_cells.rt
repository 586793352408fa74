//! Cells of a block: rectangles of them, and what lies outside the grid.

ghost use Rattle.std.specs.Prelude.{◌≡◌, ℕ, ◌+◌, ◌-ℤ◌, ◌*◌, ◌<◌, ◌≤◌, IfSome, None, Option, Some, pos};
ghost use Rattle.std.specs.Prelude.{length, slice_index_or};
ghost use Rattle.std.specs.List.{All};
ghost use Rattle.stencil_def.specs.Limits.{IsValue};
ghost use Rattle.stencil_def.specs.Step.{place};
ghost use Rattle.cell_lanes.specs.Block.{at, height, width};
ghost use Rattle.grid_tiles.specs.Blocks.{IsColumnSet, IsPut, IsRowSet};

use cell_lanes::Block;
use stencil_def::{Rule, place_at};

/// Copies the cells of a rectangle of a block, row by row.
pub(crate) fn copy_cells(block: &Block, y: u32, x: u32, rows: u32, cols: u32, out: &mut [i64])
    requires rows { y + rows ≤ height block.now }
    requires cols { x + cols ≤ width block.now }
    requires out { length out.old ≡ rows * cols }
    requires values { All IsValue out.old }
    ensures cells { (k j : ℕ) → k < rows → j < cols →
        slice_index_or out.new (k * cols + j) (pos 0) ≡ at block.now (y + k) (x + j) }
    ensures values { All IsValue out.new }
{
    // The block's limits, for the proof.
    let _reach = block.reach();
    let count = cols as usize;
    for k in 0..rows {
        let start = k as usize * count;
        out[start..start + count].copy_from_slice(block.row_range(y + k, x, cols));
    }
}

/// Puts values into a rectangle of a block, row by row.
pub(crate) fn put_cells(block: &mut Block, y: u32, x: u32, rows: u32, cols: u32, values: &[i64])
    requires rows { y + rows ≤ height block.old }
    requires cols { x + cols ≤ width block.old }
    requires count { length values.now ≡ rows * cols }
    requires values { All IsValue values.now }
    ensures { IsPut y x rows cols values.now block.old block.new }
{
    // The block's limits, for the proof.
    let _reach = block.reach();
    let count = cols as usize;
    for k in 0..rows {
        let start = k as usize * count;
        block.put(y + k, x, &values[start..start + count]);
    }
}

/// Which of so many rows or columns of a grid stands at the place `at`, which is counted from the halo's first before
/// the grid.
fn source(rule: &Rule, size: u32, at: u32) -> Option<u32>
    requires { 0 < size }
    ensures value { result ≡ place rule.now.around size (pos at -ℤ pos rule.now.weights.reach) }
    ensures inside { IfSome result (λ i. i < size) }
{
    place_at(
        rule.around,
        size,
        i64::from(at) - i64::from(rule.weights.reach()),
    )
}

/// The cell of an own row in an own column, or the edge where there is no column.
fn cell_or_edge(block: &Block, rule: &Rule, source: Option<u32>, row: u32) -> i64
    requires row { row < block.now.rows }
    requires own { IfSome source (λ col. col < block.now.cols) }
    ensures edge { source ≡ None → result ≡ rule.now.edge }
    ensures own { (col : ℕ) → source ≡ Some col →
        result ≡ at block.now (block.now.reach + row) (block.now.reach + col) }
    ensures limits { IsValue result }
{
    let reach = block.reach();
    match source {
        Some(col) => block.row_range(reach + row, reach + col, 1)[0],
        None => rule.edge,
    }
}

/// Gives column `x` of a block's own rows what stands at the place `at`: one of its own columns, or the edge.
pub(crate) fn set_column(block: &mut Block, rule: &Rule, size: u32, at: u32, x: u32)
    requires size { 0 < size }
    requires x { x < width block.old }
    requires own { (col : ℕ) → place rule.now.around size (pos at -ℤ pos rule.now.weights.reach) ≡ Some col →
        col < block.old.cols }
    ensures { IsColumnSet rule.now (place rule.now.around size (pos at -ℤ pos rule.now.weights.reach)) x block.old.rows
        block.old block.new }
{
    let source = source(rule, size, at);
    let reach = block.reach();
    for row in 0..block.rows() {
        let value = cell_or_edge(block, rule, source, row);
        block.put(reach + row, x, &[value]);
    }
}

/// Makes in `out` a row of a block with the halo's columns: an own row, or the edge where there is no row.
fn row_or_edge(block: &Block, rule: &Rule, source: Option<u32>, out: &mut [i64])
    requires own { IfSome source (λ row. row < block.now.rows) }
    requires out { length out.old ≡ width block.now }
    ensures edge { source ≡ None → (x : ℕ) → x < width block.now → slice_index_or out.new x (pos 0) ≡ rule.now.edge }
    ensures own { (row : ℕ) → source ≡ Some row → (x : ℕ) → x < width block.now →
        slice_index_or out.new x (pos 0) ≡ at block.now (block.now.reach + row) x }
    ensures length { length out.new ≡ width block.now }
    ensures limits { All IsValue out.new }
{
    let reach = block.reach();
    let width = block.cols() + 2 * reach;
    match source {
        Some(row) => out.copy_from_slice(block.row_range(reach + row, 0, width)),
        None => out.fill(rule.edge),
    }
}

/// Gives row `y` of a block what stands at the place `at`: one of its own rows, or the edge. In `room`, which has room
/// for a row with the halo's columns, the row is made.
pub(crate) fn set_row(block: &mut Block, rule: &Rule, size: u32, at: u32, y: u32, room: &mut [i64])
    requires size { 0 < size }
    requires y { y < height block.old }
    requires own { (row : ℕ) → place rule.now.around size (pos at -ℤ pos rule.now.weights.reach) ≡ Some row →
        row < block.old.rows }
    requires room { width block.old ≤ length room.old }
    requires values { All IsValue room.old }
    ensures row { IsRowSet rule.now (place rule.now.around size (pos at -ℤ pos rule.now.weights.reach)) y
        block.old block.new }
    ensures values { All IsValue room.new }
{
    let width = (block.cols() + 2 * block.reach()) as usize;
    let row = &mut room[..width];
    row_or_edge(block, rule, source(rule, size, at), row);
    block.put(y, 0, row);
}
