//! The places of the halo that lie outside the grid.

ghost use Rattle.std.specs.Prelude.{◌≡◌, ◌+◌, ◌*◌, ◌<◌, ◌≤◌, true, length};
ghost use Rattle.std.specs.List.{All};
ghost use Rattle.stencil_def.specs.Limits.{IsValue};
ghost use Rattle.stencil_def.specs.Plane.{Plane};
ghost use Rattle.halo_message.specs.declared.TheConstants.{MAX_VALUES};
ghost use Rattle.grid_tiles.specs.Plan.{tiles};
ghost use Rattle.grid_tiles.specs.Edges.{edges, first_phase};
ghost use Rattle.grid_tiles.specs.Blocks.{AllRead, AreBrought, AreEndsSet, AreSidesSet, AreSized, ColumnsSet};
ghost use Rattle.grid_tiles.specs.Blocks.{IsSized, OpenColumnsSet, OpenRowsSet, OwnColumns, OwnRead, OwnRows, RowsSet};
ghost use Rattle.grid_tiles.specs.Blocks.{SidesRead, Suit, opens_down, opens_left, opens_right, opens_up};
ghost use Rattle.grid_tiles.specs.Blocks.{tall, wide};

use crate::TilePlan;
use crate::edges::nexts;
use crate::serial_cells::{set_column, set_row};
use cell_lanes::Block;
use stencil_def::Rule;

/// Gives as many columns as the weights reach, from column `from` on, what lies there, in the own rows of tile `t`.
fn set_columns(plan: &TilePlan, rule: &Rule, t: u32, from: u32, block: &mut Block)
    requires tile { t < tiles plan.now }
    requires around { rule.now.around ≡ plan.now.shape.around }
    requires reach { rule.now.weights.reach ≡ plan.now.shape.reach }
    requires room { from ≤ plan.now.shape.reach + wide plan.now t }
    requires own { OwnColumns plan.now rule.now t from }
    requires size { IsSized plan.now t block.old }
    ensures { ColumnsSet plan.now rule.now t from plan.now.shape.reach block.old block.new }
{
    let first = plan.tile(t).first_col;
    for k in 0..plan.reach() {
        let x = from + k;
        set_column(block, rule, plan.cols(), first + x, x);
    }
}

/// The same where these columns are open.
fn set_columns_if(plan: &TilePlan, rule: &Rule, t: u32, is_open: bool, from: u32, block: &mut Block)
    requires tile { t < tiles plan.now }
    requires around { rule.now.around ≡ plan.now.shape.around }
    requires reach { rule.now.weights.reach ≡ plan.now.shape.reach }
    requires room { from ≤ plan.now.shape.reach + wide plan.now t }
    requires own { is_open ≡ true → OwnColumns plan.now rule.now t from }
    requires size { IsSized plan.now t block.old }
    ensures { OpenColumnsSet plan.now rule.now t is_open from block.old block.new }
{
    if is_open {
        set_columns(plan, rule, t, from, block);
    }
}

/// Whether no tile has tile `t` as its right neighbour.
fn opens_left(plan: &TilePlan, t: u32) -> bool
    ensures { result ≡ opens_left plan.now t }
{
    let count = plan.tile_cols();
    t % count == 0 && nexts(plan.shape.around, count) < count
}

/// Whether tile `t` has no right neighbour.
fn opens_right(plan: &TilePlan, t: u32) -> bool
    ensures { result ≡ opens_right plan.now t }
{
    let count = plan.tile_cols();
    nexts(plan.shape.around, count) <= t % count
}

/// Gives the halo's columns that no edge brings to tile `t` what lies there, in its own rows.
fn set_open_columns(plan: &TilePlan, rule: &Rule, t: u32, block: &mut Block)
    requires tile { t < tiles plan.now }
    requires around { rule.now.around ≡ plan.now.shape.around }
    requires reach { rule.now.weights.reach ≡ plan.now.shape.reach }
    requires size { IsSized plan.now t block.old }
    ensures { AreSidesSet plan.now rule.now t block.old block.new }
{
    let behind = plan.reach() + block.cols();
    set_columns_if(plan, rule, t, opens_left(plan, t), 0, block);
    set_columns_if(plan, rule, t, opens_right(plan, t), behind, block);
}

/// Gives the halo's columns that no edge brings what lies there, in the own rows of all tiles, which then have the
/// grid's reading.
pub(crate) fn set_sides(plan: &TilePlan, rule: &Rule, blocks: &mut [Block])
    requires around { rule.now.around ≡ plan.now.shape.around }
    requires reach { rule.now.weights.reach ≡ plan.now.shape.reach }
    requires blocks { AreSized plan.now blocks.old }
    ensures blocks { AreSized plan.now blocks.new }
    ensures sides { (g : Plane) → Suit plan.now g rule.now → OwnRead plan.now g rule.now blocks.old →
        AreBrought plan.now g rule.now blocks.old 0 (length (first_phase plan.now)) →
        SidesRead plan.now g rule.now blocks.new }
{
    for t in 0..plan.tile_count() {
        set_open_columns(plan, rule, t, &mut blocks[t as usize]);
    }
}

/// Gives as many rows as the weights reach, from row `from` on, what lies there, in the block of tile `t`. In `room` a
/// row is made.
fn set_rows(plan: &TilePlan, rule: &Rule, t: u32, from: u32, block: &mut Block, room: &mut [i64])
    requires tile { t < tiles plan.now }
    requires around { rule.now.around ≡ plan.now.shape.around }
    requires reach { rule.now.weights.reach ≡ plan.now.shape.reach }
    requires start { from ≤ plan.now.shape.reach + tall plan.now t }
    requires own { OwnRows plan.now rule.now t from }
    requires size { IsSized plan.now t block.old }
    requires room { wide plan.now t + 2 * plan.now.shape.reach ≤ length room.old }
    requires values { All IsValue room.old }
    ensures set { RowsSet plan.now rule.now t from plan.now.shape.reach block.old block.new }
    ensures values { All IsValue room.new }
{
    let first = plan.tile(t).first_row;
    for k in 0..plan.reach() {
        let y = from + k;
        set_row(block, rule, plan.rows(), first + y, y, room);
    }
}

/// The same where these rows are open.
fn set_rows_if(
    plan: &TilePlan,
    rule: &Rule,
    t: u32,
    is_open: bool,
    from: u32,
    block: &mut Block,
    room: &mut [i64],
)
    requires tile { t < tiles plan.now }
    requires around { rule.now.around ≡ plan.now.shape.around }
    requires reach { rule.now.weights.reach ≡ plan.now.shape.reach }
    requires start { from ≤ plan.now.shape.reach + tall plan.now t }
    requires own { is_open ≡ true → OwnRows plan.now rule.now t from }
    requires size { IsSized plan.now t block.old }
    requires room { wide plan.now t + 2 * plan.now.shape.reach ≤ length room.old }
    requires values { All IsValue room.old }
    ensures set { OpenRowsSet plan.now rule.now t is_open from block.old block.new }
    ensures values { All IsValue room.new }
{
    if is_open {
        set_rows(plan, rule, t, from, block, room);
    }
}

/// Whether no tile has tile `t` as its lower neighbour.
fn opens_up(plan: &TilePlan, t: u32) -> bool
    ensures { result ≡ opens_up plan.now t }
{
    let count = plan.tile_rows();
    t / plan.tile_cols() == 0 && nexts(plan.shape.around, count) < count
}

/// Whether tile `t` has no lower neighbour.
fn opens_down(plan: &TilePlan, t: u32) -> bool
    ensures { result ≡ opens_down plan.now t }
{
    nexts(plan.shape.around, plan.tile_rows()) <= t / plan.tile_cols()
}

/// Gives the halo's rows that no edge brings to tile `t` what lies there.
fn set_open_rows(plan: &TilePlan, rule: &Rule, t: u32, block: &mut Block, room: &mut [i64])
    requires tile { t < tiles plan.now }
    requires around { rule.now.around ≡ plan.now.shape.around }
    requires reach { rule.now.weights.reach ≡ plan.now.shape.reach }
    requires size { IsSized plan.now t block.old }
    requires room { wide plan.now t + 2 * plan.now.shape.reach ≤ length room.old }
    requires values { All IsValue room.old }
    ensures set { AreEndsSet plan.now rule.now t block.old block.new }
    ensures values { All IsValue room.new }
{
    let below = plan.reach() + block.rows();
    set_rows_if(plan, rule, t, opens_up(plan, t), 0, block, room);
    set_rows_if(plan, rule, t, opens_down(plan, t), below, block, room);
}

/// Gives the halo's rows that no edge brings what lies there. All places then have the grid's reading. In `room` a row
/// is made.
pub(crate) fn set_ends(plan: &TilePlan, rule: &Rule, blocks: &mut [Block], room: &mut [i64])
    requires around { rule.now.around ≡ plan.now.shape.around }
    requires reach { rule.now.weights.reach ≡ plan.now.shape.reach }
    requires blocks { AreSized plan.now blocks.old }
    requires room { MAX_VALUES ≤ length room.old }
    requires values { All IsValue room.old }
    ensures blocks { AreSized plan.now blocks.new }
    ensures values { All IsValue room.new }
    ensures all { (g : Plane) → Suit plan.now g rule.now → SidesRead plan.now g rule.now blocks.old →
        AreBrought plan.now g rule.now blocks.old (length (first_phase plan.now)) (length (edges plan.now)) →
        AllRead plan.now g rule.now blocks.new }
{
    for t in 0..plan.tile_count() {
        set_open_rows(plan, rule, t, &mut blocks[t as usize], room);
    }
}
