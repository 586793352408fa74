//! The halo rows that lie outside the grid.

ghost use Rattle.std.specs.Prelude.{◌≡◌, ◌⊎◌, ℕ, ◌+◌, ◌-ℤ◌, ◌*◌, ◌<◌, ◌≤◌, IfSome, Some, None, false, not, pos, length};
ghost use Rattle.std.specs.Prelude.{slice_index_or};
ghost use Rattle.std.specs.List.{All};
ghost use Rattle.stencil_def.specs.Limits.{IsValue};
ghost use Rattle.stencil_def.specs.Plane.{Plane, cell};
ghost use Rattle.stencil_def.specs.Step.{place};
ghost use Rattle.halo_plan.specs.Plan.{first_row};
ghost use Rattle.halo_plan.specs.Edges.{edges, goes_round};
ghost use Rattle.cell_lanes.specs.Block.{HoldsMiddle, IsPart, SameRow, SameSize, height, own_cells};
ghost use Rattle.rank_task.specs.Blocks.{AllRead, AreBrought, AreSized, IsOpenRead, Keeps, OwnRead, Reads, Suit};
ghost use Rattle.rank_task.specs.Blocks.{own_at, rows_of};

use cell_lanes::Block;
use halo_plan::HaloPlan;
use stencil_def::{Around, Rule, place_at};

/// Which row of a grid of so many rows stands at the place `at`, which is counted from the halo's first row before the
/// grid.
fn row_at(rule: &Rule, rows: u32, at: u32) -> Option<u32>
    requires { 0 < rows }
    ensures value { result ≡ place rule.now.around rows (pos at -ℤ pos rule.now.weights.reach) }
    ensures inside { IfSome result (λ r. r < rows) }
{
    place_at(
        rule.around,
        rows,
        i64::from(at) - i64::from(rule.weights.reach()),
    )
}

/// Gives a row what stands at that place: one of the block's own rows, or the edge.
fn fill_row(block: &Block, rule: &Rule, rows: u32, at: u32, out: &mut [i64])
    requires rows { 0 < rows }
    requires own { (r : ℕ) → place rule.now.around rows (pos at -ℤ pos rule.now.weights.reach) ≡ Some r →
        r < block.now.rows }
    requires out { length out.old ≡ block.now.cols }
    ensures edge { place rule.now.around rows (pos at -ℤ pos rule.now.weights.reach) ≡ None → (col : ℕ) →
        col < block.now.cols → slice_index_or out.new col (pos 0) ≡ rule.now.edge }
    ensures row { (r : ℕ) → place rule.now.around rows (pos at -ℤ pos rule.now.weights.reach) ≡ Some r →
        out.new ≡ own_cells block.now r }
    ensures values { All IsValue out.new }
{
    match row_at(rule, rows, at) {
        Some(r) => out.copy_from_slice(block.own_row(r)),
        None => out.fill(rule.edge),
    }
}

/// Gives row `y` of a block what stands at the place `at`.
fn set_outside(block: &mut Block, rule: &Rule, rows: u32, at: u32, y: u32, scratch: &mut [i64])
    requires rows { 0 < rows }
    requires y { y < height block.old }
    requires own { (r : ℕ) → place rule.now.around rows (pos at -ℤ pos rule.now.weights.reach) ≡ Some r →
        r < block.old.rows }
    requires scratch { length scratch.old ≡ block.old.cols }
    ensures reads { (g : Plane) (top : ℕ) → g.rows ≡ rows → g.cols ≡ block.old.cols →
        (pos (top + y) -ℤ pos block.old.reach) ≡ (pos at -ℤ pos rule.now.weights.reach) →
        ((r col : ℕ) → place rule.now.around rows (pos at -ℤ pos rule.now.weights.reach) ≡ Some r →
        col < block.old.cols →
        own_at block.old r col ≡ cell g r col) →
        HoldsMiddle g rule.now top y block.new }
    ensures rest { (z : ℕ) → (z < y) ⊎ (y + 1 ≤ z) → SameRow z block.old block.new }
    ensures size { SameSize block.old block.new }
    ensures limits { IsPart block.new }
    ensures values { All IsValue scratch.new }
{
    let reach = block.reach();
    fill_row(block, rule, rows, at, scratch);
    block.put(y, reach, scratch);
}

/// Whether no edge brings the rows before those of the first rank and behind those of the last.
fn is_open(plan: &HaloPlan, rule: &Rule) -> bool
    requires { rule.now.around ≡ plan.now.around }
    ensures { result ≡ not (goes_round plan.now) }
{
    plan.ranks() < 2 || matches!(rule.around, Around::Fixed)
}

/// Gives row `y` of rank `i`'s block, which stands at the place `at` outside the grid, what lies there.
fn set_open_row(
    plan: &HaloPlan,
    rule: &Rule,
    blocks: &mut [Block],
    i: u32,
    at: u32,
    y: u32,
    row: &mut [i64],
)
    requires around { rule.now.around ≡ plan.now.around }
    requires reach { rule.now.weights.reach ≡ plan.now.reach }
    requires no_round { goes_round plan.now ≡ false }
    requires rank { i < plan.now.ranks }
    requires y { y < rows_of plan.now i + 2 * plan.now.reach }
    requires stands { first_row plan.now i + y ≡ at }
    requires outside { place Around.Fixed plan.now.rows (pos at -ℤ pos plan.now.reach) ≡ None }
    requires blocks { AreSized plan.now blocks.old }
    requires row { length row.old ≡ plan.now.cols }
    ensures blocks { AreSized plan.now blocks.new }
    ensures values { All IsValue row.new }
    ensures keeps { (g : Plane) → Suit plan.now g rule.now → OwnRead plan.now g rule.now blocks.old →
        Keeps plan.now g rule.now blocks.old blocks.new }
    ensures reads { (g : Plane) → Suit plan.now g rule.now → OwnRead plan.now g rule.now blocks.old →
        Reads plan.now g rule.now blocks.new i y }
{
    let rows = plan.rows();
    let block = &mut blocks[i as usize];
    set_outside(block, rule, rows, at, y, row);
}

/// Gives the halo rows that no edge brings what lies there.
fn set_open(plan: &HaloPlan, rule: &Rule, blocks: &mut [Block], row: &mut [i64])
    requires around { rule.now.around ≡ plan.now.around }
    requires reach { rule.now.weights.reach ≡ plan.now.reach }
    requires no_round { goes_round plan.now ≡ false }
    requires blocks { AreSized plan.now blocks.old }
    requires row { length row.old ≡ plan.now.cols }
    requires values { All IsValue row.old }
    ensures blocks { AreSized plan.now blocks.new }
    ensures values { All IsValue row.new }
    ensures keeps { (g : Plane) → Suit plan.now g rule.now → OwnRead plan.now g rule.now blocks.old →
        Keeps plan.now g rule.now blocks.old blocks.new }
    ensures set { (g : Plane) (k : ℕ) → Suit plan.now g rule.now → OwnRead plan.now g rule.now blocks.old →
        k < plan.now.reach → IsOpenRead plan.now g rule.now blocks.new k }
{
    let rows = plan.rows();
    let reach = plan.reach();
    let last = plan.ranks() - 1;
    for k in 0..reach {
        set_open_row(plan, rule, blocks, 0, k, k, row);
        let y = reach + blocks[last as usize].rows() + k;
        set_open_row(plan, rule, blocks, last, rows + reach + k, y, row);
    }
}

/// Gives the halo rows that no edge brings, if there are any, what lies there. All rows then have the grid's
/// reading. In `row`, which has room for a row, such a row is made.
pub(crate) fn set_outsides(plan: &HaloPlan, rule: &Rule, blocks: &mut [Block], row: &mut [i64])
    requires around { rule.now.around ≡ plan.now.around }
    requires reach { rule.now.weights.reach ≡ plan.now.reach }
    requires blocks { AreSized plan.now blocks.old }
    requires row { plan.now.cols ≤ length row.old }
    requires values { All IsValue row.old }
    ensures blocks { AreSized plan.now blocks.new }
    ensures values { All IsValue row.new }
    ensures all { (g : Plane) → Suit plan.now g rule.now → OwnRead plan.now g rule.now blocks.old →
        AreBrought plan.now g rule.now blocks.old (length (edges plan.now)) →
        AllRead plan.now g rule.now blocks.new }
{
    let cols = plan.cols() as usize;
    if is_open(plan, rule) {
        set_open(plan, rule, blocks, &mut row[..cols]);
    }
}
