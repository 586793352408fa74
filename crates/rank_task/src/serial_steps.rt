//! Steps of all ranks.

ghost use Rattle.std.specs.Prelude.{◌≡◌, ℕ, ◌+◌, ◌-◌, ◌<◌, ◌≤◌, pos};
ghost use Rattle.part_geometry.specs.declared.TheConstants.{LAST_ROUND};
ghost use Rattle.stencil_def.specs.Plane.{Plane};
ghost use Rattle.stencil_def.specs.Step.{fold_plane, next_plane};
ghost use Rattle.cell_lanes.specs.Block.{HoldsMiddle, HoldsOwn, IsInside, IsPart, SameSize, height};
ghost use Rattle.cell_lanes.specs.Change.{IsChange, change, change_within};
ghost use Rattle.rank_task.specs.Blocks.{AllRead, ArePaired, AreSized, HasRoom, HoldGrid, Suit};

use crate::serial_edges::{Scratch, pass_edges};
use crate::serial_outside::set_outsides;
use cell_lanes::{Block, Divisor, LaneWeights};
use halo_plan::HaloPlan;
use plain_pair::PlainPair;
use stencil_def::Rule;

/// Gives the ends of all rows of a block what lies there, and makes a step of it.
fn step_block(block: &mut Block, rule: &Rule, weights: &LaneWeights, divisor: &Divisor)
    requires weights { weights.now ≡ rule.now.weights }
    requires divisor { divisor.now ≡ rule.now.div }
    requires reach { rule.now.weights.reach ≡ block.old.reach }
    ensures own { (g : Plane) (top : ℕ) → g.cols ≡ block.old.cols → IsInside g top 0 block.old →
        ((y : ℕ) → y < height block.old → HoldsMiddle g rule.now top y block.old) →
        HoldsOwn (next_plane g rule.now) top 0 block.new }
    ensures size { SameSize block.old block.new }
    ensures limits { IsPart block.new }
{
    let height = block.rows() + 2 * block.reach();
    block.set_ends(rule, 0, height);
    block.step(weights, divisor);
}

/// The same, and the greatest change of a cell of the block.
fn step_block_changed(
    block: &mut Block,
    rule: &Rule,
    weights: &LaneWeights,
    divisor: &Divisor,
) -> i64
    requires weights { weights.now ≡ rule.now.weights }
    requires divisor { divisor.now ≡ rule.now.div }
    requires reach { rule.now.weights.reach ≡ block.old.reach }
    ensures own { (g : Plane) (top : ℕ) → g.cols ≡ block.old.cols → IsInside g top 0 block.old →
        ((y : ℕ) → y < height block.old → HoldsMiddle g rule.now top y block.old) →
        HoldsOwn (next_plane g rule.now) top 0 block.new }
    ensures change { (g : Plane) (top : ℕ) → g.cols ≡ block.old.cols → IsInside g top 0 block.old →
        ((y : ℕ) → y < height block.old → HoldsMiddle g rule.now top y block.old) →
        result ≡ pos (change_within g (next_plane g rule.now) top block.old.rows 0 block.old.cols) }
    ensures range { IsChange result }
    ensures size { SameSize block.old block.new }
    ensures limits { IsPart block.new }
{
    let height = block.rows() + 2 * block.reach();
    block.set_ends(rule, 0, height);
    block.step_changed(weights, divisor)
}

/// Makes a step of all blocks.
fn step_blocks(
    plan: &HaloPlan,
    rule: &Rule,
    weights: &LaneWeights,
    divisor: &Divisor,
    blocks: &mut [Block],
)
    requires weights { weights.now ≡ rule.now.weights }
    requires divisor { divisor.now ≡ rule.now.div }
    requires reach { rule.now.weights.reach ≡ plan.now.reach }
    requires blocks { AreSized plan.now blocks.old }
    ensures blocks { AreSized plan.now blocks.new }
    ensures next { (g : Plane) → Suit plan.now g rule.now → AllRead plan.now g rule.now blocks.old →
        HoldGrid plan.now (next_plane g rule.now) blocks.new }
{
    for i in 0..plan.ranks() {
        step_block(&mut blocks[i as usize], rule, weights, divisor);
    }
}

/// The same, and the greatest change of a cell of the whole grid.
fn step_blocks_changed(
    plan: &HaloPlan,
    rule: &Rule,
    weights: &LaneWeights,
    divisor: &Divisor,
    blocks: &mut [Block],
) -> i64
    requires weights { weights.now ≡ rule.now.weights }
    requires divisor { divisor.now ≡ rule.now.div }
    requires reach { rule.now.weights.reach ≡ plan.now.reach }
    requires blocks { AreSized plan.now blocks.old }
    ensures blocks { AreSized plan.now blocks.new }
    ensures next { (g : Plane) → Suit plan.now g rule.now → AllRead plan.now g rule.now blocks.old →
        HoldGrid plan.now (next_plane g rule.now) blocks.new }
    ensures change { (g : Plane) → Suit plan.now g rule.now → AllRead plan.now g rule.now blocks.old →
        result ≡ pos (change g (next_plane g rule.now)) }
    ensures range { IsChange result }
{
    let mut most = 0;
    for i in 0..plan.ranks() {
        most = most.max(step_block_changed(&mut blocks[i as usize], rule, weights, divisor));
    }
    most
}

/// Gives all rows of all halos the grid's reading, but for the ends of the rows. The rows of the edges pass in this
/// round.
fn fill_halos(
    plan: &HaloPlan,
    rule: &Rule,
    round: u32,
    pairs: &mut [PlainPair],
    blocks: &mut [Block],
    scratch: &mut Scratch,
)
    requires reach { rule.now.weights.reach ≡ plan.now.reach }
    requires around { rule.now.around ≡ plan.now.around }
    requires some { 1 ≤ round }
    requires last { round ≤ LAST_ROUND }
    requires pairs { ArePaired plan.now (round - 1) 0 pairs.old }
    requires blocks { AreSized plan.now blocks.old }
    requires scratch { HasRoom plan.now scratch.old }
    ensures pairs { ArePaired plan.now round 0 pairs.new }
    ensures blocks { AreSized plan.now blocks.new }
    ensures scratch { HasRoom plan.now scratch.new }
    ensures all { (g : Plane) → Suit plan.now g rule.now → HoldGrid plan.now g blocks.old →
        AllRead plan.now g rule.now blocks.new }
{
    // The plan's limits, for the proof.
    let _reach = plan.reach();
    pass_edges(plan, round, pairs, blocks, scratch);
    set_outsides(plan, rule, blocks, &mut scratch.carried);
}

/// A step of all ranks, whose rows pass in this round.
fn step(
    plan: &HaloPlan,
    rule: &Rule,
    weights: &LaneWeights,
    divisor: &Divisor,
    round: u32,
    pairs: &mut [PlainPair],
    blocks: &mut [Block],
    scratch: &mut Scratch,
)
    requires weights { weights.now ≡ rule.now.weights }
    requires divisor { divisor.now ≡ rule.now.div }
    requires reach { rule.now.weights.reach ≡ plan.now.reach }
    requires around { rule.now.around ≡ plan.now.around }
    requires some { 1 ≤ round }
    requires last { round ≤ LAST_ROUND }
    requires pairs { ArePaired plan.now (round - 1) 0 pairs.old }
    requires blocks { AreSized plan.now blocks.old }
    requires scratch { HasRoom plan.now scratch.old }
    ensures pairs { ArePaired plan.now round 0 pairs.new }
    ensures blocks { AreSized plan.now blocks.new }
    ensures scratch { HasRoom plan.now scratch.new }
    ensures next { (g : Plane) → Suit plan.now g rule.now → HoldGrid plan.now g blocks.old →
        HoldGrid plan.now (next_plane g rule.now) blocks.new }
{
    fill_halos(plan, rule, round, pairs, blocks, scratch);
    step_blocks(plan, rule, weights, divisor, blocks);
}

/// The same, and the greatest change of a cell of the whole grid.
pub(crate) fn step_changed(
    plan: &HaloPlan,
    rule: &Rule,
    weights: &LaneWeights,
    divisor: &Divisor,
    round: u32,
    pairs: &mut [PlainPair],
    blocks: &mut [Block],
    scratch: &mut Scratch,
) -> i64
    requires weights { weights.now ≡ rule.now.weights }
    requires divisor { divisor.now ≡ rule.now.div }
    requires reach { rule.now.weights.reach ≡ plan.now.reach }
    requires around { rule.now.around ≡ plan.now.around }
    requires some { 1 ≤ round }
    requires last { round ≤ LAST_ROUND }
    requires pairs { ArePaired plan.now (round - 1) 0 pairs.old }
    requires blocks { AreSized plan.now blocks.old }
    requires scratch { HasRoom plan.now scratch.old }
    ensures pairs { ArePaired plan.now round 0 pairs.new }
    ensures blocks { AreSized plan.now blocks.new }
    ensures scratch { HasRoom plan.now scratch.new }
    ensures next { (g : Plane) → Suit plan.now g rule.now → HoldGrid plan.now g blocks.old →
        HoldGrid plan.now (next_plane g rule.now) blocks.new }
    ensures change { (g : Plane) → Suit plan.now g rule.now → HoldGrid plan.now g blocks.old →
        result ≡ pos (change g (next_plane g rule.now)) }
    ensures range { IsChange result }
{
    fill_halos(plan, rule, round, pairs, blocks, scratch);
    step_blocks_changed(plan, rule, weights, divisor, blocks)
}

/// So many steps of all ranks, after `done` steps.
pub(crate) fn run_steps(
    plan: &HaloPlan,
    rule: &Rule,
    weights: &LaneWeights,
    divisor: &Divisor,
    done: u32,
    steps: u32,
    pairs: &mut [PlainPair],
    blocks: &mut [Block],
    scratch: &mut Scratch,
)
    requires weights { weights.now ≡ rule.now.weights }
    requires divisor { divisor.now ≡ rule.now.div }
    requires reach { rule.now.weights.reach ≡ plan.now.reach }
    requires around { rule.now.around ≡ plan.now.around }
    requires last { done + steps ≤ LAST_ROUND }
    requires pairs { ArePaired plan.now done 0 pairs.old }
    requires blocks { AreSized plan.now blocks.old }
    requires scratch { HasRoom plan.now scratch.old }
    ensures pairs { ArePaired plan.now (done + steps) 0 pairs.new }
    ensures blocks { AreSized plan.now blocks.new }
    ensures scratch { HasRoom plan.now scratch.new }
    ensures fold { (g : Plane) → Suit plan.now g rule.now → HoldGrid plan.now g blocks.old →
        HoldGrid plan.now (fold_plane g rule.now steps) blocks.new }
{
    for k in 0..steps {
        let round = done + k + 1;
        step(plan, rule, weights, divisor, round, pairs, blocks, scratch);
    }
}
