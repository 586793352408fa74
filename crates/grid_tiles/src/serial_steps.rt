//! Steps of all tiles.

ghost use Rattle.std.specs.Prelude.{◌≡◌, ◌+◌, ◌-◌, ◌<◌, ◌≤◌};
ghost use Rattle.part_geometry.specs.declared.TheConstants.{LAST_ROUND};
ghost use Rattle.stencil_def.specs.Plane.{Plane};
ghost use Rattle.stencil_def.specs.Step.{fold_plane, next_plane};
ghost use Rattle.grid_tiles.specs.Blocks.{AllRead, AreLinked, AreSized, HasRoom, HoldGrid, Suit};

use crate::TilePlan;
use crate::serial_edges::{Link, Scratch, pass_edges};
use crate::serial_outside::{set_ends, set_sides};
use cell_lanes::{Block, Divisor, LaneWeights};
use stencil_def::Rule;

/// Makes a step of all blocks.
fn step_blocks(
    plan: &TilePlan,
    rule: &Rule,
    weights: &LaneWeights,
    divisor: &Divisor,
    blocks: &mut [Block],
)
    requires weights { weights.now ≡ rule.now.weights }
    requires divisor { divisor.now ≡ rule.now.div }
    requires reach { rule.now.weights.reach ≡ plan.now.shape.reach }
    requires blocks { AreSized plan.now blocks.old }
    ensures blocks { AreSized plan.now blocks.new }
    ensures next { (g : Plane) → Suit plan.now g rule.now → AllRead plan.now g rule.now blocks.old →
        HoldGrid plan.now (next_plane g rule.now) blocks.new }
{
    for t in 0..plan.tile_count() {
        blocks[t as usize].step(weights, divisor);
    }
}

/// A step of all tiles, whose cells pass in this round: first columns, and then rows with the columns that came.
fn step(
    plan: &TilePlan,
    rule: &Rule,
    weights: &LaneWeights,
    divisor: &Divisor,
    round: u32,
    links: &mut [Link],
    blocks: &mut [Block],
    scratch: &mut Scratch,
)
    requires weights { weights.now ≡ rule.now.weights }
    requires divisor { divisor.now ≡ rule.now.div }
    requires reach { rule.now.weights.reach ≡ plan.now.shape.reach }
    requires around { rule.now.around ≡ plan.now.shape.around }
    requires some { 1 ≤ round }
    requires last { round ≤ LAST_ROUND }
    requires links { AreLinked plan.now (round - 1) 0 links.old }
    requires blocks { AreSized plan.now blocks.old }
    requires scratch { HasRoom scratch.old }
    ensures links { AreLinked plan.now round 0 links.new }
    ensures blocks { AreSized plan.now blocks.new }
    ensures scratch { HasRoom scratch.new }
    ensures next { (g : Plane) → Suit plan.now g rule.now → HoldGrid plan.now g blocks.old →
        HoldGrid plan.now (next_plane g rule.now) blocks.new }
{
    // The plan's limits, for the proof.
    let _reach = plan.reach();
    let first = plan.first_count();
    let all = plan.edge_count();
    pass_edges(plan, 0, first, round, links, blocks, scratch);
    set_sides(plan, rule, blocks);
    pass_edges(plan, first, all, round, links, blocks, scratch);
    set_ends(plan, rule, blocks, &mut scratch.carried);
    step_blocks(plan, rule, weights, divisor, blocks);
}

/// So many steps of all tiles, after `done` steps.
pub(crate) fn run_steps(
    plan: &TilePlan,
    rule: &Rule,
    weights: &LaneWeights,
    divisor: &Divisor,
    done: u32,
    steps: u32,
    links: &mut [Link],
    blocks: &mut [Block],
    scratch: &mut Scratch,
)
    requires weights { weights.now ≡ rule.now.weights }
    requires divisor { divisor.now ≡ rule.now.div }
    requires reach { rule.now.weights.reach ≡ plan.now.shape.reach }
    requires around { rule.now.around ≡ plan.now.shape.around }
    requires last { done + steps ≤ LAST_ROUND }
    requires links { AreLinked plan.now done 0 links.old }
    requires blocks { AreSized plan.now blocks.old }
    requires scratch { HasRoom scratch.old }
    ensures links { AreLinked plan.now (done + steps) 0 links.new }
    ensures blocks { AreSized plan.now blocks.new }
    ensures scratch { HasRoom scratch.new }
    ensures fold { (g : Plane) → Suit plan.now g rule.now → HoldGrid plan.now g blocks.old →
        HoldGrid plan.now (fold_plane g rule.now steps) blocks.new }
{
    for k in 0..steps {
        let round = done + k + 1;
        step(plan, rule, weights, divisor, round, links, blocks, scratch);
    }
}
