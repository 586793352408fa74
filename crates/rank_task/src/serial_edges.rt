//! The rows that pass between ranks in a step.

ghost use Rattle.std.specs.Prelude.{◌≡◌, ℕ, ◌+◌, ◌-◌, ◌*◌, ◌<◌, ◌≤◌, ◌==◌, if◌then◌else◌, Some, length, slice_get};
ghost use Rattle.part_geometry.specs.declared.TheConstants.{LAST_ROUND};
ghost use Rattle.std.specs.List.{All};
ghost use Rattle.stencil_def.specs.Limits.{IsValue};
ghost use Rattle.stencil_def.specs.Plane.{Plane};
ghost use Rattle.stencil_def.specs.declared.rule.Rule.{Rule};
ghost use Rattle.halo_message.specs.declared.TheConstants.{ELEMENT_BYTES};
ghost use Rattle.halo_plan.specs.declared.TheConstants.{DOWN};
ghost use Rattle.halo_plan.specs.declared.edge.Edge.{Edge};
ghost use Rattle.halo_plan.specs.Plan.{elements, shape_of, values};
ghost use Rattle.halo_plan.specs.Edges.{edges};
ghost use Rattle.rank_task.specs.Blocks.{AreBrought, ArePaired, AreSized, HasRoom, IsBrought, IsResting, Keeps};
ghost use Rattle.rank_task.specs.Blocks.{OwnRead, Suit};

use crate::passing::pass;
use crate::serial_rows::{copy_rows, put_rows};
use cell_lanes::Block;
use halo_plan::{DOWN, Edge, HaloPlan};
use plain_pair::PlainPair;

/// What a message is made in, taken once: the values of its rows, its bytes, and the values that come out.
#[derive(Drop)]
pub(crate) struct Scratch {
    pub(crate) carried: Vec<i64>,
    pub(crate) message: Vec<u8>,
    pub(crate) arrived: Vec<i64>,
}

/// The first of the own rows that an edge sends, where its sender has so many.
fn leaving(edge: Edge, rows: u32, reach: u32) -> u32
    requires { reach ≤ rows }
    ensures { result ≡ (if edge.tag == DOWN then rows - reach else 0) }
{
    if edge.tag == DOWN { rows - reach } else { 0 }
}

/// The row from which on an edge's rows are put, counted from the halo's first, where its receiver has so many of its
/// own.
fn landing(edge: Edge, rows: u32, reach: u32) -> u32
    requires rows { rows ≤ 4096 }
    requires reach { reach ≤ 2 }
    ensures { result ≡ (if edge.tag == DOWN then 0 else reach + rows) }
{
    if edge.tag == DOWN { 0 } else { reach + rows }
}

/// Passes the rows of edge `e` through its pair, out of the sender's block into the receiver's halo, in these slices.
fn carry_edge(
    plan: &HaloPlan,
    e: u32,
    round: u32,
    pair: &mut PlainPair,
    blocks: &mut [Block],
    carried: &mut [i64],
    message: &mut [u8],
    arrived: &mut [i64],
)
    requires edge { e < length (edges plan.now) }
    requires some { 1 ≤ round }
    requires last { round ≤ LAST_ROUND }
    requires pair { IsResting (shape_of plan.now) (round - 1) pair.old }
    requires blocks { AreSized plan.now blocks.old }
    requires carried { length carried.old ≡ values plan.now }
    requires limits { All IsValue carried.old }
    requires message { length message.old ≡ elements plan.now * ELEMENT_BYTES }
    requires arrived { length arrived.old ≡ values plan.now }
    ensures pair { IsResting (shape_of plan.now) round pair.new }
    ensures blocks { AreSized plan.now blocks.new }
    ensures limits { All IsValue carried.new }
    ensures keeps { (g : Plane) (rule : Rule) → Suit plan.now g rule → OwnRead plan.now g rule blocks.old →
        Keeps plan.now g rule blocks.old blocks.new }
    ensures brought { (g : Plane) (rule : Rule) (x : Edge) → Suit plan.now g rule →
        OwnRead plan.now g rule blocks.old → slice_get (edges plan.now) e ≡ Some x →
        IsBrought plan.now g rule blocks.new x }
{
    // The geometry's limits, for the proof.
    let _geometry = plan.geometry();
    let edge = plan.edge(e);
    let reach = plan.reach();
    let sender = &blocks[edge.from as usize];
    let first = leaving(edge, sender.rows(), reach);
    copy_rows(sender, first, reach, carried);
    pass(pair, plan, round, carried, message, arrived);
    let receiver = &mut blocks[edge.to as usize];
    let at = landing(edge, receiver.rows(), reach);
    put_rows(receiver, at, reach, arrived);
}

/// Passes the rows of edge `e` through its pair.
fn pass_edge(
    plan: &HaloPlan,
    e: u32,
    round: u32,
    pair: &mut PlainPair,
    blocks: &mut [Block],
    scratch: &mut Scratch,
)
    requires edge { e < length (edges plan.now) }
    requires some { 1 ≤ round }
    requires last { round ≤ LAST_ROUND }
    requires pair { IsResting (shape_of plan.now) (round - 1) pair.old }
    requires blocks { AreSized plan.now blocks.old }
    requires scratch { HasRoom plan.now scratch.old }
    ensures pair { IsResting (shape_of plan.now) round pair.new }
    ensures blocks { AreSized plan.now blocks.new }
    ensures scratch { HasRoom plan.now scratch.new }
    ensures keeps { (g : Plane) (rule : Rule) → Suit plan.now g rule → OwnRead plan.now g rule blocks.old →
        Keeps plan.now g rule blocks.old blocks.new }
    ensures brought { (g : Plane) (rule : Rule) (x : Edge) → Suit plan.now g rule →
        OwnRead plan.now g rule blocks.old → slice_get (edges plan.now) e ≡ Some x →
        IsBrought plan.now g rule blocks.new x }
{
    carry_edge(
        plan,
        e,
        round,
        pair,
        blocks,
        &mut scratch.carried,
        &mut scratch.message,
        &mut scratch.arrived,
    );
}

/// Passes the rows of all edges.
pub(crate) fn pass_edges(
    plan: &HaloPlan,
    round: u32,
    pairs: &mut [PlainPair],
    blocks: &mut [Block],
    scratch: &mut Scratch,
)
    requires some { 1 ≤ round }
    requires last { round ≤ LAST_ROUND }
    requires pairs { ArePaired plan.now (round - 1) 0 pairs.old }
    requires blocks { AreSized plan.now blocks.old }
    requires scratch { HasRoom plan.now scratch.old }
    ensures pairs { ArePaired plan.now round 0 pairs.new }
    ensures blocks { AreSized plan.now blocks.new }
    ensures scratch { HasRoom plan.now scratch.new }
    ensures own { (g : Plane) (rule : Rule) → Suit plan.now g rule → OwnRead plan.now g rule blocks.old →
        OwnRead plan.now g rule blocks.new }
    ensures brought { (g : Plane) (rule : Rule) → Suit plan.now g rule → OwnRead plan.now g rule blocks.old →
        AreBrought plan.now g rule blocks.new (length (edges plan.now)) }
{
    let count = plan.edge_count();
    for e in 0..count {
        pass_edge(plan, e, round, &mut pairs[e as usize], blocks, scratch);
    }
}
