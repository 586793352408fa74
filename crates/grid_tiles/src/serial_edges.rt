//! The cells that pass between tiles in a step.

ghost use Rattle.std.specs.Prelude.{◌≡◌, ℕ, ◌+◌, ◌-◌, ◌*◌, ◌<◌, ◌≤◌, ◌==◌, if◌then◌else◌, Some, length, slice_get};
ghost use Rattle.std.specs.List.{All};
ghost use Rattle.part_geometry.specs.declared.TheConstants.{LAST_ROUND};
ghost use Rattle.stencil_def.specs.declared.limits.TheConstants.{MAX_SIDE};
ghost use Rattle.stencil_def.specs.Limits.{IsValue};
ghost use Rattle.stencil_def.specs.Plane.{Plane};
ghost use Rattle.stencil_def.specs.declared.rule.Rule.{Rule};
ghost use Rattle.halo_message.specs.declared.TheConstants.{ELEMENT_BYTES, MAX_MULTIPLE, MAX_VALUES};
ghost use Rattle.halo_message.specs.Message.{elements};
ghost use Rattle.halo_message.specs.Passing.{RestsAt};
ghost use Rattle.grid_tiles.specs.declared.TheConstants.{DOWN, LEFT, RIGHT};
ghost use Rattle.grid_tiles.specs.declared.tile.TileEdge.{TileEdge};
ghost use Rattle.grid_tiles.specs.Edges.{IsEdge, IsEdgeOf, edges, message_of, shape_of};
ghost use Rattle.grid_tiles.specs.Blocks.{AreBrought, AreLinked, AreReady, AreSized, HasRoom, IsBrought, IsLinked};
ghost use Rattle.grid_tiles.specs.Blocks.{IsReady, Keeps, Suit};

use crate::serial_cells::{copy_cells, put_cells};
use crate::{DOWN, LEFT, RIGHT, TileEdge, TilePlan};
use cell_lanes::Block;
use halo_message::{ELEMENT_BYTES, Message, pass};
use plain_pair::PlainPair;

/// The message of an edge, and the pair that it passes through.
#[derive(Drop)]
pub(crate) struct Link {
    pub(crate) message: Message,
    pub(crate) pair: PlainPair,
}

/// What messages are made in, taken once: the values of a rectangle, the bytes of its message, and the values that come
/// out.
#[derive(Drop)]
pub(crate) struct Scratch {
    pub(crate) carried: Vec<i64>,
    pub(crate) bytes: Vec<u8>,
    pub(crate) arrived: Vec<i64>,
}

/// The row and the column of its sender's block from which on an edge's cells are sent, where the sender has so many of
/// its own.
fn leaving(tag: u32, rows: u32, cols: u32, reach: u32) -> (u32, u32)
    ensures row { result.0 ≡ (if tag == DOWN then rows else reach) }
    ensures column { result.1 ≡ (if tag == RIGHT then cols else (if tag == LEFT then reach else 0)) }
{
    match tag {
        RIGHT => (reach, cols),
        LEFT => (reach, reach),
        DOWN => (rows, 0),
        _ => (reach, 0),
    }
}

/// The row and the column of its receiver's block from which on they are put, where the receiver has so many of its
/// own.
fn landing(tag: u32, rows: u32, cols: u32, reach: u32) -> (u32, u32)
    requires rows { rows ≤ MAX_SIDE }
    requires cols { cols ≤ MAX_SIDE }
    requires reach { reach ≤ 2 }
    ensures row { result.0 ≡ (if tag == DOWN then 0 else
        (if tag == RIGHT then reach else (if tag == LEFT then reach else reach + rows))) }
    ensures column { result.1 ≡ (if tag == LEFT then reach + cols else 0) }
{
    match tag {
        RIGHT => (reach, 0),
        LEFT => (reach, reach + cols),
        DOWN => (0, 0),
        _ => (reach + rows, 0),
    }
}

/// Passes the cells of an edge through its pair, out of the sender's block into the receiver's halo, in these slices.
fn carry_edge(
    plan: &TilePlan,
    edge: TileEdge,
    round: u32,
    message: &Message,
    pair: &mut PlainPair,
    blocks: &mut [Block],
    carried: &mut [i64],
    bytes: &mut [u8],
    arrived: &mut [i64],
)
    requires edge { IsEdgeOf plan.now edge }
    requires some { 1 ≤ round }
    requires last { round ≤ LAST_ROUND }
    requires message { message.now ≡ message_of plan.now edge }
    requires pair { RestsAt (shape_of plan.now edge) (round - 1) pair.old }
    requires blocks { AreSized plan.now blocks.old }
    requires carried { length carried.old ≡ edge.rows * edge.cols }
    requires limits { All IsValue carried.old }
    requires bytes { length bytes.old ≡ elements (message_of plan.now edge) * ELEMENT_BYTES }
    requires arrived { length arrived.old ≡ edge.rows * edge.cols }
    ensures pair { RestsAt (shape_of plan.now edge) round pair.new }
    ensures blocks { AreSized plan.now blocks.new }
    ensures limits { All IsValue carried.new }
    ensures keeps { (g : Plane) (rule : Rule) → Suit plan.now g rule → IsReady plan.now g rule blocks.old edge →
        Keeps plan.now g rule blocks.old blocks.new }
    ensures brought { (g : Plane) (rule : Rule) → Suit plan.now g rule → IsReady plan.now g rule blocks.old edge →
        IsBrought plan.now g rule blocks.new edge }
{
    let reach = plan.reach();
    let TileEdge {
        tag,
        rows,
        cols,
        ..
    } = edge;
    let sender = &blocks[edge.from as usize];
    let (y, x) = leaving(tag, sender.rows(), sender.cols(), reach);
    copy_cells(sender, y, x, rows, cols, carried);
    pass(pair, message, round, carried, bytes, arrived);
    let receiver = &mut blocks[edge.to as usize];
    let (y, x) = landing(tag, receiver.rows(), receiver.cols(), reach);
    put_cells(receiver, y, x, rows, cols, arrived);
}

/// The same at the front of these slices, which have room for any message.
fn carry_within(
    plan: &TilePlan,
    edge: TileEdge,
    round: u32,
    message: &Message,
    pair: &mut PlainPair,
    blocks: &mut [Block],
    carried: &mut [i64],
    bytes: &mut [u8],
    arrived: &mut [i64],
)
    requires edge { IsEdgeOf plan.now edge }
    requires size { IsEdge plan.now edge }
    requires some { 1 ≤ round }
    requires last { round ≤ LAST_ROUND }
    requires message { message.now ≡ message_of plan.now edge }
    requires pair { RestsAt (shape_of plan.now edge) (round - 1) pair.old }
    requires blocks { AreSized plan.now blocks.old }
    requires carried { length carried.old ≡ MAX_VALUES }
    requires limits { All IsValue carried.old }
    requires bytes { length bytes.old ≡ (MAX_VALUES + MAX_MULTIPLE) * ELEMENT_BYTES }
    requires arrived { length arrived.old ≡ MAX_VALUES }
    ensures pair { RestsAt (shape_of plan.now edge) round pair.new }
    ensures blocks { AreSized plan.now blocks.new }
    ensures limits { All IsValue carried.new }
    ensures keeps { (g : Plane) (rule : Rule) → Suit plan.now g rule → IsReady plan.now g rule blocks.old edge →
        Keeps plan.now g rule blocks.old blocks.new }
    ensures brought { (g : Plane) (rule : Rule) → Suit plan.now g rule → IsReady plan.now g rule blocks.old edge →
        IsBrought plan.now g rule blocks.new edge }
{
    let values = (edge.rows * edge.cols) as usize;
    let len = (message.elements() * ELEMENT_BYTES) as usize;
    let (carried, arrived) = (&mut carried[..values], &mut arrived[..values]);
    carry_edge(
        plan,
        edge,
        round,
        message,
        pair,
        blocks,
        carried,
        &mut bytes[..len],
        arrived,
    );
}

/// Passes the cells of an edge through its pair.
fn pass_edge(
    plan: &TilePlan,
    edge: TileEdge,
    round: u32,
    link: &mut Link,
    blocks: &mut [Block],
    scratch: &mut Scratch,
)
    requires edge { IsEdgeOf plan.now edge }
    requires limits { IsEdge plan.now edge }
    requires some { 1 ≤ round }
    requires last { round ≤ LAST_ROUND }
    requires link { IsLinked plan.now edge (round - 1) link.old }
    requires blocks { AreSized plan.now blocks.old }
    requires scratch { HasRoom scratch.old }
    ensures link { IsLinked plan.now edge round link.new }
    ensures blocks { AreSized plan.now blocks.new }
    ensures scratch { HasRoom scratch.new }
    ensures keeps { (g : Plane) (rule : Rule) → Suit plan.now g rule → IsReady plan.now g rule blocks.old edge →
        Keeps plan.now g rule blocks.old blocks.new }
    ensures brought { (g : Plane) (rule : Rule) → Suit plan.now g rule → IsReady plan.now g rule blocks.old edge →
        IsBrought plan.now g rule blocks.new edge }
{
    carry_within(
        plan,
        edge,
        round,
        &link.message,
        &mut link.pair,
        blocks,
        &mut scratch.carried,
        &mut scratch.bytes,
        &mut scratch.arrived,
    );
}

/// Passes the cells of the edges from number `from` up to and without `end`.
pub(crate) fn pass_edges(
    plan: &TilePlan,
    from: u32,
    end: u32,
    round: u32,
    links: &mut [Link],
    blocks: &mut [Block],
    scratch: &mut Scratch,
)
    requires order { from ≤ end }
    requires end { end ≤ length (edges plan.now) }
    requires some { 1 ≤ round }
    requires last { round ≤ LAST_ROUND }
    requires links { AreLinked plan.now (round - 1) from links.old }
    requires blocks { AreSized plan.now blocks.old }
    requires scratch { HasRoom scratch.old }
    ensures links { AreLinked plan.now (round - 1) end links.new }
    ensures blocks { AreSized plan.now blocks.new }
    ensures scratch { HasRoom scratch.new }
    ensures keeps { (g : Plane) (rule : Rule) → Suit plan.now g rule → AreReady plan.now g rule blocks.old from end →
        Keeps plan.now g rule blocks.old blocks.new }
    ensures brought { (g : Plane) (rule : Rule) → Suit plan.now g rule → AreReady plan.now g rule blocks.old from end →
        AreBrought plan.now g rule blocks.new from end }
{
    // The plan's limits, for the proof.
    let _reach = plan.reach();
    for e in from..end {
        let edge = plan.edge(e);
        pass_edge(plan, edge, round, &mut links[e as usize], blocks, scratch);
    }
}
