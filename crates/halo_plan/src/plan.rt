//! The plan.

ghost use Rattle.std.specs.Prelude.{◌≡◌, ◌<◌, ◌≤◌, ◌+◌, ◌-◌, ◌*◌, ◌==◌, if◌then◌else◌, IsTrue, Some};
ghost use Rattle.std.specs.Prelude.{length, slice_get, IfOk};
ghost use Rattle.part_geometry.specs.declared.TheConstants.{MAX_DEPTH, MAX_GRAIN, MAX_PARTS, MAX_RANKS};
ghost use Rattle.part_geometry.specs.Shape.{IsWithin};
ghost use Rattle.stencil_def.specs.declared.limits.TheConstants.{MAX_CELLS};
ghost use Rattle.stencil_def.specs.Limits.{IsSide};
ghost use Rattle.halo_message.specs.Message.{shares_few};
ghost use Rattle.halo_plan.specs.declared.TheConstants.{DOWN, UP};
ghost use Rattle.halo_plan.specs.Plan.{IsPlan, block_of, first_row, message_of};
ghost use Rattle.halo_plan.specs.Edges.{edges, goes_round};
ghost use Rattle.halo_plan.specs.Making.{needs_more, plan_answer};

use crate::{DOWN, Edge, UP};
use halo_message::Message;
use part_geometry::GeometryFault;
use std::marker::Model;
use stencil_def::Around;

/// Why numbers make no plan. They are tried in this order.
#[derive(Clone, Copy)]
pub enum PlanFault {
    /// There are two ranks or more, and together they need more rows than there are: each needs as many as the weights
    /// reach.
    TooManyRanks { ranks: u32, rows: u32 },
    /// The numbers of the messages make no geometry. It never comes, since numbers within the limits make one.
    Shape(GeometryFault),
}

/// How the rows of a grid go to ranks, and which messages pass between ranks in each step. Contracts see the numbers
/// that it was made of.
#[derive(Drop)]
pub struct HaloPlan {
    rows: u32,
    cols: u32,
    ranks: u32,
    reach: u32,
    around: Around,
    message: Message,
}

impl Model for HaloPlan {
    ghost use Rattle.halo_plan.specs.Plan.{Plan};

    ghost Value = { Plan };

    ghost use Rattle.halo_plan.specs.Kept.{plan_of, IsKept};

    ghost view = { plan_of };

    ghost invariant = { IsKept };
}

/// Whether there are two ranks or more, and together they need more rows than there are.
fn needs_more(rows: u32, ranks: u32, reach: u32) -> bool
    requires ranks { IsWithin 1 MAX_RANKS ranks }
    requires reach { IsWithin 1 2 reach }
    ensures { result ≡ needs_more rows ranks reach }
{
    ranks >= 2 && ranks * reach > rows
}

impl HaloPlan {
    /// The plan of a grid of this size over so many ranks, 1 to 64, whose messages have `send_parts` partitions at the
    /// sender and `recv_parts` at the receiver, with pieces of at least `grain` bytes and `depth` rounds in flight, for
    /// weights that reach 1 or 2. Refused with `TooManyRanks` exactly where there are two ranks or more and ranks times
    /// reach is above the rows; nothing else is refused. It takes no memory.
    pub fn new(
        rows: u32,
        cols: u32,
        ranks: u32,
        send_parts: u32,
        recv_parts: u32,
        grain: u32,
        depth: u32,
        reach: u32,
        around: Around,
    ) -> Result<HaloPlan, PlanFault>
        requires rows { IsSide rows }
        requires cols { IsSide cols }
        requires cells { rows * cols ≤ MAX_CELLS }
        requires ranks { IsWithin 1 MAX_RANKS ranks }
        requires send_parts { IsWithin 1 MAX_PARTS send_parts }
        requires recv_parts { IsWithin 1 MAX_PARTS recv_parts }
        requires multiple { IsTrue (shares_few send_parts recv_parts) }
        requires grain { IsWithin 1 MAX_GRAIN grain }
        requires depth { IsWithin 1 MAX_DEPTH depth }
        requires reach { IsWithin 1 2 reach }
        ensures answer { result ≡ plan_answer record {
          rows = rows;
          cols = cols;
          ranks = ranks;
          send_parts = send_parts;
          recv_parts = recv_parts;
          grain = grain;
          depth = depth;
          reach = reach;
          around = around;
        } }
        ensures limits { IfOk result IsPlan }
    {
        if needs_more(rows, ranks, reach) {
            return Err(PlanFault::TooManyRanks { ranks, rows });
        }
        let message = Message::new(reach * cols, send_parts, recv_parts, grain, depth);
        Ok(HaloPlan {
            rows,
            cols,
            ranks,
            reach,
            around,
            message,
        })
    }

    /// How many rows the grid has.
    pub fn rows(&self) -> u32
        ensures value { result ≡ self.now.rows }
        ensures limits { IsPlan self.now }
    {
        self.rows
    }

    /// How many columns the grid has.
    pub fn cols(&self) -> u32
        ensures value { result ≡ self.now.cols }
        ensures limits { IsPlan self.now }
    {
        self.cols
    }

    /// How many ranks there are, 1 to 64.
    pub fn ranks(&self) -> u32
        ensures value { result ≡ self.now.ranks }
        ensures limits { IsPlan self.now }
    {
        self.ranks
    }

    /// How far the weights reach, 1 or 2: how many rows an edge carries.
    pub fn reach(&self) -> u32
        ensures value { result ≡ self.now.reach }
        ensures limits { IsPlan self.now }
    {
        self.reach
    }

    /// Where the rows of a rank begin.
    fn first_row(&self, i: u32) -> u32
        requires { i ≤ self.now.ranks }
        ensures value { result ≡ first_row self.now i }
        ensures inside { result ≤ self.now.rows }
    {
        i * self.rows / self.ranks
    }

    /// The first row of rank `i`, and the row behind its last.
    pub fn block(&self, i: u32) -> (u32, u32)
        requires { i < self.now.ranks }
        ensures value { result ≡ block_of self.now i }
        ensures inside { (result.0 < result.1) × (result.1 ≤ self.now.rows) }
        ensures enough { 2 ≤ self.now.ranks → result.0 + self.now.reach ≤ result.1 }
    {
        // The plan's limits, for the proof.
        let _ranks = self.ranks;
        (self.first_row(i), self.first_row(i + 1))
    }

    /// Whether rows go round from the last rank to the first.
    fn goes_round(&self) -> bool
        ensures { result ≡ goes_round self.now }
    {
        self.ranks >= 2 && matches!(self.around, Around::Wrap)
    }

    /// How many edges there are: two between each rank and the next, and two more where rows go round the grid.
    pub fn edge_count(&self) -> u32
        ensures value { result ≡ length (edges self.now) }
        ensures limits { result ≤ 128 }
    {
        // The plan's limits, for the proof.
        let ranks = self.ranks;
        if self.goes_round() {
            2 * ranks
        } else {
            2 * (ranks - 1)
        }
    }

    /// The rank behind rank `i`, where rows go round.
    fn behind(&self, i: u32) -> u32
        requires { i < self.now.ranks }
        ensures value { result ≡ (if i + 1 == self.now.ranks then 0 else i + 1) }
        ensures inside { result < self.now.ranks }
    {
        let ranks = self.ranks;
        if i + 1 == ranks { 0 } else { i + 1 }
    }

    /// The edge that carries the last rows of rank `i` to rank `j`.
    fn down(&self, i: u32, j: u32) -> Edge
        requires from { i < self.now.ranks }
        requires two { 2 ≤ self.now.ranks }
        ensures value { result ≡ record {
          from = i;
          to = j;
          row = first_row self.now (i + 1) - self.now.reach;
          tag = DOWN;
        } }
        ensures rows { result.row + self.now.reach ≤ self.now.rows }
    {
        let row = self.block(i).1 - self.reach;
        Edge {
            from: i,
            to: j,
            row,
            tag: DOWN,
        }
    }

    /// The edge that carries the first rows of rank `j` to rank `i`.
    fn up(&self, i: u32, j: u32) -> Edge
        requires from { j < self.now.ranks }
        requires two { 2 ≤ self.now.ranks }
        ensures value { result ≡ record { from = j; to = i; row = first_row self.now j; tag = UP } }
        ensures rows { result.row + self.now.reach ≤ self.now.rows }
    {
        let row = self.block(j).0;
        Edge {
            from: j,
            to: i,
            row,
            tag: UP,
        }
    }

    /// Edge `e`, in the order of the ranks: the last rows of rank 0 to rank 1, the first rows of rank 1 to rank 0,
    /// and so on; at the end, where rows go round, the last rows of the last rank to rank 0, and the first rows of
    /// rank 0 to the last rank.
    pub fn edge(&self, e: u32) -> Edge
        requires { e < length (edges self.now) }
        ensures value { slice_get (edges self.now) e ≡ Some result }
        ensures ranks { (result.from < self.now.ranks) × (result.to < self.now.ranks) }
        ensures rows { result.row + self.now.reach ≤ self.now.rows }
    {
        // The plan's limits, for the proof.
        let _ranks = self.ranks;
        let i = e / 2;
        let j = self.behind(i);
        if e % 2 == 0 {
            self.down(i, j)
        } else {
            self.up(i, j)
        }
    }

    /// The message of each edge: as many rows as the weights reach, one after another.
    pub fn message(&self) -> &Message
        ensures value { result.now ≡ message_of self.now }
        ensures limits { IsPlan self.now }
    {
        &self.message
    }
}
