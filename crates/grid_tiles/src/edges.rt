//! The edges of a plan.

ghost use Rattle.std.specs.Prelude.{◌≡◌, ◌<◌, ◌≤◌, ◌+◌, ◌*◌, ◌-ℤ◌, Some, length, pos, slice_get};
ghost use Rattle.part_geometry.specs.declared.TheConstants.{MAX_RANKS};
ghost use Rattle.part_geometry.specs.Shape.{IsShape, IsWithin, send_total};
ghost use Rattle.halo_message.specs.declared.TheConstants.{ELEMENT_BYTES};
ghost use Rattle.halo_message.specs.Message.{elements};
ghost use Rattle.grid_tiles.specs.declared.tile.TileEdge.{TileEdge};
ghost use Rattle.grid_tiles.specs.Plan.{cols_of, first_col};
ghost use Rattle.grid_tiles.specs.Edges.{IsEdge, downward, edges, first_phase, leftward, message_of, next, nexts};
ghost use Rattle.grid_tiles.specs.Edges.{rightward, second_phase, shape_of, upward};

use crate::plan::cut_at;
use crate::{DOWN, LEFT, RIGHT, TileEdge, TilePlan, TileShape, UP};
use halo_message::Message;
use part_geometry::Geometry;
use stencil_def::Around;

/// How many of so many places in a row have a next one.
pub(crate) fn nexts(around: Around, count: u32) -> u32
    requires { 1 ≤ count }
    ensures { result ≡ nexts around count }
{
    match around {
        Around::Wrap if count >= 2 => count,
        Around::Wrap => 0,
        Around::Fixed => count - 1,
    }
}

/// The next of so many places in a row.
fn next(count: u32, i: u32) -> u32
    requires { i < count }
    ensures value { result ≡ next count i }
    ensures inside { result < count }
{
    if i + 1 == count { 0 } else { i + 1 }
}

impl TilePlan {
    /// The edge that carries the last columns of the tile in row `a` and column `b` to the one in column `c`.
    fn rightward(&self, a: u32, b: u32, c: u32) -> TileEdge
        requires row { a < self.now.tile_rows }
        requires from { b < self.now.tile_cols }
        requires to { c < self.now.tile_cols }
        ensures value { result ≡ rightward self.now a b c }
        ensures limits { IsEdge self.now result }
    {
        let top = cut_at(self.rows, self.tile_rows, a);
        let reach = self.shape.reach;
        TileEdge {
            from: a * self.tile_cols + b,
            to: a * self.tile_cols + c,
            tag: RIGHT,
            first_row: i64::from(top),
            rows: cut_at(self.rows, self.tile_rows, a + 1) - top,
            first_col: i64::from(cut_at(self.cols, self.tile_cols, b + 1)) - i64::from(reach),
            cols: reach,
        }
    }

    /// The edge that carries the first columns of the tile in row `a` and column `c` to the one in column `b`.
    fn leftward(&self, a: u32, b: u32, c: u32) -> TileEdge
        requires row { a < self.now.tile_rows }
        requires to { b < self.now.tile_cols }
        requires from { c < self.now.tile_cols }
        ensures value { result ≡ leftward self.now a b c }
        ensures limits { IsEdge self.now result }
    {
        let top = cut_at(self.rows, self.tile_rows, a);
        TileEdge {
            from: a * self.tile_cols + c,
            to: a * self.tile_cols + b,
            tag: LEFT,
            first_row: i64::from(top),
            rows: cut_at(self.rows, self.tile_rows, a + 1) - top,
            first_col: i64::from(cut_at(self.cols, self.tile_cols, c)),
            cols: self.shape.reach,
        }
    }

    /// The first of the columns that the tiles in column `b` send with their rows, and how many these are: as many more
    /// at both sides as the weights reach.
    fn with_sides(&self, b: u32) -> (i64, u32)
        requires { b < self.now.tile_cols }
        ensures first { result.0 ≡ pos (first_col self.now b) -ℤ pos self.now.shape.reach }
        ensures count { result.1 ≡ cols_of self.now b + 2 * self.now.shape.reach }
    {
        let left = cut_at(self.cols, self.tile_cols, b);
        let count = cut_at(self.cols, self.tile_cols, b + 1) - left;
        let reach = self.shape.reach;
        (i64::from(left) - i64::from(reach), count + 2 * reach)
    }

    /// The edge that carries the last rows of the tile in row `a` and column `b` to the one in row `d`.
    fn downward(&self, a: u32, b: u32, d: u32) -> TileEdge
        requires from { a < self.now.tile_rows }
        requires column { b < self.now.tile_cols }
        requires to { d < self.now.tile_rows }
        ensures value { result ≡ downward self.now a b d }
        ensures limits { IsEdge self.now result }
    {
        let (first_col, cols) = self.with_sides(b);
        let reach = self.shape.reach;
        TileEdge {
            from: a * self.tile_cols + b,
            to: d * self.tile_cols + b,
            tag: DOWN,
            first_row: i64::from(cut_at(self.rows, self.tile_rows, a + 1)) - i64::from(reach),
            rows: reach,
            first_col,
            cols,
        }
    }

    /// The edge that carries the first rows of the tile in row `d` and column `b` to the one in row `a`.
    fn upward(&self, a: u32, b: u32, d: u32) -> TileEdge
        requires to { a < self.now.tile_rows }
        requires column { b < self.now.tile_cols }
        requires from { d < self.now.tile_rows }
        ensures value { result ≡ upward self.now a b d }
        ensures limits { IsEdge self.now result }
    {
        let (first_col, cols) = self.with_sides(b);
        let reach = self.shape.reach;
        TileEdge {
            from: d * self.tile_cols + b,
            to: a * self.tile_cols + b,
            tag: UP,
            first_row: i64::from(cut_at(self.rows, self.tile_rows, d)),
            rows: reach,
            first_col,
            cols,
        }
    }

    /// How many edges the first phase has: two for each tile that has a right neighbour.
    pub fn first_count(&self) -> u32
        ensures value { result ≡ length (first_phase self.now) }
        ensures limits { result ≤ 2 * MAX_RANKS }
    {
        2 * (self.tile_rows * nexts(self.shape.around, self.tile_cols))
    }

    /// How many edges there are, in both phases: two for each tile that has a right neighbour, and two for each that
    /// has a lower one.
    pub fn edge_count(&self) -> u32
        ensures value { result ≡ length (edges self.now) }
        ensures limits { result ≤ 4 * MAX_RANKS }
    {
        self.first_count() + 2 * (nexts(self.shape.around, self.tile_rows) * self.tile_cols)
    }

    /// Edge `e` of the first phase.
    fn first_edge(&self, e: u32) -> TileEdge
        requires { e < length (first_phase self.now) }
        ensures value { slice_get (first_phase self.now) e ≡ Some result }
        ensures limits { IsEdge self.now result }
    {
        let pair = e / 2;
        let count = nexts(self.shape.around, self.tile_cols);
        let (a, b) = (pair / count, pair % count);
        let c = next(self.tile_cols, b);
        if e % 2 == 0 {
            self.rightward(a, b, c)
        } else {
            self.leftward(a, b, c)
        }
    }

    /// Edge `e` of the second phase.
    fn second_edge(&self, e: u32) -> TileEdge
        requires { e < length (second_phase self.now) }
        ensures value { slice_get (second_phase self.now) e ≡ Some result }
        ensures limits { IsEdge self.now result }
    {
        let pair = e / 2;
        let (a, b) = (pair / self.tile_cols, pair % self.tile_cols);
        let d = next(self.tile_rows, a);
        if e % 2 == 0 {
            self.downward(a, b, d)
        } else {
            self.upward(a, b, d)
        }
    }

    /// Edge `e`. First, for each tile in order that has a right neighbour, its last columns go right and the
    /// neighbour's first ones come back; then, for each tile in order that has a lower neighbour, its last rows go down
    /// and the neighbour's first ones come back. All edges are in communicator 0.
    pub fn edge(&self, e: u32) -> TileEdge
        requires { e < length (edges self.now) }
        ensures value { slice_get (edges self.now) e ≡ Some result }
        ensures limits { IsEdge self.now result }
    {
        let first = self.first_count();
        if e < first {
            self.first_edge(e)
        } else {
            self.second_edge(e - first)
        }
    }

    /// The message of edge `e`: the cells of its rectangle, row by row.
    pub fn message(&self, e: u32) -> Message
        requires { e < length (edges self.now) }
        ensures { (x : TileEdge) → slice_get (edges self.now) e ≡ Some x → result ≡ message_of self.now x }
    {
        let edge = self.edge(e);
        let TileShape {
            send_parts,
            recv_parts,
            grain,
            depth,
            ..
        } = self.shape;
        Message::new(edge.rows * edge.cols, send_parts, recv_parts, grain, depth)
    }

    /// How both sides of edge `e` cut its messages.
    pub fn geometry(&self, e: u32) -> Geometry
        requires { e < length (edges self.now) }
        ensures value { (x : TileEdge) → slice_get (edges self.now) e ≡ Some x → result ≡ shape_of self.now x }
        ensures whole { (x : TileEdge) → slice_get (edges self.now) e ≡ Some x →
            send_total result ≡ elements (message_of self.now x) * ELEMENT_BYTES }
        ensures limits { IsShape result }
    {
        self.message(e).geometry()
    }
}
