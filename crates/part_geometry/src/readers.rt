//! The cells and the pieces of a geometry, each by its number.

ghost use Rattle.std.specs.Prelude.{◌≡◌, ℕ, ◌+◌, ◌*◌, ◌<◌, ◌≤◌, ◌↔◌, IsBitSet};
ghost use Rattle.part_geometry.specs.Shape.{IsShape, IsWithin, send_total};
ghost use Rattle.part_geometry.specs.Cells.{AreBounds, bounds, cells, start, end, send_of, recv_of};
ghost use Rattle.part_geometry.specs.Pieces.{IsTheDivision, IsPieceOf, IsRun, pieces, first_cell, last_cell, piece_of, Touches, first_part, need_count, need};
ghost use Rattle.part_geometry.specs.Walk.{cell_at};

use crate::{Cell, CellWalk, Geometry};

impl Geometry {
    /// A walk over the cells, which stands before the first one.
    pub fn walk(&self) -> CellWalk
        ensures stands { result ≡ record { shape = self.now; place = 0 } }
        ensures limits { IsShape self.now }
    {
        // The geometry's limits, for the proof.
        let _total = self.total();
        CellWalk::new(*self)
    }

    /// How many cells the message has, 1 to 2,046: one fewer than it has bounds. A bound is a place where a partition
    /// of either side (MPI 4.0, 4.2) starts, or the end of the message. Walks over all cells, as the others here do.
    pub fn cells(&self) -> u32
        ensures value { result ≡ cells self.now }
        ensures bounds { AreBounds self.now (bounds self.now) }
        ensures whole { (start self.now 0 ≡ 0) × (start self.now result ≡ send_total self.now) }
        ensures limits { (1 ≤ result) × (result + 1 ≤ self.now.send_parts + self.now.recv_parts) }
    {
        let mut walk = self.walk();
        let mut count = 0;
        while walk.advance().is_some() {
            count += 1;
        }
        count
    }

    /// Cell `c`, with the partitions and the piece that it lies in.
    fn whole_cell(&self, c: u32) -> Cell
        requires { c < cells self.now }
        ensures value { result ≡ cell_at self.now c }
        ensures limits { IsShape self.now }
    {
        let mut walk = self.walk();
        for _ in 0..c {
            walk.advance();
        }
        walk.advance().unwrap()
    }

    /// The first byte of cell `c` and the place after its last, in bytes from the start of the message.
    pub fn cell(&self, c: u32) -> (u32, u32)
        requires { c < cells self.now }
        ensures value { result ≡ (start self.now c, end self.now c) }
        ensures inside { (result.0 < result.1) × (result.1 ≤ send_total self.now) }
        ensures next { result.1 ≡ start self.now (c + 1) }
    {
        let cell = self.whole_cell(c);
        (cell.start, cell.end)
    }

    /// The send partition that holds cell `c`: the one in which it starts, and ends too.
    pub fn send_of(&self, c: u32) -> u32
        requires { c < cells self.now }
        ensures value { result ≡ send_of self.now c }
        ensures inside { result < self.now.send_parts }

        // The bytes of partition p are those from p * send_bytes up to (p + 1) * send_bytes.
        ensures starts { (result * self.now.send_bytes ≤ start self.now c)
            × (start self.now c < (result + 1) * self.now.send_bytes) }
        ensures ends { end self.now c ≤ (result + 1) * self.now.send_bytes }
    {
        self.whole_cell(c).send
    }

    /// The receive partition that holds cell `c`: the one in which it starts, and ends too.
    pub fn recv_of(&self, c: u32) -> u32
        requires { c < cells self.now }
        ensures value { result ≡ recv_of self.now c }
        ensures inside { result < self.now.recv_parts }

        // The bytes of partition q are those from q * recv_bytes up to (q + 1) * recv_bytes.
        ensures starts { (result * self.now.recv_bytes ≤ start self.now c)
            × (start self.now c < (result + 1) * self.now.recv_bytes) }
        ensures ends { end self.now c ≤ (result + 1) * self.now.recv_bytes }
    {
        self.whole_cell(c).recv
    }

    /// The piece that cell `c` goes out with.
    pub fn piece_of(&self, c: u32) -> u32
        requires { c < cells self.now }
        ensures value { result ≡ piece_of self.now c }
        ensures holds { IsPieceOf self.now c result }
    {
        self.whole_cell(c).piece
    }

    /// How many pieces the message goes out in: at least 1, and at most as many as it has cells.
    pub fn pieces(&self) -> u32
        ensures value { result ≡ pieces self.now }
        ensures division { IsTheDivision self.now }
        ensures limits { IsWithin 1 (cells self.now) result }
    {
        self.piece_of(self.cells() - 1) + 1
    }

    /// The first and the last cell of piece `i`, both of which it has.
    pub fn piece(&self, i: u32) -> (u32, u32)
        requires { i < pieces self.now }
        ensures value { result ≡ (first_cell self.now i, last_cell self.now i) }
        ensures inside { (result.0 ≤ result.1) × (result.1 < cells self.now) }
        ensures bytes { start self.now result.0 < end self.now result.1 }
        ensures rule { IsRun self.now (first_cell self.now i) result }
        ensures limits { IsShape self.now }
    {
        let mut walk = self.walk();
        let mut first = 0;
        let mut end = 0;
        while let Some(cell) = walk.advance() {
            if cell.piece < i {
                first += 1;
            }
            if cell.piece <= i {
                end += 1;
            }
        }
        (first, end - 1)
    }

    /// The least send partition that piece `i` touches, by sharing a cell with it.
    pub fn first_part(&self, i: u32) -> u32
        requires { i < pieces self.now }
        ensures value { result ≡ first_part self.now i }
        ensures touched { Touches self.now i result }
        ensures least { (p : ℕ) → Touches self.now i p → result ≤ p }
        ensures inside { result < self.now.send_parts }
    {
        let (first, _) = self.piece(i);
        self.send_of(first)
    }

    /// Which send partitions piece `i` touches, as a mask: bit `b` stands for the partition `b` behind
    /// `first_part(i)`. A piece touches 1 to 32 of them, in a row.
    pub fn need(&self, i: u32) -> u32
        requires { i < pieces self.now }
        ensures value { result ≡ need self.now i }
        ensures bits { (b : ℕ) → b < 32 → IsBitSet result b ↔ Touches self.now i (first_part self.now i + b) }
        ensures count { IsWithin 1 32 (need_count self.now i) }
        ensures inside { first_part self.now i + need_count self.now i ≤ self.now.send_parts }
    {
        let (first, last) = self.piece(i);
        let count = self.send_of(last) + 1 - self.send_of(first);
        u32::MAX >> (32 - count)
    }
}
