//! The tables of a geometry.

ghost use Rattle.std.specs.Prelude.{◌≡◌, ◌+◌, ◌*◌, ◌%◌, ◌<◌, ◌≤◌, IfOk};
ghost use Rattle.part_geometry.specs.declared.TheConstants.{MAX_PARTS};
ghost use Rattle.part_geometry.specs.Shape.{IsShape};
ghost use Rattle.part_geometry.specs.Cells.{cells};
ghost use Rattle.part_geometry.specs.Pieces.{pieces, first_part, need};
ghost use Rattle.part_geometry.specs.Walk.{cell_at};
ghost use Rattle.part_tables.specs.Parts.{first_sent, first_received, first_shared, after_shared};
ghost use Rattle.part_tables.specs.Tables.{AreCells, AreFirsts, AreRuns, run_at};

use part_geometry::{Cell, Geometry, all_cells};
use std::alloc::{AllocError, Global};
use std::marker::Model;

/// A way to part the cells.
#[derive(Clone, Copy)]
enum Row {
    Send,
    Recv,
    Piece,
}

impl Row {
    ghost use Rattle.part_tables.specs.Tables.{part_in};

    fn part(self, cell: Cell) -> u32
        ensures { result ≡ part_in self cell }
    {
        match self {
            Row::Send => cell.send,
            Row::Recv => cell.recv,
            Row::Piece => cell.piece,
        }
    }
}

/// The cells and the send partitions of a piece.
#[derive(Clone, Copy)]
struct PieceRun {
    /// The first cell.
    first: usize,
    /// The cell behind the last.
    after: usize,
    /// The first send partition.
    first_part: u32,
    /// Which send partitions the piece touches: bit `b` stands for the one `b` behind the first.
    need: u32,
}

impl PieceRun {
    /// Piece `i`, where `firsts` has the first cell of each piece and then the number of cells.
    fn of(geometry: Geometry, all: &[Cell], firsts: &[usize], i: usize) -> PieceRun
        requires all_cells { AreCells geometry all.now }
        requires piece_firsts { AreFirsts Row.Piece geometry firsts.now }
        requires piece { i < pieces geometry }
        ensures { result ≡ run_at geometry i }
    {
        // The geometry's limits, for the proof.
        let _total = geometry.total();
        let first = firsts[i];
        let after = firsts[i + 1];
        let first_part = all[first].send;
        let count = all[after - 1].send + 1 - first_part;
        PieceRun {
            first,
            after,
            first_part,
            need: u32::MAX >> (32 - count),
        }
    }
}

/// The first cell of each part of a row, and behind them the number of cells.
fn first_cells(
    alloc: Global,
    geometry: Geometry,
    row: Row,
    all: &[Cell],
) -> Result<Vec<usize>, AllocError>
    requires { AreCells geometry all.now }
    ensures { IfOk result (λ firsts. AreFirsts row geometry firsts.items) }
{
    // The geometry's limits, for the proof.
    let _total = geometry.total();
    let mut firsts = Vec::new(alloc);
    for (c, cell) in all.iter().enumerate() {
        if row.part(*cell) as usize == firsts.len() {
            firsts.push(c)?;
        }
    }
    firsts.push(all.len())?;
    Ok(firsts)
}

/// The pieces in order.
fn piece_runs(
    alloc: Global,
    geometry: Geometry,
    all: &[Cell],
    firsts: &[usize],
) -> Result<Vec<PieceRun>, AllocError>
    requires all_cells { AreCells geometry all.now }
    requires piece_firsts { AreFirsts Row.Piece geometry firsts.now }
    ensures { IfOk result (λ runs. AreRuns geometry runs.items) }
{
    // The geometry's limits, for the proof.
    let _total = geometry.total();
    let mut runs = Vec::new(alloc);
    for i in 0..firsts.len() - 1 {
        runs.push(PieceRun::of(geometry, all, firsts, i))?;
    }
    Ok(runs)
}

/// The cells of a geometry, and where those of each partition and each piece begin. Contracts see the geometry. No
/// reader divides by a variable, walks or allocates.
#[derive(Drop)]
pub struct Tables {
    geometry: Geometry,
    cells: Vec<Cell>,
    sent: Vec<usize>,
    received: Vec<usize>,
    runs: Vec<PieceRun>,
}

impl Model for Tables {
    ghost use Rattle.part_geometry.specs.Shape.{Shape};
    ghost use Rattle.part_tables.specs.Tables.{AreTables};

    ghost Value = { Shape };

    ghost view = { λ t. t.geometry };

    ghost invariant = { λ t. AreTables t.geometry t.cells.items t.sent.items t.received.items t.runs.items };
}

impl Tables {
    /// The tables of a geometry, in time and memory that grow with the number of its cells.
    pub fn new(alloc: Global, geometry: Geometry) -> Result<Tables, AllocError>
        ensures { IfOk result (λ tables. tables ≡ geometry) }
    {
        // The geometry's limits, for the proof.
        let _total = geometry.total();
        let cells = all_cells(alloc, geometry)?;
        let sent = first_cells(alloc, geometry, Row::Send, &cells)?;
        let received = first_cells(alloc, geometry, Row::Recv, &cells)?;
        let firsts = first_cells(alloc, geometry, Row::Piece, &cells)?;
        let runs = piece_runs(alloc, geometry, &cells, &firsts)?;
        Ok(Tables {
            geometry,
            cells,
            sent,
            received,
            runs,
        })
    }

    /// The geometry itself.
    pub fn geometry(&self) -> Geometry
        ensures value { result ≡ self.now }
        ensures limits { IsShape self.now }
    {
        self.geometry
    }

    /// How many cells the message has: at least 1, and fewer than both sides together have partitions.
    pub fn cells(&self) -> usize
        ensures value { result ≡ cells self.now }
        ensures limits { (1 ≤ result) × (result < 2 * MAX_PARTS) }
    {
        self.cells.len()
    }

    /// How many pieces the message goes out in: at least 1, and at most as many as it has cells.
    pub fn pieces(&self) -> usize
        ensures value { result ≡ pieces self.now }
        ensures limits { (1 ≤ result) × (result < 2 * MAX_PARTS) }
    {
        self.runs.len()
    }

    /// Cell `c`, with the partitions and the piece that it lies in.
    pub fn cell(&self, c: usize) -> Cell
        requires { c < cells self.now }
        ensures { result ≡ cell_at self.now c }
    {
        self.cells[c]
    }

    /// The first cell of send partition `p`, and the cell behind its last.
    pub fn sent(&self, p: usize) -> (usize, usize)
        requires { p < self.now.send_parts }
        ensures value { result ≡ (first_sent self.now p, first_sent self.now (p + 1)) }
        ensures inside { (result.0 < result.1) × (result.1 ≤ cells self.now) }
    {
        (self.sent[p], self.sent[p + 1])
    }

    /// The first cell of receive partition `q`, and the cell behind its last.
    pub fn received(&self, q: usize) -> (usize, usize)
        requires { q < self.now.recv_parts }
        ensures value { result ≡ (first_received self.now q, first_received self.now (q + 1)) }
        ensures inside { (result.0 < result.1) × (result.1 ≤ cells self.now) }
    {
        (self.received[q], self.received[q + 1])
    }

    /// The least send partition that piece `i` touches.
    pub fn first_part(&self, i: usize) -> u32
        requires { i < pieces self.now }
        ensures { result ≡ first_part self.now i }
    {
        self.runs[i].first_part
    }

    /// Which send partitions piece `i` touches, as a mask: bit `b` stands for the partition `b` behind
    /// `first_part(i)`.
    pub fn need(&self, i: usize) -> u32
        requires { i < pieces self.now }
        ensures { result ≡ need self.now i }
    {
        self.runs[i].need
    }

    /// The first cell that send partition `p` and piece `i` share, and the cell behind the last. Where they share
    /// none, the second is not above the first.
    pub fn shared(&self, p: usize, i: usize) -> (usize, usize)
        requires part { p < self.now.send_parts }
        requires piece { i < pieces self.now }
        ensures value { result ≡ (first_shared self.now p i, after_shared self.now p i) }
        ensures inside { result.1 ≤ cells self.now }
    {
        let (first, after) = self.sent(p);
        let run = &self.runs[i];
        (first.max(run.first), after.min(run.after))
    }

    /// The place of a round: the remainder by the depth.
    pub fn place(&self, round: u32) -> usize
        ensures value { result ≡ round % self.now.depth }
        ensures limits { result < self.now.depth }
    {
        let depth = self.geometry().depth();
        let place = match depth {
            1 => 0,
            2 => round % 2,
            3 => round % 3,
            _ => round % 4,
        };
        place as usize
    }
}
