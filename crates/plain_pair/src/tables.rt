//! What the calls of a pair need of its geometry, laid out once.

ghost use Rattle.std.specs.Prelude.{◌≡◌, ◌+◌, ◌-◌, ◌%◌, ◌<◌, ◌≤◌, IfOk, length, map};
ghost use Rattle.std.specs.List.{range_with_len};
ghost use Rattle.part_geometry.specs.Shape.{IsShape};
ghost use Rattle.part_geometry.specs.Cells.{cells};
ghost use Rattle.part_geometry.specs.Pieces.{pieces, need_count};
ghost use Rattle.part_geometry.specs.Walk.{cell_at};
ghost use Rattle.plain_pair.specs.Tables.{AreCellsOf, AreFirsts, ArePiecesOf, ArePiecesOver};

use part_geometry::{Cell, Geometry, all_cells};
use std::alloc::{AllocError, Global};
use std::marker::Model;

/// A way to number the cells.
#[derive(Clone, Copy)]
pub(crate) enum Row {
    Send,
    Recv,
    Piece,
}

impl Row {
    ghost use Rattle.plain_pair.specs.Tables.{number_in};

    fn number(self, cell: Cell) -> u32
        ensures { result ≡ number_in self cell }
    {
        match self {
            Row::Send => cell.send,
            Row::Recv => cell.recv,
            Row::Piece => cell.piece,
        }
    }
}

/// The first cell of each number of a row, and behind them the number of cells.
fn first_cells(
    alloc: Global,
    geometry: Geometry,
    row: Row,
    all: &[Cell],
) -> Result<Vec<usize>, AllocError>
    requires { all.now ≡ map (cell_at geometry) (range_with_len 0 (cells geometry)) }
    ensures firsts { IfOk result (λ firsts. AreFirsts row geometry firsts.items) }
{
    // The geometry's limits, for the proof.
    let _total = geometry.total();
    let mut firsts = Vec::new(alloc);
    for (c, cell) in all.iter().enumerate() {
        if row.number(*cell) as usize == firsts.len() {
            firsts.push(c)?;
        }
    }
    firsts.push(all.len())?;
    Ok(firsts)
}

/// How many send partitions each piece touches.
fn piece_needs(
    alloc: Global,
    geometry: Geometry,
    all: &[Cell],
    firsts: &[usize],
) -> Result<Vec<u32>, AllocError>
    requires cells { all.now ≡ map (cell_at geometry) (range_with_len 0 (cells geometry)) }
    requires firsts { AreFirsts Row.Piece geometry firsts.now }
    ensures needs { IfOk result (λ needs.
        needs.items ≡ map (need_count geometry) (range_with_len 0 (pieces geometry))) }
{
    // The geometry's limits, for the proof.
    let _total = geometry.total();
    let mut needs = Vec::new(alloc);
    for i in 0..firsts.len() - 1 {
        let first = all[firsts[i]].send;
        let last = all[firsts[i + 1] - 1].send;
        needs.push(last + 1 - first)?;
    }
    Ok(needs)
}

/// The cells of a geometry, and where those of each partition and piece begin. Contracts see the geometry.
#[derive(Drop)]
pub(crate) struct Tables {
    geometry: Geometry,
    cells: Vec<Cell>,
    sends: Vec<usize>,
    recvs: Vec<usize>,
    pieces: Vec<usize>,
    needs: Vec<u32>,
}

impl Model for Tables {
    ghost use Rattle.part_geometry.specs.Shape.{Shape};
    ghost use Rattle.plain_pair.specs.Tables.{AreTables};

    ghost Value = { Shape };

    ghost view = { λ t. t.geometry };

    ghost invariant = { λ t.
        AreTables t.geometry t.cells.items t.sends.items t.recvs.items t.pieces.items t.needs.items };
}

impl Tables {
    /// Lays out the tables of a geometry, in one pass over its cells for each.
    pub(crate) fn create(alloc: Global, geometry: Geometry) -> Result<Tables, AllocError>
        ensures { IfOk result (λ tables. tables ≡ geometry) }
    {
        // The geometry's limits, for the proof.
        let _total = geometry.total();
        let cells = all_cells(alloc, geometry)?;
        let sends = first_cells(alloc, geometry, Row::Send, &cells)?;
        let recvs = first_cells(alloc, geometry, Row::Recv, &cells)?;
        let pieces = first_cells(alloc, geometry, Row::Piece, &cells)?;
        let needs = piece_needs(alloc, geometry, &cells, &pieces)?;
        Ok(Tables {
            geometry,
            cells,
            sends,
            recvs,
            pieces,
            needs,
        })
    }

    pub(crate) fn geometry(&self) -> Geometry
        ensures value { result ≡ self.now }
        ensures limits { IsShape result }
    {
        // The geometry's limits, for the proof.
        let _total = self.geometry.total();
        self.geometry
    }

    /// The place of a round, without a division by the depth.
    pub(crate) fn place(&self, round: u32) -> usize
        ensures { result ≡ round % self.now.depth }
    {
        let depth = self.geometry().depth();
        let place = match depth {
            1 => 0,
            2 => round % 2,
            3 => round % 3,
            _ => round % 4,
        };
        place as usize
    }

    /// How many send partitions each piece touches.
    pub(crate) fn needs(&self) -> &[u32]
        ensures { result.now ≡ map (need_count self.now) (range_with_len 0 (pieces self.now)) }
    {
        // The lists' invariant, for the proof.
        let _cells = &self.cells;
        self.needs.as_slice()
    }

    pub(crate) fn cell(&self, c: usize) -> Cell
        requires { c < cells self.now }
        ensures { result ≡ cell_at self.now c }
    {
        self.cells[c]
    }

    /// The first cell of send partition `p`, and the cell behind its last.
    pub(crate) fn send_cells(&self, p: usize) -> (usize, usize)
        requires { p < self.now.send_parts }
        ensures { AreCellsOf Row.Send self.now p result.0 result.1 }
    {
        (self.sends[p], self.sends[p + 1])
    }

    /// The first cell of receive partition `q`, and the cell behind its last.
    pub(crate) fn recv_cells(&self, q: usize) -> (usize, usize)
        requires { q < self.now.recv_parts }
        ensures { AreCellsOf Row.Recv self.now q result.0 result.1 }
    {
        (self.recvs[q], self.recvs[q + 1])
    }

    /// The first piece that send partition `p` touches, and the piece behind the last.
    pub(crate) fn send_pieces(&self, p: usize) -> (usize, usize)
        requires { p < self.now.send_parts }
        ensures { ArePiecesOf self.now p result.0 result.1 }
    {
        // The geometry's limits, for the proof.
        let _geometry = self.geometry();
        let (first, end) = self.send_cells(p);
        let last = self.cell(end - 1).piece as usize;
        (self.cell(first).piece as usize, last + 1)
    }

    /// The first piece over receive partition `q`, and the piece behind the last.
    pub(crate) fn recv_pieces(&self, q: usize) -> (usize, usize)
        requires { q < self.now.recv_parts }
        ensures { ArePiecesOver self.now q result.0 result.1 }
    {
        // The geometry's limits, for the proof.
        let _geometry = self.geometry();
        let (first, end) = self.recv_cells(q);
        let last = self.cell(end - 1).piece as usize;
        (self.cell(first).piece as usize, last + 1)
    }
}
