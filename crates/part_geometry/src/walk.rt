//! A walk over the cells of a message, which merges the two rows of bounds.

ghost use Rattle.std.specs.Prelude.{◌≡◌, ◌+◌, ◌*◌, ◌<◌, ◌≤◌, min, if◌then◌else◌, ◌==◌, IfOk, map};
ghost use Rattle.std.specs.List.{range_with_len};
ghost use Rattle.part_geometry.specs.declared.TheConstants.{MAX_PARTS, MAX_PART_BYTES, MAX_TOTAL};
ghost use Rattle.part_geometry.specs.Cells.{cells, end};
ghost use Rattle.part_geometry.specs.Pieces.{closes};
ghost use Rattle.part_geometry.specs.Walk.{cell_at};

use crate::Geometry;
use std::alloc::{AllocError, Global};
use std::marker::Model;

/// A cell: the bytes of a message between two neighbouring bounds.
#[derive(Clone, Copy, Debug, PartialEq, Eq)]
pub struct Cell {
    /// Its first byte in the message.
    pub start: u32,
    /// The byte after its last.
    pub end: u32,
    /// The send partition that holds it.
    pub send: u32,
    /// The receive partition that holds it.
    pub recv: u32,
    /// The piece that it goes out with.
    pub piece: u32,
}

/// One side's partition at a place of the message.
#[derive(Clone, Copy)]
struct SidePart {
    part: u32,
    end: u32,
    bytes: u32,
}

impl SidePart {
    fn first(bytes: u32) -> SidePart
        ensures { result ≡ record { part = 0; end = bytes; bytes = bytes } }
    {
        SidePart {
            part: 0,
            end: bytes,
            bytes,
        }
    }

    /// The side's partition behind a place up to its end.
    fn passed(self, place: u32) -> SidePart
        requires part { self.part < MAX_PARTS }
        requires end { self.end ≤ MAX_TOTAL }
        requires bytes { self.bytes ≤ MAX_PART_BYTES }
        ensures { result ≡ (if place == self.end
            then record { part = self.part + 1; end = self.end + self.bytes; bytes = self.bytes }
            else self) }
    {
        if place == self.end {
            SidePart {
                part: self.part + 1,
                end: self.end + self.bytes,
                bytes: self.bytes,
            }
        } else {
            self
        }
    }
}

/// A place between two cells, and the run of cells that is open there.
#[derive(Clone, Copy)]
struct Position {
    place: u32,
    start: u32,
    send: SidePart,
    recv: SidePart,
    piece: u32,
    first: u32,
    first_start: u32,
    first_send: u32,
}

impl Position {
    ghost use Rattle.part_geometry.specs.Walk.{IsBefore};

    fn first(geometry: Geometry) -> Position
        ensures before { IsBefore geometry result }
        ensures place { result.place ≡ 0 }
    {
        // The geometry's limits, for the proof.
        let _total = geometry.total();
        Position {
            place: 0,
            start: 0,
            send: SidePart::first(geometry.send_bytes()),
            recv: SidePart::first(geometry.recv_bytes()),
            piece: 0,
            first: 0,
            first_start: 0,
            first_send: 0,
        }
    }

    fn cell(self, g: Geometry) -> Cell
        requires before { IsBefore g self }
        requires inside { self.place < cells g }
        ensures { result ≡ cell_at g self.place }
    {
        Cell {
            start: self.start,
            end: self.send.end.min(self.recv.end),
            send: self.send.part,
            recv: self.recv.part,
            piece: self.piece,
        }
    }

    /// Whether the open run is closed by the cell here, which ends at a place.
    fn closes(self, g: Geometry, cell_end: u32) -> bool
        requires before { IsBefore g self }
        requires inside { self.place < cells g }
        requires end { cell_end ≡ end g self.place }
        ensures { result ≡ closes g self.first self.place }
    {
        if cell_end - self.first_start >= g.grain() {
            return true;
        }
        if self.send.part + 1 - self.first_send >= 32 {
            return true;
        }
        cell_end == g.total()
    }

    /// The position behind the cell here.
    fn after(self, g: Geometry) -> Position
        requires before { IsBefore g self }
        requires inside { self.place < cells g }
        ensures before { IsBefore g result }
        ensures place { result.place ≡ self.place + 1 }
    {
        let end = self.send.end.min(self.recv.end);
        let closed = self.closes(g, end);
        let next = Position {
            place: self.place + 1,
            start: end,
            send: self.send.passed(end),
            recv: self.recv.passed(end),
            ..self
        };
        if closed { next.opened() } else { next }
    }

    /// The same position, with the open run closed and one opened here.
    fn opened(self) -> Position
        requires { self.piece < MAX_TOTAL }
        ensures { result ≡ record self {
          piece = self.piece + 1;
          first = self.place;
          first_start = self.start;
          first_send = self.send.part;
        } }
    {
        Position {
            piece: self.piece + 1,
            first: self.place,
            first_start: self.start,
            first_send: self.send.part,
            ..self
        }
    }
}

/// The cells of a geometry that are still to come, in order. Contracts see the geometry and how many cells were
/// passed.
#[derive(Drop)]
pub struct CellWalk {
    geometry: Geometry,
    position: Position,
}

impl Model for CellWalk {
    ghost use Rattle.part_geometry.specs.Walk.{Walked, IsBefore};

    ghost Value = { Walked };

    ghost view = { λ w. record { shape = w.geometry; place = w.position.place } };

    ghost invariant = { λ w. IsBefore w.geometry w.position };
}

impl CellWalk {
    ghost use Rattle.part_geometry.specs.Walk.{next_cell, passed};

    /// A walk that stands before the first cell.
    pub fn new(geometry: Geometry) -> CellWalk
        ensures { result ≡ record { shape = geometry; place = 0 } }
    {
        CellWalk {
            geometry,
            position: Position::first(geometry),
        }
    }

    /// The next cell, or `None` behind the last. Each call takes a few steps.
    pub fn advance(&mut self) -> Option<Cell>
        ensures cell { result ≡ next_cell self.old }
        ensures walk { self.new ≡ passed self.old }
    {
        if self.position.start == self.geometry.total() {
            return None;
        }
        let cell = self.position.cell(self.geometry);
        self.position = self.position.after(self.geometry);
        Some(cell)
    }
}

/// The cells of a geometry, in order; or want of memory. Takes a few steps a cell.
pub fn all_cells(alloc: Global, geometry: Geometry) -> Result<Vec<Cell>, AllocError>
    ensures cells { IfOk result (λ all. all.items ≡ map (cell_at geometry) (range_with_len 0 (cells geometry))) }
{
    let mut all = Vec::new(alloc);
    let mut walk = CellWalk::new(geometry);
    while let Some(cell) = walk.advance() {
        all.push(cell)?;
    }
    Ok(all)
}
