//! What the state needs of its geometry, worked out once.

ghost use Rattle.std.specs.Prelude.{◌≢◌, ◌/◌, false, ◌↔◌, ℕ, IsTrue, IfSome, IfNone, ◌≡◌, ◌+◌, ◌*◌, ◌-◌, ◌%◌, ◌<◌, ◌≤◌};
ghost use Rattle.std.specs.Prelude.{IfOk, length, map};
ghost use Rattle.std.specs.List.{range_with_len};
ghost use Rattle.part_geometry.specs.Shape.{IsShape};
ghost use Rattle.part_geometry.specs.Cells.{cells, send_of, recv_of};
ghost use Rattle.part_geometry.specs.Pieces.{pieces, piece_of, first_part, need_count, Touches};
ghost use Rattle.part_geometry.specs.Walk.{cell_at};
ghost use Rattle.pair_core.specs.Names.{Piece, Take, Return, Fits, claim_words, take_words, number};
ghost use Rattle.pair_core.specs.Reading.{IsFull};
ghost use Rattle.pair_core.specs.State.{word_count};

use crate::bits::bit_of;
use gate_word::round_of;
use part_geometry::{Cell, Geometry, all_cells};
use std::alloc::{AllocError, Global};
use std::marker::Model;

/// The first send partition of each piece.
fn first_parts(alloc: Global, geometry: Geometry) -> Result<Vec<u32>, AllocError>
    ensures { IfOk result (λ firsts. firsts.items ≡ map (first_part geometry) (range_with_len 0 (pieces geometry))) }
{
    let mut firsts = Vec::new(alloc);
    for i in 0..geometry.pieces() {
        firsts.push(geometry.first_part(i))?;
    }
    Ok(firsts)
}

/// How many send partitions a piece touches.
fn part_count(geometry: Geometry, i: u32) -> u32
    requires { i < pieces geometry }
    ensures { result ≡ need_count geometry i }
{
    let (_, last) = geometry.piece(i);
    geometry.send_of(last) + 1 - geometry.first_part(i)
}

/// How many send partitions each piece touches.
fn part_counts(alloc: Global, geometry: Geometry) -> Result<Vec<u32>, AllocError>
    ensures { IfOk result (λ counts. counts.items ≡ map (need_count geometry) (range_with_len 0 (pieces geometry))) }
{
    let mut counts = Vec::new(alloc);
    for i in 0..geometry.pieces() {
        counts.push(part_count(geometry, i))?;
    }
    Ok(counts)
}

/// The cells of a geometry, and the send partitions of its pieces. Contracts see the geometry.
#[derive(Drop)]
pub(crate) struct Tables {
    geometry: Geometry,
    cells: Vec<Cell>,
    firsts: Vec<u32>,
    counts: Vec<u32>,
}

impl Model for Tables {
    ghost use Rattle.part_geometry.specs.Shape.{Shape};
    ghost use Rattle.pair_core.specs.State.{AreTables};

    ghost Value = { Shape };

    ghost view = { λ t. t.geometry };

    ghost invariant = { λ t. AreTables t.geometry t.cells.items t.firsts.items t.counts.items };
}

impl Tables {
    /// Lays out the tables of a geometry.
    pub(crate) fn create(alloc: Global, geometry: Geometry) -> Result<Tables, AllocError>
        ensures { IfOk result (λ tables. tables ≡ geometry) }
    {
        // The geometry's limits, for the proof.
        let _total = geometry.total();
        let cells = all_cells(alloc, geometry)?;
        let firsts = first_parts(alloc, geometry)?;
        let counts = part_counts(alloc, geometry)?;
        Ok(Tables {
            geometry,
            cells,
            firsts,
            counts,
        })
    }

    pub(crate) fn geometry(&self) -> Geometry
        ensures value { result ≡ self.now }
        ensures limits { IsShape result }
    {
        // The geometry's limits, for the proof.
        let _total = self.geometry.total();
        self.geometry
    }

    /// How many cells there are.
    pub(crate) fn cells(&self) -> usize
        ensures value { result ≡ cells self.now }
        ensures limits { result ≤ 2047 }
    {
        // The geometry's limits, for the proof.
        let _geometry = self.geometry();
        self.cells.len()
    }

    /// How many pieces there are.
    pub(crate) fn pieces(&self) -> usize
        ensures value { result ≡ pieces self.now }
        ensures limits { result ≤ 2047 }
    {
        // The geometry's limits, for the proof.
        let _geometry = self.geometry();
        self.firsts.len()
    }

    pub(crate) fn cell(&self, c: usize) -> Cell
        requires { c < cells self.now }
        ensures { result ≡ cell_at self.now c }
    {
        self.cells[c]
    }

    /// The first send partition of a piece.
    pub(crate) fn first_part(&self, i: usize) -> u32
        requires { i < pieces self.now }
        ensures { result ≡ first_part self.now i }
    {
        self.firsts[i]
    }

    /// How many send partitions a piece touches.
    pub(crate) fn part_count(&self, i: usize) -> u32
        requires { i < pieces self.now }
        ensures { result ≡ need_count self.now i }
    {
        self.counts[i]
    }

    /// How many claim words there are.
    pub(crate) fn claim_words(&self) -> usize
        ensures value { result ≡ claim_words self.now }
        ensures limits { result ≤ 32 }
    {
        let geometry = self.geometry();
        (geometry.send_parts() as usize + 31) / 32
    }

    /// How many take words there are.
    pub(crate) fn take_words(&self) -> usize
        ensures value { result ≡ take_words self.now }
        ensures limits { result ≤ 32 }
    {
        let geometry = self.geometry();
        (geometry.recv_parts() as usize + 31) / 32
    }

    /// The number of the first piece word.
    pub(crate) fn first_piece_word(&self) -> usize
        ensures value { result ≡ claim_words self.now + 1 + 2 * take_words self.now }
        ensures limits { result ≤ 97 }
    {
        self.claim_words() + 1 + 2 * self.take_words()
    }

    /// The place of a round.
    pub(crate) fn place(&self, round: u32) -> usize
        ensures value { result ≡ round % self.now.depth }
        ensures limits { result < self.now.depth }
    {
        let geometry = self.geometry();
        (round % geometry.depth()) as usize
    }

    /// The number of the word of piece `i` at a place.
    pub(crate) fn piece_word(&self, place: usize, i: usize) -> usize
        requires place { place < self.now.depth }
        requires piece { i < pieces self.now }
        ensures value { result ≡ number self.now (Piece place i) }
        ensures limits { result < word_count self.now }
    {
        // The geometry's limits, for the proof.
        let _geometry = self.geometry();
        self.first_piece_word() + (place * self.pieces() + i)
    }

    /// Which piece a word at a place is.
    pub(crate) fn piece_at(&self, place: usize, word: usize) -> Option<usize>
        requires { place < self.now.depth }
        ensures some { IfSome result (λ i. (i < pieces self.now) × (word ≡ number self.now (Piece place i))) }
        ensures none { IfNone result ((i : ℕ) → i < pieces self.now → word ≢ number self.now (Piece place i)) }
    {
        // The geometry's limits, for the proof.
        let _geometry = self.geometry();
        let first = self.first_piece_word() + place * self.pieces();
        if word < first {
            return None;
        }
        if word - first >= self.pieces() {
            return None;
        }
        Some(word - first)
    }

    /// Whether a piece touches a send partition.
    pub(crate) fn touches(&self, i: usize, p: u32) -> bool
        requires { i < pieces self.now }
        ensures { IsTrue result ↔ Touches self.now i p }
    {
        // The geometry's limits, for the proof.
        let _geometry = self.geometry();
        let first = self.first_part(i);
        p >= first && p - first < self.part_count(i)
    }

    /// The bit of a send partition in the word of a piece that touches it.
    pub(crate) fn part_bit(&self, i: usize, p: u32) -> u32
        requires piece { i < pieces self.now }
        requires touches { Touches self.now i p }
        ensures value { result ≡ p - first_part self.now i }
        ensures limits { result < 32 }
    {
        // The geometry's limits, for the proof.
        let _geometry = self.geometry();
        p - self.first_part(i)
    }

    /// Whether a word of piece `i` is full in a round.
    pub(crate) fn is_full(&self, word: u64, round: u32, i: usize) -> bool
        requires { i < pieces self.now }
        ensures { IsTrue result ↔ IsFull self.now word round i }
    {
        // The geometry's limits, for the proof.
        let _geometry = self.geometry();
        let count = self.part_count(i);
        if round_of(word) != round {
            return false;
        }
        for b in 0..count {
            if bit_of(word, b) != 1 {
                return false;
            }
        }
        true
    }

    /// Whether a number is that of a piece word.
    pub(crate) fn is_piece(&self, word: usize) -> bool
        ensures some { IsTrue result
            → (d : ℕ) × (i : ℕ) × Fits self.now (Piece d i) × (word ≡ number self.now (Piece d i))
            × (word < word_count self.now) }
        ensures none { result ≡ false → (d i : ℕ) → Fits self.now (Piece d i) → word ≢ number self.now (Piece d i) }
    {
        let geometry = self.geometry();
        let first = self.first_piece_word();
        let count = geometry.depth() as usize * self.pieces();
        if word < first {
            return false;
        }
        if word - first >= count {
            return false;
        }
        true
    }

    /// The number of the take word of a receive partition.
    pub(crate) fn take_word(&self, q: u32) -> usize
        requires { q < self.now.recv_parts }
        ensures value { result ≡ number self.now (Take (q / 32)) }
        ensures limits { result < word_count self.now }
    {
        self.claim_words() + 1 + (q / 32) as usize
    }

    /// The number of the return word of a receive partition.
    pub(crate) fn return_word(&self, q: u32) -> usize
        requires { q < self.now.recv_parts }
        ensures value { result ≡ number self.now (Return (q / 32)) }
        ensures limits { result < word_count self.now }
    {
        self.claim_words() + 1 + self.take_words() + (q / 32) as usize
    }
}
