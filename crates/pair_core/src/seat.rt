//! What a state keeps of a slot and of a seat.

ghost use Rattle.std.specs.Prelude.{◌≡◌, ◌∷◌, IfErr, true, false, ◌+◌, ◌-◌, ◌*◌, ◌<◌, ◌^◌, [], None, length, min};
ghost use Rattle.std.specs.Prelude.{slice_set, slice_index, replicate, IfOk};
ghost use Rattle.part_geometry.specs.Cells.{cells};
ghost use Rattle.pair_core.specs.Picks.{IsFilled};
ghost use Rattle.pair_core.specs.Steps.{mark};
ghost use Rattle.pair_core.specs.Laying.{laid_on};

use crate::tables::Tables;
use crate::view::{Mark, Pending};
use part_geometry::Cell;
use std::alloc::{AllocError, Global};
use std::collections::LinkedList;

/// Where the buffer of a cell is.
#[derive(Clone, Copy)]
pub(crate) enum Spot {
    /// In its slot, with the round that it was filled for.
    Filled { round: u32 },
    /// Out to a seat.
    Lent { seat: u32 },
}

/// Some cells of a pair.
#[derive(Clone, Copy)]
pub(crate) enum Pick {
    /// Those of a send partition.
    Sent { partition: u32 },
    /// Those of a send partition in a piece.
    Laid { partition: u32, piece: u32 },
    /// Those of a receive partition.
    Received { partition: u32 },
}

impl Pick {
    ghost use Rattle.pair_core.specs.Picks.{picked_cell};

    /// Whether a cell is one of them.
    fn picks(self, cell: Cell) -> bool
        ensures { result ≡ picked_cell self cell }
    {
        match self {
            Pick::Sent { partition } => cell.send == partition,
            Pick::Laid { partition, piece } => cell.send == partition && cell.piece == piece,
            Pick::Received { partition } => cell.recv == partition,
        }
    }
}

/// A slot becomes `spot`, where something is so.
fn fill_if(slots: &mut Vec<Spot>, index: usize, so: bool, spot: Spot)
    requires { index < length slots.old.items }
    ensures set { so ≡ true → slots.new.items ≡ slice_set slots.old.items index spot }
    ensures same { so ≡ false → slots.new.items ≡ slots.old.items }
{
    if so {
        slots[index] = spot;
    }
}

/// The slots of some cells at a place become `spot`.
pub(crate) fn fill(slots: &mut Vec<Spot>, tables: &Tables, place: usize, pick: Pick, spot: Spot)
    requires size { length slots.old.items ≡ tables.now.depth * cells tables.now }
    requires place { place < tables.now.depth }
    ensures filled { IsFilled tables.now place pick spot slots.old.items slots.new.items }
{
    // The geometry's limits, for the proof.
    let _geometry = tables.geometry();
    let count = tables.cells();
    for c in 0..count {
        let so = pick.picks(tables.cell(c));
        fill_if(slots, place * count + c, so, spot);
    }
}

/// What a seat knows and did: of each word by number what it has last seen and how often it looked, its claim that
/// pends, and its marks, the newest first.
#[derive(Drop)]
pub(crate) struct Seat {
    pub(crate) seat: u32,
    pub(crate) seen: Vec<u64>,
    pub(crate) looks: Vec<u64>,
    pub(crate) pending: Option<Pending>,
    pub(crate) marks: LinkedList<Mark<()>>,
}

impl Seat {
    /// A seat that did nothing, and has seen these words.
    pub(crate) fn new(alloc: Global, seat: u32, words: &[u64]) -> Result<Seat, AllocError>
        ensures seat { IfOk result (λ v. v.seat ≡ seat) }
        ensures seen { IfOk result (λ v. v.seen.items ≡ words.now) }
        ensures looks { IfOk result (λ v. v.looks.items ≡ replicate (length words.now) 0) }
        ensures pending { IfOk result (λ v. v.pending ≡ None) }
        ensures marks { IfOk result (λ v. v.marks ≡ []) }
    {
        Ok(Seat {
            seat,
            seen: words.to_vec(alloc)?,
            looks: vec![in alloc; 0; words.len()]?,
            pending: None,
            marks: LinkedList::new(alloc),
        })
    }

    /// The seat looked at a word, and saw `word` there.
    pub(crate) fn saw(&mut self, index: usize, word: u64)
        requires seen { index < length self.old.seen.items }
        requires looks { index < length self.old.looks.items }
        ensures seat { self.new.seat ≡ self.old.seat }
        ensures seen { self.new.seen.items ≡ slice_set self.old.seen.items index word }
        ensures looks { self.new.looks.items ≡ slice_set self.old.looks.items index
            (min (slice_index self.old.looks.items index + 1) (2 ^ 64 - 1)) }
        ensures pending { self.new.pending ≡ self.old.pending }
        ensures marks { self.new.marks ≡ self.old.marks }
    {
        self.seen[index] = word;
        self.looks[index] = self.looks[index].saturating_add(1);
    }

    /// The seat marked a partition in a round.
    pub(crate) fn add_mark(&mut self, round: u32, partition: u32) -> Result<(), AllocError>
        ensures seat { self.new.seat ≡ self.old.seat }
        ensures seen { self.new.seen ≡ self.old.seen }
        ensures looks { self.new.looks ≡ self.old.looks }
        ensures pending { self.new.pending ≡ self.old.pending }
        ensures marks { IfOk result (λ _. self.new.marks ≡ mark round partition tt ∷ self.old.marks) }
        ensures memory { IfErr result (λ _. self.new.marks ≡ self.old.marks) }
    {
        self.marks.push_front(Mark {
            round,
            partition,
            with: (),
        })?;
        Ok(())
    }

    /// Another claim pends, or none.
    pub(crate) fn set_pending(&mut self, pending: Option<Pending>)
        ensures seat { self.new.seat ≡ self.old.seat }
        ensures seen { self.new.seen ≡ self.old.seen }
        ensures looks { self.new.looks ≡ self.old.looks }
        ensures pending { self.new.pending ≡ pending }
        ensures marks { self.new.marks ≡ self.old.marks }
    {
        self.pending = pending;
    }
    /// A piece more has the claim that pends; where it is the last one, none pends from now on.
    pub(crate) fn lay(&mut self, piece: u32, last: bool) -> Result<(), AllocError>
        ensures seat { self.new.seat ≡ self.old.seat }
        ensures seen { self.new.seen ≡ self.old.seen }
        ensures looks { self.new.looks ≡ self.old.looks }
        ensures pending { IfOk result (λ _. self.new.pending ≡ laid_on last piece self.old.pending) }
        ensures memory { IfErr result (λ _. self.new.pending ≡ self.old.pending) }
        ensures marks { self.new.marks ≡ self.old.marks }
    {
        if last {
            self.pending = None;
            return Ok(());
        }
        if let Some(pending) = &mut self.pending {
            pending.laid.push_front(piece)?;
        }
        Ok(())
    }
}
