//! The lays of markers.

ghost use Rattle.std.specs.Prelude.{◌≡◌, ◌↔◌, false, true, ℕ, ◌+◌, ◌-◌, ◌%◌, ◌^◌, ◌<◌, ◌≤◌, ◌∷◌, bit_or, IsTrue, IfOk};
ghost use Rattle.std.specs.Prelude.{IfErr, IfSome, IfNone, Some, None, length};
ghost use Rattle.part_geometry.specs.Pieces.{pieces, first_part, Touches};
ghost use Rattle.pair_core.specs.Names.{Piece, number};
ghost use Rattle.pair_core.specs.Core.{Core, has};
ghost use Rattle.pair_core.specs.Moves.{MayLay};
ghost use Rattle.pair_core.specs.Steps.{left_of};
ghost use Rattle.pair_core.specs.State.{Plain, IsAt};
ghost use Rattle.pair_core.specs.Laying.{IsLay, laid_on};
ghost use Rattle.pair_core.specs.Events.{Becomes};

use crate::bits::with_bit;
use crate::event::{Applied, Event};
use crate::seat::{Pick, Spot};
use crate::state::CoreState;
use crate::tables::Tables;
use crate::view::Pending;
use std::alloc::AllocError;

/// A claim's partition that is laid into a piece.
#[derive(Clone, Copy)]
pub(crate) struct Lay {
    /// The round of the claim.
    pub(crate) round: u32,
    /// The piece.
    pub(crate) piece: u32,
    /// Whether it is the last piece of the claim.
    pub(crate) last: bool,
}

/// Whether a piece touches the partition of a claim, and doesn't have it so far.
fn lacks(tables: &Tables, pending: &Pending, i: usize) -> bool
    requires { i < pieces tables.now }
    ensures { IsTrue result ↔ (Touches tables.now i pending.now.partition × (has pending.now.laid i ≡ false)) }
{
    // The limit of the pieces, for the proof.
    let _count = tables.pieces();
    if !tables.touches(i, pending.partition) {
        return false;
    }
    !pending.laid.contains(&(i as u32))
}

/// Whether each piece that a claim touches, but piece `i`, has it.
fn is_last(tables: &Tables, pending: &Pending, i: usize) -> bool
    ensures { left_of tables.now i pending.now ≡ laid_on result i (Some pending.now) }
{
    // The geometry's limits, for the proof.
    let _geometry = tables.geometry();
    for j in 0..tables.pieces() {
        if j != i && lacks(tables, pending, j) {
            return false;
        }
    }
    true
}

/// What is laid where a claim's partition is laid into the piece of a word; `None` where it may not be.
pub(crate) fn lay_of(tables: &Tables, pending: &Pending, partition: u32, word: usize) -> Option<Lay>
    ensures some { IfSome result (λ l. IsLay tables.now pending.now partition word l) }
    ensures none { IfNone result ((i : ℕ) → word ≡ number tables.now (Piece (pending.now.round % tables.now.depth) i)
        → ¬ MayLay tables.now pending.now partition i) }
{
    // The limit of the pieces, for the proof.
    let _count = tables.pieces();
    if pending.partition != partition {
        return None;
    }
    let place = tables.place(pending.round);
    let Some(piece) = tables.piece_at(place, word) else {
        return None;
    };
    if !lacks(tables, pending, piece) {
        return None;
    }
    let last = is_last(tables, pending, piece);
    Some(Lay {
        round: pending.round,
        piece: piece as u32,
        last,
    })
}

impl CoreState {
    ghost use Rattle.pair_core.specs.Shows.{Shows};
    ghost use Rattle.pair_core.specs.Steps.{lays_piece};

    /// A seat lays its claim of a partition into a piece; the result is the piece's word then.
    fn lay_into(&mut self, at: usize, p: u32, lay: Lay) -> Result<u64, AllocError>
        requires at { at < length self.old.seats.items }
        requires piece { lay.piece < pieces self.old.tables }
        requires touches { Touches self.old.tables lay.piece p }
        ensures tables { self.new.tables ≡ self.old.tables }
        ensures word { IfOk result (λ w. (core : Core Plain) → Shows self.old core
            → w ≡ bit_or (core.word (Piece (lay.round % self.old.tables.depth) lay.piece))
            (2 ^ (p - first_part self.old.tables lay.piece))) }
        ensures shows { IfOk result (λ _. (core : Core Plain) (n word : ℕ) (x : Pending) → Shows self.old core
            → IsAt self.old.seats.items at n
            → core.pending n ≡ Some x → IsLay self.old.tables x p word lay
            → Shows self.new (lays_piece self.old.tables n lay.piece x core)) }
        ensures memory { IfErr result (λ _. (core : Core Plain) → Shows self.old core → Shows self.new core) }
    {
        let piece = lay.piece;
        let place = self.tables.place(lay.round);
        let index = self.tables.piece_word(place, piece as usize);
        let bit = self.tables.part_bit(piece as usize, p);
        let word = with_bit(self.word(index), bit);
        self.lay(at, piece, lay.last)?;
        self.put_slots(
            place,
            Pick::Laid {
                partition: p,
                piece,
            },
            Spot::Filled { round: lay.round },
        );
        self.write(at, index, word);
        Ok(word)
    }

    /// A marker lays its claimed partition into a piece.
    pub(crate) fn lay_piece(&mut self, event: &Event) -> Result<Applied, AllocError>
        requires { event.now.kind ≡ 8 }
        ensures tables { self.new.tables ≡ self.old.tables }
        ensures becomes { IfOk result (λ r. (core : Core Plain) → Shows self.old core
            → Becomes self.old.tables event.now (Shows self.new) core r) }
        ensures memory { IfErr result (λ _. (core : Core Plain) → Shows self.old core → Shows self.new core) }
    {
        // The geometry's limits, for the proof.
        let _geometry = self.tables.geometry();
        let Some(at) = self.find(event.seat) else {
            return Ok(Applied::NotAllowed);
        };
        let Some(lay) = self.lay_of(at, event.partition, event.word as usize) else {
            return Ok(Applied::NotAllowed);
        };
        let word = self.lay_into(at, event.partition, lay)?;
        if !self.tables.is_full(word, lay.round, lay.piece as usize) {
            return Ok(Applied::quietly());
        }
        Ok(Applied::sending(lay.round, lay.piece))
    }
}
