//! The state of a pair as plain data: what it reads, and the changes that the steps are made of.

ghost use Rattle.std.specs.Prelude.{◌≡◌, ◌↔◌, IsTrue, None, ◌∷◌, ◌≢◌, ℕ, ◌+◌, ◌-◌, ◌*◌, ◌%◌, ◌<◌, ◌≤◌, ◌^◌, Some};
ghost use Rattle.std.specs.Prelude.{length, slice_get, IfSome, IfNone, IfOk, IfErr};
ghost use Rattle.part_geometry.specs.declared.TheConstants.{LAST_ROUND};
ghost use Rattle.pair_core.specs.Names.{Name, Piece, Fits, number, put, put_word};
ghost use Rattle.pair_core.specs.Core.{Core};
ghost use Rattle.pair_core.specs.State.{slot_of, IsFresh, IsKept, IsAt, Plain, word_count};

use crate::copy::{copy_marks, copy_seats};
use crate::first::{first_seats, first_words};
use crate::lay::{Lay, lay_of};
use crate::seat::{Pick, Seat, Spot, fill};
use crate::tables::Tables;
use crate::view::{Mark, Pending, RecvSide, SendSide};
use part_geometry::Geometry;
use std::alloc::{AllocError, Global};
use std::collections::LinkedList;

/// The state of a pair: its words and its slots by number, its two sides, and what each seat that it has met knows
/// and did.
#[derive(Drop)]
pub struct CoreState {
    pub(crate) tables: Tables,
    words: Vec<u64>,
    slots: Vec<Spot>,
    pub(crate) send: SendSide,
    pub(crate) recv: RecvSide,
    seats: Vec<Seat>,
    takes: LinkedList<Mark<()>>,
    ghost kept: { IsKept tables words.items slots.items send recv seats.items },
}

impl CoreState {
    ghost use Rattle.pair_core.specs.Shows.{Shows, geometry_of};
    ghost use Rattle.pair_core.specs.Moves.{MayLay, first_state};
    ghost use Rattle.pair_core.specs.Picks.{picked};
    ghost use Rattle.pair_core.specs.Laying.{IsLay, laid_on};
    ghost use Rattle.pair_core.specs.Steps.{enters, loads, mark, put_slots, saw, wrote};

    /// The state of a pair before its first step: round 0 counts as sent, taken, given back and released.
    pub fn start(alloc: Global, geometry: Geometry) -> Result<CoreState, AllocError>
        ensures first { IfOk result (λ state. Shows state (first_state geometry)) }
        ensures geometry { IfOk result (λ state. geometry_of state ≡ geometry) }
    {
        let tables = Tables::create(alloc, geometry)?;
        let spots = tables.geometry().depth() as usize * tables.cells();
        let claims = tables.claim_words() as u32;
        let takes = tables.take_words() as u32;
        let send = SendSide {
            round: 0,
            pieces: tables.pieces() as u32,
            opened: claims,
            shut: claims,
            markers: 0,
        };
        let recv = RecvSide {
            round: 0,
            returns: takes,
            takes,
            released: 1,
            watchers: 0,
        };
        let words = first_words(alloc, &tables)?;
        let seats = first_seats(alloc, &tables, words.as_slice())?;
        let slots = vec![in alloc; Spot::Filled { round: 0 }; spots]?;
        Ok(CoreState {
            tables,
            words,
            slots,
            send,
            recv,
            seats,
            takes: LinkedList::new(alloc),
        })
    }

    /// The same state once more.
    pub(crate) fn copy(&self, alloc: Global) -> Result<CoreState, AllocError>
        ensures geometry { IfOk result (λ copy. geometry_of copy ≡ geometry_of self.now) }
        ensures shows { IfOk result (λ copy. (core : Core Plain) → Shows self.now core → Shows copy core) }
    {
        let tables = Tables::create(alloc, self.tables.geometry())?;
        let words = self.words.as_slice().to_vec(alloc)?;
        let slots = self.slots.as_slice().to_vec(alloc)?;
        let seats = copy_seats(alloc, self.seats.as_slice())?;
        let takes = copy_marks(&self.takes)?;
        Ok(CoreState {
            tables,
            words,
            slots,
            send: self.send,
            recv: self.recv,
            seats,
            takes,
        })
    }

    /// The word with a number.
    pub(crate) fn word(&self, index: usize) -> u64
        requires { index < word_count self.now.tables }
        ensures { (core : Core Plain) (x : Name) → Shows self.now core → Fits self.now.tables x
            → number self.now.tables x ≡ index → result ≡ core.word x }
    {
        self.words[index]
    }

    /// What a seat has last seen of a word.
    pub(crate) fn seen(&self, at: usize, index: usize) -> u64
        requires at { at < length self.now.seats.items }
        requires index { index < word_count self.now.tables }
        ensures { (core : Core Plain) (n : ℕ) (x : Name) → Shows self.now core → IsAt self.now.seats.items at n
            → Fits self.now.tables x → number self.now.tables x ≡ index → result ≡ core.seen n x }
    {
        self.seats[at].seen[index]
    }

    /// Where a seat stands in the list of those that were met.
    pub(crate) fn find(&self, seat: u32) -> Option<usize>
        ensures some { IfSome result (λ at. IsAt self.now.seats.items at seat) }
        ensures inside { IfSome result (λ at. at < length self.now.seats.items) }
        ensures none { IfNone result ((at : ℕ) (v : Seat) → slice_get self.now.seats.items at ≡ Some v
            → v.seat ≢ seat) }
    {
        for (at, known) in self.seats.iter().enumerate() {
            if known.seat == seat {
                return Some(at);
            }
        }
        None
    }

    /// A word becomes `word`.
    fn put(&mut self, index: usize, word: u64)
        requires { index < word_count self.old.tables }
        ensures tables { self.new.tables ≡ self.old.tables }
        ensures send { self.new.send ≡ self.old.send }
        ensures recv { self.new.recv ≡ self.old.recv }
        ensures seats { self.new.seats.items ≡ self.old.seats.items }
        ensures shows { (core : Core Plain) (x : Name) → Shows self.old core → Fits self.old.tables x
            → number self.old.tables x ≡ index → Shows self.new (record core { word = put_word x word core.word }) }
    {
        self.words[index] = word;
    }

    /// A seat looked at a word, and saw `word` there.
    fn saw(&mut self, at: usize, index: usize, word: u64)
        requires at { at < length self.old.seats.items }
        requires index { index < word_count self.old.tables }
        ensures tables { self.new.tables ≡ self.old.tables }
        ensures send { self.new.send ≡ self.old.send }
        ensures recv { self.new.recv ≡ self.old.recv }
        ensures seats { (m n : ℕ) → IsAt self.old.seats.items m n → IsAt self.new.seats.items m n }
        ensures shows { (core : Core Plain) (n : ℕ) (x : Name) → Shows self.old core → IsAt self.old.seats.items at n
            → Fits self.old.tables x → number self.old.tables x ≡ index → Shows self.new (saw n x word core) }
    {
        self.seats[at].saw(index, word);
    }

    /// A word becomes `word`, and a seat saw it so.
    pub(crate) fn write(&mut self, at: usize, index: usize, word: u64)
        requires at { at < length self.old.seats.items }
        requires index { index < word_count self.old.tables }
        ensures tables { self.new.tables ≡ self.old.tables }
        ensures send { self.new.send ≡ self.old.send }
        ensures recv { self.new.recv ≡ self.old.recv }
        ensures seats { (m n : ℕ) → IsAt self.old.seats.items m n → IsAt self.new.seats.items m n }
        ensures shows { (core : Core Plain) (n : ℕ) (x : Name) → Shows self.old core → IsAt self.old.seats.items at n
            → Fits self.old.tables x → number self.old.tables x ≡ index → Shows self.new (wrote n x word core) }
    {
        self.put(index, word);
        self.saw(at, index, word);
    }

    /// A seat looks at a word.
    pub(crate) fn look(&mut self, at: usize, index: usize)
        requires at { at < length self.old.seats.items }
        requires index { index < word_count self.old.tables }
        ensures tables { self.new.tables ≡ self.old.tables }
        ensures send { self.new.send ≡ self.old.send }
        ensures recv { self.new.recv ≡ self.old.recv }
        ensures seats { (m n : ℕ) → IsAt self.old.seats.items m n → IsAt self.new.seats.items m n }
        ensures shows { (core : Core Plain) (n : ℕ) (x : Name) → Shows self.old core → IsAt self.old.seats.items at n
            → Fits self.old.tables x → number self.old.tables x ≡ index → Shows self.new (loads n x core) }
    {
        let word = self.word(index);
        self.saw(at, index, word);
    }

    /// The send side comes to stand as given.
    pub(crate) fn set_send(&mut self, send: SendSide)
        requires round { send.round ≤ LAST_ROUND }
        requires markers { send.markers ≡ self.old.send.markers }
        ensures tables { self.new.tables ≡ self.old.tables }
        ensures seats { self.new.seats.items ≡ self.old.seats.items }
        ensures shows { (core : Core Plain) → Shows self.old core → Shows self.new (record core { send = send }) }
    {
        self.send = send;
    }

    /// The receive side comes to stand as given.
    pub(crate) fn set_recv(&mut self, recv: RecvSide)
        requires round { recv.round ≤ LAST_ROUND }
        requires watchers { recv.watchers ≡ self.old.recv.watchers }
        ensures tables { self.new.tables ≡ self.old.tables }
        ensures seats { self.new.seats.items ≡ self.old.seats.items }
        ensures shows { (core : Core Plain) → Shows self.old core → Shows self.new (record core { recv = recv }) }
    {
        self.recv = recv;
    }

    /// The slots of some cells at a place become `spot`.
    pub(crate) fn put_slots(&mut self, place: usize, pick: Pick, spot: Spot)
        requires { place < self.old.tables.depth }
        ensures tables { self.new.tables ≡ self.old.tables }
        ensures send { self.new.send ≡ self.old.send }
        ensures recv { self.new.recv ≡ self.old.recv }
        ensures seats { self.new.seats.items ≡ self.old.seats.items }
        ensures shows { (core : Core Plain) → Shows self.old core
            → Shows self.new
            (record core { slot = put_slots core.slot place (picked self.old.tables pick) (slot_of spot) }) }
    {
        fill(&mut self.slots, &self.tables, place, pick, spot);
    }

    /// The receive side's take of a partition.
    pub(crate) fn add_take(&mut self, round: u32, partition: u32) -> Result<(), AllocError>
        ensures tables { self.new.tables ≡ self.old.tables }
        ensures send { self.new.send ≡ self.old.send }
        ensures recv { self.new.recv ≡ self.old.recv }
        ensures seats { self.new.seats.items ≡ self.old.seats.items }
        ensures shows { IfOk result (λ _. (core : Core Plain) → Shows self.old core
            → Shows self.new (record core { takes = mark round partition tt ∷ core.takes })) }
        ensures memory { IfErr result (λ _. (core : Core Plain) → Shows self.old core → Shows self.new core) }
    {
        self.takes.push_front(Mark {
            round,
            partition,
            with: (),
        })?;
        Ok(())
    }

    /// Whether a seat has no claim that pends.
    pub(crate) fn is_free(&self, at: usize) -> bool
        requires { at < length self.now.seats.items }
        ensures { (core : Core Plain) (n : ℕ) → Shows self.now core → IsAt self.now.seats.items at n
            → IsTrue result ↔ (core.pending n ≡ None) }
    {
        self.seats[at].pending.is_none()
    }

    /// A seat marked a partition in a round.
    pub(crate) fn add_mark(
        &mut self,
        at: usize,
        round: u32,
        partition: u32,
    ) -> Result<(), AllocError>
        requires { at < length self.old.seats.items }
        ensures tables { self.new.tables ≡ self.old.tables }
        ensures send { self.new.send ≡ self.old.send }
        ensures recv { self.new.recv ≡ self.old.recv }
        ensures seats { (m n : ℕ) → IsAt self.old.seats.items m n → IsAt self.new.seats.items m n }
        ensures shows { IfOk result (λ _. (core : Core Plain) (n : ℕ) → Shows self.old core
            → IsAt self.old.seats.items at n
            → Shows self.new (record core { marks = put core.marks n (mark round partition tt ∷ core.marks n) })) }
        ensures memory { IfErr result (λ _. (core : Core Plain) → Shows self.old core → Shows self.new core) }
    {
        self.seats[at].add_mark(round, partition)
    }

    /// Another claim of a seat pends, or none.
    pub(crate) fn set_pending(&mut self, at: usize, pending: Option<Pending>)
        requires { at < length self.old.seats.items }
        ensures tables { self.new.tables ≡ self.old.tables }
        ensures send { self.new.send ≡ self.old.send }
        ensures recv { self.new.recv ≡ self.old.recv }
        ensures seats { (m n : ℕ) → IsAt self.old.seats.items m n → IsAt self.new.seats.items m n }
        ensures shows { (core : Core Plain) (n : ℕ) → Shows self.old core → IsAt self.old.seats.items at n
            → Shows self.new (record core { pending = put core.pending n pending }) }
    {
        self.seats[at].set_pending(pending);
    }

    /// A piece more has the claim of a seat that pends; where it is the last one, none pends from now on.
    pub(crate) fn lay(&mut self, at: usize, piece: u32, last: bool) -> Result<(), AllocError>
        requires { at < length self.old.seats.items }
        ensures tables { self.new.tables ≡ self.old.tables }
        ensures send { self.new.send ≡ self.old.send }
        ensures recv { self.new.recv ≡ self.old.recv }
        ensures seats { (m n : ℕ) → IsAt self.old.seats.items m n → IsAt self.new.seats.items m n }
        ensures shows { IfOk result (λ _. (core : Core Plain) (n : ℕ) → Shows self.old core
            → IsAt self.old.seats.items at n
            → Shows self.new (record core { pending = put core.pending n (laid_on last piece (core.pending n)) })) }
        ensures memory { IfErr result (λ _. (core : Core Plain) → Shows self.old core → Shows self.new core) }
    {
        self.seats[at].lay(piece, last)
    }

    /// What a seat lays where it lays a partition into the piece of a word; `None` where it may not.
    pub(crate) fn lay_of(&self, at: usize, partition: u32, word: usize) -> Option<Lay>
        requires { at < length self.now.seats.items }
        ensures some { IfSome result (λ l. (v : Seat) × (x : Pending) × (slice_get self.now.seats.items at ≡ Some v)
            × (v.pending ≡ Some x) × IsLay self.now.tables x partition word l) }
        ensures none { IfNone result ((v : Seat) (x : Pending) (i : ℕ) → slice_get self.now.seats.items at ≡ Some v
            → v.pending ≡ Some x
            → word ≡ number self.now.tables (Piece (x.round % self.now.tables.depth) i)
            → ¬ MayLay self.now.tables x partition i) }
    {
        match &self.seats[at].pending {
            Some(pending) => lay_of(&self.tables, pending, partition, word),
            None => None,
        }
    }

    /// A seat that wasn't met so far stands behind the others, and its side counts it.
    fn add(&mut self, view: Seat) -> Result<usize, AllocError>
        requires new { (at : ℕ) (v : Seat) → slice_get self.old.seats.items at ≡ Some v → v.seat ≢ view.seat }
        requires first { IsFresh self.old.tables view }
        requires number { view.seat < 2 ^ 32 }
        ensures tables { self.new.tables ≡ self.old.tables }
        ensures at { IfOk result (λ at. IsAt self.new.seats.items at view.seat) }
        ensures shows { IfOk result (λ _. (core : Core Plain) → Shows self.old core
            → Shows self.new (enters view.seat core)) }
        ensures memory { IfErr result (λ _. (core : Core Plain) → Shows self.old core → Shows self.new core) }
    {
        let at = self.seats.len();
        let marker = view.seat % 2 == 0;
        self.seats.push(view)?;
        if marker {
            self.send.markers += 1;
        } else {
            self.recv.watchers += 1;
        }
        Ok(at)
    }

    /// Where a seat stands; one that wasn't met so far gets a view first.
    pub(crate) fn enter(&mut self, alloc: Global, seat: u32) -> Result<usize, AllocError>
        ensures tables { self.new.tables ≡ self.old.tables }
        ensures at { IfOk result (λ at. IsAt self.new.seats.items at seat) }
        ensures shows { IfOk result (λ _. (core : Core Plain) → Shows self.old core
            → Shows self.new (enters seat core)) }
        ensures memory { IfErr result (λ _. (core : Core Plain) → Shows self.old core → Shows self.new core) }
    {
        if let Some(at) = self.find(seat) {
            return Ok(at);
        }
        let words = first_words(alloc, &self.tables)?;
        let view = Seat::new(alloc, seat, words.as_slice())?;
        self.add(view)
    }
}
