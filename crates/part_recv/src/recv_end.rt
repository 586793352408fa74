//! The receive end.

ghost use Rattle.std.specs.Prelude.{◌≡◌, ◌<◌, ◌≤◌, true, false, length, not, position, IfOk, MatchResult, MatchOption};
ghost use Rattle.slot_rows.specs.declared.lane.Lane.{Lane};
ghost use Rattle.slot_rows.specs.Lanes.{HasFlags};
ghost use mathlib.Core.Option.{some};
ghost use lib.ListN.{get_elem?};
ghost use Rattle.part_geometry.specs.declared.TheConstants.{LAST_ROUND};
ghost use Rattle.pair_rule.specs.First.{note, watcher, with_watcher, with_watcher_back};
ghost use Rattle.pair_rule.specs.Views.{told};
ghost use Rattle.pair_rule.specs.Seats.{IsOf};
ghost use Rattle.part_recv.specs.Hearing.{Hears};
ghost use Rattle.part_recv.specs.Receiving.{IsAtRest, IsSide, end_of, is_active, start_answer, after_start, test_answer, after_test};
ghost use Rattle.part_recv.specs.Taking.{IsEndLook, IsOut, IsRefused, Looked, LookedAll, MayLook, MayTake, Takes, gave_back};

use crate::answers::{EndLook, TakeRefusal};
use crate::arrival::Arrival;
use crate::looking::{Missed, look_over};
use crate::parts::{return_part, take_part};
use crate::rounds::open_round;
use crate::watcher::Watcher;
use pair_rule::{Content, Note, Pair, RecvSeat};
use part_geometry::{LAST_ROUND, RecvTest, StartFault};
use slot_rows::Lane;
use std::marker::Model;

/// The receive side of a running pair between two calls: it is active in its round, or inactive. It alone
/// starts the rounds of the receive side, takes partitions, gives them back and releases rounds. Contracts see
/// its table, what it knows, and of each partition whether it was taken in its round and is out.
pub struct RecvEnd<C: Content> {
    seat: RecvSeat<C>,
    active: bool,
    watchers: u32,
}

impl<C: Content> Model for RecvEnd<C> {
    ghost use Rattle.part_recv.specs.Receiving.{End, IsEnd, end_of};

    ghost Value = { End };

    ghost view = { λ e. end_of e.seat };

    ghost invariant = { λ e. IsEnd e.active e.watchers e.seat };
}

/// The least partition that isn't taken.
fn first_untaken(lanes: &[Lane]) -> Option<usize>
    ensures { result ≡ position (λ (l : Lane). not l.taken) lanes.now }
{
    lanes.iter().position(|lane| !lane.taken)
}

/// Whether partition `q` was taken.
fn is_taken(lanes: &[Lane], q: usize) -> bool
    requires { q < length lanes.now }
    ensures { (l : Lane) × (get_elem? lanes.now q ≡ some l) × (l.taken ≡ result) }
{
    lanes[q].taken
}

/// The least partition that is out.
fn first_out(lanes: &[Lane]) -> Option<usize>
    ensures { result ≡ position (λ (l : Lane). l.out) lanes.now }
{
    lanes.iter().position(|lane| lane.out)
}

impl<C: Content> RecvEnd<C> {
    /// The end that a seat makes. The seat's side is inactive, no watcher of it is out, and it has the shelf of
    /// each partition, as `Pair::create` gives it and `into_seat` gives it back.
    pub fn from_seat(pair: &Pair<C>, seat: RecvSeat<C>) -> RecvEnd<C>
        requires pair { IsOf seat.table seat.view pair.now }
        requires rest { IsAtRest seat }
        ensures { result ≡ end_of seat }
    {
        // The contract alone speaks of it.
        let _ = pair;
        // What the seat or the tables say of themselves, for the proof.
        let _lanes = seat.lanes();
        RecvEnd {
            seat,
            active: false,
            watchers: 0,
        }
    }

    /// The seat of an end that is inactive and has no watcher out.
    pub fn into_seat(self) -> RecvSeat<C>
        requires idle { is_active self.view ≡ false }
        requires alone { self.view.recv.watchers ≡ 0 }
        ensures seat { end_of result ≡ self }
        ensures rest { IsAtRest result }
    {
        let RecvEnd {
            seat,
            active: _,
            watchers: _,
        } = self;
        // What the seat or the tables say of themselves, for the proof.
        let _lanes = seat.lanes();
        seat
    }

    /// The round that the end is in or was in last, 0 before the first.
    pub fn round(&self) -> u32
        ensures { result ≡ self.now.view.recv.round }
    {
        self.seat.round()
    }

    /// Whether the end is active in its round.
    pub fn is_active(&self) -> bool
        ensures value { result ≡ is_active self.now.view }
        ensures side { IsSide result self.now.view }
    {
        self.active
    }

    /// How many watchers are out.
    pub fn watchers_out(&self) -> u32
        ensures { result ≡ self.now.view.recv.watchers }
    {
        self.watchers
    }

    /// A watcher, which has seen what the end has seen. The end counts it until it rejoins; a pair is closed
    /// only when all have.
    pub fn watcher(&mut self, pair: &Pair<C>) -> Watcher<C>
        requires pair { IsOf self.old.table self.old.view pair.now }
        requires room { self.old.view.recv.watchers < u32.MAX }
        ensures pair { IsOf self.new.table self.new.view pair.now }
        ensures end { self.new ≡ record self.old { view = with_watcher self.old.view } }
        ensures watcher { result ≡ record { table = self.old.table; view = watcher self.old.view } }
    {
        self.watchers += 1;
        Watcher::of(pair.split_watcher(&mut self.seat))
    }

    /// A watcher of this pair rejoins the end, which has then seen what both have seen; then the end looks at
    /// claim word 0.
    pub fn rejoin(&mut self, pair: &Pair<C>, watcher: Watcher<C>)
        requires pair { IsOf self.old.table self.old.view pair.now }
        requires same { watcher.table ≡ self.old.table }
        ensures pair { IsOf self.new.table self.new.view pair.now }
        ensures told { Hears (with_watcher_back self.old.view watcher.view) self.new.view }
        ensures rest { self.new ≡ record self.old { view = self.new.view } }
    {
        self.watchers = self.watchers.saturating_sub(1);
        pair.join_watcher(&mut self.seat, watcher.into_seat());
    }

    /// A note of what the end has seen.
    pub fn note(&mut self, pair: &Pair<C>) -> Note<C>
        requires pair { IsOf self.old.table self.old.view pair.now }
        ensures pair { IsOf self.new.table self.new.view pair.now }
        ensures end { self.new ≡ self.old }
        ensures note { result ≡ record { table = self.old.table; view = note self.old.view } }
    {
        pair.note_of_recv(&mut self.seat)
    }

    /// The end is told what the giver of a note had seen, and has then seen what both had; then it looks at
    /// claim word 0.
    pub fn learn(&mut self, pair: &Pair<C>, note: Note<C>)
        requires pair { IsOf self.old.table self.old.view pair.now }
        requires same { note.table ≡ self.old.table }
        ensures pair { IsOf self.new.table self.new.view pair.now }
        ensures told { Hears (told self.old.view note.view) self.new.view }
        ensures rest { self.new ≡ record self.old { view = self.new.view } }
    {
        pair.learn_recv(&mut self.seat, note);
    }

    /// The round after this one.
    fn next_round(&self) -> Result<u32, StartFault>
        ensures answer { result ≡ start_answer self.now.view }
        ensures limit { IfOk result (λ k. k ≤ LAST_ROUND) }
    {
        // What the seat or the tables say of themselves, for the proof.
        let _lanes = self.seat.lanes();
        let round = self.seat.round();
        if self.active {
            return Err(StartFault::AlreadyActive { round });
        }
        if round == LAST_ROUND {
            return Err(StartFault::RoundsSpent);
        }
        Ok(round + 1)
    }

    /// Starts the next round (`MPI_Start`, MPI 4.0, 3.9), and answers its number: no partition is taken in it.
    /// Refused while the end is active, and after the last round; nothing changes then. It doesn't depend on
    /// the sender.
    pub fn start(&mut self, pair: &Pair<C>) -> Result<u32, StartFault>
        requires pair { IsOf self.old.table self.old.view pair.now }
        ensures pair { IsOf self.new.table self.new.view pair.now }
        ensures answer { result ≡ start_answer self.old.view }
        ensures end { self.new ≡ after_start self.old }
        ensures active { IfOk result (λ k. (self.new.view.recv.round ≡ k) × IsSide true self.new.view) }
    {
        let round = self.next_round()?;
        open_round(pair, &mut self.seat, round);
        self.active = true;
        Ok(round)
    }

    /// Looks at the pieces over partition `q` in order, up to the first that isn't full in the end's round.
    fn look(&mut self, pair: &Pair<C>, q: u32) -> Option<Missed>
        requires pair { IsOf self.old.table self.old.view pair.now }
        requires part { MayLook q self.old }
        ensures pair { IsOf self.new.table self.new.view pair.now }
        ensures found { MatchOption result (LookedAll q self.old self.new)
            (λ missed. Looked q missed.piece missed.shown self.old self.new) }
    {
        // What the seat or the tables say of themselves, for the proof.
        let _lanes = self.seat.lanes();
        let round = self.seat.round();
        look_over(pair, &mut self.seat, round, q)
    }

    /// Whether receive partition `q` has arrived in the end's round (`MPI_Parrived`, MPI 4.0, 4.2.2): looks at
    /// the pieces over it in order, up to the first that isn't full. A piece that the end has seen full in its
    /// round is never the answer of `NotYet`.
    pub fn parrived(&mut self, pair: &Pair<C>, q: u32) -> EndLook
        requires pair { IsOf self.old.table self.old.view pair.now }
        ensures pair { IsOf self.new.table self.new.view pair.now }
        ensures look { IsEndLook q result self.old self.new }
    {
        if !self.active {
            return EndLook::Idle;
        }
        if q >= pair.geometry().recv_parts() {
            return EndLook::BadPartition;
        }
        let Some(missed) = self.look(pair, q) else {
            return EndLook::Arrived;
        };
        let Missed { piece, shown } = missed;
        EndLook::NotYet { piece, shown }
    }

    /// The first cause against a take of partition `q`; the pieces over it are looked at last.
    fn refuse_take(&mut self, pair: &Pair<C>, q: u32) -> Result<(), TakeRefusal>
        requires pair { IsOf self.old.table self.old.view pair.now }
        ensures pair { IsOf self.new.table self.new.view pair.now }
        ensures answer { MatchResult result (λ _. MayTake q self.old self.new)
            (λ refusal. IsRefused q refusal self.old self.new) }
    {
        if !self.active {
            return Err(TakeRefusal::Idle);
        }
        if q >= pair.geometry().recv_parts() {
            return Err(TakeRefusal::BadPartition);
        }
        let round = self.seat.round();
        if is_taken(self.seat.lanes(), q as usize) {
            return Err(TakeRefusal::AlreadyTaken { round });
        }
        let Some(missed) = self.look(pair, q) else {
            return Ok(());
        };
        let Missed { piece, shown } = missed;
        Err(TakeRefusal::NotYet { piece, shown })
    }

    /// Takes receive partition `q` of the end's round: the buffers with its bytes go over to the caller, which
    /// are those that were marked in this round. The pieces over the partition are looked at first, in order.
    /// Refused while the end is inactive, where it has no such partition, where the partition was taken in this
    /// round, and where a piece over it isn't full; no partition is taken then. It takes no memory.
    pub fn take(&mut self, pair: &Pair<C>, q: u32) -> Result<Arrival<C>, TakeRefusal>
        requires pair { IsOf self.old.table self.old.view pair.now }
        ensures pair { IsOf self.new.table self.new.view pair.now }
        ensures answer { MatchResult result (λ taken. Takes (C.may pair.now.key.tag) q taken self.old self.new)
            (λ refusal. IsRefused q refusal self.old self.new) }
        ensures out { IfOk result (λ taken. IsOut taken self.new) }
    {
        self.refuse_take(pair, q)?;
        // What the seat or the tables say of themselves, for the proof.
        let _lanes = self.seat.lanes();
        let geometry = pair.geometry();
        let round = self.seat.round();
        let shelf = take_part(pair, &mut self.seat, q);
        Ok(Arrival::of(geometry, round, q, shelf))
    }

    /// Gives a partition back that was taken from this end in its round. Its buffers serve a later round.
    pub fn give_back(&mut self, pair: &Pair<C>, arrival: Arrival<C>)
        requires pair { IsOf self.old.table self.old.view pair.now }
        requires out { IsOut arrival self.old }
        ensures pair { IsOf self.new.table self.new.view pair.now }
        ensures end { self.new ≡ gave_back arrival.partition self.old }
    {
        let q = arrival.partition();
        // What the seat or the tables say of themselves, for the proof.
        let _lanes = self.seat.lanes();
        return_part(pair, &mut self.seat, q, arrival.into_shelf());
    }

    /// Tests the receive (`MPI_Test`, MPI 4.0, 4.2.2). Where all partitions were taken and given back, the
    /// round is released and the end is inactive; with every other answer nothing changes.
    pub fn test(&mut self, pair: &Pair<C>) -> RecvTest
        requires pair { IsOf self.old.table self.old.view pair.now }
        ensures pair { IsOf self.new.table self.new.view pair.now }
        ensures answer { result ≡ test_answer self.old }
        ensures end { self.new ≡ after_test self.old }
    {
        if !self.active {
            return RecvTest::Idle;
        }
        // What the seat or the tables say of themselves, for the proof.
        let _geometry = pair.geometry();
        let lanes = self.seat.lanes();
        if let Some(q) = first_untaken(lanes) {
            return RecvTest::Untaken { q: q as u32 };
        }
        if let Some(q) = first_out(lanes) {
            return RecvTest::Out { q: q as u32 };
        }
        let round = self.seat.round();
        pair.store_release(&mut self.seat, round);
        self.active = false;
        RecvTest::Done
    }
}

impl<C: Content> Drop for RecvEnd<C> {
    fn drop(self) {
        let RecvEnd {
            seat: _,
            active: _,
            watchers: _,
        } = self;
    }
}
