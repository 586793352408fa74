//! The object.

ghost use Rattle.std.specs.Prelude.{◌≡◌, ◌≢◌, ◌<◌, ◌≤◌, None, false, length, IfOk, IsErr};
ghost use Rattle.part_geometry.specs.declared.TheConstants.{LAST_ROUND};
ghost use Rattle.plain_pair.specs.Moves.{start_answer};

use crate::answers::{PlainLook, PlainRefusal, PlainSendTest, PlainTake};
use crate::arrival::PlainArrival;
use crate::buffer::{Buffer, put_at, take_at, zero_buffers};
use crate::flags::{add, all_missing, clear, least_without, none_of, pieces_out, reset};
use crate::marking::{count_down, first_missing, store};
use crate::tables::Tables;
use part_geometry::{Geometry, LAST_ROUND, Marked, RecvTest, StartFault};
use std::alloc::{AllocError, Global};
use std::marker::Model;

/// A partitioned send and the receive that it is paired with, used by one thread. Contracts see what it keeps, and
/// say what each call does by the records of rounds that it stands for.
#[derive(Drop)]
pub struct PlainPair {
    tables: Tables,
    sent: u32,
    received: u32,
    released: u32,
    sending: bool,
    receiving: bool,
    marked: Vec<bool>,
    taken: Vec<bool>,
    back: Vec<bool>,
    missing: Vec<u32>,
    buffers: Vec<Buffer>,
}

impl Model for PlainPair {
    ghost use Rattle.plain_pair.specs.Kept.{Kept};

    ghost Value = { Kept };

    ghost use Rattle.plain_pair.specs.Pair.{kept_of, IsPair};

    ghost view = { kept_of };

    ghost invariant = { IsPair };
}

/// How far a closed pair came.
#[derive(Clone, Copy)]
pub struct PlainClosed {
    /// The sender's last round, 0 where it had none.
    pub send_round: u32,
    /// The receiver's last round, 0 where it had none.
    pub recv_round: u32,
    /// The last round that was released, 0 where none was.
    pub released: u32,
    /// How many pieces went out, over all rounds.
    pub pieces_out: u64,
}

/// The round after the one that a side is in.
fn next_round(active: bool, round: u32) -> Result<u32, StartFault>
    requires { round ≤ LAST_ROUND }
    ensures { result ≡ start_answer active round }
{
    if active {
        return Err(StartFault::AlreadyActive { round });
    }
    if round == LAST_ROUND {
        return Err(StartFault::RoundsSpent);
    }
    Ok(round + 1)
}

impl PlainPair {
    ghost use Rattle.part_geometry.specs.Shape.{IsShape};
    ghost use Rattle.plain_pair.specs.Record.{first_record};
    ghost use Rattle.plain_pair.specs.Moves.{start_send_answer, after_start_send, start_recv_answer, after_start_recv, pready_answer, after_pready, parrived_answer, take_answer, after_take, gave_back, test_send_answer, after_test_send, test_recv_answer, after_test_recv};
    ghost use Rattle.plain_pair.specs.Closing.{closed_answer};
    ghost use Rattle.plain_pair.specs.Kept.{buffer_place};
    ghost use Rattle.plain_pair.specs.Looking.{CanTake, IsOut, Takes, kept_missing, take_refusal};
    ghost use Rattle.plain_pair.specs.Growing.{Grows};
    ghost use Rattle.plain_pair.specs.Marking.{CanMark, Marks, refusal};
    ghost use Rattle.plain_pair.specs.Sides.{SameSides, recv_side, send_side, side_received, side_sent, side_started};
    ghost use Rattle.plain_pair.specs.StandsFor.{StandsFor, Follows};

    /// A pair of a geometry with both sides inactive, before the first round (`MPI_Psend_init` and
    /// `MPI_Precv_init`, MPI 4.0, 4.2.1). It takes all memory that the pair will ever use: a buffer for each
    /// receive partition and each round in flight, and the tables of the geometry. The time is that of a few passes
    /// over the cells.
    pub fn create(alloc: Global, geometry: Geometry) -> Result<PlainPair, AllocError>
        ensures shape { IfOk result (λ pair. pair.shape ≡ geometry) }
        ensures first { IfOk result (λ pair. StandsFor pair first_record) }
    {
        let send_parts = geometry.send_parts() as usize;
        let recv_parts = geometry.recv_parts() as usize;
        let places = geometry.depth() as usize * recv_parts;
        let tables = Tables::create(alloc, geometry)?;
        let marked = none_of(alloc, send_parts)?;
        let taken = none_of(alloc, recv_parts)?;
        let back = none_of(alloc, recv_parts)?;
        let missing = all_missing(alloc, tables.needs())?;
        let buffers = zero_buffers(alloc, places, geometry.recv_bytes() as usize)?;
        // The geometry's limits, for the proof.
        let _geometry = tables.geometry();
        Ok(PlainPair {
            tables,
            sent: 0,
            received: 0,
            released: 0,
            sending: false,
            receiving: false,
            marked,
            taken,
            back,
            missing,
            buffers,
        })
    }

    /// What the pair was made of.
    pub(crate) fn geometry(&self) -> Geometry
        ensures value { result ≡ self.now.shape }
        ensures limits { IsShape result }
    {
        self.tables.geometry()
    }

    /// Starts the next round of the sender (`MPI_Start`, MPI 4.0, 3.9), and answers its number. Refused while the
    /// sender is active, and after the last round. Nothing is sent by it.
    pub fn start_send(&mut self) -> Result<u32, StartFault>
        ensures shape { self.new.shape ≡ self.old.shape }
        ensures unchanged { IsErr result → self.new ≡ self.old }
        ensures answer { Follows self.old self.new result start_send_answer after_start_send }
        ensures by_side { result ≡ start_answer self.old.sending self.old.sent }
        ensures side { send_side self.new ≡ side_started result (send_side self.old) }
        ensures other_side { recv_side self.new ≡ recv_side self.old }
    {
        let round = next_round(self.sending, self.sent)?;
        self.sent = round;
        self.sending = true;
        clear(&mut self.marked);
        reset(&mut self.missing, self.tables.needs());
        Ok(round)
    }

    /// Starts the next round of the receiver, and answers its number. Refused while the receiver is active, and
    /// after the last round. It doesn't depend on the sender.
    pub fn start_recv(&mut self) -> Result<u32, StartFault>
        ensures shape { self.new.shape ≡ self.old.shape }
        ensures unchanged { IsErr result → self.new ≡ self.old }
        ensures answer { Follows self.old self.new result start_recv_answer after_start_recv }
        ensures by_side { result ≡ start_answer self.old.receiving self.old.received }
        ensures side { recv_side self.new ≡ side_started result (recv_side self.old) }
        ensures other_side { send_side self.new ≡ send_side self.old }
    {
        let round = next_round(self.receiving, self.received)?;
        self.received = round;
        self.receiving = true;
        clear(&mut self.taken);
        clear(&mut self.back);
        Ok(round)
    }

    /// Ends the pair, and tells how far it came.
    pub fn close(self) -> PlainClosed
        ensures answer { (r : _) → StandsFor self r → result ≡ closed_answer self.shape r }
    {
        PlainClosed {
            send_round: self.sent,
            recv_round: self.received,
            released: self.released,
            pieces_out: pieces_out(self.sent, &self.missing),
        }
    }

    /// Marks send partition `p` ready in a round, with its bytes (`MPI_Pready`, MPI 4.0, 4.2.2). Refused where the
    /// sender has no such partition, the bytes aren't as many as a partition has, the sender isn't active in this
    /// round, or the partition is marked already; nothing changes then.
    pub fn pready(&mut self, round: u32, p: u32, bytes: &[u8]) -> Result<Marked, PlainRefusal>
        ensures shape { self.new.shape ≡ self.old.shape }
        ensures unchanged { IsErr result → self.new ≡ self.old }
        ensures sides { SameSides self.old self.new }
        ensures answer { Follows self.old self.new result
            (λ r. pready_answer self.old.shape r round p bytes.now)
            (λ r. after_pready self.old.shape r round p bytes.now) }
    {
        self.mark_one(round, p, bytes)
    }

    /// The same, and what it counts.
    pub(crate) fn mark_one(
        &mut self,
        round: u32,
        p: u32,
        bytes: &[u8],
    ) -> Result<Marked, PlainRefusal>
        ensures shape { self.new.shape ≡ self.old.shape }
        ensures unchanged { IsErr result → self.new ≡ self.old }
        ensures sides { SameSides self.old self.new }
        ensures answer { Follows self.old self.new result
            (λ r. pready_answer self.old.shape r round p bytes.now)
            (λ r. after_pready self.old.shape r round p bytes.now) }
        ensures grows { IfOk result (λ m. Grows self.old self.new m.sent) }
    {
        // The tables' limits, for the proof.
        let _tables = &self.tables;
        self.refuse_mark(round, p, bytes.len())?;
        let sent = self.mark(p as usize, bytes);
        Ok(Marked {
            round,
            partition: p,
            sent,
        })
    }

    /// The first cause against a mark of `size` bytes.
    fn refuse_mark(&self, round: u32, p: u32, size: usize) -> Result<(), PlainRefusal>
        ensures { result ≡ refusal self.now round p size }
    {
        let geometry = self.tables.geometry();
        if p >= geometry.send_parts() {
            return Err(PlainRefusal::BadPartition);
        }
        if size != geometry.send_bytes() as usize {
            return Err(PlainRefusal::BadLength);
        }
        if !(self.sending && round == self.sent) {
            return Err(PlainRefusal::NotActive);
        }
        if self.marked[p as usize] {
            return Err(PlainRefusal::AlreadyMarked);
        }
        Ok(())
    }

    /// Marks a partition that may be marked. Answers how many pieces went out.
    fn mark(&mut self, p: usize, bytes: &[u8]) -> u32
        requires free { CanMark self.old p }
        requires length { length bytes.now ≡ self.old.shape.send_bytes }
        ensures shape { self.new.shape ≡ self.old.shape }
        ensures sides { SameSides self.old self.new }
        ensures marks { Marks self.old self.new p bytes.now result }
        ensures grows { Grows self.old self.new result }
    {
        let geometry = self.tables.geometry();
        let base = self.tables.place(self.sent) * geometry.recv_parts() as usize;
        store(&self.tables, &mut self.buffers, base, p, bytes);
        add(&mut self.marked, p);
        let (first, end) = self.tables.send_pieces(p);
        count_down(&mut self.missing, first, end)
    }

    /// Whether receive partition `q` has arrived in the receiver's round (`MPI_Parrived`, MPI 4.0, 4.2.2).
    pub fn parrived(&self, q: u32) -> PlainLook
        ensures answer { (r : _) → StandsFor self.now r → result ≡ parrived_answer self.now.shape r q }
    {
        if !self.receiving {
            return PlainLook::Idle;
        }
        if q >= self.tables.geometry().recv_parts() {
            return PlainLook::BadPartition;
        }
        match self.missing_piece(q as usize) {
            Some(piece) => PlainLook::NotYet { piece },
            None => PlainLook::Arrived,
        }
    }

    /// The least piece over receive partition `q` that isn't out in the receiver's round.
    fn missing_piece(&self, q: usize) -> Option<u32>
        requires { q < self.now.shape.recv_parts }
        ensures { result ≡ kept_missing self.now q }
    {
        let (first, end) = self.tables.recv_pieces(q);
        if self.received < self.sent {
            return None;
        }
        if self.received > self.sent {
            return Some(first as u32);
        }
        first_missing(&self.missing, first, end)
    }

    /// Takes receive partition `q` out of the receiver's round: its bytes go over to the caller. Refused while the
    /// receiver is inactive, where it has no such partition, where the partition was taken in this round, and where
    /// a piece over it isn't out; nothing changes then.
    pub fn take(&mut self, q: u32) -> Result<PlainArrival, PlainTake>
        ensures shape { self.new.shape ≡ self.old.shape }
        ensures unchanged { IsErr result → self.new ≡ self.old }
        ensures sides { SameSides self.old self.new }
        ensures answer { Follows self.old self.new result
            (λ r. take_answer self.old.shape r q) (λ r. after_take self.old.shape r q) }
        ensures out { IfOk result (λ taken. IsOut self.new taken) }
    {
        // The tables' limits, for the proof.
        let _tables = &self.tables;
        self.refuse_take(q)?;
        Ok(self.take_out(q))
    }

    /// The first cause against a take.
    fn refuse_take(&self, q: u32) -> Result<(), PlainTake>
        ensures { result ≡ take_refusal self.now q }
    {
        if !self.receiving {
            return Err(PlainTake::Idle);
        }
        if q >= self.tables.geometry().recv_parts() {
            return Err(PlainTake::BadPartition);
        }
        if self.taken[q as usize] {
            return Err(PlainTake::AlreadyTaken {
                round: self.received,
            });
        }
        match self.missing_piece(q as usize) {
            Some(piece) => Err(PlainTake::NotYet { piece }),
            None => Ok(()),
        }
    }

    /// The place of the buffer of receive partition `q` in the receiver's round.
    fn recv_place(&self, q: usize) -> usize
        requires { q < self.now.shape.recv_parts }
        ensures place { result ≡ buffer_place self.now.shape self.now.received q }
        ensures inside { result < length self.now.buffers }
    {
        let geometry = self.tables.geometry();
        let place = self.tables.place(self.received);
        place * geometry.recv_parts() as usize + q
    }

    /// Takes a partition that has arrived and isn't taken.
    fn take_out(&mut self, q: u32) -> PlainArrival
        requires free { CanTake self.old q }
        requires arrived { kept_missing self.old q ≡ None }
        ensures shape { self.new.shape ≡ self.old.shape }
        ensures sides { SameSides self.old self.new }
        ensures takes { Takes self.old self.new q result }
        ensures out { IsOut self.new result }
    {
        let index = self.recv_place(q as usize);
        let buffer = take_at(&mut self.buffers, index);
        add(&mut self.taken, q as usize);
        PlainArrival::new(self.received, q, buffer)
    }

    /// Gives a partition back that was taken from this pair in the receiver's round. Its buffer serves a later
    /// round.
    pub fn give_back(&mut self, arrival: PlainArrival)
        requires out { IsOut self.old arrival }
        ensures shape { self.new.shape ≡ self.old.shape }
        ensures sides { SameSides self.old self.new }
        ensures back { (r : _) → StandsFor self.old r → StandsFor self.new (gave_back r arrival.partition) }
    {
        let q = arrival.partition() as usize;
        let index = self.recv_place(q);
        put_at(&mut self.buffers, index, arrival.into_buffer());
        add(&mut self.back, q);
    }

    /// Tests the send (`MPI_Test`, MPI 4.0, 4.2.2). Where all partitions are marked and the next round has room, the
    /// side becomes inactive; with every other answer nothing changes.
    pub fn test_send(&mut self) -> PlainSendTest
        ensures shape { self.new.shape ≡ self.old.shape }
        ensures unchanged { result ≢ PlainSendTest.Done → self.new ≡ self.old }
        ensures answer { Follows self.old self.new result
            (λ r. test_send_answer self.old.shape r) (λ r. after_test_send self.old.shape r) }
        ensures idle { self.old.sending ≡ false → result ≡ PlainSendTest.Idle }
        ensures side { send_side self.new ≡ side_sent result (send_side self.old) }
        ensures other_side { recv_side self.new ≡ recv_side self.old }
    {
        let geometry = self.tables.geometry();
        if !self.sending {
            return PlainSendTest::Idle;
        }
        if let Some(partition) = least_without(&self.marked) {
            return PlainSendTest::Unmarked { partition };
        }
        if self.sent >= self.released + geometry.depth() {
            return PlainSendTest::Unreleased {
                released: self.released,
            };
        }
        self.sending = false;
        PlainSendTest::Done
    }

    /// Tests the receive (`MPI_Test`, MPI 4.0, 4.2.2). Where all partitions were taken and given back, the round is
    /// released and the side becomes inactive; with every other answer nothing changes.
    pub fn test_recv(&mut self) -> RecvTest
        ensures shape { self.new.shape ≡ self.old.shape }
        ensures unchanged { result ≢ RecvTest.Done → self.new ≡ self.old }
        ensures answer { Follows self.old self.new result
            (λ r. test_recv_answer self.old.shape r) (λ r. after_test_recv self.old.shape r) }
        ensures idle { self.old.receiving ≡ false → result ≡ RecvTest.Idle }
        ensures side { recv_side self.new ≡ side_received result (recv_side self.old) }
        ensures other_side { send_side self.new ≡ send_side self.old }
    {
        // The tables' limits, for the proof.
        let _tables = &self.tables;
        if !self.receiving {
            return RecvTest::Idle;
        }
        if let Some(q) = least_without(&self.taken) {
            return RecvTest::Untaken { q };
        }
        if let Some(q) = least_without(&self.back) {
            return RecvTest::Out { q };
        }
        self.released = self.received;
        self.receiving = false;
        RecvTest::Done
    }
}
