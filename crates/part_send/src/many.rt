//! The marks of a range and of a list.

ghost use Rattle.std.specs.Prelude.{◌≡◌, ◌≢◌, ◌⊎◌, ◌+◌, ◌-◌, ◌*◌, ◌^◌, ◌<◌, ◌≤◌, ◌==◌, length, Err};
ghost use Rattle.pair_rule.specs.Seats.{IsOf};
ghost use Rattle.pair_rule.specs.Rule.{MayStand};
ghost use Rattle.part_send.specs.Many.{AreFew, Goes, MayStandAll, TellsMany, entries, part_of, range_parts};

use crate::answers::{ReadyRefusal, ReadyStop};
use crate::marker::Marker;
use pair_rule::{Content, Pair};
use part_geometry::Marks;

/// The refusal of a whole range or list.
fn refused_whole(cause: ReadyRefusal) -> ReadyStop
    ensures { result ≡ record { at = 0; cause = cause } }
{
    ReadyStop { at: 0, cause }
}

/// Whether the bytes are as many as `count` partitions have.
fn has_length<C: Content>(pair: &Pair<C>, count: usize, bytes: &[u8]) -> bool
    ensures { result ≡ (length bytes.now == count * pair.now.key.geometry.send_bytes) }
{
    let size = pair.geometry().send_bytes() as usize;
    count.checked_mul(size) == Some(bytes.len())
}

impl<C: Content> Marker<C> {
    /// Marks the send partitions from `low` to `high`, both included, one after another, each with its part of the
    /// bytes (`MPI_Pready_range`, MPI 4.0, 4.2.2). Refused as a whole with `BadRange` where `low` is above `high` or
    /// `high` is no partition, and then with `BadLength` where the bytes aren't as many as these partitions have.
    /// Where a partition is refused, those before it stay marked.
    pub fn pready_range(
        &mut self,
        pair: &Pair<C>,
        round: u32,
        low: u32,
        high: u32,
        bytes: &[u8],
    ) -> Result<Marks, ReadyStop>
        requires pair { IsOf self.old.table self.old.view pair.now }
        requires bytes { low ≤ high → high < self.old.view.geometry.send_parts
            → length bytes.now ≡ (high + 1 - low) * self.old.view.geometry.send_bytes
            → MayStandAll C.may pair.now.key.tag self.old.view.geometry round (range_parts low high) bytes.now }
        ensures pair { IsOf self.new.table self.new.view pair.now }
        ensures table { self.new.table ≡ self.old.table }
        ensures range { (high < low) ⊎ (self.old.view.geometry.send_parts ≤ high)
            → (result ≡ Err record { at = 0; cause = ReadyRefusal.BadRange }) × (self.new ≡ self.old) }
        ensures length { low ≤ high → high < self.old.view.geometry.send_parts
            → length bytes.now ≢ (high + 1 - low) * self.old.view.geometry.send_bytes
            → (result ≡ Err record { at = 0; cause = ReadyRefusal.BadLength }) × (self.new ≡ self.old) }
        ensures marks { low ≤ high → high < self.old.view.geometry.send_parts
            → length bytes.now ≡ (high + 1 - low) * self.old.view.geometry.send_bytes
            → TellsMany self.old.view self.new.view round
            (entries self.old.view.geometry (range_parts low high) bytes.now) result }
    {
        if low > high || high >= pair.geometry().send_parts() {
            return Err(refused_whole(ReadyRefusal::BadRange));
        }
        let count = high - low + 1;
        if !has_length(pair, count as usize, bytes) {
            return Err(refused_whole(ReadyRefusal::BadLength));
        }
        let mut marks = no_marks(round);
        for i in 0..count {
            self.mark_next(pair, &mut marks, low + i, bytes)?;
        }
        Ok(marks)
    }

    /// Marks the send partitions of a list, in its order, each with its part of the bytes (`MPI_Pready_list`, MPI
    /// 4.0, 4.2.2). A list has at most 1,048,576 entries. Refused as a whole with `BadLength` where the bytes aren't as
    /// many as the entries have. Where an entry is refused, those before it stay marked. An empty list with no bytes is
    /// accepted and marks nothing.
    pub fn pready_list(
        &mut self,
        pair: &Pair<C>,
        round: u32,
        parts: &[u32],
        bytes: &[u8],
    ) -> Result<Marks, ReadyStop>
        requires pair { IsOf self.old.table self.old.view pair.now }
        requires few { length parts.now ≤ 2 ^ 20 }
        requires bytes { length bytes.now ≡ length parts.now * self.old.view.geometry.send_bytes
            → MayStandAll C.may pair.now.key.tag self.old.view.geometry round parts.now bytes.now }
        ensures pair { IsOf self.new.table self.new.view pair.now }
        ensures table { self.new.table ≡ self.old.table }
        ensures length { length bytes.now ≢ length parts.now * self.old.view.geometry.send_bytes
            → (result ≡ Err record { at = 0; cause = ReadyRefusal.BadLength }) × (self.new ≡ self.old) }
        ensures marks { length bytes.now ≡ length parts.now * self.old.view.geometry.send_bytes
            → TellsMany self.old.view self.new.view round (entries self.old.view.geometry parts.now bytes.now) result }
    {
        if !has_length(pair, parts.len(), bytes) {
            return Err(refused_whole(ReadyRefusal::BadLength));
        }
        let mut marks = no_marks(round);
        for p in parts {
            self.mark_next(pair, &mut marks, *p, bytes)?;
        }
        Ok(marks)
    }

    /// Marks partition `p` with the next part of the bytes, and counts it.
    fn mark_next(
        &mut self,
        pair: &Pair<C>,
        marks: &mut Marks,
        p: u32,
        bytes: &[u8],
    ) -> Result<(), ReadyStop>
        requires pair { IsOf self.old.table self.old.view pair.now }
        requires counts { marks.old.count < 2 ^ 20 }
        requires few { AreFew marks.old }
        requires long { (marks.old.count + 1) * self.old.view.geometry.send_bytes ≤ length bytes.now }
        requires bytes { p < self.old.view.geometry.send_parts
            → MayStand C.may pair.now.key.tag marks.old.round (p * self.old.view.geometry.send_bytes)
            (part_of self.old.view.geometry bytes.now marks.old.count) }
        ensures pair { IsOf self.new.table self.new.view pair.now }
        ensures table { self.new.table ≡ self.old.table }
        ensures few { AreFew marks.new }
        ensures goes_on { Goes self.old.view self.new.view marks.old marks.new
            (p, part_of self.old.view.geometry bytes.now marks.old.count) result }
    {
        // What the seat or the tables say of themselves, for the proof.
        let _pieces = pair.tables().pieces();
        let size = pair.geometry().send_bytes() as usize;
        let start = marks.count as usize * size;
        match self.pready(pair, marks.round, p, &bytes[start..start + size]) {
            Ok(marked) => {
                marks.count += 1;
                marks.sent += marked.sent;
                Ok(())
            }
            Err(cause) => Err(ReadyStop {
                at: marks.count,
                cause,
            }),
        }
    }
}

/// Nothing marked yet.
fn no_marks(round: u32) -> Marks
    ensures { result ≡ record { round = round; count = 0; sent = 0 } }
{
    Marks {
        round,
        count: 0,
        sent: 0,
    }
}
