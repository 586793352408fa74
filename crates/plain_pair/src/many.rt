//! The marks of a range and of a list.

ghost use Rattle.std.specs.Prelude.{◌≡◌, ◌+◌, ◌-◌, ◌*◌, ◌≤◌, ◌==◌, length, IfErr, OnOk};
ghost use Rattle.plain_pair.specs.Growing.{GoesOn, IsAt, IsCounted};
ghost use Rattle.plain_pair.specs.Many.{after_pready_list, after_pready_range, mark_one_more, part_of, pready_list_answer, pready_range_answer};
ghost use Rattle.plain_pair.specs.ManyLaws.{AcceptedMarkAll, RefusedKeepMarks};
ghost use Rattle.plain_pair.specs.Reached.{TakesAreMarked};
ghost use Rattle.plain_pair.specs.Sides.{SameSides};
ghost use Rattle.plain_pair.specs.StandsFor.{Follows};

use crate::answers::{PlainRefusal, PlainStop};
use crate::pair::PlainPair;
use part_geometry::Marks;

impl PlainPair {
    /// Marks the send partitions from `low` to `high`, both included, one after another, each with its part of the
    /// bytes (`MPI_Pready_range`, MPI 4.0, 4.2.2). Refused as a whole with `BadRange` where `low` is above `high` or
    /// `high` is no partition, and then with `BadLength` where the bytes aren't as many as these partitions have.
    /// Where a partition is refused, those before it stay marked.
    pub fn pready_range(
        &mut self,
        round: u32,
        low: u32,
        high: u32,
        bytes: &[u8],
    ) -> Result<Marks, PlainStop>
        ensures shape { self.new.shape ≡ self.old.shape }
        ensures unchanged { IfErr result (λ stop. stop.at ≡ 0 → self.new ≡ self.old) }
        ensures sides { SameSides self.old self.new }
        ensures answer { Follows self.old self.new result
            (λ r. pready_range_answer self.old.shape r round low high bytes.now)
            (λ r. after_pready_range self.old.shape r round low high bytes.now) }
    {
        if low > high || high >= self.geometry().send_parts() {
            return Err(refused_whole(PlainRefusal::BadRange));
        }
        let count = high - low + 1;
        if !self.has_length(count as usize, bytes) {
            return Err(refused_whole(PlainRefusal::BadLength));
        }
        let mut marks = no_marks(round);
        for i in 0..count {
            self.mark_next(&mut marks, low + i, bytes)?;
        }
        Ok(marks)
    }

    /// Marks the send partitions of a list, in its order, each with its part of the bytes (`MPI_Pready_list`, MPI
    /// 4.0, 4.2.2). Refused as a whole with `BadLength` where the bytes aren't as many as the entries have. Where an
    /// entry is refused, those before it stay marked. An empty list with no bytes is accepted and marks nothing.
    pub fn pready_list(
        &mut self,
        round: u32,
        parts: &[u32],
        bytes: &[u8],
    ) -> Result<Marks, PlainStop>
        ensures shape { self.new.shape ≡ self.old.shape }
        ensures unchanged { IfErr result (λ stop. stop.at ≡ 0 → self.new ≡ self.old) }
        ensures sides { SameSides self.old self.new }
        ensures answer { Follows self.old self.new result
            (λ r. pready_list_answer self.old.shape r round parts.now bytes.now)
            (λ r. after_pready_list self.old.shape r round parts.now bytes.now) }
    {
        if !self.has_length(parts.len(), bytes) {
            return Err(refused_whole(PlainRefusal::BadLength));
        }
        let mut marks = no_marks(round);
        for p in parts {
            self.mark_next(&mut marks, *p, bytes)?;
        }
        Ok(marks)
    }

    /// Whether the bytes are as many as `count` partitions have.
    fn has_length(&self, count: usize, bytes: &[u8]) -> bool
        ensures { result ≡ (length bytes.now == count * self.now.shape.send_bytes) }
    {
        let size = self.geometry().send_bytes() as usize;
        count.checked_mul(size) == Some(bytes.len())
    }

    /// Marks partition `p` with the next part of the bytes, and counts it.
    fn mark_next(&mut self, marks: &mut Marks, p: u32, bytes: &[u8]) -> Result<(), PlainStop>
        requires counts { IsCounted self.old marks.old }
        requires bytes { (marks.old.count + 1) * self.old.shape.send_bytes ≤ length bytes.now }
        ensures shape { self.new.shape ≡ self.old.shape }
        ensures unchanged { IfErr result (λ stop. (stop.at ≡ marks.old.count) × (self.new ≡ self.old)) }
        ensures sides { SameSides self.old self.new }
        ensures round { marks.new.round ≡ marks.old.round }
        ensures counts { OnOk result (IsCounted self.new marks.new) }
        ensures count { OnOk result (marks.new.count ≡ marks.old.count + 1) }
        ensures goes_on { (done : _) → IsAt self.old marks.old done
            → GoesOn self.new marks.new result (mark_one_more self.old.shape marks.old.round done
            (p, part_of self.old.shape bytes.now marks.old.count)) }
    {
        let size = self.geometry().send_bytes() as usize;
        let start = marks.count as usize * size;
        match self.mark_one(marks.round, p, &bytes[start..start + size]) {
            Ok(marked) => {
                marks.count += 1;
                marks.sent += marked.sent;
                Ok(())
            }
            Err(cause) => Err(PlainStop {
                at: marks.count,
                cause,
            }),
        }
    }
}

/// The refusal of a whole range or list.
fn refused_whole(cause: PlainRefusal) -> PlainStop
    ensures { result ≡ record { at = 0; cause = cause } }
{
    PlainStop { at: 0, cause }
}

/// Nothing marked yet.
fn no_marks(round: u32) -> Marks
    ensures { result ≡ record { round = round; count = 0; sent = 0 } }
{
    Marks {
        round,
        count: 0,
        sent: 0,
    }
}

/// What holds of the marks of a range or a list, for proofs; the body is empty. An accepted call marked each of its
/// partitions, in order. A refused one marked the first `at` of them, and the next is refused for the same cause as a
/// single mark of it.
#[tactic(auto, using(crate::proofs::ManyLawFacts::accepted_mark_all, crate::proofs::ManyLawFacts::refused_keep_marks))]
pub fn marks_laws()
    ensures accepted { AcceptedMarkAll }
    ensures refused { RefusedKeepMarks }
{}

/// What holds of every take, for proofs; the body is empty. Whatever calls of a pair were made, each byte that a take
/// gives was marked in the receiver's round, in a mark of a partition's length.
pub fn take_laws()
    ensures marked { TakesAreMarked }
{}
