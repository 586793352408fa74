//! The mark of one partition.

ghost use Rattle.std.specs.Prelude.{◌≡◌, ◌≢◌, ◌+◌, ◌-◌, ◌*◌, ◌<◌, ◌≤◌, ℕ, length, MatchResult};
ghost use Rattle.pair_rule.specs.Rule.{MayStand, MayMark};
ghost use Rattle.pair_rule.specs.Seats.{IsOf};
ghost use Rattle.part_send.specs.Marking.{IsRight, IsWrong, Tells};

use crate::answers::ReadyRefusal;
use crate::claim::claim;
use crate::fill::fill;
use crate::lay::lay;
use crate::marker::Marker;
use crate::steps::Steps;
use pair_rule::{Content, Pair};
use part_geometry::{Geometry, Marked};
use std::marker::Brand;
use std::sync::ledger::{Blank, Ledger};

/// The refusal of a mark by its arguments.
fn refuse(geometry: Geometry, partition: u32, bytes: &[u8]) -> Result<(), ReadyRefusal>
    ensures { MatchResult result (λ _. IsRight geometry partition bytes.now)
        (λ cause. IsWrong geometry partition bytes.now cause) }
{
    if partition >= geometry.send_parts() {
        return Err(ReadyRefusal::BadPartition);
    }
    if bytes.len() != geometry.send_bytes() as usize {
        return Err(ReadyRefusal::BadLength);
    }
    Ok(())
}

impl<C: Content> Marker<C> {
    /// Marks partition `partition` in a round with its bytes (`MPI_Pready`, MPI 4.0, 4.2.2). Refused where the sender
    /// has no such partition or the bytes aren't as many as a partition has, without a look; and where the
    /// partition's claim word, as this call last saw it, is shut or of another round, or has the partition already.
    /// Nothing but what the marker has seen changes then.
    pub fn pready(
        &mut self,
        pair: &Pair<C>,
        round: u32,
        partition: u32,
        bytes: &[u8],
    ) -> Result<Marked, ReadyRefusal>
        requires pair { IsOf self.old.table self.old.view pair.now }
        requires bytes { IsRight self.old.view.geometry partition bytes.now
            → MayStand C.may pair.now.key.tag round (partition * self.old.view.geometry.send_bytes) bytes.now }
        ensures pair { IsOf self.new.table self.new.view pair.now }
        ensures table { self.new.table ≡ self.old.table }
        ensures answer { (n : ℕ) × (n ≤ 33) × Tells self.old.view self.new.view round partition bytes.now n result }
    {
        self.pready_from::<Brand>(pair, round, partition, bytes, Blank::new(1))
    }

    fn pready_from<L: Ledger>(
        &mut self,
        pair: &Pair<C>,
        round: u32,
        partition: u32,
        bytes: &[u8],
        blank: Blank,
    ) -> Result<Marked, ReadyRefusal>
        requires blank { (blank.name ≡ L.name) × (blank.parts ≡ L.parts) × (0 < blank.parts) }
        requires pair { IsOf self.old.table self.old.view pair.now }
        requires bytes { IsRight self.old.view.geometry partition bytes.now
            → MayStand C.may pair.now.key.tag round (partition * self.old.view.geometry.send_bytes) bytes.now }
        ensures pair { IsOf self.new.table self.new.view pair.now }
        ensures table { self.new.table ≡ self.old.table }
        ensures answer { (n : ℕ) × (n ≤ 33) × Tells self.old.view self.new.view round partition bytes.now n result }
    {
        let mut steps = Steps::<L>::new(blank);
        self.pready_counted(pair, round, partition, bytes, &mut steps)
    }

    /// The same, with a count of the steps on the partition's claim word: at most one load, and at most 32 exchanges.
    /// It makes no step on another claim word.
    pub fn pready_counted<L: Ledger>(
        &mut self,
        pair: &Pair<C>,
        round: u32,
        partition: u32,
        bytes: &[u8],
        steps: &mut Steps<L>,
    ) -> Result<Marked, ReadyRefusal>
        requires pair { IsOf self.old.table self.old.view pair.now }
        requires bytes { IsRight self.old.view.geometry partition bytes.now
            → MayStand C.may pair.now.key.tag round (partition * self.old.view.geometry.send_bytes) bytes.now }
        ensures pair { IsOf self.new.table self.new.view pair.now }
        ensures table { self.new.table ≡ self.old.table }
        ensures answer { Tells self.old.view self.new.view round partition bytes.now (steps.new - steps.old) result }
        ensures steps { (steps.old ≤ steps.new) × (steps.new ≤ steps.old + 33) }
    {
        refuse(pair.geometry(), partition, bytes)?;
        claim(
            &mut self.seat,
            &mut self.told,
            pair,
            round,
            partition,
            bytes,
            steps,
        )?;
        fill(&mut self.seat, pair, round, partition, bytes);
        let sent = lay(&mut self.seat, pair, round, partition);
        Ok(Marked {
            round,
            partition,
            sent,
        })
    }
}
