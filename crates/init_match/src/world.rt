//! A world of ranks, whose initialisations are matched as they come.

ghost use Rattle.std.specs.Prelude.{◌≡◌, ◌≢◌, ◌<◌, ◌==◌, if◌then◌else◌, Err, Ok, Some, length, slice_get};
ghost use Rattle.part_geometry.specs.declared.TheConstants.{MAX_DEPTH, MAX_GRAIN};
ghost use Rattle.part_geometry.specs.Shape.{IsWithin};
ghost use Rattle.init_match.specs.Calls.{total};
ghost use Rattle.init_match.specs.Sound.{IsFit};
ghost use Rattle.init_match.specs.World.{shape_of};

use crate::MAX_VOLUME;
use crate::answers::{InitFault, Matched, WorldFault};
use crate::keys::Call;
use crate::ledger::Ledger;
use crate::numbers::{check_numbers, is_within};
use part_geometry::{Geometry, MAX_DEPTH, MAX_GRAIN, MAX_RANKS, Side};
use std::alloc::Global;
use std::marker::Model;

/// Ranks that exchange messages by partitioned pairs. Each initialisation is matched as it comes with one of the other
/// side that has the same communicator, ranks and tag (MPI 4.0, 4.2.1), the first with the first, the second with the
/// second and so on. Contracts see the accepted initialisations in order, each as a call in the slot of its number.
#[derive(Drop)]
pub struct World {
    ranks: u32,
    grain: u32,
    depth: u32,
    sum: u64,
    ledger: Ledger,
    pairs: Vec<Matched>,
}

impl Model for World {
    ghost use Rattle.init_match.specs.World.{WorldState};

    ghost Value = { WorldState };

    ghost use Rattle.init_match.specs.Sound.{calls_of, IsWorld};

    ghost view = { calls_of };

    ghost invariant = { IsWorld };
}

/// The geometry of a send and a receive that keep the limits. Their bytes in all differ where there is none.
fn geometry_of(grain: u32, depth: u32, send: Call, recv: Call) -> Result<Geometry, InitFault>
    requires grain { IsWithin 1 MAX_GRAIN grain }
    requires depth { IsWithin 1 MAX_DEPTH depth }
    requires send { IsFit send }
    requires recv { IsFit recv }
    ensures { result ≡ (if total send == total recv
        then Ok (shape_of grain depth send recv)
        else Err (InitFault.SizeMismatch (total send) (total recv))) }
{
    let send_total = send.parts * send.bytes;
    let recv_total = recv.parts * recv.bytes;
    if send_total != recv_total {
        return Err(InitFault::SizeMismatch {
            send_total,
            recv_total,
        });
    }
    Ok(Geometry::new(send.parts, send.bytes, recv.parts, recv.bytes, grain, depth).unwrap())
}

impl World {
    ghost use Rattle.init_match.specs.World.{after_init, completed_answer, init_answer, matched_pairs, new_world, recv_call, send_call};
    ghost use Rattle.init_match.specs.Matching.{pairs_of, partner_of};

    /// A world of `ranks` ranks without initialisations, whose pairs have this grain and depth. It takes no memory.
    pub fn new(alloc: Global, ranks: u32, grain: u32, depth: u32) -> Result<World, WorldFault>
        ensures answer { result ≡ new_world ranks grain depth }
    {
        if !is_within(1, MAX_RANKS, ranks) {
            return Err(WorldFault::BadRanks);
        }
        if !is_within(1, MAX_GRAIN, grain) {
            return Err(WorldFault::BadGrain);
        }
        if !is_within(1, MAX_DEPTH, depth) {
            return Err(WorldFault::BadDepth);
        }
        Ok(World {
            ranks,
            grain,
            depth,
            sum: 0,
            ledger: Ledger::new(alloc),
            pairs: Vec::new(alloc),
        })
    }

    /// Initialises a send of `parts` partitions of `bytes` bytes from rank `from` to rank `to` (`MPI_Psend_init`, MPI
    /// 4.0, 4.2.1), and answers its slot, which is the number of initialisations accepted before. Refused with the
    /// first cause in the order of `InitFault`; nothing changes then.
    pub fn psend_init(
        &mut self,
        from: u32,
        to: u32,
        tag: u32,
        comm: u32,
        parts: u32,
        bytes: u32,
    ) -> Result<u32, InitFault>
        ensures answer { result ≢ Err InitFault.NoMemory
            → result ≡ init_answer self.old (send_call from to tag comm parts bytes) }
        ensures world { self.new ≡ after_init self.old (send_call from to tag comm parts bytes) result }
    {
        self.init(Call::new(Side::SendSide, from, to, tag, comm, parts, bytes))
    }

    /// Initialises a receive of `parts` partitions of `bytes` bytes at rank `to` from rank `from` (`MPI_Precv_init`,
    /// MPI 4.0, 4.2.1). Answered as a send.
    pub fn precv_init(
        &mut self,
        from: u32,
        to: u32,
        tag: u32,
        comm: u32,
        parts: u32,
        bytes: u32,
    ) -> Result<u32, InitFault>
        ensures answer { result ≢ Err InitFault.NoMemory
            → result ≡ init_answer self.old (recv_call from to tag comm parts bytes) }
        ensures world { self.new ≡ after_init self.old (recv_call from to tag comm parts bytes) result }
    {
        self.init(Call::new(Side::RecvSide, from, to, tag, comm, parts, bytes))
    }

    /// Either of them.
    fn init(&mut self, call: Call) -> Result<u32, InitFault>
        ensures answer { result ≢ Err InitFault.NoMemory → result ≡ init_answer self.old call }
        ensures world { self.new ≡ after_init self.old call result }
    {
        check_numbers(self.ranks, call)?;
        let completed = self.completed(call)?;
        let sum = self.sum + u64::from(call.parts * call.bytes);
        if sum > MAX_VOLUME {
            return Err(InitFault::WorldFull { sum });
        }
        let slot = self.ledger.len() as u32;
        self.pairs.reserve(1)?;
        self.ledger.push(call)?;
        self.sum = sum;
        if let Some(matched) = completed {
            self.pairs.push_reserved(matched);
        }
        Ok(slot)
    }

    /// The pair that a call completes.
    fn completed(&self, call: Call) -> Result<Option<Matched>, InitFault>
        requires { IsFit call }
        ensures { result ≡ completed_answer self.now call }
    {
        let (grain, depth) = (self.grain, self.depth);
        let slot = self.ledger.len() as u32;
        let Some((other_slot, other)) = self.ledger.partner_before(call) else {
            return Ok(None);
        };
        let (send_slot, recv_slot, geometry) = match call.side {
            Side::SendSide => (slot, other_slot, geometry_of(grain, depth, call, other)?),
            Side::RecvSide => (other_slot, slot, geometry_of(grain, depth, other, call)?),
        };
        Ok(Some(Matched {
            send_slot,
            recv_slot,
            geometry,
        }))
    }

    /// How many pairs are complete.
    pub fn pair_count(&self) -> u32
        ensures count { result ≡ length (pairs_of self.now.calls) }
    {
        self.pairs.len() as u32
    }

    /// The `n`-th pair from 0 on, in the order in which they were completed.
    pub fn pair(&self, n: u32) -> Matched
        requires inside { n < length (pairs_of self.now.calls) }
        ensures pair { slice_get (matched_pairs self.now) n ≡ Some result }
    {
        self.pairs[n as usize]
    }

    /// The other slot of the pair that a slot is in, and none where it isn't in one.
    pub fn partner(&self, slot: u32) -> Option<u32>
        ensures partner { result ≡ partner_of self.now.calls slot }
    {
        self.ledger.partner(slot as usize)
    }
}
