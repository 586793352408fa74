//! The thread that receives.

ghost use Rattle.std.specs.Prelude.{◌≡◌, IfOk, length};
ghost use Rattle.pair_rule.specs.Seats.{IsOf};
ghost use Rattle.part_recv.specs.Taking.{IsOut};

use crate::bytes::check;
use crate::fault::Fault;
use crate::shared::{Looks, Shared};
use crate::times::Times;
use pair_rule::AnyBytes;
use part_geometry::RecvTest;
use part_recv::{Arrival, RecvEnd, TakeRefusal};
use std::alloc::Global;
use std::sync::Wait;
use std::time::Clock;

/// What the receiving thread has done.
#[derive(Drop)]
pub struct Receiving {
    /// The receive end.
    pub end: RecvEnd<AnyBytes>,
    /// When it took the first partition.
    pub times: Times,
}

/// Takes a partition, once it has arrived.
fn take<R: Wait>(
    rt: &R,
    shared: &Shared,
    end: &mut RecvEnd<AnyBytes>,
    partition: u32,
) -> Result<Arrival<AnyBytes>, Fault>
    requires { IsOf end.old.table end.old.view shared.now.pair }
    ensures pair { IsOf end.new.table end.new.view shared.now.pair }
    ensures out { IfOk result (λ taken. IsOut taken end.new) }
    ensures bytes { IfOk result (λ taken. length taken.bytes ≡ shared.now.pair.key.geometry.recv_bytes) }
{
    let mut looks = Looks::new();
    for _ in rt.forever() {
        match end.take(&shared.pair, partition) {
            Ok(arrival) => return Ok(arrival),
            Err(TakeRefusal::NotYet { piece: _, shown: _ }) => looks.pause(shared)?,
            Err(refusal) => return Err(Fault::NotTaken(refusal)),
        }
    }
    unreachable!()
}

/// Takes all partitions of a round, checks their bytes and gives them back.
fn receive_round<R: Wait + Clock>(
    rt: &R,
    shared: &Shared,
    receiving: &mut Receiving,
    bytes: &mut [u8],
    round: u32,
) -> Result<(), Fault>
    requires pair { IsOf receiving.old.end.table receiving.old.end.view shared.now.pair }
    requires bytes { length bytes.old ≡ shared.now.pair.key.geometry.recv_bytes }
    ensures { IsOf receiving.new.end.table receiving.new.end.view shared.now.pair }
{
    for partition in 0..shared.plan.geometry.recv_parts() {
        let arrival = take(rt, shared, &mut receiving.end, partition)?;
        if partition == 0 {
            receiving.times.note(rt, shared.begun, round)?;
        }
        arrival.copy_into(bytes);
        receiving.end.give_back(&shared.pair, arrival);
        if !check(bytes, shared.plan.received_place(partition), round) {
            return Err(Fault::WrongByte { round, partition });
        }
    }
    Ok(())
}

/// Receives all rounds.
pub fn receive_all<R: Wait + Clock>(
    rt: &R,
    alloc: Global,
    shared: &Shared,
    end: RecvEnd<AnyBytes>,
) -> Result<Receiving, Fault>
    requires { IsOf end.table end.view shared.now.pair }
    ensures { IfOk result (λ r. IsOf r.end.table r.end.view shared.now.pair) }
{
    let mut buffer = vec![in alloc; 0u8; shared.pair.geometry().recv_bytes() as usize]?;
    let bytes = buffer.as_mut_slice();
    let times = Times::new(alloc, shared.plan.rounds)?;
    let mut receiving = Receiving { end, times };
    for _ in 0..shared.plan.rounds {
        let round = receiving
            .end
            .start(&shared.pair)
            .map_err(Fault::NotStarted)?;
        receive_round(rt, shared, &mut receiving, bytes, round)?;
        match receiving.end.test(&shared.pair) {
            RecvTest::Done => {}
            answer => return Err(Fault::NotReceived(answer)),
        }
    }
    Ok(receiving)
}
