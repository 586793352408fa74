//! Copies of what a state keeps.

ghost use Rattle.std.specs.Prelude.{◌≡◌, IfOk};
ghost use Rattle.pair_core.specs.Copies.{IsCopy, AreCopies};

use crate::seat::Seat;
use crate::view::{Mark, Pending};
use std::alloc::{AllocError, Global};
use std::collections::LinkedList;

/// The same marks.
pub(crate) fn copy_marks(marks: &LinkedList<Mark<()>>) -> Result<LinkedList<Mark<()>>, AllocError>
    ensures { IfOk result (λ copy. copy ≡ marks.now) }
{
    marks.clone()
}

/// The same pieces.
fn copy_pieces(pieces: &LinkedList<u32>) -> Result<LinkedList<u32>, AllocError>
    ensures { IfOk result (λ copy. copy ≡ pieces.now) }
{
    pieces.clone()
}

/// The same claim.
fn copy_pending(pending: &Option<Pending>) -> Result<Option<Pending>, AllocError>
    ensures { IfOk result (λ copy. copy ≡ pending.now) }
{
    match pending {
        Some(claim) => Ok(Some(Pending {
            round: claim.round,
            partition: claim.partition,
            laid: copy_pieces(&claim.laid)?,
        })),
        None => Ok(None),
    }
}

/// A seat that knows and did the same.
fn copy_seat(alloc: Global, seat: &Seat) -> Result<Seat, AllocError>
    ensures { IfOk result (λ copy. IsCopy seat.now copy) }
{
    Ok(Seat {
        seat: seat.seat,
        seen: seat.seen.as_slice().to_vec(alloc)?,
        looks: seat.looks.as_slice().to_vec(alloc)?,
        pending: copy_pending(&seat.pending)?,
        marks: copy_marks(&seat.marks)?,
    })
}

/// The same seats, in the same order.
pub(crate) fn copy_seats(alloc: Global, seats: &[Seat]) -> Result<Vec<Seat>, AllocError>
    ensures { IfOk result (λ copies. AreCopies seats.now copies.items) }
{
    let mut copies = Vec::new(alloc);
    for at in 0..seats.len() {
        copies.push(copy_seat(alloc, &seats[at])?)?;
    }
    Ok(copies)
}
