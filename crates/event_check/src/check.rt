//! A text of events, checked.

ghost use Rattle.std.specs.Prelude.{◌≡◌, ◌≢◌, ◌≤◌, length, IfOk, IfErr, Err};
ghost use Rattle.event_check.specs.declared.TheConstants.{MAX_CHECK_BYTES};
ghost use Rattle.event_check.specs.Lists.{listing_of};
ghost use Rattle.event_check.specs.Output.{IsOutput, IsTold, TellsInOrder};

use crate::fault::{CheckFault, WalkFault};
use crate::list::read_list;
use crate::tell::{push_count, push_made};
use crate::walk::Walk;
use pair_core::Event;
use part_geometry::Geometry;
use std::alloc::{AllocError, Global};

/// What is told of some events.
fn tell(alloc: Global, geometry: Geometry, events: &[Event]) -> Result<Vec<u8>, AllocError>
    ensures { IfOk result (λ text. IsTold geometry events.now text.items) }
{
    let mut walk = Walk::new(alloc, geometry)?;
    let mut text = Vec::new(alloc);
    for (at, event) in events.iter().enumerate() {
        match walk.apply(event) {
            Ok(made) => push_made(&mut text, made)?,
            Err(WalkFault::NotAllowed) => {
                push_count(&mut text, "stopped ", at)?;
                return Ok(text);
            }
            Err(WalkFault::NoMemory) => return Err(AllocError),
        }
    }
    push_count(&mut text, "ran ", events.len())?;
    Ok(text)
}

/// Reads a list of events, makes one after the other up to the first that isn't allowed, and tells what they did (MPI
/// 4.0, chapter 4, by the atomic steps of `pair_core`): a line `out K I` for each piece I of round K that went out
/// and a line `take K Q` for each receive partition Q that was taken in round K, in order, and then `ran N` with the
/// number of events, or `stopped AT` with the place, counted from 0, of the first that isn't allowed.
///
/// Lines end by LF, which the last one may lack; a CR at the end of a line is dropped; words stand between spaces and
/// tabs; a line without words is skipped, and so is one that begins with `#`. The first line is `pair` with the six
/// numbers of `Geometry::new`, and each other one `e SEAT KIND WORD ROUND PART`, the five numbers of an `Event`, with a
/// seat of at most 65 and a kind from 1 to 13.
///
/// The whole text is read first, and its first fault in the order of lines is answered: `NoPair`, where every line is
/// skipped; `BadPair`, where the first one is no pair; `TooMany` at the 100,001st event, whatever the line says; and
/// else `BadEvent` where a line is no event. `NoMemory` may be answered in place of any other answer.
pub fn check_events(alloc: Global, bytes: &[u8]) -> Result<Vec<u8>, CheckFault>
    requires { length bytes.now ≤ MAX_CHECK_BYTES }
    ensures output { IfOk result (λ output. IsOutput bytes.now output.items) }
    ensures order { IfOk result (λ output. TellsInOrder bytes.now output.items) }
    ensures fault { IfErr result (λ fault. fault ≢ CheckFault.NoMemory → listing_of bytes.now ≡ Err fault) }
{
    pair_core::core_laws::<()>();
    let list = read_list(alloc, bytes)?;
    let text = tell(alloc, list.geometry(), list.events())?;
    Ok(text)
}
