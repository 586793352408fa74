//! The text of each answer.

ghost use Rattle.std.specs.Prelude.{◌≡◌, string_bytes, IfOk};
ghost use Rattle.script_pair.specs.Texts.{start_text, refusal_text, ready_text, marks_text, arrived_text, untaken_text, bytes_text, back_text, send_test_text, recv_test_text, free_text, closed_text};

use part_api::{FreeFault, ReqFault};
use part_geometry::{Marked, Marks, RecvTest};
use plain_pair::{PlainClosed, PlainLook, PlainRefusal, PlainSendTest, PlainStop, PlainTake};
use std::alloc::{AllocError, Global};

/// The text of what a start answers.
pub(crate) fn start(alloc: Global, answer: Result<u32, ReqFault>) -> Result<String, AllocError>
    ensures { IfOk result (λ text. string_bytes text ≡ start_text answer) }
{
    match answer {
        Ok(round) => format!(in alloc; "round {round}"),
        Err(ReqFault::Freed) => String::from_str(alloc, "refused Freed"),
        Err(ReqFault::Unmatched) => String::from_str(alloc, "refused Unmatched"),
        Err(ReqFault::AlreadyActive { round }) => {
            format!(in alloc; "refused AlreadyActive {round}")
        }
        Err(ReqFault::RoundsSpent) => String::from_str(alloc, "refused RoundsSpent"),
    }
}

/// The text of why a mark was refused.
fn refusal(cause: PlainRefusal) -> &'static str
    ensures { result.now ≡ refusal_text cause }
{
    match cause {
        PlainRefusal::BadPartition => "refused BadPartition",
        PlainRefusal::BadLength => "refused BadLength",
        PlainRefusal::NotActive => "refused NotActive",
        PlainRefusal::AlreadyMarked => "refused AlreadyMarked",
        PlainRefusal::BadRange => "refused BadRange",
    }
}

/// The text of what a mark answers.
pub(crate) fn ready(
    alloc: Global,
    answer: Result<Marked, PlainRefusal>,
) -> Result<String, AllocError>
    ensures { IfOk result (λ text. string_bytes text ≡ ready_text answer) }
{
    match answer {
        Ok(marked) => format!(in alloc; "marked {}", marked.sent),
        Err(cause) => String::from_str(alloc, refusal(cause)),
    }
}

/// The text of what the marks of a range or a list answer.
pub(crate) fn marks(alloc: Global, answer: Result<Marks, PlainStop>) -> Result<String, AllocError>
    ensures { IfOk result (λ text. string_bytes text ≡ marks_text answer) }
{
    match answer {
        Ok(marks) => format!(in alloc; "marked {} {}", marks.count, marks.sent),
        Err(stop) => format!(in alloc; "{} at {}", refusal(stop.cause), stop.at),
    }
}

/// The text of whether a partition has arrived.
pub(crate) fn arrived(alloc: Global, look: PlainLook) -> Result<String, AllocError>
    ensures { IfOk result (λ text. string_bytes text ≡ arrived_text look) }
{
    match look {
        PlainLook::Arrived => String::from_str(alloc, "flag 1"),
        PlainLook::NotYet { piece } => format!(in alloc; "flag 0 piece {piece}"),
        PlainLook::Idle => String::from_str(alloc, "flag 1 idle"),
        PlainLook::BadPartition => String::from_str(alloc, "refused BadPartition"),
    }
}

/// The text of why a partition wasn't taken.
pub(crate) fn untaken(alloc: Global, cause: PlainTake) -> Result<String, AllocError>
    ensures { IfOk result (λ text. string_bytes text ≡ untaken_text cause) }
{
    match cause {
        PlainTake::Idle => String::from_str(alloc, "refused Idle"),
        PlainTake::BadPartition => String::from_str(alloc, "refused BadPartition"),
        PlainTake::AlreadyTaken { round } => format!(in alloc; "refused AlreadyTaken {round}"),
        PlainTake::NotYet { piece } => format!(in alloc; "refused NotYet {piece}"),
    }
}

/// The text of bytes that were taken.
pub(crate) fn bytes(alloc: Global, bytes: &[u8]) -> Result<String, AllocError>
    ensures { IfOk result (λ text. string_bytes text ≡ bytes_text bytes.now) }
{
    let digits = hex::encode(alloc, bytes)?;
    format!(in alloc; "bytes {digits}")
}

/// The text of a return, by whether the arrival was kept.
pub(crate) fn back(alloc: Global, is_kept: bool) -> Result<String, AllocError>
    ensures { IfOk result (λ text. string_bytes text ≡ back_text is_kept) }
{
    String::from_str(alloc, if is_kept { "ok" } else { "refused NotOut" })
}

/// The text of a test of a send.
pub(crate) fn send_test(alloc: Global, answer: PlainSendTest) -> Result<String, AllocError>
    ensures { IfOk result (λ text. string_bytes text ≡ send_test_text answer) }
{
    match answer {
        PlainSendTest::Idle => String::from_str(alloc, "idle"),
        PlainSendTest::Done => String::from_str(alloc, "done"),
        PlainSendTest::Unmarked { partition } => format!(in alloc; "unmarked {partition}"),
        PlainSendTest::Unreleased { released } => format!(in alloc; "unreleased {released}"),
    }
}

/// The text of a test of a receive.
pub(crate) fn recv_test(alloc: Global, answer: RecvTest) -> Result<String, AllocError>
    ensures { IfOk result (λ text. string_bytes text ≡ recv_test_text answer) }
{
    match answer {
        RecvTest::Idle => String::from_str(alloc, "idle"),
        RecvTest::Done => String::from_str(alloc, "done"),
        RecvTest::Untaken { q } => format!(in alloc; "untaken {q}"),
        RecvTest::Out { q } => format!(in alloc; "out {q}"),
    }
}

/// The text of a free.
pub(crate) fn free(alloc: Global, answer: Result<(), FreeFault>) -> Result<String, AllocError>
    ensures { IfOk result (λ text. string_bytes text ≡ free_text answer) }
{
    let text = match answer {
        Ok(()) => "ok",
        Err(FreeFault::Freed) => "refused Freed",
        Err(FreeFault::Unmatched) => "refused Unmatched",
        Err(FreeFault::Active { .. }) => "refused Active",
    };
    String::from_str(alloc, text)
}

/// The text of how far a pair came.
pub fn closed(alloc: Global, closed: PlainClosed) -> Result<String, AllocError>
    ensures { IfOk result (λ text. string_bytes text ≡ closed_text closed) }
{
    format!(in alloc;
        " started {} {} released {} pieces {}",
        closed.send_round, closed.recv_round, closed.released, closed.pieces_out
    )
}
