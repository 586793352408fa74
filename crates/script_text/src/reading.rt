//! The words of a line, read.

ghost use Rattle.std.specs.Prelude.{◌≡◌, codes, bytes_eq, IfOk, IfSome, option_map};
ghost use Rattle.text_words.specs.Lines.{texts};
ghost use Rattle.script_text.specs.Calls.{init_of, send_of, recv_of, named_of, start_of, test_of, free_of, placed_of, arrived_of, take_of, back_of, mark_of, ready_of, range_mark_of, range_of, list_mark_of, list_of, request_call_of, mark_call_of, call_of};

use crate::call::{Action, Bytes, Call, Init, Name, Parts};
use std::alloc::{AllocError, Global};
use text_words::number;

/// The words behind `send` and `recv`.
fn init(words: &[&[u8]]) -> Option<Init>
    ensures { result ≡ init_of (texts words.now) }
{
    let [name, from, to, tag, comm, parts, bytes] = words else {
        return None;
    };
    Some(Init {
        name: Name::new(name)?,
        from: number(from)?,
        to: number(to)?,
        tag: number(tag)?,
        comm: number(comm)?,
        parts: number(parts)?,
        bytes: number(bytes)?,
    })
}

/// The word behind `start`, `test` and `free`.
fn named(words: &[&[u8]]) -> Option<Name>
    ensures { result ≡ named_of (texts words.now) }
{
    let [name] = words else {
        return None;
    };
    Name::new(name)
}

/// The words behind `arrived`, `take` and `back`.
fn placed(words: &[&[u8]]) -> Option<(Name, u32)>
    ensures { option_map (λ place. (place.0, place.1)) result ≡ placed_of (texts words.now) }
{
    let [name, q] = words else {
        return None;
    };
    Some((Name::new(name)?, number(q)?))
}

/// The four words behind `ready`.
fn mark(
    alloc: Global,
    name: &[u8],
    round: &[u8],
    partition: &[u8],
    bytes: &[u8],
) -> Result<Option<Call>, AllocError>
    ensures { IfOk result (λ call. call ≡ mark_of name.now round.now partition.now bytes.now) }
{
    let Some(name) = Name::new(name) else {
        return Ok(None);
    };
    let Some(round) = number(round) else {
        return Ok(None);
    };
    let Some(partition) = number(partition) else {
        return Ok(None);
    };
    let Some(bytes) = Bytes::new(alloc, bytes)? else {
        return Ok(None);
    };
    let action = Action::Ready {
        round,
        partition,
        bytes,
    };
    Ok(Some(Call::Request { name, action }))
}

/// The words behind `ready`.
fn ready(alloc: Global, words: &[&[u8]]) -> Result<Option<Call>, AllocError>
    ensures { IfOk result (λ call. call ≡ ready_of (texts words.now)) }
{
    match words {
        [name, round, partition, bytes] => mark(alloc, name, round, partition, bytes),
        _ => Ok(None),
    }
}

/// The five words behind `range`.
fn range_mark(
    alloc: Global,
    name: &[u8],
    round: &[u8],
    low: &[u8],
    high: &[u8],
    bytes: &[u8],
) -> Result<Option<Call>, AllocError>
    ensures { IfOk result (λ call. call ≡ range_mark_of name.now round.now low.now high.now bytes.now) }
{
    let Some(name) = Name::new(name) else {
        return Ok(None);
    };
    let Some(round) = number(round) else {
        return Ok(None);
    };
    let Some(low) = number(low) else {
        return Ok(None);
    };
    let Some(high) = number(high) else {
        return Ok(None);
    };
    let Some(bytes) = Bytes::new(alloc, bytes)? else {
        return Ok(None);
    };
    let action = Action::ReadyRange {
        round,
        low,
        high,
        bytes,
    };
    Ok(Some(Call::Request { name, action }))
}

/// The words behind `range`.
fn range(alloc: Global, words: &[&[u8]]) -> Result<Option<Call>, AllocError>
    ensures { IfOk result (λ call. call ≡ range_of (texts words.now)) }
{
    match words {
        [name, round, low, high, bytes] => range_mark(alloc, name, round, low, high, bytes),
        _ => Ok(None),
    }
}

/// The four words behind `list`.
fn list_mark(
    alloc: Global,
    name: &[u8],
    round: &[u8],
    parts: &[u8],
    bytes: &[u8],
) -> Result<Option<Call>, AllocError>
    ensures { IfOk result (λ call. call ≡ list_mark_of name.now round.now parts.now bytes.now) }
{
    let Some(name) = Name::new(name) else {
        return Ok(None);
    };
    let Some(round) = number(round) else {
        return Ok(None);
    };
    let Some(parts) = Parts::new(alloc, parts)? else {
        return Ok(None);
    };
    let Some(bytes) = Bytes::new(alloc, bytes)? else {
        return Ok(None);
    };
    let action = Action::ReadyList {
        round,
        parts,
        bytes,
    };
    Ok(Some(Call::Request { name, action }))
}

/// The words behind `list`.
fn list(alloc: Global, words: &[&[u8]]) -> Result<Option<Call>, AllocError>
    ensures { IfOk result (λ call. call ≡ list_of (texts words.now)) }
{
    match words {
        [name, round, parts, bytes] => list_mark(alloc, name, round, parts, bytes),
        _ => Ok(None),
    }
}

/// What is done with a request of a name.
fn request(name: Name, action: Action) -> Call
    ensures { result ≡ Call.Request name action }
{
    Call::Request { name, action }
}

/// A command that takes no memory, and the words behind it.
fn request_call(command: &[u8], words: &[&[u8]]) -> Option<Call>
    ensures { result ≡ request_call_of command.now (texts words.now) }
{
    if command == b"send".as_slice() {
        return init(words).map(Call::Send);
    }
    if command == b"recv".as_slice() {
        return init(words).map(Call::Recv);
    }
    if command == b"start".as_slice() {
        return named(words).map(|name| request(name, Action::Start));
    }
    if command == b"arrived".as_slice() {
        return placed(words).map(|(name, q)| request(name, Action::Arrived { q }));
    }
    if command == b"take".as_slice() {
        return placed(words).map(|(name, q)| request(name, Action::Take { q }));
    }
    if command == b"back".as_slice() {
        return placed(words).map(|(name, q)| request(name, Action::Back { q }));
    }
    if command == b"test".as_slice() {
        return named(words).map(|name| request(name, Action::Test));
    }
    if command == b"free".as_slice() {
        return named(words).map(|name| request(name, Action::Free));
    }
    None
}

/// A command and the words behind it.
fn mark_call(alloc: Global, command: &[u8], words: &[&[u8]]) -> Result<Option<Call>, AllocError>
    ensures { IfOk result (λ call. call ≡ mark_call_of command.now (texts words.now)) }
{
    if command == b"ready".as_slice() {
        return ready(alloc, words);
    }
    if command == b"range".as_slice() {
        return range(alloc, words);
    }
    if command == b"list".as_slice() {
        return list(alloc, words);
    }
    Ok(request_call(command, words))
}

/// What a line's words call, if they call something.
pub(crate) fn call(alloc: Global, words: &[&[u8]]) -> Result<Option<Call>, AllocError>
    ensures { IfOk result (λ call. call ≡ call_of (texts words.now)) }
{
    match words {
        [] => Ok(None),
        [first, rest @ ..] => mark_call(alloc, first, rest),
    }
}
