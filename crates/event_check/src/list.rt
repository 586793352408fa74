//! A list of events, read from a text.

ghost use Rattle.std.specs.Prelude.{◌≡◌, ◌≢◌, ◌+◌, ◌≤◌, [], ◌∷◌, length, IfOk, IfErr, OnOk};
ghost use Rattle.text_words.specs.Lines.{texts, sentences_from};
ghost use Rattle.text_words.specs.Numbers.{number_of};
ghost use Rattle.event_check.specs.declared.TheConstants.{MAX_CHECK_BYTES};
ghost use Rattle.event_check.specs.Lists.{event_in, event_of, geometry_in, is_listed, listed, listing_in, listing_of};
ghost use Rattle.event_check.specs.Lists.{pair_of};
ghost use Rattle.event_check.specs.Reading.{Begins, Goes, GoesLine, IsFault, IsLineFault, body_of, whole_of};

use crate::fault::CheckFault;
use crate::{LAST_KIND, LAST_SEAT, MAX_EVENTS};
use pair_core::Event;
use part_geometry::Geometry;
use std::alloc::{AllocError, Global};
use std::marker::Model;
use text_words::{is_skipped, number, split, without_return, words};

/// The number that a word is: 1 to 19 decimal digits with a value of at most 4,294,967,295. `None` comes exactly where
/// the word is no such number. It takes no memory.
pub fn read_number(word: &[u8]) -> Option<u32>
    ensures { result ≡ number_of word.now }
{
    number(word)
}

/// A list that was read: the pair's geometry, and the events in the order of lines.
#[derive(Drop)]
pub(crate) struct EventList {
    geometry: Geometry,
    events: Vec<Event>,
}

impl Model for EventList {
    ghost use Rattle.event_check.specs.Lists.{Listing};

    ghost Value = { Listing };

    ghost view = { λ l. record { geometry = l.geometry; events = l.events.items } };
}

/// The geometry that the words behind `pair` give.
fn geometry(words: &[&[u8]]) -> Option<Geometry>
    ensures { result ≡ geometry_in (texts words.now) }
{
    let [send_parts, send_bytes, recv_parts, recv_bytes, grain, depth] = words else {
        return None;
    };
    let send_parts = read_number(send_parts)?;
    let send_bytes = read_number(send_bytes)?;
    let recv_parts = read_number(recv_parts)?;
    let recv_bytes = read_number(recv_bytes)?;
    let grain = read_number(grain)?;
    let depth = read_number(depth)?;
    Geometry::new(send_parts, send_bytes, recv_parts, recv_bytes, grain, depth).ok()
}

/// The geometry that the words of the first line give.
fn pair(words: &[&[u8]]) -> Option<Geometry>
    ensures { result ≡ pair_of (texts words.now) }
{
    match words {
        [command, numbers @ ..] if *command == b"pair".as_slice() => geometry(numbers),
        _ => None,
    }
}

/// Whether an event may stand in a list: its seat and its kind are in their ranges.
fn is_listed(event: Event) -> bool
    ensures { result ≡ is_listed event }
{
    event.seat <= LAST_SEAT && (1..=LAST_KIND).contains(&event.kind)
}

/// The event, where it may stand in a list.
fn listed(event: Event) -> Option<Event>
    ensures { result ≡ listed event }
{
    if is_listed(event) { Some(event) } else { None }
}

/// The event that the words behind `e` give.
fn event_in(words: &[&[u8]]) -> Option<Event>
    ensures { result ≡ event_in (texts words.now) }
{
    let [seat, kind, word, round, partition] = words else {
        return None;
    };
    let seat = read_number(seat)?;
    let kind = read_number(kind)?;
    let word = read_number(word)?;
    let round = read_number(round)?;
    let partition = read_number(partition)?;
    listed(Event {
        seat,
        kind,
        word,
        round,
        partition,
    })
}

/// The event that the words of a line give.
fn event(words: &[&[u8]]) -> Option<Event>
    ensures { result ≡ event_of (texts words.now) }
{
    match words {
        [command, numbers @ ..] if *command == b"e".as_slice() => event_in(numbers),
        _ => None,
    }
}

impl EventList {
    pub(crate) fn geometry(&self) -> Geometry
        ensures { result ≡ self.now.geometry }
    {
        self.geometry
    }

    pub(crate) fn events(&self) -> &[Event]
        ensures { result.now ≡ self.now.events }
    {
        self.events.as_slice()
    }

    /// Reads the first line, which has this number and these words.
    fn begin(alloc: Global, line: u32, words: &[&[u8]]) -> Result<EventList, CheckFault>
        ensures read { IfOk result (λ list. Begins list record { number = line; words = texts words.now }) }
        ensures fault { IfErr result (IsFault listing_in record { number = line; words = texts words.now }) }
    {
        let Some(geometry) = pair(words) else {
            return Err(CheckFault::BadPair { line });
        };
        Ok(EventList {
            geometry,
            events: Vec::new(alloc),
        })
    }

    /// Reads a line behind the first.
    fn read(&mut self, line: u32, words: &[&[u8]]) -> Result<(), CheckFault>
        ensures read { OnOk result (Goes self.old self.new record { number = line; words = texts words.now }) }
        ensures fault { IfErr result (IsFault (body_of self.old) record { number = line; words = texts words.now }) }
    {
        if self.events.len() == MAX_EVENTS {
            return Err(CheckFault::TooMany { line });
        }
        let Some(event) = event(words) else {
            return Err(CheckFault::BadEvent { line });
        };
        self.events.push(event)?;
        Ok(())
    }
}

/// Reads a line that isn't skipped.
fn read_words(
    alloc: Global,
    list: &mut Option<EventList>,
    line: u32,
    words: &[&[u8]],
) -> Result<(), CheckFault>
    ensures read { OnOk result ((rest : _) → whole_of list.new rest
        ≡ whole_of list.old (record { number = line; words = texts words.now } ∷ rest)) }
    ensures fault { IfErr result (IsFault (whole_of list.old) record { number = line; words = texts words.now }) }
{
    match list {
        Some(list) => list.read(line, words),
        None => {
            *list = Some(EventList::begin(alloc, line, words)?);
            Ok(())
        }
    }
}

/// Reads a line.
fn read_line(
    alloc: Global,
    list: &mut Option<EventList>,
    line: u32,
    text: &[u8],
) -> Result<(), CheckFault>
    ensures read { OnOk result (GoesLine list.old list.new line text.now) }
    ensures fault { IfErr result (IsLineFault list.old line text.now) }
{
    let words = words(alloc, without_return(text))?;
    if is_skipped(&words) {
        return Ok(());
    }
    read_words(alloc, list, line, &words)
}

/// Reads lines, the first of which has the number 1.
fn read_lines(alloc: Global, lines: &[&[u8]]) -> Result<Option<EventList>, CheckFault>
    requires { length lines.now ≤ MAX_CHECK_BYTES + 1 }
    ensures read { IfOk result (λ list. whole_of list [] ≡ listing_in (sentences_from 1 (texts lines.now))) }
    ensures fault { IfErr result (λ fault. fault ≢ CheckFault.NoMemory
        → listing_in (sentences_from 1 (texts lines.now)) ≡ Err fault) }
{
    let mut list = None;
    for (i, text) in lines.iter().enumerate() {
        read_line(alloc, &mut list, i as u32 + 1, text)?;
    }
    Ok(list)
}

/// The list that was read to its end.
fn finish(list: Option<EventList>) -> Result<EventList, CheckFault>
    ensures { result ≡ whole_of list [] }
{
    match list {
        Some(list) => Ok(list),
        None => Err(CheckFault::NoPair),
    }
}

/// The list that a text is, or else its first fault.
pub(crate) fn read_list(alloc: Global, bytes: &[u8]) -> Result<EventList, CheckFault>
    requires { length bytes.now ≤ MAX_CHECK_BYTES }
    ensures list { IfOk result (λ list. listing_of bytes.now ≡ Ok list) }
    ensures fault { IfErr result (λ fault. fault ≢ CheckFault.NoMemory → listing_of bytes.now ≡ Err fault) }
{
    let lines = split(alloc, bytes, b'\n')?;
    finish(read_lines(alloc, &lines)?)
}
