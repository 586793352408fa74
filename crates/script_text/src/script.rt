//! Scripts, and the reading of a whole text.

ghost use Rattle.std.specs.Prelude.{◌≡◌, ◌≢◌, ◌+◌, ◌≤◌, true, [], ◌∷◌, length, IfOk, IfErr, OnOk};
ghost use Rattle.script_text.specs.declared.TheConstants.{MAX_SCRIPT_BYTES};
ghost use Rattle.text_words.specs.Lines.{texts, sentences_from};
ghost use Rattle.script_text.specs.Script.{is_world, within_limits, world_of, is_end, contents_of, script_of, IsFaultOf};
ghost use Rattle.script_text.specs.Reading.{body_of, whole_of, Begins, Goes, IsFault, GoesLine, IsLineFault};

use crate::call::Call;
use crate::fault::ScriptFault;
use crate::reading::call;
use part_geometry::{MAX_DEPTH, MAX_GRAIN, MAX_RANKS};
use std::alloc::Global;
use std::marker::Model;
use text_words::{is_skipped, number, split, without_return, words};

/// The numbers of a script's world, within their limits: 1 to 64 ranks, a grain of 1 to 16,777,216 bytes, and a
/// depth of 1 to 4 rounds.
#[derive(Drop)]
pub struct Limits {
    ranks: u32,
    grain: u32,
    depth: u32,
}

impl Model for Limits {
    ghost use Rattle.std.specs.Prelude.{◌≡◌, true};
    ghost use Rattle.script_text.specs.Script.{World, is_world};

    ghost Value = { World };

    ghost view = { λ w. record { ranks = w.ranks; grain = w.grain; depth = w.depth } };

    ghost invariant = { λ w. is_world record { ranks = w.ranks; grain = w.grain; depth = w.depth } ≡ true };
}

/// Whether the numbers of a world are within their limits.
fn is_world(ranks: u32, grain: u32, depth: u32) -> bool
    ensures { result ≡ is_world record { ranks = ranks; grain = grain; depth = depth } }
{
    (1..=MAX_RANKS).contains(&ranks)
        && (1..=MAX_GRAIN).contains(&grain)
        && (1..=MAX_DEPTH).contains(&depth)
}

impl Limits {
    /// The world of these numbers, if they are within the limits.
    fn within(ranks: u32, grain: u32, depth: u32) -> Option<Limits>
        ensures { result ≡ within_limits record { ranks = ranks; grain = grain; depth = depth } }
    {
        if !is_world(ranks, grain, depth) {
            return None;
        }
        Some(Limits {
            ranks,
            grain,
            depth,
        })
    }

    /// The world of these words, if they are three numbers within the limits.
    fn new(words: &[&[u8]]) -> Option<Limits>
        ensures { result ≡ world_of (texts words.now) }
    {
        let [ranks, grain, depth] = words else {
            return None;
        };
        let ranks = number(ranks)?;
        let grain = number(grain)?;
        let depth = number(depth)?;
        Limits::within(ranks, grain, depth)
    }

    /// How many ranks there are.
    pub fn ranks(&self) -> u32
        ensures value { result ≡ self.now.ranks }
        ensures limits { is_world self.now ≡ true }
    {
        self.ranks
    }

    /// The least bytes of a piece.
    pub fn grain(&self) -> u32
        ensures value { result ≡ self.now.grain }
        ensures limits { is_world self.now ≡ true }
    {
        self.grain
    }

    /// How many rounds may be in flight.
    pub fn depth(&self) -> u32
        ensures value { result ≡ self.now.depth }
        ensures limits { is_world self.now ≡ true }
    {
        self.depth
    }
}

/// A script that was read. Contracts see its world, and the list of its calls up to `end`.
#[derive(Drop)]
pub struct Script {
    limits: Limits,
    calls: Vec<Call>,
}

impl Model for Script {
    ghost use Rattle.script_text.specs.Script.{Contents};

    ghost Value = { Contents };

    ghost view = { λ s. record { world = s.limits; calls = s.calls.items } };
}

impl Script {
    /// The numbers of its world.
    pub fn limits(&self) -> &Limits
        ensures { result.now ≡ self.now.world }
    {
        &self.limits
    }

    /// Its calls, in the order of lines.
    pub fn calls(&self) -> &[Call]
        ensures { result.now ≡ self.now.calls }
    {
        self.calls.as_slice()
    }
}

/// What was read so far: the world, the calls, and whether `end` was among the lines.
#[derive(Drop)]
struct Body {
    limits: Limits,
    calls: Vec<Call>,
    has_ended: bool,
}

impl Model for Body {
    ghost use Rattle.script_text.specs.Reading.{Read};

    ghost Value = { Read };

    ghost view = { λ b. record { world = b.limits; calls = b.calls.items; ended = b.has_ended } };
}

/// Whether these words are just `end`.
fn is_end(words: &[&[u8]]) -> bool
    ensures { result ≡ is_end (texts words.now) }
{
    match words {
        [word] => *word == b"end".as_slice(),
        _ => false,
    }
}

impl Body {
    /// Reads the first line, which has this number and these words.
    fn begin(alloc: Global, line: u32, words: &[&[u8]]) -> Result<Body, ScriptFault>
        ensures read { IfOk result (λ body. Begins body record { number = line; words = texts words.now }) }
        ensures fault { IfErr result (IsFault contents_of record { number = line; words = texts words.now }) }
    {
        match words {
            [word, numbers @ ..] if *word == b"world".as_slice() => {
                let Some(limits) = Limits::new(numbers) else {
                    return Err(ScriptFault::BadWorld { line });
                };
                Ok(Body {
                    limits,
                    calls: Vec::new(alloc),
                    has_ended: false,
                })
            }
            _ => Err(ScriptFault::NoWorld { line }),
        }
    }

    /// Reads a line behind the first.
    fn read(&mut self, alloc: Global, line: u32, words: &[&[u8]]) -> Result<(), ScriptFault>
        ensures read { OnOk result (Goes self.old self.new record { number = line; words = texts words.now }) }
        ensures fault { IfErr result (IsFault (body_of self.old) record { number = line; words = texts words.now }) }
    {
        if self.has_ended {
            return Err(ScriptFault::AfterEnd { line });
        }
        if is_end(words) {
            self.has_ended = true;
            return Ok(());
        }
        let Some(call) = call(alloc, words)? else {
            return Err(ScriptFault::BadLine { line });
        };
        self.calls.push(call)?;
        Ok(())
    }
}

/// Reads a line that isn't skipped.
fn read_words(
    alloc: Global,
    body: &mut Option<Body>,
    line: u32,
    words: &[&[u8]],
) -> Result<(), ScriptFault>
    ensures read { OnOk result ((rest : _) → whole_of body.new rest ≡
        whole_of body.old (record { number = line; words = texts words.now } ∷ rest)) }
    ensures fault { IfErr result (IsFault (whole_of body.old) record { number = line; words = texts words.now }) }
{
    match body {
        Some(body) => body.read(alloc, line, words),
        None => {
            *body = Some(Body::begin(alloc, line, words)?);
            Ok(())
        }
    }
}

/// Reads a line.
fn read_line(
    alloc: Global,
    body: &mut Option<Body>,
    line: u32,
    text: &[u8],
) -> Result<(), ScriptFault>
    ensures read { OnOk result (GoesLine body.old body.new line text.now) }
    ensures fault { IfErr result (IsLineFault body.old line text.now) }
{
    let words = words(alloc, without_return(text))?;
    if is_skipped(&words) {
        return Ok(());
    }
    read_words(alloc, body, line, &words)
}

/// Reads lines, the first of which has the number 1.
fn read_lines(alloc: Global, lines: &[&[u8]]) -> Result<Option<Body>, ScriptFault>
    requires { length lines.now ≤ MAX_SCRIPT_BYTES + 1 }
    ensures read { IfOk result (λ body. whole_of body [] ≡ contents_of (sentences_from 1 (texts lines.now))) }
    ensures fault { IfErr result (λ fault. fault ≢ ScriptFault.NoMemory →
        contents_of (sentences_from 1 (texts lines.now)) ≡ Err fault) }
{
    let mut body = None;
    for (i, text) in lines.iter().enumerate() {
        read_line(alloc, &mut body, i as u32 + 1, text)?;
    }
    Ok(body)
}

/// The script that was read to its `end`.
fn finish(body: Option<Body>) -> Result<Script, ScriptFault>
    ensures { result ≡ whole_of body [] }
{
    match body {
        Some(
            Body {
                limits,
                calls,
                has_ended: true,
            },
        ) => Ok(Script { limits, calls }),
        _ => Err(ScriptFault::NoEnd),
    }
}

/// The script that a text is, or else its first fault.
fn read_text(alloc: Global, bytes: &[u8]) -> Result<Script, ScriptFault>
    requires { length bytes.now ≤ MAX_SCRIPT_BYTES }
    ensures script { IfOk result (λ script. script_of bytes.now ≡ Ok script) }
    ensures fault { IfErr result (λ fault. fault ≢ ScriptFault.NoMemory → script_of bytes.now ≡ Err fault) }
{
    let lines = split(alloc, bytes, b'\n')?;
    finish(read_lines(alloc, &lines)?)
}

/// The script that a text is, or else its first fault in the order of lines. Lines end by LF, which the last one may
/// lack; a CR at the end of a line is dropped; words stand between spaces and tabs; a line without words is skipped,
/// and so is one that begins with `#`. The time grows linearly with the text. `NoMemory` may be answered in place of
/// any other answer.
pub fn parse_script(alloc: Global, bytes: &[u8]) -> Result<Script, ScriptFault>
    requires { length bytes.now ≤ MAX_SCRIPT_BYTES }
    ensures script { IfOk result (λ script. script_of bytes.now ≡ Ok script) }
    ensures fault { IfErr result (λ fault. fault ≢ ScriptFault.NoMemory → script_of bytes.now ≡ Err fault) }
    ensures line { IfErr result (IsFaultOf bytes.now) }
{
    read_text(alloc, bytes)
}
