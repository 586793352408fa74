//! One run, from its words to its status.

ghost use Rattle.std.specs.Prelude.{◌≡◌, ◌≢◌, ◌≤◌, ◌⊎◌, length, Some, None, Err, IfSome, IfErr, OnOk};
ghost use Rattle.part_io.specs.Causes.{Rose, HasCause};
ghost use Rattle.part_io.specs.Sink.{Adds, AddsFront, Writes};
ghost use Rattle.stencil_words.specs.Limits.{IsRead};
ghost use Rattle.stencil_top.specs.Words.{Check, Script, Stencil, command_of, file_of, texts};
ghost use Rattle.stencil_top.specs.Note.{status_of, note_text, Notes};
ghost use Rattle.stencil_top.specs.Outcome.{answers_to, list_in};
ghost use Rattle.stencil_top.specs.Plans.{PlansLeaveOutcomes};
ghost use Rattle.stencil_top.specs.declared.note.Note.{Note};
ghost use Rattle.stencil_top.specs.declared.note.TextName.{TextName};
ghost use Rattle.stencil_top.specs.Run.{EndsAsTold, Explains, IsCause, IsUnread, NeedsNone};
ghost use Rattle.stencil_top.specs.Steps.{Gives, KeepsCount, RunsCheck, RunsScript};

use crate::note::{self, Note, TextName};
use crate::reading::{read_inputs, read_text};
use crate::status::Status;
use crate::stencil::{sharing_of, stencil_output};
use crate::words::named;
use event_check::{CheckFault, check_events};
use part_io::{Shelf, Sink};
use script_run::run_script;
use script_text::{ScriptFault, parse_script};
use std::alloc::Global;
use stencil_words::{StencilWords, read_words};

/// The answers to the script that a text is.
fn run_text(alloc: Global, text: &[u8]) -> Result<Vec<u8>, Note>
    requires { length text.now ≤ 1048576 }
    ensures { RunsScript (answers_to text.now) result }
{
    let script = match parse_script(alloc, text) {
        Ok(script) => script,
        Err(ScriptFault::NoMemory) => return Err(Note::OutOfMemory),
        Err(fault) => return Err(Note::BadScript(fault)),
    };
    match run_script(alloc, &script) {
        Ok(answers) => Ok(answers),
        Err(_) => Err(Note::OutOfMemory),
    }
}

/// The output of a script.
fn script<H: Shelf>(alloc: Global, name: &str, shelf: &mut H) -> Result<Vec<u8>, Note>
    ensures gives { Gives (Some (Script name.now)) (H.files shelf.old)
        (H.faults shelf.old) (H.faults shelf.new) result }
    ensures files { H.files shelf.new ≡ H.files shelf.old }
    ensures later { H.faults shelf.old ≤ H.faults shelf.new }
    ensures kept { KeepsCount (H.faults shelf.old) (H.faults shelf.new) result }
{
    let text = read_text(alloc, TextName::Script, name, shelf)?;
    run_text(alloc, &text)
}

/// What is told of the list of events that a text is.
fn check_text(alloc: Global, text: &[u8]) -> Result<Vec<u8>, Note>
    requires { length text.now ≤ 4194304 }
    ensures { RunsCheck (list_in text.now) result }
{
    match check_events(alloc, text) {
        Ok(output) => Ok(output),
        Err(CheckFault::NoMemory) => Err(Note::OutOfMemory),
        Err(fault) => Err(Note::BadList(fault)),
    }
}

/// The output of a list of events.
fn check<H: Shelf>(alloc: Global, name: &str, shelf: &mut H) -> Result<Vec<u8>, Note>
    ensures gives { Gives (Some (Check name.now)) (H.files shelf.old)
        (H.faults shelf.old) (H.faults shelf.new) result }
    ensures files { H.files shelf.new ≡ H.files shelf.old }
    ensures later { H.faults shelf.old ≤ H.faults shelf.new }
    ensures kept { KeepsCount (H.faults shelf.old) (H.faults shelf.new) result }
{
    let text = read_text(alloc, TextName::Check, name, shelf)?;
    check_text(alloc, &text)
}

/// The output of a stencil.
fn stencil<H: Shelf>(alloc: Global, words: &StencilWords, shelf: &mut H) -> Result<Vec<u8>, Note>
    requires { IsRead words.now }
    ensures gives { Gives (Some (Stencil words.now)) (H.files shelf.old)
        (H.faults shelf.old) (H.faults shelf.new) result }
    ensures files { H.files shelf.new ≡ H.files shelf.old }
    ensures later { H.faults shelf.old ≤ H.faults shelf.new }
    ensures kept { KeepsCount (H.faults shelf.old) (H.faults shelf.new) result }
{
    let inputs = read_inputs(alloc, &words.source, shelf)?;
    let sharing = sharing_of(words, &inputs)?;
    match stencil_output(alloc, words, &inputs, sharing) {
        Ok(output) => Ok(output),
        Err(_) => Err(Note::OutOfMemory),
    }
}

/// The output of what the words ask for.
fn output<H: Shelf>(alloc: Global, words: &Vec<String>, shelf: &mut H) -> Result<Vec<u8>, Note>
    ensures gives { Gives (command_of (texts words.now)) (H.files shelf.old)
        (H.faults shelf.old) (H.faults shelf.new) result }
    ensures files { H.files shelf.new ≡ H.files shelf.old }
    ensures later { H.faults shelf.old ≤ H.faults shelf.new }
    ensures kept { KeepsCount (H.faults shelf.old) (H.faults shelf.new) result }
{
    if let Some(name) = named("script", words) {
        return script(alloc, name, shelf);
    }
    if let Some(name) = named("check", words) {
        return check(alloc, name, shelf);
    }
    match read_words(alloc, words) {
        Ok(Some(words)) => stencil(alloc, &words, shelf),
        Ok(None) => Err(Note::Usage),
        Err(_) => Err(Note::OutOfMemory),
    }
}

/// Writes an output, in one piece.
fn write_out<K: Sink>(out: &mut K, output: &[u8]) -> Result<(), Note>
    ensures adds { Writes (K.written out.old) (K.written out.new) output.now result }
    ensures cause { HasCause (K.faults out.old) (K.faults out.new) result }
    ensures error { IfErr result (λ cause. cause ≡ Note.CannotWrite) }
{
    match out.write(output) {
        Ok(()) => Ok(()),
        Err(_) => Err(Note::CannotWrite),
    }
}

/// Reads, runs and writes what the words ask for.
fn answer<H: Shelf, K: Sink>(
    alloc: Global,
    words: &Vec<String>,
    shelf: &mut H,
    out: &mut K,
) -> Result<(), Note>
    ensures done { OnOk result (Explains (command_of (texts words.now)) (H.files shelf.old)
        (λ end. (end.status ≡ Status.Done) × Adds (K.written out.old) (K.written out.new) end.output)) }
    ensures cause { IfErr result (λ cause. IsCause cause (command_of (texts words.now))
        (H.files shelf.old) (H.faults shelf.old) (H.faults shelf.new)) }
    ensures write { result ≡ Err Note.CannotWrite → Explains (command_of (texts words.now)) (H.files shelf.old)
        (λ end. (end.status ≡ Status.Done) × AddsFront (K.written out.old) (K.written out.new) end.output) }
    ensures write_count { result ≡ Err Note.CannotWrite →
        Rose (K.faults out.old) (K.faults out.new) }
    ensures nothing { IfErr result (λ cause. cause ≢ Note.CannotWrite →
        K.written out.new ≡ K.written out.old) }

    // Files and counts.
    ensures files { H.files shelf.new ≡ H.files shelf.old }
    ensures shelf_later { H.faults shelf.old ≤ H.faults shelf.new }
    ensures shelf_kept { KeepsCount (H.faults shelf.old) (H.faults shelf.new) result }
    ensures out_later { K.faults out.old ≤ K.faults out.new }
    ensures out_kept { result ≢ Err Note.CannotWrite → K.faults out.new ≡ K.faults out.old }
{
    let output = output(alloc, words, shelf)?;
    write_out(out, &output)
}

/// Runs what the words ask for, and gives the status that the run ends with.
///
/// The words are `script FILE`, `check FILE`, or `stencil` and its options. The texts are read from `shelf`: a script;
/// or a list of events; or the weights, where a file is named, and then the grid. After the texts the plan of the
/// ranks, or of the tiles, is tried. The output goes to `out` in one piece, and where the run ends without it a line
/// goes to `note`. `NoMemory` may be the end of any run.
pub fn run_serial<H: Shelf, K: Sink, N: Sink>(
    alloc: Global,
    words: &Vec<String>,
    shelf: &mut H,
    out: &mut K,
    note: &mut N,
) -> Status
    ensures usage { result ≡ Status.Usage → command_of (texts words.now) ≡ None }
    ensures no_command { command_of (texts words.now) ≡ None →
        (result ≡ Status.Usage) ⊎ (result ≡ Status.NoMemory) }

    // Where the files are told and nothing failed, the outcome is the command's, or memory ran out.
    ensures told { IfSome (H.files shelf.old) (λ held.
        ¬ Rose (H.faults shelf.old) (H.faults shelf.new)
        → ¬ Rose (K.faults out.old) (K.faults out.new)
        → (result ≡ Status.NoMemory) ⊎ EndsAsTold (command_of (texts words.now)) held result
        (K.written out.old) (K.written out.new) (N.written note.old) (N.written note.new)
        (N.faults note.old) (N.faults note.new)) }

    // Where the words name no file, the outcome is the command's over any shelf, or memory ran out.
    ensures alone { NeedsNone (file_of (command_of (texts words.now))) →
        ¬ Rose (K.faults out.old) (K.faults out.new)
        → (result ≡ Status.NoMemory) ⊎ EndsAsTold (command_of (texts words.now)) (λ name. None) result
        (K.written out.old) (K.written out.new) (N.written note.old) (N.written note.new)
        (N.faults note.old) (N.faults note.new) }

    // What each status says.
    ensures done { result ≡ Status.Done → Explains (command_of (texts words.now)) (H.files shelf.old)
        (λ end. (end.status ≡ Status.Done) × Adds (K.written out.old) (K.written out.new) end.output) }
    ensures refused { result ≡ Status.Refused → Explains (command_of (texts words.now)) (H.files shelf.old)
        (λ end. end.status ≡ Status.Refused) }
    ensures read_fault { result ≡ Status.ReadFault → (which : TextName) ×
        IsUnread (file_of (command_of (texts words.now))) (H.files shelf.old)
        (H.faults shelf.old) (H.faults shelf.new) which }
    ensures write_fault { result ≡ Status.WriteFault →
        Explains (command_of (texts words.now)) (H.files shelf.old)
        (λ end. (end.status ≡ Status.Done) × AddsFront (K.written out.old) (K.written out.new) end.output) }
    ensures write_count { result ≡ Status.WriteFault → Rose (K.faults out.old) (K.faults out.new) }
    ensures nothing { result ≢ Status.Done → result ≢ Status.WriteFault →
        K.written out.new ≡ K.written out.old }

    // What is noted: with `Done` nothing, else the line of the cause.
    ensures quiet { result ≡ Status.Done → N.written note.new ≡ N.written note.old }
    ensures note { result ≢ Status.Done → (cause : Note) × (result ≡ status_of cause)
        × IsCause cause (command_of (texts words.now)) (H.files shelf.old)
        (H.faults shelf.old) (H.faults shelf.new)
        × Notes (N.written note.old) (N.written note.new)
        (N.faults note.old) (N.faults note.new) (note_text cause) }

    // Ranks, tiles, partitions, grain and depth have no part in the outcome but by a refusal.
    ensures plans { PlansLeaveOutcomes }

    // No file changes, no count falls, and a count that nothing could raise is as it was.
    ensures files { H.files shelf.new ≡ H.files shelf.old }
    ensures shelf_later { H.faults shelf.old ≤ H.faults shelf.new }
    ensures shelf_kept { result ≢ Status.ReadFault → H.faults shelf.new ≡ H.faults shelf.old }
    ensures out_later { K.faults out.old ≤ K.faults out.new }
    ensures out_kept { result ≢ Status.WriteFault → K.faults out.new ≡ K.faults out.old }
    ensures note_later { N.faults note.old ≤ N.faults note.new }
    ensures note_kept { result ≡ Status.Done → N.faults note.new ≡ N.faults note.old }
{
    match answer(alloc, words, shelf, out) {
        Ok(()) => Status::Done,
        Err(cause) => note::tell(note, cause),
    }
}
