//! What a run notes where it ends without its output.

ghost use Rattle.std.specs.Prelude.{◌≡◌, ◌<◌, ◌≤◌, ◌+◌, ◌++◌, length, codes, decimal};
ghost use Rattle.stencil_top.specs.Note.{status_of, name_of, at_row, at_column, at_line, text_message, script_message};
ghost use Rattle.stencil_top.specs.Note.{check_message, plan_message, tiles_message};
ghost use Rattle.stencil_top.specs.Note.{message_of, note_text, Notes};

use crate::status::Status;
use arrayvec::ArrayString;
use event_check::CheckFault;
use grid_text::TextFault;
use itoa::Buffer;
use part_io::Sink;
use script_text::ScriptFault;

/// The most bytes of a line of notes.
const MAX_LINE: usize = 160;

/// A line of notes, which takes no memory.
pub type Line = ArrayString<MAX_LINE>;

/// A text that a command reads from a file.
#[derive(Clone, Copy)]
pub enum TextName {
    /// The weights of a stencil.
    Weights,
    /// The grid of a stencil.
    Grid,
    /// A script.
    Script,
    /// A list of events.
    Check,
}

/// Why a run ends without its output.
#[derive(Clone, Copy)]
pub enum Note {
    /// The words are no command line of the program.
    Usage,
    /// The file is longer than such a text may be.
    TooLong(TextName),
    /// The script's text is refused.
    BadScript(ScriptFault),
    /// The text of a list of events is refused.
    BadList(CheckFault),
    /// The text of a grid or of weights is refused.
    BadText(TextName, TextFault),
    /// There are two ranks or more, and together they need more rows than the grid has.
    TooManyRanks {
        ranks: u32,
        rows: u32,
    },
    /// There are two rows of tiles or more, and together they need more rows than the grid has, or two columns of tiles
    /// or more, and together they need more columns.
    TooManyTiles {
        tile_rows: u32,
        tile_cols: u32,
        rows: u32,
        cols: u32,
    },
    /// The file could not be read, or isn't there.
    CannotRead(TextName),
    /// The output could not be written, or not all of it.
    CannotWrite,
    /// Memory ran out.
    OutOfMemory,
}

impl Note {
    /// The status of a run that ends for this cause.
    pub fn status(self) -> Status
        ensures { result ≡ status_of self }
    {
        match self {
            Note::Usage => Status::Usage,
            Note::BadScript(ScriptFault::NoMemory)
            | Note::BadList(CheckFault::NoMemory)
            | Note::BadText(_, TextFault::NoMemory)
            | Note::OutOfMemory => Status::NoMemory,
            Note::TooLong(_)
            | Note::BadScript(_)
            | Note::BadList(_)
            | Note::BadText(_, _)
            | Note::TooManyRanks { .. }
            | Note::TooManyTiles { .. } => Status::Refused,
            Note::CannotRead(_) => Status::ReadFault,
            Note::CannotWrite => Status::WriteFault,
        }
    }
}

/// How a text is called.
fn name(text: TextName) -> &'static str
    ensures words { result.now ≡ name_of text }
    ensures short { length result.now ≤ 7 }
{
    match text {
        TextName::Weights => "weights",
        TextName::Grid => "grid",
        TextName::Script => "script",
        TextName::Check => "check",
    }
}

/// Appends a number.
fn push_number(line: &mut Line, n: u32)
    requires room { length line.old.bytes + 10 ≤ MAX_LINE }
    ensures digits { line.new.bytes ≡ line.old.bytes ++ decimal n }
    ensures more { length line.new.bytes ≤ length line.old.bytes + 10 }
{
    let mut buffer = Buffer::new();
    line.push_str(buffer.format(n));
}

/// Appends where a row is, and what is wrong there.
fn push_row(line: &mut Line, row: u32, words: &str)
    requires room { length line.old.bytes ≤ 40 }
    requires short { length words.now ≤ 20 }
    ensures words { line.new.bytes ≡ line.old.bytes ++ at_row row words.now }
    ensures short { length line.new.bytes ≤ 100 }
{
    line.push_str(" row ");
    push_number(line, row);
    line.push_str(words);
}

/// Appends where a row and a column are, and what is wrong there.
fn push_column(line: &mut Line, row: u32, col: u32, words: &str)
    requires room { length line.old.bytes ≤ 40 }
    requires short { length words.now ≤ 20 }
    ensures words { line.new.bytes ≡ line.old.bytes ++ at_column row col words.now }
    ensures short { length line.new.bytes ≤ 100 }
{
    line.push_str(" row ");
    push_number(line, row);
    line.push_str(" column ");
    push_number(line, col);
    line.push_str(words);
}

/// The words of a fault of a grid or of weights.
fn text_line(text: TextName, fault: TextFault) -> Line
    ensures words { result.bytes ≡ text_message text fault }
    ensures short { length result.bytes < MAX_LINE }
{
    let mut line = ArrayString::new();
    line.push_str("partstencil: ");
    line.push_str(name(text));
    match fault {
        TextFault::Empty => line.push_str(": empty"),
        TextFault::TooLarge { row } => push_row(&mut line, row, ": too large"),
        TextFault::Ragged { row } => push_row(&mut line, row, ": ragged"),
        TextFault::BadWeights { row } => push_row(&mut line, row, ": bad shape"),
        TextFault::BadNumber { row, col } => push_column(&mut line, row, col, ": bad number"),
        TextFault::OutOfRange { row, col } => push_column(&mut line, row, col, ": out of range"),
        TextFault::NoMemory => {
            line = ArrayString::new();
            line.push_str("partstencil: out of memory");
        }
    }
    line
}

/// The words of a fault in a line of a text.
fn line_fault(text: TextName, number: u32, words: &str) -> Line
    requires short { length words.now ≤ 20 }
    ensures words { result.bytes ≡ at_line text number words.now }
    ensures short { length result.bytes < MAX_LINE }
{
    let mut line = ArrayString::new();
    line.push_str("partstencil: ");
    line.push_str(name(text));
    line.push_str(" line ");
    push_number(&mut line, number);
    line.push_str(words);
    line
}

/// A line of plain words.
fn plain_line(words: &str) -> Line
    requires { length words.now < MAX_LINE }
    ensures { result.bytes ≡ words.now }
{
    let mut line = ArrayString::new();
    line.push_str(words);
    line
}

/// The words of a fault of a script.
fn script_line(fault: ScriptFault) -> Line
    ensures words { result.bytes ≡ script_message fault }
    ensures short { length result.bytes < MAX_LINE }
{
    match fault {
        ScriptFault::NoWorld { line } => line_fault(TextName::Script, line, ": no world"),
        ScriptFault::BadWorld { line } => line_fault(TextName::Script, line, ": bad world"),
        ScriptFault::AfterEnd { line } => line_fault(TextName::Script, line, ": after end"),
        ScriptFault::BadLine { line } => line_fault(TextName::Script, line, ": bad line"),
        ScriptFault::NoEnd => plain_line("partstencil: script: no end"),
        ScriptFault::NoMemory => plain_line("partstencil: out of memory"),
    }
}

/// The words of a fault of a list of events.
fn check_line(fault: CheckFault) -> Line
    ensures words { result.bytes ≡ check_message fault }
    ensures short { length result.bytes < MAX_LINE }
{
    match fault {
        CheckFault::NoPair => plain_line("partstencil: check: no pair"),
        CheckFault::BadPair { line } => line_fault(TextName::Check, line, ": bad pair"),
        CheckFault::TooMany { line } => line_fault(TextName::Check, line, ": too many"),
        CheckFault::BadEvent { line } => line_fault(TextName::Check, line, ": bad event"),
        CheckFault::NoMemory => plain_line("partstencil: out of memory"),
    }
}

/// The words of a plan whose ranks are too many.
fn plan_line(ranks: u32, rows: u32) -> Line
    ensures words { result.bytes ≡ plan_message ranks rows }
    ensures short { length result.bytes < MAX_LINE }
{
    let mut line = ArrayString::new();
    line.push_str("partstencil: plan: ");
    push_number(&mut line, ranks);
    line.push_str(" ranks for ");
    push_number(&mut line, rows);
    line.push_str(" rows");
    line
}

/// The words of a plan whose tiles are too many.
fn tiles_line(tile_rows: u32, tile_cols: u32, rows: u32, cols: u32) -> Line
    ensures words { result.bytes ≡ tiles_message tile_rows tile_cols rows cols }
    ensures short { length result.bytes < MAX_LINE }
{
    let mut line = ArrayString::new();
    line.push_str("partstencil: plan: tiles ");
    push_number(&mut line, tile_rows);
    line.push_str(",");
    push_number(&mut line, tile_cols);
    line.push_str(" for ");
    push_number(&mut line, rows);
    line.push_str(" rows and ");
    push_number(&mut line, cols);
    line.push_str(" columns");
    line
}

/// The words of a note about a whole file.
fn file_line(front: &str, text: TextName, end: &str) -> Line
    requires front { length front.now ≤ 30 }
    requires end { length end.now ≤ 30 }
    ensures words { result.bytes ≡ front.now ++ name_of text ++ end.now }
    ensures short { length result.bytes < MAX_LINE }
{
    let mut line = ArrayString::new();
    line.push_str(front);
    line.push_str(name(text));
    line.push_str(end);
    line
}

/// The words of a note.
#[tactic(auto, unfolding(crate::specs::Note::message_of))]
fn message(note: Note) -> Line
    ensures words { result.bytes ≡ message_of note }
    ensures short { length result.bytes < MAX_LINE }
{
    match note {
        Note::Usage => plain_line("usage: partstencil stencil OPTIONS | partstencil script FILE"),
        Note::TooLong(text) => file_line("partstencil: ", text, ": too long"),
        Note::BadScript(fault) => script_line(fault),
        Note::BadList(fault) => check_line(fault),
        Note::BadText(text, fault) => text_line(text, fault),
        Note::TooManyRanks { ranks, rows } => plan_line(ranks, rows),
        Note::TooManyTiles {
            tile_rows,
            tile_cols,
            rows,
            cols,
        } => tiles_line(tile_rows, tile_cols, rows, cols),
        Note::CannotRead(text) => file_line("partstencil: cannot read ", text, ""),
        Note::CannotWrite => plain_line("partstencil: cannot write"),
        Note::OutOfMemory => plain_line("partstencil: out of memory"),
    }
}

/// The line of a note, with the LF at its end. It takes no memory.
pub fn line_of(note: Note) -> Line
    ensures { result.bytes ≡ note_text note }
{
    let mut line = message(note);
    line.push_str("\n");
    line
}

/// Notes why a run ends, and gives the status of that cause. A fault of the sink changes no status.
pub fn tell<N: Sink>(note: &mut N, cause: Note) -> Status
    ensures status { result ≡ status_of cause }
    ensures notes { Notes (N.written note.old) (N.written note.new)
        (N.faults note.old) (N.faults note.new) (note_text cause) }
    ensures later { N.faults note.old ≤ N.faults note.new }
{
    let line = line_of(cause);
    // what the write answers is dropped: a fault of the sink changes no status
    let _ = note.write(line.as_str().as_bytes());
    cause.status()
}
