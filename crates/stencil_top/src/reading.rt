//! The texts of a command, read from files.

ghost use Rattle.std.specs.Prelude.{◌≡◌, ◌≤◌, Ok, Some, None, length};
ghost use Rattle.grid_text.specs.Reading.{grid_of, weights_of};
ghost use Rattle.stencil_words.specs.Limits.{IsSize, IsSource};
ghost use Rattle.stencil_words.specs.declared.words.Source.{Source};
ghost use Rattle.stencil_top.specs.Outcome.{answers_to, default_weights, inputs_in, inputs_of, limit_of, made_of};
ghost use Rattle.stencil_top.specs.Outcome.{made_with, or_bad_text};
ghost use Rattle.stencil_top.specs.Steps.{Finds, KeepsCount, Makes, ReadsFile};
ghost use Rattle.stencil_top.specs.Words.{source_file};

use crate::note::{Note, TextName};
use grid_text::{TextFault, make_grid, read_grid, read_weights};
use part_io::{ReadAnswer, Shelf};
use std::alloc::Global;
use stencil_def::{Grid, Weights};
use stencil_words::{FileName, Size, Source};

/// What a stencil begins with.
#[derive(Drop)]
pub(crate) struct Inputs {
    pub(crate) grid: Grid,
    pub(crate) weights: Weights,
}

/// The most bytes of a file with this text.
fn limit(text: TextName) -> u32
    ensures { result ≡ limit_of text }
{
    match text {
        TextName::Weights => 4096,
        TextName::Grid => 33_554_432,
        TextName::Script => 1_048_576,
        TextName::Check => 4_194_304,
    }
}

/// The text of a file.
pub(crate) fn read_text<H: Shelf>(
    alloc: Global,
    text: TextName,
    name: &str,
    shelf: &mut H,
) -> Result<Vec<u8>, Note>
    ensures reads { ReadsFile (H.files shelf.old) text name.now
        (H.faults shelf.old) (H.faults shelf.new) result }
    ensures files { H.files shelf.new ≡ H.files shelf.old }
    ensures later { H.faults shelf.old ≤ H.faults shelf.new }
    ensures kept { KeepsCount (H.faults shelf.old) (H.faults shelf.new) result }
{
    match shelf.read(alloc, name, limit(text)) {
        Ok(bytes) => Ok(bytes),
        Err(ReadAnswer::TooLong { .. }) => Err(Note::TooLong(text)),
        Err(ReadAnswer::Missing) => Err(Note::CannotRead(text)),
        Err(ReadAnswer::Failed) => Err(Note::CannotRead(text)),
        Err(ReadAnswer::NoMemory) => Err(Note::OutOfMemory),
    }
}

/// The weights that a text reads as.
fn read_square(alloc: Global, text: &[u8]) -> Result<Weights, Note>
    ensures { Makes (or_bad_text TextName.Weights (weights_of text.now)) result }
{
    match read_weights(alloc, text) {
        Ok(weights) => Ok(weights),
        Err(TextFault::NoMemory) => Err(Note::OutOfMemory),
        Err(fault) => Err(Note::BadText(TextName::Weights, fault)),
    }
}

/// The grid that a text reads as.
fn read_plane(alloc: Global, text: &[u8]) -> Result<Grid, Note>
    ensures { Makes (or_bad_text TextName.Grid (grid_of text.now)) result }
{
    match read_grid(alloc, text) {
        Ok(grid) => Ok(grid),
        Err(TextFault::NoMemory) => Err(Note::OutOfMemory),
        Err(fault) => Err(Note::BadText(TextName::Grid, fault)),
    }
}

/// The grid that the generator makes.
fn made(alloc: Global, size: Size) -> Result<Grid, Note>
    requires { IsSize size }
    ensures { Makes (Ok (made_of size)) result }
{
    match make_grid(alloc, size.seed, size.rows, size.cols) {
        Ok(grid) => Ok(grid),
        Err(_) => Err(Note::OutOfMemory),
    }
}

/// The weights where no file names others.
fn default_weights() -> Weights
    ensures { result ≡ default_weights }
{
    Weights::new(&[1, 2, 1, 2, 4, 2, 1, 2, 1])
}

/// What two texts read as.
fn inputs_in(alloc: Global, weights: &[u8], grid: &[u8]) -> Result<Inputs, Note>
    ensures { Makes (inputs_in weights.now grid.now) result }
{
    let square = read_square(alloc, weights)?;
    let plane = read_plane(alloc, grid)?;
    Ok(Inputs {
        grid: plane,
        weights: square,
    })
}

/// A made grid, with the weights that a text reads as.
fn made_with(alloc: Global, size: Size, weights: &[u8]) -> Result<Inputs, Note>
    requires { IsSize size }
    ensures { Makes (made_with size weights.now) result }
{
    let weights = read_square(alloc, weights)?;
    let grid = made(alloc, size)?;
    Ok(Inputs { grid, weights })
}

/// A made grid, with the weights where no file names others.
fn made_alone(alloc: Global, size: Size) -> Result<Inputs, Note>
    requires { IsSize size }
    ensures { Makes (inputs_of (Source.Make size None) (λ which. None)) result }
{
    let grid = made(alloc, size)?;
    Ok(Inputs {
        grid,
        weights: default_weights(),
    })
}

/// What a stencil begins with whose grid and weights are in files.
fn read_both<H: Shelf>(
    alloc: Global,
    grid: &FileName,
    weights: &FileName,
    shelf: &mut H,
) -> Result<Inputs, Note>
    ensures finds { Finds (source_file (Source.Grid grid.now weights.now)) (H.files shelf.old)
        (H.faults shelf.old) (H.faults shelf.new)
        (inputs_of (Source.Grid grid.now weights.now)) result }
    ensures files { H.files shelf.new ≡ H.files shelf.old }
    ensures later { H.faults shelf.old ≤ H.faults shelf.new }
    ensures kept { KeepsCount (H.faults shelf.old) (H.faults shelf.new) result }
{
    let weights = read_text(alloc, TextName::Weights, weights.as_str(), shelf)?;
    let grid = read_text(alloc, TextName::Grid, grid.as_str(), shelf)?;
    inputs_in(alloc, &weights, &grid)
}

/// What a stencil begins with whose grid is made, and whose weights are in a file.
fn read_one<H: Shelf>(
    alloc: Global,
    size: Size,
    weights: &FileName,
    shelf: &mut H,
) -> Result<Inputs, Note>
    requires { IsSize size }
    ensures finds { Finds (source_file (Source.Make size (Some weights.now))) (H.files shelf.old)
        (H.faults shelf.old) (H.faults shelf.new)
        (inputs_of (Source.Make size (Some weights.now))) result }
    ensures files { H.files shelf.new ≡ H.files shelf.old }
    ensures later { H.faults shelf.old ≤ H.faults shelf.new }
    ensures kept { KeepsCount (H.faults shelf.old) (H.faults shelf.new) result }
{
    let weights = read_text(alloc, TextName::Weights, weights.as_str(), shelf)?;
    made_with(alloc, size, &weights)
}

/// What a stencil begins with.
pub(crate) fn read_inputs<H: Shelf>(
    alloc: Global,
    source: &Source,
    shelf: &mut H,
) -> Result<Inputs, Note>
    requires { IsSource source.now }
    ensures finds { Finds (source_file source.now) (H.files shelf.old)
        (H.faults shelf.old) (H.faults shelf.new) (inputs_of source.now) result }
    ensures files { H.files shelf.new ≡ H.files shelf.old }
    ensures later { H.faults shelf.old ≤ H.faults shelf.new }
    ensures kept { KeepsCount (H.faults shelf.old) (H.faults shelf.new) result }
{
    match source {
        Source::Grid { grid, weights } => read_both(alloc, grid, weights, shelf),
        Source::Make { size, weights } => match weights {
            Some(weights) => read_one(alloc, *size, weights, shelf),
            None => made_alone(alloc, *size),
        },
    }
}
