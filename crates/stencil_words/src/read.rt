//! The reading of the words.

ghost use Rattle.std.specs.Prelude.{◌≡◌, ◌==◌, ◌≤◌, ◌&&◌, IfOk, IfSome, codes, is_some, map, option_copied, pos};
ghost use Rattle.std.specs.Prelude.{unsigned_abs};
ghost use Rattle.std.specs.List.{slice_split};
ghost use Rattle.stencil_words.specs.Limits.{IsRead};
ghost use Rattle.stencil_words.specs.Command.{given_in};
ghost use Rattle.stencil_words.specs.Options.{are_apart, texts};
ghost use Rattle.stencil_words.specs.Words.{around_of, change_in, grid_source, if_given, made_source, number_given};
ghost use Rattle.stencil_words.specs.Words.{number_in, or_default, plan_words, reading_of_values, signed_in, size_in};
ghost use Rattle.stencil_words.specs.Words.{size_of, source_of, stencil_reading, tiles_given, tiles_in, tiles_of};
ghost use Rattle.stencil_words.specs.Words.{with_source};

use crate::command::matches;
use crate::options::are_options;
use crate::{FileName, MAX_STEPS, PlanWords, Size, Source, StencilWords, TileWords};
use cell_lanes::MAX_CHANGE;
use clap::ArgMatches;
use halo_message::shares_few;
use part_geometry::{MAX_DEPTH, MAX_GRAIN, MAX_PARTS, MAX_RANKS};
use std::alloc::{AllocError, Global};
use stencil_def::{Around, MAX_CELLS, MAX_DIV, MAX_SIDE, MAX_VALUE};
use text_words::unsigned;

/// A number of 1 to 19 digits in this range.
#[tactic(auto, unfolding(crate::specs::Words::number_in))]
fn number_in(low: u32, high: u32, text: &[u8]) -> Option<u32>
    ensures value { result ≡ number_in low high text.now }
    ensures range { IfSome result (λ n. (low ≤ n) × (n ≤ high)) }
{
    let number = unsigned(text)?;
    if number < u64::from(low) || number > u64::from(high) {
        return None;
    }
    Some(number as u32)
}

/// The number that the option of this name gives, and the default where there is none.
fn number_or(matches: &ArgMatches<'_>, name: &str, low: u32, high: u32, default: u32) -> Option<u32>
    requires { (low ≤ default) × (default ≤ high) }
    ensures value { result ≡ number_given (given_in matches.now) name.now low high default }
    ensures range { IfSome result (λ n. (low ≤ n) × (n ≤ high)) }
{
    match matches.get_str(name) {
        Some(text) => number_in(low, high, text.as_bytes()),
        None => Some(default),
    }
}

/// The value outside the grid: that of `--edge`, and else 0.
#[tactic(auto, unfolding(crate::specs::Words::signed_in))]
fn edge_of(matches: &ArgMatches<'_>) -> Option<i64>
    ensures { result ≡ or_default (signed_in (unsigned_abs MAX_VALUE)) (pos 0) (given_in matches.now (codes "edge")) }
{
    match matches.get_str("edge") {
        Some(text) => grid_text::signed_within(text.as_bytes(), MAX_VALUE.unsigned_abs()).ok(),
        None => Some(0),
    }
}

/// What a value of `--around` names.
fn around_of(text: &str) -> Option<Around>
    ensures { result ≡ around_of text.now }
{
    if text == "fixed" {
        Some(Around::Fixed)
    } else if text == "wrap" {
        Some(Around::Wrap)
    } else {
        None
    }
}

/// What lies outside the grid: what `--around` names, and else the edge.
fn around_or(matches: &ArgMatches<'_>) -> Option<Around>
    ensures { result ≡ or_default around_of Around.Fixed (given_in matches.now (codes "around")) }
{
    match matches.get_str("around") {
        Some(text) => around_of(text),
        None => Some(Around::Fixed),
    }
}

/// The file of a name, if there is one.
fn file(alloc: Global, name: Option<&str>) -> Result<Option<FileName>, AllocError>
    ensures { IfOk result (λ file. file ≡ option_copied name.entry) }
{
    match name {
        Some(text) => Ok(Some(FileName::new(alloc, text)?)),
        None => Ok(None),
    }
}

/// The parts of a text between its commas.
fn parts(alloc: Global, text: &str) -> Result<Vec<&[u8]>, AllocError>
    ensures { IfOk result (λ parts. map (λ part. part.now) parts.items ≡ slice_split (λ byte. byte == 44) text.now) }
{
    text.as_bytes().split(|&byte| byte == b',').collect(alloc)
}

/// A generator's seed and its grid's size, where each number is in its range.
#[tactic(auto, unfolding(crate::specs::Words::size_in))]
fn size_in(seed: &[u8], rows: &[u8], cols: &[u8]) -> Option<Size>
    ensures { result ≡ size_in seed.now rows.now cols.now }
{
    let seed = number_in(0, 2_147_483_647, seed)?;
    let rows = number_in(1, MAX_SIDE, rows)?;
    let cols = number_in(1, MAX_SIDE, cols)?;
    if rows * cols > MAX_CELLS {
        return None;
    }
    Some(Size { seed, rows, cols })
}

/// The seed and the size in a value of `--make`, SEED,ROWS,COLS.
fn size_of(alloc: Global, text: &str) -> Result<Option<Size>, AllocError>
    ensures { IfOk result (λ size. size ≡ size_of text.now) }
{
    let parts = parts(alloc, text)?;
    match parts.as_slice() {
        [seed, rows, cols] => Ok(size_in(seed, rows, cols)),
        _ => Ok(None),
    }
}

/// The grid that `--grid` and `--weights` name.
#[tactic(auto, unfolding(crate::specs::Words::grid_source))]
fn files(alloc: Global, grid: &str, weights: Option<&str>) -> Result<Option<Source>, AllocError>
    ensures { IfOk result (λ source. source ≡ grid_source grid.entry.now (option_copied weights.entry)) }
{
    let Some(weights) = weights else {
        return Ok(None);
    };
    let grid = FileName::new(alloc, grid)?;
    let weights = FileName::new(alloc, weights)?;
    Ok(Some(Source::Grid { grid, weights }))
}

/// The grid that `--make` asks for, with the file that `--weights` names.
#[tactic(auto, unfolding(crate::specs::Words::made_source))]
fn made(alloc: Global, make: &str, weights: Option<&str>) -> Result<Option<Source>, AllocError>
    ensures { IfOk result (λ source. source ≡ made_source make.entry.now (option_copied weights.entry)) }
{
    let Some(size) = size_of(alloc, make)? else {
        return Ok(None);
    };
    let weights = file(alloc, weights)?;
    Ok(Some(Source::Make { size, weights }))
}

/// Whether two options are given.
fn are_given(matches: &ArgMatches<'_>, one: &str, other: &str) -> bool
    ensures { result ≡ (is_some (given_in matches.now one.now) && is_some (given_in matches.now other.now)) }
{
    matches.get_str(one).is_some() && matches.get_str(other).is_some()
}

/// Whether no two options are given that exclude each other.
fn are_apart(matches: &ArgMatches<'_>) -> bool
    ensures { result ≡ are_apart (given_in matches.now) }
{
    !are_given(matches, "grid", "make")
        && !are_given(matches, "tiles", "ranks")
        && !are_given(matches, "tiles", "until")
}

/// Where the grid comes from: `--grid` or `--make`.
#[tactic(auto, unfolding(crate::specs::Words::source_of))]
fn source(alloc: Global, matches: &ArgMatches<'_>) -> Result<Option<Source>, AllocError>
    ensures { IfOk result (λ source. source ≡ source_of (given_in matches.now)) }
{
    let weights = matches.get_str("weights");
    match (matches.get_str("grid"), matches.get_str("make")) {
        (Some(grid), _) => files(alloc, grid, weights),
        (None, Some(make)) => made(alloc, make, weights),
        (None, None) => Ok(None),
    }
}

/// The plan that the options ask for.
#[tactic(auto, unfolding(crate::specs::Words::plan_words))]
fn plan_words(matches: &ArgMatches<'_>) -> Option<PlanWords>
    ensures { result ≡ plan_words (given_in matches.now) }
{
    let ranks = number_or(matches, "ranks", 1, MAX_RANKS, 1)?;
    let send_parts = number_or(matches, "send-parts", 1, MAX_PARTS, 1)?;
    let recv_parts = number_or(matches, "recv-parts", 1, MAX_PARTS, 1)?;
    let grain = number_or(matches, "grain", 1, MAX_GRAIN, 1)?;
    let depth = number_or(matches, "depth", 1, MAX_DEPTH, 1)?;
    if !shares_few(send_parts, recv_parts) {
        return None;
    }
    Some(PlanWords {
        ranks,
        send_parts,
        recv_parts,
        grain,
        depth,
    })
}

/// As many rows of tiles and columns of tiles, where there are at most 64 tiles.
#[tactic(auto, unfolding(crate::specs::Words::tiles_in))]
fn tiles_in(rows: &[u8], cols: &[u8]) -> Option<TileWords>
    ensures { result ≡ tiles_in rows.now cols.now }
{
    let rows = number_in(1, MAX_RANKS, rows)?;
    let cols = number_in(1, MAX_RANKS, cols)?;
    if rows * cols > MAX_RANKS {
        return None;
    }
    Some(TileWords { rows, cols })
}

/// The tiles in a value of `--tiles`, A,B.
fn tiles_of(alloc: Global, text: &str) -> Result<Option<TileWords>, AllocError>
    ensures { IfOk result (λ tiles. tiles ≡ tiles_of text.now) }
{
    let parts = parts(alloc, text)?;
    match parts.as_slice() {
        [rows, cols] => Ok(tiles_in(rows, cols)),
        _ => Ok(None),
    }
}

/// The tiles that `--tiles` asks for, where it is given.
fn tiles(alloc: Global, matches: &ArgMatches<'_>) -> Result<Option<Option<TileWords>>, AllocError>
    ensures { IfOk result (λ tiles. tiles ≡ tiles_given (given_in matches.now)) }
{
    match matches.get_str("tiles") {
        Some(text) => Ok(tiles_of(alloc, text)?.map(Some)),
        None => Ok(Some(None)),
    }
}

/// How much a cell may change at most, as a value of `--until` says.
#[tactic(auto, unfolding(crate::specs::Words::change_in, crate::specs::Words::number_in))]
fn change_in(text: &[u8]) -> Option<i64>
    ensures { result ≡ change_in text.now }
{
    let change = unsigned(text)?;
    if change > MAX_CHANGE.unsigned_abs() {
        return None;
    }
    Some(change as i64)
}

/// After how small a change the run ends: that of `--until`, where it is given.
fn until_of(matches: &ArgMatches<'_>) -> Option<Option<i64>>
    ensures { result ≡ if_given change_in (given_in matches.now (codes "until")) }
{
    match matches.get_str("until") {
        Some(text) => change_in(text.as_bytes()).map(Some),
        None => Some(None),
    }
}

/// What the options say beside where the grid comes from and what tiles share it.
#[tactic(auto, unfolding(crate::specs::Words::with_source))]
fn with_source(
    matches: &ArgMatches<'_>,
    source: Source,
    tiles: Option<TileWords>,
) -> Option<StencilWords>
    ensures { result ≡ with_source (given_in matches.now) source tiles }
{
    let steps = number_or(matches, "steps", 0, MAX_STEPS, 1)?;
    let plan = plan_words(matches)?;
    let div = number_or(matches, "div", 1, MAX_DIV, 1)?;
    let edge = edge_of(matches)?;
    let around = around_or(matches)?;
    let until = until_of(matches)?;
    Some(StencilWords {
        source,
        steps,
        plan,
        tiles,
        div,
        edge,
        around,
        until,
    })
}

/// The reading of the values in matches.
#[tactic(auto, unfolding(crate::specs::Words::reading_of_values))]
fn read_matches(alloc: Global, matches: &ArgMatches<'_>) -> Result<Option<StencilWords>, AllocError>
    ensures { IfOk result (λ reading. reading ≡ reading_of_values (given_in matches.now)) }
{
    if !are_apart(matches) {
        return Ok(None);
    }
    let Some(source) = source(alloc, matches)? else {
        return Ok(None);
    };
    let Some(tiles) = tiles(alloc, matches)? else {
        return Ok(None);
    };
    Ok(with_source(matches, source, tiles))
}

/// The reading of the words of a command line, of which the first is the command; there is none where the command
/// isn't `stencil`, or a word or a value breaks a rule below.
///
/// Behind the command stand options, each once at most and in any order. An option is one word `--NAME=VALUE`, whose
/// first `=` divides it, with a value that isn't empty; or two words `--NAME VALUE`, with a value that isn't empty and
/// doesn't begin with `-`. Numbers are 1 to 19 decimal digits, with a `-` before them only for `edge`.
///
/// `grid` and `weights` name files. `make` is SEED,ROWS,COLS, with no spaces. Exactly one of `grid` and `make` is
/// given, and `weights` with `grid`. `steps` is 0 to 10,000, and without it 1; `div` is 1 to 1,000,000, and without it
/// 1; `edge` is -10^12 to 10^12, and without it 0; `around` is `fixed` or `wrap`, and without it `fixed`; `until` is 0
/// to 2 * 10^12, and may be left out.
///
/// `ranks` is 1 to 64, `send-parts` and `recv-parts` are 1 to 1,024 each with a least common multiple of at most 8,192,
/// `grain` is 1 to 16,777,216 and `depth` 1 to 4; each is 1 where it isn't given.
///
/// `tiles` is A,B with no spaces, each at least 1 and their product at most 64. It isn't given with `ranks`, nor with
/// `until`, and may be left out.
pub fn read_words(alloc: Global, words: &[String]) -> Result<Option<StencilWords>, AllocError>
    ensures reading { IfOk result (λ reading. reading ≡ stencil_reading (texts words.now)) }
    ensures limits { IfOk result (λ reading. IfSome reading IsRead) }
{
    let Some((command, rest)) = words.split_first() else {
        return Ok(None);
    };
    if command.as_str() != "stencil" {
        return Ok(None);
    }
    if !are_options(rest) {
        return Ok(None);
    }
    let Some(matches) = matches(alloc, words)? else {
        return Ok(None);
    };
    read_matches(alloc, &matches)
}
