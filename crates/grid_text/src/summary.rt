//! The summary of a grid.

ghost use Rattle.std.specs.Prelude.{◌≡◌, ◌++◌, ◌<◌, ◌≤◌, IfOk, OnOk, length, unsigned_abs};
ghost use Rattle.std.specs.Fmt.{signed_decimal};
ghost use Rattle.std.specs.List.{All};
ghost use Rattle.stencil_def.specs.Limits.{IsValue};
ghost use Rattle.grid_text.specs.Printing.{check_sum, greatest, head_text, least, summary_text, tail_text, total};
ghost use Rattle.grid_text.specs.Printing.{weighted};

use itoa::Buffer;
use std::alloc::{AllocError, Global};
use stencil_def::{Grid, MAX_CELLS};

/// The sum of the values.
fn total(values: &[i64]) -> i64
    requires values { All IsValue values.now }
    requires few { length values.now ≤ MAX_CELLS }
    ensures { result ≡ total values.now }
{
    let mut sum = 0;
    for &value in values {
        sum += value;
    }
    sum
}

/// The least of the values.
fn least(values: &[i64]) -> i64
    requires { 0 < length values.now }
    ensures { result ≡ least values.now }
{
    let mut least = values[0];
    for &value in values {
        least = least.min(value);
    }
    least
}

/// The greatest of the values.
fn greatest(values: &[i64]) -> i64
    requires { 0 < length values.now }
    ensures { result ≡ greatest values.now }
{
    let mut greatest = values[0];
    for &value in values {
        greatest = greatest.max(value);
    }
    greatest
}

/// The value at a place, counted from 0, as often as it counts in the check sum.
fn weighted(place: usize, value: i64) -> i128
    requires { IsValue value }
    ensures value { result ≡ weighted place value }
    ensures limits { unsigned_abs result ≤ 1000000000000000 }
{
    (place % 1000 + 1) as i128 * i128::from(value)
}

/// The sum in which the value at place n, counted from 0, counts n mod 1000 + 1 times.
fn check_sum(values: &[i64]) -> i128
    requires values { All IsValue values.now }
    requires few { length values.now ≤ MAX_CELLS }
    ensures { result ≡ check_sum values.now }
{
    let mut sum: i128 = 0;
    for (place, &value) in values.iter().enumerate() {
        sum += weighted(place, value);
    }
    sum
}

/// Puts a word and a number behind `text`.
fn push_number(text: &mut Vec<u8>, word: &str, number: i128) -> Result<(), AllocError>
    ensures { OnOk result (text.new.items ≡ text.old.items ++ (word.now ++ signed_decimal number)) }
{
    let mut buffer = Buffer::new();
    text.extend_from_slice(word.as_bytes())?;
    text.extend_from_slice(buffer.format(number).as_bytes())
}

/// Puts the first line behind `text`, without its LF.
fn push_head(text: &mut Vec<u8>, rows: u32, cols: u32, steps: u32) -> Result<(), AllocError>
    ensures { OnOk result (text.new.items ≡ text.old.items ++ head_text rows cols steps) }
{
    push_number(text, "grid ", i128::from(rows))?;
    push_number(text, " ", i128::from(cols))?;
    push_number(text, " steps ", i128::from(steps))
}

/// Puts the LF of the first line and the other lines behind `text`.
fn push_tail(text: &mut Vec<u8>, values: &[i64]) -> Result<(), AllocError>
    requires values { All IsValue values.now }
    requires some { 0 < length values.now }
    requires few { length values.now ≤ MAX_CELLS }
    ensures { OnOk result (text.new.items ≡ text.old.items ++ tail_text values.now) }
{
    push_number(text, "\nsum ", i128::from(total(values)))?;
    push_number(text, "\nmin ", i128::from(least(values)))?;
    push_number(text, "\nmax ", i128::from(greatest(values)))?;
    push_number(text, "\ncheck ", check_sum(values))?;
    text.push(b'\n')?;
    Ok(())
}

/// The summary of a grid after so many steps: five lines, each with an LF.
///
/// They are `grid ROWS COLS steps STEPS`, `sum S`, `min A`, `max B` and `check K`. S is the sum of the cells, A the
/// least and B the greatest, and K is the sum in which cell n, counted from 0 row by row, counts n mod 1000 + 1 times.
pub fn print_summary(alloc: Global, grid: &Grid, steps: u32) -> Result<Vec<u8>, AllocError>
    ensures { IfOk result (λ text. text.items ≡ summary_text grid.now steps) }
{
    let mut text = Vec::new(alloc);
    push_head(&mut text, grid.rows(), grid.cols(), steps)?;
    push_tail(&mut text, grid.values())?;
    Ok(text)
}
