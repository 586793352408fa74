//! The rows of a text, which is of a grid or of weights, and what is wrong with them.

ghost use Rattle.std.specs.Prelude.{◌≡◌, ◌≢◌, ◌∷◌, ◌++◌, ◌<◌, ◌≤◌, ◌^◌, ◌==◌, if◌then◌else◌, ℕ, List, [], length, map};
ghost use Rattle.std.specs.Prelude.{OnOk, IfOk, IfErr, slice_get, unsigned_abs};
ghost use Rattle.csv.specs.Records.{fields_of};
ghost use Rattle.grid_text.specs.Faults.{field_faults, is_bad_weights, is_too_large, limit_of, numbered, rows_faults};
ghost use Rattle.grid_text.specs.Faults.{shape_faults, value_of};
ghost use Rattle.grid_text.specs.Kept.{AreKept};
ghost use Rattle.grid_text.specs.Reading.{text_faults};
ghost use Rattle.grid_text.specs.Records.{records_of};
ghost use Rattle.grid_text.specs.declared.fault.TextFault.TheVariants.{NoMemory};

use crate::number::{signed_within, without_spaces};
use crate::{NumberFault, TextFault, records};
use csv::ByteRecord;
use std::alloc::Global;
use stencil_def::{MAX_CELLS, MAX_SIDE, MAX_VALUE, MAX_WEIGHT};

/// What a text is of.
#[derive(Clone, Copy)]
pub(crate) enum TextKind {
    /// Of a grid.
    Grid,
    /// Of weights.
    Weights,
}

/// Rows that were read: how many there are, how many fields the first has, and all numbers row by row.
#[derive(Drop)]
pub(crate) struct Rows {
    pub(crate) rows: u32,
    pub(crate) cols: usize,
    pub(crate) values: Vec<i64>,
}

/// The greatest size of a number.
fn limit(kind: TextKind) -> u64
    ensures value { result ≡ limit_of kind }
    ensures bound { result ≤ unsigned_abs MAX_VALUE }
{
    match kind {
        TextKind::Grid => MAX_VALUE.unsigned_abs(),
        TextKind::Weights => MAX_WEIGHT.unsigned_abs(),
    }
}

/// Whether a grid of so many columns is too large with this row.
fn is_too_large(cols: usize, row: u32) -> bool
    ensures { result ≡ is_too_large cols row }
{
    cols > MAX_SIDE as usize || row > MAX_SIDE || row as usize * cols > MAX_CELLS as usize
}

/// Whether a row of so many fields is no row of weights whose row 1 has `cols`.
fn is_bad_weights(cols: usize, row: u32, count: usize) -> bool
    ensures { result ≡ is_bad_weights cols row count }
{
    !(cols == 3 || cols == 5) || row as usize > cols || count != cols
}

/// The first thing that is wrong with the shape of a row of so many fields, where row 1 has `cols`.
fn shape_fault(kind: TextKind, cols: usize, row: u32, count: usize) -> Option<TextFault>
    ensures { result ≡ slice_get (shape_faults kind cols row count) 0 }
{
    match kind {
        TextKind::Grid if is_too_large(cols, row) => Some(TextFault::TooLarge { row }),
        TextKind::Grid if count != cols => Some(TextFault::Ragged { row }),
        TextKind::Weights if is_bad_weights(cols, row, count) => Some(TextFault::BadWeights {
            row,
        }),
        _ => None,
    }
}

/// The number in a field, which stands in this row and this column.
fn number(field: &[u8], limit: u64, row: u32, col: u32) -> Result<i64, TextFault>
    requires { limit < 2 ^ 63 }
    ensures ok { IfOk result (λ value. value ≡ value_of field.now) }
    ensures faultless { OnOk result (field_faults limit row col field.now ≡ []) }
    ensures fault { IfErr result (λ fault. field_faults limit row col field.now ≡ fault ∷ []) }
{
    match signed_within(without_spaces(field), limit) {
        Ok(value) => Ok(value),
        Err(NumberFault::BadForm) => Err(TextFault::BadNumber { row, col }),
        Err(NumberFault::OutOfRange) => Err(TextFault::OutOfRange { row, col }),
    }
}

/// Puts the numbers in the fields of a row behind `values`.
fn push_numbers(
    values: &mut Vec<i64>,
    fields: &ByteRecord,
    limit: u64,
    row: u32,
) -> Result<(), TextFault>
    requires limit { limit < 2 ^ 63 }
    requires few { length (fields_of fields.now) ≤ MAX_SIDE }
    ensures ok { OnOk result (values.new.items ≡ values.old.items ++ map value_of (fields_of fields.now)) }
    ensures faultless { OnOk result (numbered (field_faults limit row) (fields_of fields.now) ≡ []) }
    ensures fault { IfErr result (λ fault. fault ≢ NoMemory →
        slice_get (numbered (field_faults limit row) (fields_of fields.now)) 0 ≡ Some fault) }
{
    let mut col = 0;
    while let Some(field) = fields.get(col) {
        col += 1;
        values.push(number(field, limit, row, col as u32)?)?;
    }
    Ok(())
}

/// How many fields row 1 has, where a row of `count` fields comes behind these.
fn cols_with(rows: &Rows, count: usize) -> usize
    ensures { result ≡ (if rows.now.rows == 0 then count else rows.now.cols) }
{
    if rows.rows == 0 { count } else { rows.cols }
}

/// Takes one more row, where it has no fault.
fn push_row(rows: &mut Rows, kind: TextKind, fields: &ByteRecord) -> Result<(), TextFault>
    requires { rows.old.rows ≤ MAX_SIDE }
    ensures ok { OnOk result ((before : List (List (List ℕ))) → AreKept kind before rows.old →
        AreKept kind (before ++ fields_of fields.now ∷ []) rows.new) }
    ensures fault { IfErr result (λ fault. fault ≢ NoMemory →
        (before : List (List (List ℕ))) → AreKept kind before rows.old →
        slice_get (rows_faults kind (before ++ fields_of fields.now ∷ [])) 0 ≡ Some fault) }
{
    let count = fields.len();
    rows.cols = cols_with(rows, count);
    rows.rows += 1;
    if let Some(fault) = shape_fault(kind, rows.cols, rows.rows, count) {
        return Err(fault);
    }
    push_numbers(&mut rows.values, fields, limit(kind), rows.rows)
}

/// The rows of a text, where there is at least one and none has a fault.
pub(crate) fn read_rows(alloc: Global, text: &[u8], kind: TextKind) -> Result<Rows, TextFault>
    ensures kept { IfOk result (λ rows. AreKept kind (records_of text.now) rows) }
    ensures faultless { OnOk result (text_faults kind (records_of text.now) ≡ []) }
    ensures fault { IfErr result (λ fault. fault ≢ NoMemory →
        slice_get (text_faults kind (records_of text.now)) 0 ≡ Some fault) }
{
    let mut reader = records::open(alloc, text);
    let mut fields = ByteRecord::new(alloc);
    let mut rows = Rows {
        rows: 0,
        cols: 0,
        values: Vec::new(alloc),
    };
    while records::next(&mut reader, &mut fields)? {
        push_row(&mut rows, kind, &fields)?;
    }
    if rows.rows == 0 {
        return Err(TextFault::Empty);
    }
    Ok(rows)
}
