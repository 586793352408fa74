//! The words and the buffers before the first step.

ghost use Rattle.part_geometry.specs.declared.TheConstants.{MAX_PARTS};
ghost use Rattle.std.specs.Prelude.{◌≡◌, ◌+◌, ◌*◌, ◌-◌, ◌%◌, ◌<◌, ◌≤◌, ◌^◌, true, IfOk};
ghost use Rattle.part_geometry.specs.Cells.{cells};
ghost use Rattle.pair_core.specs.Moves.{part_mask};
ghost use Rattle.pair_rule.specs.Addresses.{table_size};
ghost use Rattle.pair_rule.specs.First.{first_in_table, first_table, first_buf, first_bufs, first_in_slot};

use crate::FREE_WORDS;
use crate::buf::CellBuf;
use crate::words::{claim_words, slot_row, take_words};
use gate_word::pack;
use part_tables::Tables;
use std::alloc::{AllocError, Global};

/// A number with its `n` lowest bits set.
fn low_bits(n: u32) -> u32
    requires { n ≤ 32 }
    ensures { result ≡ 2 ^ n - 1 }
{
    ((1u64 << n) - 1) as u32
}

/// A bit for each partition of word `c`.
fn part_bits(parts: u32, c: usize) -> u32
    requires few { parts ≤ MAX_PARTS }
    requires some { 32 * c < parts }
    ensures { result ≡ part_mask parts c }
{
    low_bits((parts - 32 * c as u32).min(32))
}

/// The word at a place of the table.
fn first_word_at(tables: &Tables, n: usize) -> u64
    requires { n < table_size tables.now }
    ensures { result ≡ first_in_table tables.now n }
{
    let geometry = tables.geometry();
    let claims = claim_words(tables);
    let takes = take_words(tables);
    if n < FREE_WORDS + claims {
        let c = n.saturating_sub(FREE_WORDS);
        return pack(0, true, part_bits(geometry.send_parts(), c));
    }
    if n < 2 * FREE_WORDS + claims + 1 {
        return pack(0, false, 0);
    }
    if n < 3 * FREE_WORDS + claims + 1 + takes {
        let t = n.saturating_sub(3 * FREE_WORDS + claims + 1);
        return pack(0, false, part_bits(geometry.recv_parts(), t));
    }
    if n < 4 * FREE_WORDS + claims + 1 + 2 * takes {
        let t = n.saturating_sub(4 * FREE_WORDS + claims + 1 + takes);
        return pack(0, false, part_bits(geometry.recv_parts(), t));
    }
    let i = (n - (4 * FREE_WORDS + claims + 1 + 2 * takes)) % (tables.pieces() + FREE_WORDS);
    pack(0, false, tables.need(i.saturating_sub(FREE_WORDS)))
}

/// The words of the table, in order.
pub(crate) fn first_table(alloc: Global, tables: &Tables) -> Result<Vec<u64>, AllocError>
    ensures { IfOk result (λ words. words.items ≡ first_table tables.now) }
{
    let rows = tables.geometry().depth() as usize * (tables.pieces() + FREE_WORDS);
    let count = 5 * FREE_WORDS + claim_words(tables) + 1 + 2 * take_words(tables) + rows;
    let mut words = Vec::with_capacity(alloc, count)?;
    for n in 0..count {
        words.push(first_word_at(tables, n))?;
    }
    Ok(words)
}

/// The buffer of cell `c`.
fn cell_buf(alloc: Global, tables: &Tables, c: usize) -> Result<CellBuf, AllocError>
    requires { c < cells tables.now }
    ensures { IfOk result (λ b. b ≡ first_buf tables.now c) }
{
    // The geometry's limits, for the proof.
    let _geometry = tables.geometry();
    let cell = tables.cell(c);
    let count = (cell.end - cell.start) as usize;
    CellBuf::zeros(alloc, count)
}

/// What slot `n` has.
fn slot_buf(alloc: Global, tables: &Tables, n: usize) -> Result<Option<CellBuf>, AllocError>
    ensures { IfOk result (λ b. b ≡ first_in_slot tables.now n) }
{
    let c = n % slot_row(tables);
    if c < tables.cells() {
        Ok(Some(cell_buf(alloc, tables, c)?))
    } else {
        Ok(None)
    }
}

/// What the slots have, in order.
pub(crate) fn first_bufs(alloc: Global, tables: &Tables) -> Result<Vec<Option<CellBuf>>, AllocError>
    ensures { IfOk result (λ bufs. bufs.items ≡ first_bufs tables.now) }
{
    let count = tables.geometry().depth() as usize * slot_row(tables);
    let mut bufs = Vec::with_capacity(alloc, count)?;
    for n in 0..count {
        bufs.push(slot_buf(alloc, tables, n)?)?;
    }
    Ok(bufs)
}
