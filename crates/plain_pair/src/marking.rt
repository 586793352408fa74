//! The work of a mark: its bytes are stored, and the pieces that it completes are counted.

ghost use Rattle.std.specs.Prelude.{◌≡◌, ℕ, ◌+◌, ◌-◌, ◌*◌, ◌<◌, ◌≤◌, ◌==◌, ◌&&◌, nat_le, if◌then◌else◌, [], length, count_by, find, not, slice_index, slice_set};
ghost use Rattle.std.specs.List.{range_with_len};
ghost use Rattle.part_geometry.specs.declared.TheConstants.{MAX_TOTAL};
ghost use Rattle.part_geometry.specs.Pieces.{pieces};
ghost use Rattle.plain_pair.specs.Lessens.{Lessens};
ghost use Rattle.plain_pair.specs.Stored.{Stores, HasRoom, CanStore, cell_stored};

use crate::buffer::{Buffer, write_at};
use crate::tables::Tables;

/// Stores the bytes of a cell in the buffer of its receive partition. The bytes given begin at place `low` of the
/// message.
fn store_cell(
    tables: &Tables,
    buffers: &mut Vec<Buffer>,
    base: usize,
    low: usize,
    c: usize,
    bytes: &[u8],
)
    requires { CanStore tables.now base low c bytes.now buffers.old.items }
    ensures { buffers.new.items ≡ cell_stored tables.now base low c bytes.now buffers.old.items }
{
    let recv_bytes = tables.geometry().recv_bytes() as usize;
    let cell = tables.cell(c);
    let start = cell.start as usize;
    let recv = cell.recv as usize;
    let piece = &bytes[start - low..cell.end as usize - low];
    write_at(buffers, base + recv, start - recv * recv_bytes, piece);
}

/// Stores the bytes of send partition `p` in the buffers of the receive partitions, of which the first is at
/// `base`.
pub(crate) fn store(tables: &Tables, buffers: &mut Vec<Buffer>, base: usize, p: usize, bytes: &[u8])
    requires part { p < tables.now.send_parts }
    requires length { length bytes.now ≡ tables.now.send_bytes }
    requires buffers { base + tables.now.recv_parts ≤ length buffers.old.items }
    requires room { HasRoom tables.now base
        (p * tables.now.send_bytes) ((p + 1) * tables.now.send_bytes) buffers.old.items }
    ensures { Stores tables.now base (p * tables.now.send_bytes) ((p + 1) * tables.now.send_bytes) bytes.now
        buffers.old.items buffers.new.items }
{
    // The geometry's limits, for the proof.
    let _geometry = tables.geometry();
    let (first, end) = tables.send_cells(p);
    let low = tables.cell(first).start as usize;
    for c in first..end {
        store_cell(tables, buffers, base, low, c, bytes);
    }
}

/// One partition less is missing of a piece. Answers whether none is.
fn lessen(missing: &mut Vec<u32>, i: usize) -> bool
    requires inside { i < length missing.old.items }
    requires some { 1 ≤ slice_index missing.old.items i }
    ensures left { missing.new.items ≡ slice_set missing.old.items i (slice_index missing.old.items i - 1) }
    ensures whole { result ≡ (slice_index missing.old.items i == 1) }
{
    let left = missing[i] - 1;
    missing[i] = left;
    left == 0
}

/// One partition less is missing of each piece from `first` up to and without `end`. Answers how many became whole.
pub(crate) fn count_down(missing: &mut Vec<u32>, first: usize, end: usize) -> u32
    requires inside { end ≤ length missing.old.items }
    requires few { end ≤ MAX_TOTAL }
    requires ordered { first ≤ end }
    requires some { (i : ℕ) → first ≤ i → i < end → 1 ≤ slice_index missing.old.items i }
    ensures left { Lessens missing.old.items missing.new.items first end }
    ensures whole { result ≡ count_by (λ i. slice_index missing.old.items i == 1) (range_with_len first (end - first)) }
{
    let mut whole = 0;
    for i in first..end {
        if lessen(missing, i) {
            whole += 1;
        }
    }
    whole
}

/// The least piece from `first` up to and without `end` of which something is missing.
pub(crate) fn first_missing(missing: &[u32], first: usize, end: usize) -> Option<u32>
    requires inside { end ≤ length missing.now }
    requires few { end ≤ MAX_TOTAL }
    ensures { result ≡ find (λ i. not (slice_index missing.now i == 0)) (range_with_len first (end - first)) }
{
    for i in first..end {
        if missing[i] != 0 {
            return Some(i as u32);
        }
    }
    None
}
