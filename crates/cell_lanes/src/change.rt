//! By how much a step changes cells.

ghost use Rattle.std.specs.Prelude.{◌≡◌, ℕ, ◌+◌, ◌<◌, pos, length};
ghost use Rattle.std.specs.List.{All};
ghost use Rattle.stencil_def.specs.Limits.{IsValue};
ghost use Rattle.stencil_def.specs.Plane.{Plane};
ghost use Rattle.cell_lanes.specs.Block.{HoldsOwnRow, IsPart, part_of};
ghost use Rattle.cell_lanes.specs.Change.{IsChange, list_change, row_change};

/// The most that a cell may change in a step: from the least value to the greatest.
pub const MAX_CHANGE: i64 = 2_000_000_000_000;

/// The greatest difference of two rows of cells, place by place: 0 where there is none.
pub fn greatest_change(old: &[i64], new: &[i64]) -> i64
    requires length { length new.now ≡ length old.now }
    requires old { All IsValue old.now }
    requires new { All IsValue new.now }
    ensures change { result ≡ pos (list_change old.now new.now) }
    ensures limits { IsChange result }
{
    let mut most = 0;
    for x in 0..old.len() {
        most = most.max((new[x] - old[x]).abs());
    }
    most
}

/// The greatest change of an own cell of this row between two parts of one size.
pub(crate) fn row_change(
    old: &[i64],
    new: &[i64],
    rows: u32,
    cols: u32,
    reach: u32,
    row: u32,
) -> i64
    requires old { IsPart (part_of rows cols reach old.now) }
    requires new { IsPart (part_of rows cols reach new.now) }
    requires row { row < rows }
    ensures change { (g next : Plane) (top left : ℕ) →
        HoldsOwnRow g top left row (part_of rows cols reach old.now) →
        HoldsOwnRow next top left row (part_of rows cols reach new.now) →
        result ≡ pos (row_change g next left cols (top + row)) }
    ensures limits { IsChange result }
{
    let start = ((reach + row) * (cols + 2 * reach) + reach) as usize;
    let end = start + cols as usize;
    greatest_change(&old[start..end], &new[start..end])
}
