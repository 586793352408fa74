//! Rows of a block, one after another in a slice.

ghost use Rattle.std.specs.Prelude.{◌≡◌, ◌⊎◌, ℕ, ◌+◌, ◌*◌, ◌<◌, ◌≤◌, pos, length, slice_index_or};
ghost use Rattle.std.specs.List.{All};
ghost use Rattle.stencil_def.specs.Limits.{IsValue};
ghost use Rattle.cell_lanes.specs.Block.{IsPart, SameRow, SameSize, at, height};

use cell_lanes::Block;

/// Copies so many own rows of a block, from row `first` on.
pub(crate) fn copy_rows(block: &Block, first: u32, count: u32, out: &mut [i64])
    requires rows { first + count ≤ block.now.rows }
    requires out { length out.old ≡ count * block.now.cols }
    requires values { All IsValue out.old }
    ensures rows { (k col : ℕ) → k < count → col < block.now.cols →
        slice_index_or out.new (k * block.now.cols + col) (pos 0) ≡
        at block.now (block.now.reach + (first + k)) (block.now.reach + col) }
    ensures values { All IsValue out.new }
{
    let cols = block.cols() as usize;
    for k in 0..count {
        let start = k as usize * cols;
        out[start..start + cols].copy_from_slice(block.own_row(first + k));
    }
}

/// Puts so many rows into the own columns of a block, from row `first` on, counted from the halo's first.
pub(crate) fn put_rows(block: &mut Block, first: u32, count: u32, rows: &[i64])
    requires end { first + count ≤ height block.old }
    requires rows { length rows.now ≡ count * block.old.cols }
    requires values { All IsValue rows.now }
    ensures rows { (k col : ℕ) → k < count → col < block.old.cols →
        at block.new (first + k) (block.old.reach + col) ≡
        slice_index_or rows.now (k * block.old.cols + col) (pos 0) }
    ensures rest { (y : ℕ) → (y < first) ⊎ (first + count ≤ y) → SameRow y block.old block.new }
    ensures size { SameSize block.old block.new }
    ensures limits { IsPart block.new }
{
    let reach = block.reach();
    let cols = block.cols() as usize;
    for k in 0..count {
        let start = k as usize * cols;
        block.put(first + k, reach, &rows[start..start + cols]);
    }
}
