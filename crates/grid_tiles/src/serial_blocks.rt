//! The blocks and the messages of all tiles, as they are made, and the grid that the blocks have.

ghost use Rattle.std.specs.Prelude.{◌≡◌, ◌+◌, ◌*◌, ◌<◌, ◌≤◌, ◌++◌, IfOk, length};
ghost use Rattle.std.specs.List.{All, flat_map, range_with_len};
ghost use Rattle.stencil_def.specs.Limits.{IsValue};
ghost use Rattle.cell_lanes.specs.Block.{HoldsOwn};
ghost use Rattle.grid_tiles.specs.Plan.{rows_of, tiles};
ghost use Rattle.grid_tiles.specs.Tiles.{whole_row, whole_rows};
ghost use Rattle.grid_tiles.specs.Blocks.{AreLinked, AreSized, HasRoom, HoldGrid, IsSized, left, top};

use crate::TilePlan;
use crate::plan::cut_at;
use crate::serial_edges::{Link, Scratch};
use cell_lanes::Block;
use halo_message::{ELEMENT_BYTES, MAX_MULTIPLE, MAX_VALUES, pair_at_rest};
use std::alloc::{AllocError, Global};
use stencil_def::Grid;

/// The block of tile `t`, with the cells of a grid.
fn block_of(alloc: Global, plan: &TilePlan, grid: &Grid, t: u32) -> Result<Block, AllocError>
    requires tile { t < tiles plan.now }
    requires rows { grid.now.rows ≡ plan.now.rows }
    requires cols { grid.now.cols ≡ plan.now.cols }
    ensures size { IfOk result (IsSized plan.now t) }
    ensures own { IfOk result (HoldsOwn grid.now (top plan.now t) (left plan.now t)) }
{
    let tile = plan.tile(t);
    let reach = plan.reach();
    let (start, end) = (
        tile.first_col as usize,
        (tile.first_col + tile.cols) as usize,
    );
    let mut block = Block::zeros(alloc, tile.rows, tile.cols, reach)?;
    for row in 0..tile.rows {
        let cells = &grid.row(tile.first_row + row)[start..end];
        block.put(reach + row, reach, cells);
    }
    Ok(block)
}

/// The blocks of all tiles, with the cells of a grid.
pub(crate) fn all_blocks(
    alloc: Global,
    plan: &TilePlan,
    grid: &Grid,
) -> Result<Vec<Block>, AllocError>
    requires rows { grid.now.rows ≡ plan.now.rows }
    requires cols { grid.now.cols ≡ plan.now.cols }
    ensures size { IfOk result (λ blocks. AreSized plan.now blocks.items) }
    ensures own { IfOk result (λ blocks. HoldGrid plan.now grid.now blocks.items) }
{
    let count = plan.tile_count();
    let mut blocks = Vec::with_capacity(alloc, count as usize)?;
    for t in 0..count {
        blocks.push(block_of(alloc, plan, grid, t)?)?;
    }
    Ok(blocks)
}

/// The message and the pair of each edge, before the first round.
pub(crate) fn all_links(alloc: Global, plan: &TilePlan) -> Result<Vec<Link>, AllocError>
    ensures { IfOk result (λ links. AreLinked plan.now 0 0 links.items) }
{
    let count = plan.edge_count();
    let mut links = Vec::with_capacity(alloc, count as usize)?;
    for e in 0..count {
        let message = plan.message(e);
        let pair = pair_at_rest(alloc, &message)?;
        links.push(Link { message, pair })?;
    }
    Ok(links)
}

/// So many zeros.
fn zeros(alloc: Global, count: usize) -> Result<Vec<i64>, AllocError>
    ensures length { IfOk result (λ zeros. length zeros.items ≡ count) }
    ensures limits { IfOk result (λ zeros. All IsValue zeros.items) }
{
    vec![in alloc; 0; count]
}

/// Room for any message.
pub(crate) fn room(alloc: Global) -> Result<Scratch, AllocError>
    ensures { IfOk result HasRoom }
{
    let values = MAX_VALUES as usize;
    let bytes = ((MAX_VALUES + MAX_MULTIPLE) * ELEMENT_BYTES) as usize;
    Ok(Scratch {
        carried: zeros(alloc, values)?,
        bytes: vec![in alloc; 0; bytes]?,
        arrived: zeros(alloc, values)?,
    })
}

/// Puts a row of the grid behind some values: own row `row` of each tile in row `a` of the tiles.
fn push_row(
    plan: &TilePlan,
    blocks: &[Block],
    a: u32,
    row: u32,
    values: &mut Vec<i64>,
) -> Result<(), AllocError>
    requires a { a < plan.now.tile_rows }
    requires row { row < rows_of plan.now a }
    requires blocks { AreSized plan.now blocks.now }
    ensures { IfOk result (λ _. values.new.items ≡ values.old.items ++ whole_row plan.now blocks.now a row) }
{
    let count = plan.tile_cols();
    for b in 0..count {
        values.extend_from_slice(blocks[(a * count + b) as usize].own_row(row))?;
    }
    Ok(())
}

/// How many rows the tiles in row `a` of the tiles have.
fn rows_of(plan: &TilePlan, a: u32) -> u32
    requires { a < plan.now.tile_rows }
    ensures { result ≡ rows_of plan.now a }
{
    cut_at(plan.rows(), plan.tile_rows(), a + 1) - cut_at(plan.rows(), plan.tile_rows(), a)
}

/// Puts the rows of the tiles in row `a` of the tiles behind some values.
fn push_rows(
    plan: &TilePlan,
    blocks: &[Block],
    a: u32,
    values: &mut Vec<i64>,
) -> Result<(), AllocError>
    requires a { a < plan.now.tile_rows }
    requires blocks { AreSized plan.now blocks.now }
    ensures { IfOk result (λ _. values.new.items ≡ values.old.items ++ whole_rows plan.now blocks.now a) }
{
    for row in 0..rows_of(plan, a) {
        push_row(plan, blocks, a, row, values)?;
    }
    Ok(())
}

/// The cells of all blocks, row by row of the grid.
pub(crate) fn all_rows(
    alloc: Global,
    plan: &TilePlan,
    blocks: &[Block],
) -> Result<Vec<i64>, AllocError>
    requires { AreSized plan.now blocks.now }
    ensures { IfOk result (λ values. values.items ≡
        flat_map (whole_rows plan.now blocks.now) (range_with_len 0 plan.now.tile_rows)) }
{
    let count = (plan.rows() * plan.cols()) as usize;
    let mut values = Vec::with_capacity(alloc, count)?;
    for a in 0..plan.tile_rows() {
        push_rows(plan, blocks, a, &mut values)?;
    }
    Ok(values)
}
