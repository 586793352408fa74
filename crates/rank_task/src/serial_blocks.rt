//! The blocks and the pairs of all ranks, as they are made, and the grid that the blocks have.

ghost use Rattle.std.specs.Prelude.{◌≡◌, ℕ, ◌+◌, ◌*◌, ◌<◌, ◌≤◌, ◌++◌, IfOk, length};
ghost use Rattle.std.specs.List.{All, flat_map};
ghost use Rattle.stencil_def.specs.Limits.{IsValue};
ghost use Rattle.stencil_def.specs.Plane.{Plane};
ghost use Rattle.cell_lanes.specs.Block.{HoldsOwn};
ghost use Rattle.halo_plan.specs.Plan.{first_row};
ghost use Rattle.rank_task.specs.Ranks.{own_values};
ghost use Rattle.rank_task.specs.Blocks.{ArePaired, AreSized, HasRoom, HoldGrid, IsSized};

use crate::passing::pair_at_rest;
use crate::serial_edges::Scratch;
use cell_lanes::Block;
use halo_plan::HaloPlan;
use plain_pair::PlainPair;
use std::alloc::{AllocError, Global};
use stencil_def::Grid;

/// The block of rank `i`, with the rows of a grid.
fn block_of(alloc: Global, plan: &HaloPlan, grid: &Grid, i: u32) -> Result<Block, AllocError>
    requires rank { i < plan.now.ranks }
    requires rows { grid.now.rows ≡ plan.now.rows }
    requires cols { grid.now.cols ≡ plan.now.cols }
    ensures size { IfOk result (IsSized plan.now i) }
    ensures own { IfOk result (HoldsOwn grid.now (first_row plan.now i) 0) }
{
    let (first, end) = plan.block(i);
    let reach = plan.reach();
    let mut block = Block::zeros(alloc, end - first, plan.cols(), reach)?;
    for row in 0..end - first {
        block.put(reach + row, reach, grid.row(first + row));
    }
    Ok(block)
}

/// The blocks of all ranks, with the rows of a grid.
pub(crate) fn all_blocks(
    alloc: Global,
    plan: &HaloPlan,
    grid: &Grid,
) -> Result<Vec<Block>, AllocError>
    requires rows { grid.now.rows ≡ plan.now.rows }
    requires cols { grid.now.cols ≡ plan.now.cols }
    ensures size { IfOk result (λ blocks. AreSized plan.now blocks.items) }
    ensures own { IfOk result (λ blocks. HoldGrid plan.now grid.now blocks.items) }
{
    let ranks = plan.ranks();
    let mut blocks = Vec::with_capacity(alloc, ranks as usize)?;
    for i in 0..ranks {
        blocks.push(block_of(alloc, plan, grid, i)?)?;
    }
    Ok(blocks)
}

/// A pair for each edge of the plan, before its first round.
pub(crate) fn all_pairs(alloc: Global, plan: &HaloPlan) -> Result<Vec<PlainPair>, AllocError>
    ensures { IfOk result (λ pairs. ArePaired plan.now 0 0 pairs.items) }
{
    let count = plan.edge_count();
    let mut pairs = Vec::with_capacity(alloc, count as usize)?;
    for _e in 0..count {
        pairs.push(pair_at_rest(alloc, plan)?)?;
    }
    Ok(pairs)
}

/// Room for the messages of the plan.
pub(crate) fn room(alloc: Global, plan: &HaloPlan) -> Result<Scratch, AllocError>
    ensures { IfOk result (HasRoom plan.now) }
{
    let values = (plan.reach() * plan.cols()) as usize;
    let bytes = plan.geometry().total() as usize;
    Ok(Scratch {
        carried: vec![in alloc; 0; values]?,
        message: vec![in alloc; 0; bytes]?,
        arrived: vec![in alloc; 0; values]?,
    })
}

/// Puts the own rows of a block behind some values.
fn push_rows(block: &Block, values: &mut Vec<i64>) -> Result<(), AllocError>
    ensures { IfOk result (λ _. values.new.items ≡ values.old.items ++ own_values block.now) }
{
    for row in 0..block.rows() {
        values.extend_from_slice(block.own_row(row))?;
    }
    Ok(())
}

/// The own rows of all blocks, one block after another, where together they have so many values.
pub(crate) fn all_rows(
    alloc: Global,
    blocks: &[Block],
    count: usize,
) -> Result<Vec<i64>, AllocError>
    ensures { IfOk result (λ values. values.items ≡ flat_map own_values blocks.now) }
{
    let mut values = Vec::with_capacity(alloc, count)?;
    for block in blocks {
        push_rows(block, &mut values)?;
    }
    Ok(values)
}
