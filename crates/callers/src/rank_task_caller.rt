#![tactic(auto)]

ghost use Rattle.std.specs.Prelude.{◌≡◌, ◌≤◌, ◌*◌, length, IfOk, OnOk};
ghost use Rattle.std.specs.List.{All};
ghost use Rattle.part_geometry.specs.declared.TheConstants.{LAST_ROUND};
ghost use Rattle.stencil_def.specs.Step.{fold_plane};
ghost use Rattle.halo_message.specs.declared.TheConstants.{ELEMENT_BYTES};
ghost use Rattle.halo_plan.specs.Plan.{elements, values};
ghost use Rattle.halo_message.specs.Elements.{IsWord};

use halo_plan::HaloPlan;
use rank_task::{SerialRanks, pair_at_rest, pass};
use std::alloc::{AllocError, Global};
use stencil_def::{Grid, Rule};

/// Passes rows through a new pair in its first two rounds.
pub fn pass_twice(
    alloc: Global,
    plan: &HaloPlan,
    rows: &[i64],
    message: &mut [u8],
    out: &mut [i64],
) -> Result<(), AllocError>
    requires rows { length rows.now ≡ values plan.now }
    requires words { All IsWord rows.now }
    requires message { length message.old ≡ elements plan.now * ELEMENT_BYTES }
    requires out { length out.old ≡ values plan.now }
    ensures { OnOk result (out.new ≡ rows.now) }
{
    let mut pair = pair_at_rest(alloc, plan)?;
    pass(&mut pair, plan, 1, rows, message, out);
    pass(&mut pair, plan, 2, rows, message, out);
    Ok(())
}

/// The grid after so many steps, made by all ranks of a plan.
pub fn run_in_ranks(
    alloc: Global,
    plan: HaloPlan,
    grid: &Grid,
    rule: Rule,
    steps: u32,
) -> Result<Grid, AllocError>
    requires rows { grid.now.rows ≡ plan.rows }
    requires cols { grid.now.cols ≡ plan.cols }
    requires reach { rule.weights.reach ≡ plan.reach }
    requires around { rule.around ≡ plan.around }
    requires last { steps ≤ LAST_ROUND }
    ensures { IfOk result (λ last. last ≡ fold_plane grid.now rule steps) }
{
    let mut ranks = SerialRanks::new(alloc, plan, grid, rule)?;
    ranks.run(steps);
    ranks.gather(alloc)
}
