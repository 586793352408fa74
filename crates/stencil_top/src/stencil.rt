//! The output of a stencil.

ghost use Rattle.std.specs.Prelude.{◌≡◌, ◌≤◌, IfOk};
ghost use Rattle.stencil_def.specs.Plane.{IsPlane};
ghost use Rattle.stencil_def.specs.Step.{fold_plane};
ghost use Rattle.cell_lanes.specs.Change.{IsStop};
ghost use Rattle.rank_task.specs.Ranks.{ranks_after};
ghost use Rattle.grid_tiles.specs.Making.{plan_answer};
ghost use Rattle.stencil_words.specs.Limits.{IsRead, IsTileRead};
ghost use Rattle.stencil_words.specs.declared.words.TheConstants.{MAX_STEPS};
ghost use Rattle.stencil_top.specs.Outcome.{IsLastStep, IsRuleOf, IsStencilOutput, or_bad_plan, or_bad_tiles, printed};
ghost use Rattle.stencil_top.specs.Outcome.{rank_plan, sharing_of, tile_plan};
ghost use Rattle.stencil_top.specs.Steps.{IsShared};

use crate::note::Note;
use crate::reading::Inputs;
use cell_lanes::{Stopped, run_lanes, run_until};
use grid_text::{print_grid, print_summary};
use grid_tiles::{SerialTiles, TileFault, TilePlan, TileShape};
use halo_plan::{HaloPlan, PlanFault};
use rank_task::SerialRanks;
use std::alloc::{AllocError, Global};
use stencil_def::{Grid, Rule, Weights};
use stencil_words::{PlanWords, Source, StencilWords, TileWords};

/// How a grid is shared.
#[derive(Drop)]
pub(crate) enum Sharing {
    /// Its rows among ranks.
    Ranks(HaloPlan),
    /// Its rows and columns among tiles.
    Tiles(TilePlan),
}

/// The plan of the words' ranks over a grid, for weights that reach so far.
fn rank_plan(words: &StencilWords, inputs: &Inputs) -> Result<HaloPlan, Note>
    requires { IsRead words.now }
    ensures { result ≡ or_bad_plan (rank_plan words.now inputs.now) }
{
    let rows = inputs.grid.rows();
    let cols = inputs.grid.cols();
    let reach = inputs.weights.reach();
    let PlanWords {
        ranks,
        send_parts,
        recv_parts,
        grain,
        depth,
    } = words.plan;
    match HaloPlan::new(
        rows,
        cols,
        ranks,
        send_parts,
        recv_parts,
        grain,
        depth,
        reach,
        words.around,
    ) {
        Ok(plan) => Ok(plan),
        Err(PlanFault::TooManyRanks { ranks, rows }) => Err(Note::TooManyRanks { ranks, rows }),
        Err(PlanFault::Shape(_)) => unreachable!(),
    }
}

/// The plan of these tiles over a grid, for weights that reach so far.
fn tile_plan(words: &StencilWords, inputs: &Inputs, tiles: TileWords) -> Result<TilePlan, Note>
    requires words { IsRead words.now }
    requires tiles { IsTileRead tiles }
    ensures { result ≡ or_bad_tiles (plan_answer (tile_plan words.now inputs.now tiles)) }
{
    let rows = inputs.grid.rows();
    let cols = inputs.grid.cols();
    let shape = TileShape {
        send_parts: words.plan.send_parts,
        recv_parts: words.plan.recv_parts,
        grain: words.plan.grain,
        depth: words.plan.depth,
        reach: inputs.weights.reach(),
        around: words.around,
    };
    match TilePlan::new(rows, cols, tiles.rows, tiles.cols, shape) {
        Ok(plan) => Ok(plan),
        Err(
            TileFault::TooManyTiles {
                tile_rows,
                tile_cols,
                rows,
                cols,
            },
        ) => Err(Note::TooManyTiles {
            tile_rows,
            tile_cols,
            rows,
            cols,
        }),
    }
}

/// How the words ask for a grid to be shared, for weights that reach so far: among tiles where they are given, and else
/// among ranks.
pub(crate) fn sharing_of(words: &StencilWords, inputs: &Inputs) -> Result<Sharing, Note>
    requires { IsRead words.now }
    ensures answer { result ≡ sharing_of words.now inputs.now }
    ensures plan { IfOk result (λ sharing. IsShared words.now inputs.now sharing) }
{
    match words.tiles {
        Some(tiles) => Ok(Sharing::Tiles(tile_plan(words, inputs, tiles)?)),
        None => Ok(Sharing::Ranks(rank_plan(words, inputs)?)),
    }
}

/// The rule that the words give with these weights.
fn rule_of(words: &StencilWords, weights: Weights) -> Rule
    requires { IsRead words.now }
    ensures { IsRuleOf words.now weights result }
{
    Rule {
        weights,
        div: i64::from(words.div),
        edge: words.edge,
        around: words.around,
    }
}

/// The grid after the last step of the rule, and how many steps were made, on a grid that isn't shared.
fn run_alone(
    alloc: Global,
    grid: &Grid,
    rule: &Rule,
    steps: u32,
    until: Option<i64>,
) -> Result<Stopped, AllocError>
    ensures last { IfOk result (λ stopped. IsLastStep grid.now rule.now steps until stopped.steps) }
    ensures fold { IfOk result (λ stopped. stopped.grid ≡ fold_plane grid.now rule.now stopped.steps) }
    ensures limits { IfOk result (λ stopped. IsPlane stopped.grid) }
{
    match until {
        Some(until) => run_until(alloc, grid, rule, steps, until),
        None => {
            let grid = run_lanes(alloc, grid, rule, steps)?;
            Ok(Stopped { grid, steps })
        }
    }
}

/// Makes steps of all ranks up to the first that changes no cell of the whole grid by more than `until`, or so many
/// steps where none is such a step, and answers how many were made.
fn step_until(ranks: &mut SerialRanks, steps: u32, until: i64) -> u32
    requires first { ranks.old.steps ≡ 0 }
    requires steps { steps ≤ MAX_STEPS }
    ensures stop { IsStop ranks.old.grid ranks.old.rule steps until result }
    ensures after { ranks.new ≡ ranks_after ranks.old result }
{
    for made in 0..steps {
        if ranks.step_changed() <= until {
            return made + 1;
        }
    }
    steps
}

/// Makes the steps of all ranks up to the last, and answers how many were made.
fn run_ranks(ranks: &mut SerialRanks, steps: u32, until: Option<i64>) -> u32
    requires first { ranks.old.steps ≡ 0 }
    requires steps { steps ≤ MAX_STEPS }
    ensures last { IsLastStep ranks.old.grid ranks.old.rule steps until result }
    ensures after { ranks.new ≡ ranks_after ranks.old result }
{
    match until {
        Some(until) => step_until(ranks, steps, until),
        None => {
            ranks.run(steps);
            steps
        }
    }
}

/// The grid after the last step of the rule, which the ranks of the plan make together where there are several, and how
/// many steps were made.
fn run_in_ranks(
    alloc: Global,
    plan: HaloPlan,
    grid: &Grid,
    rule: Rule,
    steps: u32,
    until: Option<i64>,
) -> Result<Stopped, AllocError>
    requires rows { grid.now.rows ≡ plan.rows }
    requires cols { grid.now.cols ≡ plan.cols }
    requires reach { rule.weights.reach ≡ plan.reach }
    requires around { rule.around ≡ plan.around }
    requires steps { steps ≤ MAX_STEPS }
    ensures last { IfOk result (λ stopped. IsLastStep grid.now rule steps until stopped.steps) }
    ensures fold { IfOk result (λ stopped. stopped.grid ≡ fold_plane grid.now rule stopped.steps) }
    ensures limits { IfOk result (λ stopped. IsPlane stopped.grid) }
{
    if plan.ranks() == 1 {
        return run_alone(alloc, grid, &rule, steps, until);
    }
    let mut ranks = SerialRanks::new(alloc, plan, grid, rule)?;
    let made = run_ranks(&mut ranks, steps, until);
    let grid = ranks.gather(alloc)?;
    Ok(Stopped { grid, steps: made })
}

/// The grid after so many steps of the rule, which the tiles of the plan make together where there are several.
fn run_in_tiles(
    alloc: Global,
    plan: TilePlan,
    grid: &Grid,
    rule: Rule,
    steps: u32,
) -> Result<Stopped, AllocError>
    requires rows { grid.now.rows ≡ plan.rows }
    requires cols { grid.now.cols ≡ plan.cols }
    requires reach { rule.weights.reach ≡ plan.shape.reach }
    requires around { rule.around ≡ plan.shape.around }
    requires steps { steps ≤ MAX_STEPS }
    ensures last { IfOk result (λ stopped. stopped.steps ≡ steps) }
    ensures fold { IfOk result (λ stopped. stopped.grid ≡ fold_plane grid.now rule stopped.steps) }
    ensures limits { IfOk result (λ stopped. IsPlane stopped.grid) }
{
    if plan.tile_count() == 1 {
        return run_alone(alloc, grid, &rule, steps, None);
    }
    let mut tiles = SerialTiles::new(alloc, plan, grid, rule)?;
    tiles.run(steps);
    let grid = tiles.gather(alloc)?;
    Ok(Stopped { grid, steps })
}

/// The grid after the last step of the rule, which all that share the grid make together, and how many steps were made.
fn run(
    alloc: Global,
    words: &StencilWords,
    inputs: &Inputs,
    sharing: Sharing,
    rule: Rule,
) -> Result<Stopped, AllocError>
    requires limits { IsRead words.now }
    requires sharing { IsShared words.now inputs.now sharing }
    requires rule { IsRuleOf words.now inputs.now.weights rule }
    ensures last { IfOk result (λ stopped.
        IsLastStep inputs.now.grid rule words.now.steps words.now.until stopped.steps) }
    ensures fold { IfOk result (λ stopped. stopped.grid ≡ fold_plane inputs.now.grid rule stopped.steps) }
    ensures limits { IfOk result (λ stopped. IsPlane stopped.grid) }
{
    let (grid, steps) = (&inputs.grid, words.steps);
    match sharing {
        Sharing::Ranks(plan) => run_in_ranks(alloc, plan, grid, rule, steps, words.until),
        Sharing::Tiles(plan) => run_in_tiles(alloc, plan, grid, rule, steps),
    }
}

/// The text of the last grid: that of a grid from a file is the grid, and that of a made one is the summary.
fn print(alloc: Global, source: &Source, steps: u32, last: &Grid) -> Result<Vec<u8>, AllocError>
    ensures { IfOk result (λ text. text.items ≡ printed source.now steps last.now) }
{
    match source {
        Source::Grid { .. } => print_grid(alloc, last),
        Source::Make { .. } => print_summary(alloc, last, steps),
    }
}

/// The output of a stencil whose grid is shared as the words ask.
pub(crate) fn stencil_output(
    alloc: Global,
    words: &StencilWords,
    inputs: &Inputs,
    sharing: Sharing,
) -> Result<Vec<u8>, AllocError>
    requires limits { IsRead words.now }
    requires sharing { IsShared words.now inputs.now sharing }
    ensures { IfOk result (λ text. IsStencilOutput words.now inputs.now text.items) }
{
    let rule = rule_of(words, inputs.weights);
    let last = run(alloc, words, inputs, sharing, rule)?;
    print(alloc, &words.source, last.steps, &last.grid)
}
