//! All ranks of a plan in one thread.

ghost use Rattle.std.specs.Prelude.{◌≡◌, ◌+◌, ◌≤◌, pos, IfOk};
ghost use Rattle.part_geometry.specs.declared.TheConstants.{LAST_ROUND};
ghost use Rattle.stencil_def.specs.Plane.{IsPlane};
ghost use Rattle.cell_lanes.specs.Change.{IsChange, change};

use crate::serial_blocks::{all_blocks, all_pairs, all_rows, room};
use crate::serial_edges::Scratch;
use crate::serial_steps::{run_steps, step_changed};
use cell_lanes::{Block, Divisor, LaneWeights};
use halo_plan::HaloPlan;
use plain_pair::PlainPair;
use std::alloc::{AllocError, Global};
use std::marker::Model;
use stencil_def::{Grid, Rule};

/// All ranks of a plan, which make the steps of a rule together on one thread. Each has its part of the grid, and in
/// each step the rows that it lacks come to it through a pair of its own for each edge (MPI 4.0, chapter 4). Contracts
/// see the plan, the rule, how many steps were made, and the grid after them.
#[derive(Drop)]
pub struct SerialRanks {
    plan: HaloPlan,
    rule: Rule,
    weights: LaneWeights,
    divisor: Divisor,
    steps: u32,
    blocks: Vec<Block>,
    pairs: Vec<PlainPair>,
    scratch: Scratch,
}

impl Model for SerialRanks {
    ghost use Rattle.rank_task.specs.Ranks.{Ranks};

    ghost Value = { Ranks };

    ghost use Rattle.rank_task.specs.KeptRanks.{ranks_of, AreKept};

    ghost view = { ranks_of };

    ghost invariant = { AreKept };
}

impl SerialRanks {
    ghost use Rattle.rank_task.specs.Ranks.{first_ranks, ranks_after};

    /// The ranks of a plan before the first step, with a grid of the plan's rows and columns, and a rule of its reach
    /// that has the same outside the grid. It takes all memory that the steps will ever use. The error is want of
    /// memory.
    pub fn new(
        alloc: Global,
        plan: HaloPlan,
        grid: &Grid,
        rule: Rule,
    ) -> Result<SerialRanks, AllocError>
        requires rows { grid.now.rows ≡ plan.rows }
        requires cols { grid.now.cols ≡ plan.cols }
        requires reach { rule.weights.reach ≡ plan.reach }
        requires around { rule.around ≡ plan.around }
        ensures { IfOk result (λ ranks. ranks ≡ first_ranks plan rule grid.now) }
    {
        // The plan's limits, for the proof.
        let _reach = plan.reach();
        // The grid's limits, for the proof.
        let _rows = grid.rows();
        let blocks = all_blocks(alloc, &plan, grid)?;
        let pairs = all_pairs(alloc, &plan)?;
        let scratch = room(alloc, &plan)?;
        let weights = LaneWeights::new(rule.weights);
        let divisor = Divisor::new(rule.div);
        Ok(SerialRanks {
            plan,
            rule,
            weights,
            divisor,
            steps: 0,
            blocks,
            pairs,
            scratch,
        })
    }

    /// Makes so many steps more, where all steps so far and these are at most 2,147,483,647. In each, the rows of all
    /// edges pass in a round of their own. It takes no memory and has no refusal.
    pub fn run(&mut self, steps: u32)
        requires { self.old.steps + steps ≤ LAST_ROUND }
        ensures { self.new ≡ ranks_after self.old steps }
    {
        // The plan's limits, for the proof.
        let _reach = self.plan.reach();
        run_steps(
            &self.plan,
            &self.rule,
            &self.weights,
            &self.divisor,
            self.steps,
            steps,
            &mut self.pairs,
            &mut self.blocks,
            &mut self.scratch,
        );
        self.steps += steps;
    }

    /// Makes one step more as `run` does, and answers by how much the cell of the whole grid changed that changed most.
    /// It takes no memory and has no refusal.
    pub fn step_changed(&mut self) -> i64
        requires { self.old.steps + 1 ≤ LAST_ROUND }
        ensures after { self.new ≡ ranks_after self.old 1 }
        ensures change { result ≡ pos (change self.old.grid self.new.grid) }
        ensures range { IsChange result }
    {
        // The plan's limits, for the proof.
        let _reach = self.plan.reach();
        let round = self.steps + 1;
        let most = step_changed(
            &self.plan,
            &self.rule,
            &self.weights,
            &self.divisor,
            round,
            &mut self.pairs,
            &mut self.blocks,
            &mut self.scratch,
        );
        self.steps = round;
        most
    }

    /// The grid after the steps so far. The error is want of memory.
    pub fn gather(&self, alloc: Global) -> Result<Grid, AllocError>
        ensures grid { IfOk result (λ grid. grid ≡ self.now.grid) }
        ensures limits { IfOk result IsPlane }
    {
        let (rows, cols) = (self.plan.rows(), self.plan.cols());
        let values = all_rows(alloc, &self.blocks, (rows * cols) as usize)?;
        Ok(Grid::from_values(rows, cols, values))
    }
}
