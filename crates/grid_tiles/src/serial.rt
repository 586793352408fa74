//! All tiles of a plan in one thread.

ghost use Rattle.std.specs.Prelude.{◌≡◌, ◌+◌, ◌≤◌, IfOk};
ghost use Rattle.part_geometry.specs.declared.TheConstants.{LAST_ROUND};
ghost use Rattle.stencil_def.specs.Plane.{IsPlane};
ghost use Rattle.grid_tiles.specs.Tiles.{first_tiles, tiles_after};

use crate::TilePlan;
use crate::serial_blocks::{all_blocks, all_links, all_rows, room};
use crate::serial_edges::{Link, Scratch};
use crate::serial_steps::run_steps;
use cell_lanes::{Block, Divisor, LaneWeights};
use std::alloc::{AllocError, Global};
use std::marker::Model;
use stencil_def::{Grid, Rule};

/// All tiles of a plan, which make the steps of a rule together on one thread. Each has its part of the grid, and in
/// each step the cells that it lacks come to it through a pair of its own for each edge (MPI 4.0, chapter 4). Contracts
/// see the plan, the rule, how many steps were made, and the grid after them.
#[derive(Drop)]
pub struct SerialTiles {
    plan: TilePlan,
    rule: Rule,
    weights: LaneWeights,
    divisor: Divisor,
    steps: u32,
    blocks: Vec<Block>,
    links: Vec<Link>,
    scratch: Scratch,
}

impl Model for SerialTiles {
    ghost use Rattle.grid_tiles.specs.Tiles.{Tiles};

    ghost Value = { Tiles };

    ghost use Rattle.grid_tiles.specs.KeptTiles.{tiles_of, AreKept};

    ghost view = { tiles_of };

    ghost invariant = { AreKept };
}

impl SerialTiles {
    /// The tiles of a plan before the first step, with a grid of the plan's rows and columns, and a rule of its reach
    /// that has the same outside the grid. It takes all memory that the steps will ever use. The error is want of
    /// memory.
    pub fn new(
        alloc: Global,
        plan: TilePlan,
        grid: &Grid,
        rule: Rule,
    ) -> Result<SerialTiles, AllocError>
        requires rows { grid.now.rows ≡ plan.rows }
        requires cols { grid.now.cols ≡ plan.cols }
        requires reach { rule.weights.reach ≡ plan.shape.reach }
        requires around { rule.around ≡ plan.shape.around }
        ensures { IfOk result (λ tiles. tiles ≡ first_tiles plan rule grid.now) }
    {
        // The plan's limits, for the proof.
        let _reach = plan.reach();
        // The grid's limits, for the proof.
        let _rows = grid.rows();
        let blocks = all_blocks(alloc, &plan, grid)?;
        let links = all_links(alloc, &plan)?;
        let scratch = room(alloc)?;
        let weights = LaneWeights::new(rule.weights);
        let divisor = Divisor::new(rule.div);
        Ok(SerialTiles {
            plan,
            rule,
            weights,
            divisor,
            steps: 0,
            blocks,
            links,
            scratch,
        })
    }

    /// Makes so many steps more, where all steps so far and these are at most 2,147,483,647. In each, the cells of all
    /// edges pass in a round of their own. It takes no memory and has no refusal.
    pub fn run(&mut self, steps: u32)
        requires { self.old.steps + steps ≤ LAST_ROUND }
        ensures { self.new ≡ tiles_after self.old steps }
    {
        // The plan's limits, for the proof.
        let _reach = self.plan.reach();
        run_steps(
            &self.plan,
            &self.rule,
            &self.weights,
            &self.divisor,
            self.steps,
            steps,
            &mut self.links,
            &mut self.blocks,
            &mut self.scratch,
        );
        self.steps += steps;
    }

    /// The grid after the steps so far. The error is want of memory.
    pub fn gather(&self, alloc: Global) -> Result<Grid, AllocError>
        ensures grid { IfOk result (λ grid. grid ≡ self.now.grid) }
        ensures limits { IfOk result IsPlane }
    {
        let (rows, cols) = (self.plan.rows(), self.plan.cols());
        let values = all_rows(alloc, &self.plan, &self.blocks)?;
        Ok(Grid::from_values(rows, cols, values))
    }
}
