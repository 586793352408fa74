//! Sums, quotients and steps: sums that were worked out by hand, and each length of a row against the plain run.

ghost use Rattle.stencil_def.specs.Limits.{IsDiv};

use cell_lanes::{
    Block, Divisor, LaneWeights, greatest_change, new_cells, run_lanes, run_until, window_sums,
};
use std::alloc::Global;
use std::process::Abort;
use stencil_def::{Around, Grid, Rule, Weights, run_plain};

/// The weights of the four neighbours.
const NEIGHBOURS: [i64; 9] = [0, 1, 0, 1, 0, 1, 0, 1, 0];

const MIXED: [i64; 9] = [3, -1, 4, -1, 5, -9, 2, 6, -5];

const MANY_MIXED: [i64; 25] = [
    3, -1, 4, -1, 5, -9, 2, 6, -5, 3, 5, -8, 9, 7, -9, 3, 2, -3, 8, 4, -6, 2, 6, -4, 3,
];

/// Weights that are the same on both sides of the middle row and of the middle column.
const MIRRORED: [i64; 9] = [3, -7, 3, 1000, 5, 1000, 3, -7, 3];

const MANY_MIRRORED: [i64; 25] = [
    1, -2, 3, -2, 1, 4, 5, -6, 5, 4, -7, 8, 1000, 8, -7, 4, 5, -6, 5, 4, 1, -2, 3, -2, 1,
];

/// A row of three cells between two others, with an edge of 0 and of 10.
const ROUND_NONE: [i64; 15] = [0, 1, 2, 3, 0, 0, 4, 5, 6, 0, 0, 7, 8, 9, 0];

const ROUND_TEN: [i64; 15] = [10, 1, 2, 3, 10, 10, 4, 5, 6, 10, 10, 7, 8, 9, 10];

#[test]
fn sums_of_the_four_neighbours(rt: HostRuntime) {
    for (window, wanted) in [(ROUND_NONE, [13, 20, 17]), (ROUND_TEN, [23, 20, 27])] {
        let mut sums = [0; 3];
        window_sums(&window, 5, &Weights::new(&NEIGHBOURS), &mut sums);
        assert_eq!(rt; sums, wanted);
    }
}

#[test]
fn new_cells_of_the_four_neighbours(rt: HostRuntime) {
    let mut cells = [0; 3];
    let weights = LaneWeights::new(Weights::new(&NEIGHBOURS));
    new_cells(&ROUND_TEN, 5, &weights, &Divisor::new(4), &mut cells);
    assert_eq!(rt; cells, [5, 5, 6]);
}

/// The greatest sum over a window, and the greatest value of a cell.
const MOST: i64 = 25_000_000_000_000_000;

const CELL: i64 = 1_000_000_000_000;

#[test]
fn sums_are_divided_toward_zero_and_clamped(rt: HostRuntime) {
    for (div, sum, wanted) in [
        (1, -999_999_999_999, -999_999_999_999),
        (1, MOST, CELL),
        (1, -MOST, -CELL),
        (7, 13, 1),
        (7, 14, 2),
        (7, -13, -1),
        (7, -14, -2),
        (16, 15, 0),
        (16, -17, -1),
        (1_000_000, MOST - 1, 24_999_999_999),
        (1_000_000, 1 - MOST, -24_999_999_999),
        (1_000_000, -999_999, 0),
    ] {
        assert!(rt; div >= 1 && div <= 1_000_000 && sum >= -MOST && sum <= MOST);
        assert_eq!(rt; Divisor::new(div).quotient(sum), wanted, "{sum} by {div}");
    }
}

/// A grid of three rows and this many columns, with small values or with great ones.
fn uneven(rt: &impl Abort, alloc: Global, cols: u32, is_great: bool) -> Grid {
    assert!(rt; cols >= 1 && cols <= 40);
    let mut grid = Grid::zeros(alloc, 3, cols).expect(rt, "memory");
    for row in 0..3 {
        for col in 0..cols {
            if row < grid.rows() && col < grid.cols() {
                let small = i64::from(row * 37 + col * 11) - 700;
                grid.set(row, col, if is_great { small * 489_999_999 } else { small });
            }
        }
    }
    grid
}

/// A rule with a negative edge.
fn rule_of(weights: Weights, div: i64, around: Around) -> Rule
    requires { IsDiv div }
{
    Rule {
        weights,
        div,
        edge: -4,
        around,
    }
}

#[test]
fn each_length_is_as_the_plain_run(rt: HostRuntime) {
    let alloc = rt.alloc();
    for rule in [
        rule_of(Weights::new(&MIXED), 7, Around::Fixed),
        rule_of(Weights::new(&MANY_MIXED), 1, Around::Wrap),
        rule_of(Weights::new(&MIRRORED), 8, Around::Wrap),
        rule_of(Weights::new(&MANY_MIRRORED), 25, Around::Fixed),
    ] {
        for cols in 1..41 {
            let grid = uneven(&rt, alloc, cols, cols % 2 == 1);
            let lanes = run_lanes(alloc, &grid, &rule, 3).expect(&rt, "memory");
            let plain = run_plain(alloc, &grid, &rule, 3).expect(&rt, "memory");
            assert_eq!(rt; lanes.values(), plain.values(), "{cols} columns");
        }
    }
}

/// The cell itself.
const ITSELF: [i64; 9] = [0, 0, 0, 0, 1, 0, 0, 0, 0];

#[test]
fn a_run_ends_where_little_changes(rt: HostRuntime) {
    let alloc = rt.alloc();
    let rule = rule_of(Weights::new(&ITSELF), 2, Around::Fixed);
    let mut grid = Grid::zeros(alloc, 2, 1).expect(&rt, "memory");
    grid.set(0, 0, 8);
    grid.set(1, 0, -5);
    // The cells are halved: the changes are 4, 2, 1, 1 and 0.
    for (steps, until, made, cells) in [
        (10, 4, 1, [4, -2]),
        (10, 3, 2, [2, -1]),
        (10, 1, 3, [1, 0]),
        (10, 0, 5, [0, 0]),
        (2, 0, 2, [2, -1]),
        (7, -1, 7, [0, 0]),
        (0, 9, 0, [8, -5]),
    ] {
        let stopped = run_until(alloc, &grid, &rule, steps, until).expect(&rt, "memory");
        let cells: &[i64] = &cells;
        assert_eq!(rt;
            (stopped.steps, stopped.grid.values()),
            (made, cells),
            "{until}"
        );
    }
}

#[test]
fn a_block_tells_its_greatest_change(rt: HostRuntime) {
    let mut block = Block::zeros(rt.alloc(), 2, 1, 1).expect(&rt, "memory");
    block.put(1, 1, &[8]);
    block.put(2, 1, &[-5]);
    let weights = LaneWeights::new(Weights::new(&ITSELF));
    let most = block.step_changed(&weights, &Divisor::new(2));
    let apart = greatest_change(&[8, -5, 7], &[4, -12, 14]);
    assert_eq!(rt; (most, apart), (4, 7));
}
