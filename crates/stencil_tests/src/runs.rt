//! Runs over a shelf and sinks in memory, in which each call of the outside fails in turn.

ghost use Rattle.std.specs.Prelude.{◌<◌, ◌≤◌};

use part_io::{MemShelf, MemSink};
use std::alloc::{AllocError, Global};
use std::process::Abort;
use std::test::Fail;
use stencil_top::run_serial;

/// Weights that reach 2, no two rows or columns of them alike.
const MIXED: &[u8] = b"3,-1,4,-1,5\n-9,2,6,-5,3\n5,-8,9,7,-9\n3,2,-3,8,4\n-6,2,6,-4,3\n";

/// The words of a command line, which stand between spaces.
fn words(alloc: Global, text: &str) -> Result<Vec<String>, AllocError> {
    let mut words = Vec::new(alloc);
    for word in text.split(' ') {
        words.push(String::from_str(alloc, word)?)?;
    }
    Ok(words)
}

/// A shelf with a grid, weights, more weights and a script, whose reads of these numbers fail.
fn shelf(alloc: Global, failing: &[u32]) -> Result<MemShelf, AllocError> {
    let mut shelf = MemShelf::new(alloc, Vec::from_slice(alloc, failing)?);
    shelf.put("g.csv", b"0,0,0\n0,1,0\n0,0,0\n")?;
    shelf.put("w.csv", b"0,1,0\n1,0,1\n0,1,0\n")?;
    shelf.put("v.csv", MIXED)?;
    shelf.put("s.txt", b"world 2 1 1\nsend a 0 1 7 0 3 4\nend\n")?;
    Ok(shelf)
}

/// A sink with room for so many bytes, whose writes of these numbers fail.
fn sink(alloc: Global, room: u32, failing: &[u32]) -> Result<MemSink, AllocError> {
    MemSink::new(alloc, room, Vec::from_slice(alloc, failing)?)
}

/// How a run ends: its status, the calls of the shelf and of both sinks, what was written, and what was noted.
fn ended(
    alloc: Global,
    line: &str,
    reads: &[u32],
    out: (u32, &[u32]),
    notes: &[u32],
) -> Result<String, Fail> {
    let words = words(alloc, line)?;
    let mut shelf = shelf(alloc, reads)?;
    let mut sink_out = sink(alloc, out.0, out.1)?;
    let mut note = sink(alloc, 100, notes)?;
    let status = run_serial(alloc, &words, &mut shelf, &mut sink_out, &mut note).code();
    let calls = (shelf.reads(), sink_out.writes(), note.writes());
    let written = String::from_utf8_lossy(alloc, sink_out.bytes())?;
    let noted = String::from_utf8_lossy(alloc, note.bytes())?;
    Ok(format!(in alloc; "{status} {calls:?} {written}|{noted}")?)
}

const STENCIL: &str = "stencil --grid g.csv --weights w.csv";

const MADE: &str = "stencil --make 1,2,2 --steps 0";

const MADE_BY: &str = "stencil --make 1,2,2 --steps 0 --weights w.csv";

const SCRIPT: &str = "script s.txt";

#[test]
fn each_call_of_the_outside_may_fail(rt: HostRuntime) -> Result<(), Fail> {
    let whole: (u32, &[u32]) = (100, &[]);
    let runs: [(&str, &[u32], (u32, &[u32]), &[u32], &str); 15] = [
        (
            STENCIL,
            &[],
            whole,
            &[],
            "0 (2, 1, 0) 0,1,0\n1,0,1\n0,1,0\n|",
        ),
        (
            STENCIL,
            &[0],
            whole,
            &[],
            "4 (1, 0, 1) |partstencil: cannot read weights\n",
        ),
        (
            STENCIL,
            &[1],
            whole,
            &[],
            "4 (2, 0, 1) |partstencil: cannot read grid\n",
        ),
        (
            STENCIL,
            &[],
            (100, &[0]),
            &[],
            "5 (2, 1, 1) |partstencil: cannot write\n",
        ),
        (
            STENCIL,
            &[],
            (8, &[]),
            &[],
            "5 (2, 1, 1) 0,1,0\n1,|partstencil: cannot write\n",
        ),
        (STENCIL, &[1], whole, &[0], "4 (2, 0, 1) |"),
        (
            MADE,
            &[0],
            whole,
            &[],
            "0 (0, 1, 0) grid 2 2 steps 0\nsum -10\nmin -8\nmax 7\ncheck -5\n|",
        ),
        (MADE, &[], (100, &[0]), &[0], "5 (0, 1, 1) |"),
        (
            MADE_BY,
            &[0],
            whole,
            &[],
            "4 (1, 0, 1) |partstencil: cannot read weights\n",
        ),
        (
            SCRIPT,
            &[],
            whole,
            &[],
            "0 (1, 1, 0) ok\nok\nunmatched a\n|",
        ),
        (
            SCRIPT,
            &[0],
            whole,
            &[],
            "4 (1, 0, 1) |partstencil: cannot read script\n",
        ),
        (
            SCRIPT,
            &[],
            (100, &[0]),
            &[],
            "5 (1, 1, 1) |partstencil: cannot write\n",
        ),
        (SCRIPT, &[], (100, &[0]), &[0], "5 (1, 1, 1) |"),
        (
            "script t.txt",
            &[],
            whole,
            &[],
            "4 (1, 0, 1) |partstencil: cannot read script\n",
        ),
        ("stencil", &[], whole, &[0], "2 (0, 0, 1) |"),
    ];
    for (line, reads, out, notes, wanted) in runs {
        let got = ended(rt.alloc(), line, reads, out, notes)?;
        assert_eq!(rt; got.as_str(), wanted);
    }
    Ok(())
}

/// Numbers that look random, the same in each run.
#[derive(Drop)]
struct Draw {
    state: u32,
}

impl Draw {
    /// The next number, below `end`.
    fn below(&mut self, end: u32) -> u32
        requires { 1 ≤ end }
        ensures { result < end }
    {
        self.state = self.state.wrapping_mul(1_103_515_245).wrapping_add(12_345);
        (self.state >> 16) % end
    }

    /// One of these.
    fn one_of(&mut self, choices: [&'static str; 4]) -> &'static str {
        choices[self.below(4) as usize]
    }
}

/// A stencil of drawn numbers.
fn drawn_stencil(
    alloc: Global,
    draw: &mut Draw,
    reach: u32,
    rows: u32,
    cols: u32,
) -> Result<String, AllocError> {
    let file = if reach == 2 { "v.csv" } else { "w.csv" };
    let seed = draw.below(1000);
    let steps = draw.below(7);
    let div = draw.one_of(["1", "8", "9", "30"]);
    let around = draw.one_of(["fixed", "wrap", "wrap", "fixed"]);
    format!(in alloc;
        "stencil --make {seed},{rows},{cols} --weights {file} --steps {steps} --div {div} --edge 7 --around {around}"
    )
}

/// What messages are like, in drawn numbers.
fn drawn_messages(alloc: Global, draw: &mut Draw) -> Result<String, AllocError> {
    let send = draw.one_of(["1", "2", "3", "8"]);
    let recv = draw.one_of(["1", "2", "5", "12"]);
    let grain = draw.one_of(["1", "8", "20", "1000"]);
    let depth = 1 + draw.below(4);
    format!(in alloc; "--send-parts {send} --recv-parts {recv} --grain {grain} --depth {depth}")
}

/// Compares what a stencil prints alone and over a plan.
fn compare(rt: &impl Abort, alloc: Global, alone: &str, plan: &str) -> Result<(), Fail> {
    let whole: (u32, &[u32]) = (200, &[]);
    let shared = format!(in alloc; "{alone} {plan}")?;
    let wanted = ended(alloc, alone, &[], whole, &[])?;
    let got = ended(alloc, &shared, &[], whole, &[])?;
    assert!(rt; wanted.starts_with("0 "), "{alone}: {wanted}");
    assert_eq!(rt; got.as_str(), wanted.as_str(), "{shared}");
    Ok(())
}

#[test]
fn plans_print_what_one_thread_prints(rt: HostRuntime) -> Result<(), Fail> {
    let alloc = rt.alloc();
    let mut draw = Draw { state: 1 };
    for case in 0..80 {
        let reach = 1 + case % 2;
        let rows = reach + draw.below(12);
        let cols = reach + draw.below(12);
        let alone = drawn_stencil(alloc, &mut draw, reach, rows, cols)?;
        let messages = drawn_messages(alloc, &mut draw)?;
        let ranks = 1 + draw.below((rows / reach).clamp(1, 64));
        let tile_rows = 1 + draw.below((rows / reach).clamp(1, 8));
        let tile_cols = 1 + draw.below((cols / reach).clamp(1, 8));
        let over_ranks = format!(in alloc; "--ranks {ranks} {messages}")?;
        let in_tiles = format!(in alloc; "--tiles {tile_rows},{tile_cols} {messages}")?;
        compare(&rt, alloc, &alone, &over_ranks)?;
        compare(&rt, alloc, &alone, &in_tiles)?;
    }
    Ok(())
}
