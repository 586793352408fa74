//! `poolrate`: how many turns a second a pool gives. Its words are a kind of job, how many jobs, how many turns each
//! has, and how many workers. It prints the turns, and on standard error the nanoseconds that they took.
//!
//! Kinds: `empty` (a turn does nothing), `work` (a turn takes some microseconds), `long` (the same, but all jobs but
//! the first have a hundredth of the turns), `halo` (a job moves once its neighbours in the list have made as many
//! steps, and a turn that has to wait yields), `spin` (the same, without a yield).
#![tactic(auto)]

ghost use Rattle.std.specs.Prelude.{◌≡◌};

use rank_pool::{Job, JobTurn, OpenGate, run_pool};
use std::alloc::{AllocError, Global};
use std::rt::Clock;
use std::sync::Wait;
use std::sync::atomic::{AtomicU64, Ordering};
use std::thread::Threads;
use std::time::Instant;
use std::{env, hint, io, thread};

#[derive(Clone, Copy)]
enum Kind {
    Empty,
    Work,
    Halo,
    Spin,
}

/// How many steps each job has made.
#[derive(Drop)]
struct Steps {
    made: Vec<AtomicU64>,
}

impl Steps {
    fn new(alloc: Global, jobs: u64) -> Result<Steps, AllocError> {
        let mut made = Vec::new(alloc);
        for _ in 0..jobs {
            made.push(AtomicU64::new(0))?;
        }
        Ok(Steps { made })
    }

    /// How many steps the job at this place has made. Where there is none, it holds nobody up.
    fn at(&self, place: u64) -> u64 {
        match self.made.as_slice().get(place as usize) {
            Some(steps) => steps.load(Ordering::SeqCst),
            None => u64::MAX,
        }
    }

    /// Whether the neighbours of this job have made as many steps as it has.
    fn may_step(&self, place: u64) -> bool {
        let made = self.at(place);
        self.at(place.wrapping_sub(1)) >= made && self.at(place.wrapping_add(1)) >= made
    }

    fn note(&self, place: u64) {
        if let Some(steps) = self.made.as_slice().get(place as usize) {
            steps.fetch_add(1, Ordering::SeqCst);
        }
    }
}

#[derive(Drop)]
struct Rated {
    kind: Kind,
    place: u64,
    left: u64,
    word: u64,
}

/// Takes some microseconds.
fn churn(word: u64) -> u64 {
    let mut x = word;
    for _ in 0..1600 {
        x ^= x << 13;
        x ^= x >> 7;
        x ^= x << 17;
    }
    hint::black_box(x)
}

impl Rated {
    /// Whether this turn moves the job.
    fn moves(&mut self, steps: &Steps) -> bool
        ensures place { self.new.place ≡ self.old.place }
        ensures left { self.new.left ≡ self.old.left }
    {
        match self.kind {
            Kind::Empty => true,
            Kind::Work => {
                self.word = churn(self.word);
                true
            }
            Kind::Halo => self.steps_on(steps, true),
            Kind::Spin => self.steps_on(steps, false),
        }
    }

    /// Makes a step, if the neighbours let it.
    fn steps_on(&mut self, steps: &Steps, yields: bool) -> bool
        ensures place { self.new.place ≡ self.old.place }
        ensures left { self.new.left ≡ self.old.left }
    {
        let may = steps.may_step(self.place);
        if may {
            self.word = churn(self.word);
            steps.note(self.place);
        } else if yields {
            thread::yield_now();
        }
        may
    }
}

impl Job for Rated {
    type Shared = Steps;

    ghost use Rattle.std.specs.Prelude.{nat_eq};

    ghost over = { λ s. nat_eq s.left 0 };

    ghost which = { λ s. s.place };

    ghost belongs = { λ s shared. Unit {0} };

    fn turn(&mut self, steps: &Steps) -> JobTurn {
        if self.left > 0 && self.moves(steps) {
            self.left -= 1;
        }
        if self.left == 0 {
            JobTurn::Over
        } else {
            JobTurn::More
        }
    }
}

/// What the words ask for.
#[derive(Drop)]
struct Plan {
    kind: Kind,
    jobs: u64,
    turns: u64,
    turns_after: u64,
    workers: u32,
}

fn number(words: &[String], at: usize) -> u64 {
    match words.get(at) {
        Some(word) => word.parse().unwrap_or(0),
        None => 0,
    }
}

fn plan_of(words: &[String]) -> Plan {
    let name = match words.first() {
        Some(word) => word.as_str(),
        None => "",
    };
    let kind = match name {
        "work" | "long" => Kind::Work,
        "halo" => Kind::Halo,
        "spin" => Kind::Spin,
        _ => Kind::Empty,
    };
    let turns = number(words, 2);
    Plan {
        kind,
        jobs: number(words, 1),
        turns,
        turns_after: if name == "long" { turns / 100 } else { turns },
        workers: number(words, 3).min(1024) as u32,
    }
}

fn list_of(alloc: Global, plan: &Plan) -> Result<Vec<Rated>, AllocError> {
    let mut list = Vec::new(alloc);
    for place in 0..plan.jobs {
        let left = if place > 0 {
            plan.turns_after
        } else {
            plan.turns
        };
        list.push(Rated {
            kind: plan.kind,
            place,
            left,
            word: place | 1,
        })?;
    }
    Ok(list)
}

/// How many jobs came back, and the nanoseconds that it took.
fn timed<R: Threads + Wait + Sync + Clock>(
    rt: &R,
    alloc: Global,
    plan: &Plan,
) -> io::Result<(usize, u128)> {
    let list = list_of(alloc, plan)?;
    if list.len() > 1_000_000 || plan.workers == 0 {
        return Ok((0, 0));
    }
    let steps = Steps::new(alloc, plan.jobs)?;
    let start = Instant::now(rt)?;
    let back = match run_pool(rt, alloc, list, &steps, plan.workers, &OpenGate) {
        Ok(back) => back.len(),
        Err(_) => 0,
    };
    Ok((back, start.elapsed(rt)?.as_nanos()))
}

fn main(rt: HostRuntime) -> io::Result<()> {
    let words: Vec<String> = env::args(&rt)?.skip(1).collect(rt.alloc())?;
    let plan = plan_of(words.as_slice());
    let (back, passed) = timed(&rt, rt.alloc(), &plan)?;
    eprintln!(rt; "{passed}")?;
    println!(rt; "{back} jobs over")
}
