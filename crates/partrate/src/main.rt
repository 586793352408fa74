//! `partrate`: how fast the running pair is, on this machine.
#![tactic(auto)]

mod bytes;
mod fault;
mod measuring;
mod plan;
mod receiving;
mod report;
mod sending;
mod shared;
mod threads;
mod times;
mod watching;
mod words;

use fault::Fault;
use std::process::ExitCode;
use std::{env, io};
use words::Reading;

fn main(rt: HostRuntime) -> io::Result<ExitCode> {
    let words: Vec<String> = env::args(&rt)?.collect(rt.alloc())?;
    match words::read(rt.alloc(), &words) {
        Ok(Reading::Plan(plan)) => match measuring::measure(&rt, rt.alloc(), plan) {
            Ok(figures) => report::print(&rt, &figures),
            Err(fault) => report::fail(&rt, fault),
        },
        Ok(Reading::Usage(text)) => report::explain(&rt, &text),
        Err(fault) => report::fail(&rt, fault),
    }
}
