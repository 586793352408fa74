//! What is printed.

use crate::fault::Fault;
use crate::measuring::Figures;
use std::io;
use std::io::{Eprint, Print};
use std::process::ExitCode;

/// Prints the figures, a line each.
pub fn print<R: Print>(rt: &R, figures: &Figures) -> io::Result<ExitCode> {
    println!(rt; "rounds {:.0} a second", figures.rounds)?;
    println!(rt; "marks {:.0} a second", figures.marks)?;
    println!(rt; "bytes {:.0} a second", figures.bytes)?;
    println!(rt; "first {} ns after its mark", figures.first.as_nanos())?;
    if let Some(quick) = figures.quick {
        println!(rt; "quick {quick:.0} rounds a second in the quickest twentieth")?;
    }
    Ok(ExitCode::SUCCESS)
}

/// Prints how the program is used.
pub fn explain<R: Print>(rt: &R, text: &str) -> io::Result<ExitCode> {
    print!(rt; "{text}")?;
    Ok(ExitCode::SUCCESS)
}

/// Says on standard error why nothing was measured.
pub fn fail<R: Eprint>(rt: &R, fault: Fault) -> io::Result<ExitCode> {
    eprintln!(rt; "partrate: {fault}")?;
    Ok(ExitCode::from(fault.status()))
}
