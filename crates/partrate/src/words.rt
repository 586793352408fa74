//! The words of the command line, read by `clap`.

use crate::fault::Fault;
use crate::plan::Plan;
use clap::error::ErrorKind;
use clap::{Arg, ArgMatches, Command, value_parser};
use part_geometry::Geometry;
use std::alloc::{AllocError, Global};
use std::time::Duration;

/// What the words ask for.
#[derive(Drop)]
pub enum Reading {
    /// To measure.
    Plan(Plan),
    /// To tell how the program is used: the text.
    Usage(String),
}

/// An option with a number.
fn option<'a>(
    alloc: Global,
    name: &'a str,
    letter: &'a str,
    default: &'a str,
    help: &'a str,
) -> Arg<'a> {
    Arg::new(alloc, name)
        .long(name)
        .value_name(letter)
        .default_value(default)
        .value_parser(value_parser!(u32))
        .help(help)
}

/// The command with its options.
fn command<'a>(alloc: Global) -> Result<Command<'a>, AllocError> {
    let options = [
        ("send-parts", "P", "1", "send partitions, 1 to 1024"),
        ("recv-parts", "Q", "1", "receive partitions, 1 to 1024"),
        ("bytes", "B", "8", "bytes of a send partition, 1 to 1048576"),
        (
            "grain",
            "G",
            "1",
            "bytes that a piece has at least, 1 to 16777216",
        ),
        ("depth", "D", "1", "rounds in flight, 1 to 4"),
        ("rounds", "N", "1", "rounds in all, 1 to 2147483647"),
        ("markers", "M", "1", "threads that mark, 1 to 256"),
        ("watchers", "W", "0", "threads that watch, 0 to 256"),
        (
            "pause",
            "U",
            "0",
            "microseconds that a marking thread sleeps halfway",
        ),
    ];
    let mut command = Command::new(alloc, "partrate");
    for (name, letter, default, help) in options.iter() {
        command = command.arg(option(alloc, name, letter, default, help))?;
    }
    Ok(command)
}

/// The number of an option. Each has a default, so each has one.
fn number(matches: &ArgMatches<'_>, name: &str) -> u32 {
    matches.get_one::<u32>(name).unwrap_or(0)
}

/// The bytes of a receive partition, where the partitions divide so many bytes evenly.
fn share(total: u64, recv_parts: u32) -> Result<u32, Fault> {
    let parts = u64::from(recv_parts);
    if parts == 0 || total % parts != 0 {
        return Err(Fault::Uneven { total, recv_parts });
    }
    u32::try_from(total / parts).map_err(|_| Fault::Uneven { total, recv_parts })
}

/// The plan that the options make.
fn plan(matches: &ArgMatches<'_>) -> Result<Plan, Fault> {
    let send_parts = number(matches, "send-parts");
    let recv_parts = number(matches, "recv-parts");
    let bytes = number(matches, "bytes");
    let recv_bytes = share(u64::from(send_parts) * u64::from(bytes), recv_parts)?;
    let geometry = Geometry::new(
        send_parts,
        bytes,
        recv_parts,
        recv_bytes,
        number(matches, "grain"),
        number(matches, "depth"),
    )
    .map_err(Fault::BadGeometry)?;
    Plan::new(
        geometry,
        number(matches, "rounds"),
        number(matches, "markers"),
        number(matches, "watchers"),
        Duration::from_micros(u64::from(number(matches, "pause"))),
    )
}

/// Reads the words, of which the first is the program's name. Without another one they ask for the usage.
pub fn read(alloc: Global, words: &[String]) -> Result<Reading, Fault> {
    let mut command = command(alloc)?;
    if words.len() < 2 {
        return Ok(Reading::Usage(command.render_help()?));
    }
    match command.try_get_matches_from(words) {
        Ok(matches) => Ok(Reading::Plan(plan(&matches)?)),
        Err(error) => match error.kind() {
            ErrorKind::DisplayHelp => Ok(Reading::Usage(format!(in alloc; "{error}")?)),
            ErrorKind::OutOfMemory => Err(Fault::OutOfMemory(AllocError)),
            _ => Err(Fault::BadWords),
        },
    }
}
