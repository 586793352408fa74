//! `partstencil`: its words, the files and the standard streams, given to `stencil_top`.
#![tactic(auto)]

use part_io::{FileShelf, NoteSink, OutSink};
use std::env;
use std::io::ErrorKind;
use std::process::ExitCode;
use std::rt::Env;
use stencil_top::{Note, run_serial, tell};

/// The words of the command line, without the program's name.
fn words<R: Env + AllocGlobal>(rt: &R) -> Result<Vec<String>, Note> {
    match env::args(rt) {
        Ok(words) => words
            .skip(1)
            .collect(rt.alloc())
            .map_err(|_| Note::OutOfMemory),
        Err(error) if error.kind() == ErrorKind::OutOfMemory => Err(Note::OutOfMemory),
        Err(_) => Err(Note::Usage),
    }
}

fn main(rt: HostRuntime) -> ExitCode {
    let mut note = NoteSink::new(rt.stderr());
    let status = match words(&rt) {
        Ok(words) => run_serial(
            rt.alloc(),
            &words,
            &mut FileShelf::new(&rt),
            &mut OutSink::new(rt.stdout()),
            &mut note,
        ),
        Err(cause) => tell(&mut note, cause),
    };
    ExitCode::from(status.code())
}
