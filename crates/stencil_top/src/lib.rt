//! What the program does with a command line: from words, a shelf of files and two sinks to the
//! status that it ends with.
#![tactic(auto)]

mod note;
mod reading;
mod serial;
mod status;
mod stencil;
mod words;

pub use note::{Line, Note, TextName, line_of, tell};
pub use serial::run_serial;
pub use status::Status;
