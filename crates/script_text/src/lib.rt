//! The text of a script, read into typed calls. A script has a line a call: the world, the two sides of each
//! message, what is done with them, and `end`.
#![tactic(auto)]

mod call;
mod fault;
mod reading;
mod script;
mod words;

pub use call::{Action, Bytes, Call, Init, Name, Parts};
pub use fault::ScriptFault;
pub use script::{Limits, Script, parse_script};

/// The most bytes of a script.
pub const MAX_SCRIPT_BYTES: usize = 1_048_576;
