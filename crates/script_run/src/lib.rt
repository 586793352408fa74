//! Scripts of calls on pairs of partitioned requests, run.
#![tactic(auto)]

mod laws;
mod names;
mod pairs;
mod report;
mod requests;
mod run;
mod texts;

pub use laws::pair_laws;
pub use run::run_script;
pub use script_text::{Script, ScriptFault, parse_script};
