//! The words of the command `stencil`, read into typed values.
#![tactic(auto)]

mod command;
mod file_name;
mod options;
mod read;
mod words;

pub use file_name::FileName;
pub use options::is_value;
pub use read::read_words;
pub use words::{MAX_STEPS, PlanWords, Size, Source, StencilWords, TileWords};
