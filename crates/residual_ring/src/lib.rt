//! Runs over ranks that end where little changes: by how much a grid changed, how the ranks' changes make up the
//! grid's, and whether a run ends.
#![tactic(auto)]

mod change;
mod stop;

pub use change::{change_of, joined_change};
pub use stop::is_stop;
