//! A matched pair of a script: what it answers to the actions on its two requests.
#![tactic(auto)]

mod action;
mod held;
mod laws;
mod texts;

pub use action::is_wrong_side;
pub use held::MatchedPair;
pub use laws::answer_laws;
pub use texts::closed;
