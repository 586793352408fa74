#![tactic(auto)]

use part_api::Side;
use script_pair::MatchedPair;
use script_text::Action;
use std::alloc::{AllocError, Global};

/// Whether the sender is given up.
pub fn is_given_up(alloc: Global, pair: &mut MatchedPair) -> Result<bool, AllocError> {
    let text = pair.answer(alloc, Side::SendSide, &Action::Free)?;
    Ok(text.as_str() == "ok")
}
