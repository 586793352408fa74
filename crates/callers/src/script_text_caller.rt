#![tactic(auto)]

use script_text::{MAX_SCRIPT_BYTES, Script, ScriptFault, parse_script};
use std::alloc::Global;

/// The script of a text, where the text isn't too long.
pub fn script(alloc: Global, text: &[u8]) -> Option<Result<Script, ScriptFault>> {
    if text.len() > MAX_SCRIPT_BYTES {
        return None;
    }
    Some(parse_script(alloc, text))
}
