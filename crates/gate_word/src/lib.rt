//! Gate words: the round, whether it is shut, and the bits that one atomic word of a pair has, and their order.
#![tactic(auto)]

mod order;
mod word;

pub use order::{join, later};
pub use word::{bits_of, is_shut, pack, round_of, word_laws};
