#![tactic(auto)]

ghost use Rattle.std.specs.Prelude.{◌≡◌, IsTrue};
ghost use Rattle.gate_word.specs.Order.{IsLater};

use gate_word::{join, later, pack, round_of, word_laws};

/// The word with these bits too, in its round.
pub fn gained(w: u64, bits: u32) -> u64
    ensures { IsLater w result }
{
    join(w, pack(round_of(w), false, bits))
}

/// Whether neither word is behind the other.
pub fn is_same(a: u64, b: u64) -> bool
    ensures { IsTrue result → a ≡ b }
{
    word_laws();
    later(a, b) && later(b, a)
}
