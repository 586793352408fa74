//! Words as the steps make them.

ghost use Rattle.std.specs.Prelude.{◌≡◌, ◌<◌, ◌≤◌, ◌^◌, bit_or};
ghost use Rattle.part_geometry.specs.declared.TheConstants.{LAST_ROUND};
ghost use Rattle.pair_core.specs.Words.{bit, empty};

use gate_word::pack;

/// The bit that says whether a word is shut.
pub(crate) const SHUT: u32 = 32;

/// The open word of a round with no bit set.
#[tactic(auto, unfolding(crate::specs::Words::empty))]
pub(crate) fn empty_word(round: u32) -> u64
    requires { round ≤ LAST_ROUND }
    ensures { result ≡ empty round }
{
    pack(round, false, 0)
}

/// A bit of a word, 0 or 1.
#[tactic(auto, unfolding(crate::specs::Words::bit))]
pub(crate) fn bit_of(word: u64, j: u32) -> u64
    requires { j < 33 }
    ensures { result ≡ bit word j }
{
    (word >> j) % 2
}

/// The word with a bit set.
pub(crate) fn with_bit(word: u64, j: u32) -> u64
    requires { j < 33 }
    ensures { result ≡ bit_or word (2 ^ j) }
{
    word | (1 << j)
}
