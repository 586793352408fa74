//! The order in which words change, and the join of two words.

ghost use Rattle.std.specs.Prelude.{◌≡◌, ◌↔◌, IsTrue};
ghost use Rattle.gate_word.specs.Order.{AreIn, IsLater, IsLeastAbove, join_of};

use crate::{bits_of, is_shut, pack, round_of};

/// Whether each bit of `m` is one of `n`.
fn all_in(m: u32, n: u32) -> bool
    ensures { IsTrue result ↔ AreIn m n }
{
    m & n == m
}

/// Whether word `b` is word `a` or later: its round is greater or, in one round, it has all the bits of `a` and is
/// shut if `a` is. Two words of one round may be neither.
pub fn later(a: u64, b: u64) -> bool
    ensures exact { IsTrue result ↔ IsLater a b }
{
    if round_of(a) != round_of(b) {
        return round_of(a) < round_of(b);
    }
    all_in(bits_of(a), bits_of(b)) && (is_shut(b) || !is_shut(a))
}

/// The least word that is later than both, or one of them: the one of the greater round or, in one round, the word
/// with the bits of both, shut where one is.
#[tactic(auto, using(crate::proofs::Laws::join_second, crate::proofs::Laws::join_first, crate::proofs::Laws::least))]
pub fn join(a: u64, b: u64) -> u64
    ensures value { result ≡ join_of a b }
    ensures least { IsLeastAbove a b result }
{
    let (round, other) = (round_of(a), round_of(b));
    if round < other {
        return b;
    }
    if other < round {
        return a;
    }
    pack(round, is_shut(a) || is_shut(b), bits_of(a) | bits_of(b))
}
