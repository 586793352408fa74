//! A word of 64 bits: the round above, one bit for shut, and 32 bits below.

ghost use Rattle.std.specs.Prelude.{◌≡◌, ◌<◌, ◌^◌};
ghost use Rattle.gate_word.specs.Words.{Has, IsPacking, word_of, round_in, shut_in, bits_in};
ghost use Rattle.gate_word.specs.Order.{IsJoin, IsPartialOrder};

/// One more than the greatest number of 32 bits.
const BITS_END: u64 = 1 << 32;

/// The word of a round, below 2^31, that is open or shut, with 32 bits that stand for partitions: bit `b` is worth
/// 2^b. The word is `round * 2^33 + shut * 2^32 + bits`.
pub fn pack(round: u32, shut: bool, bits: u32) -> u64
    requires round { round < 2 ^ 31 }
    ensures value { result ≡ word_of round shut bits }
    ensures parts { Has result round shut bits }
{
    (u64::from(round) << 33) | (u64::from(shut) << 32) | u64::from(bits)
}

/// The round of a word, 0 to 2,147,483,647.
#[tactic(auto, unfolding(crate::specs::Words::round_in))]
pub fn round_of(w: u64) -> u32
    ensures value { result ≡ round_in w }
    ensures limit { result < 2 ^ 31 }
{
    (w >> 33) as u32
}

/// Whether a word is shut.
#[tactic(auto, unfolding(crate::specs::Words::shut_in))]
pub fn is_shut(w: u64) -> bool
    ensures value { result ≡ shut_in w }
{
    (w >> 32) % 2 == 1
}

/// The 32 bits of a word: bit `b` is worth 2^b.
#[tactic(auto, unfolding(crate::specs::Words::bits_in))]
pub fn bits_of(w: u64) -> u32
    ensures value { result ≡ bits_in w }
{
    (w % BITS_END) as u32
}

/// What holds of all words, for proofs; the body is empty. Making a word and reading it undo each other, `later` is
/// a partial order, and the join of two words is the least word above both.
#[tactic(auto, using(crate::proofs::Packing::packing, crate::proofs::Laws::order, crate::proofs::Laws::joins))]
pub fn word_laws()
    ensures packing { IsPacking }
    ensures order { IsPartialOrder }
    ensures join { IsJoin }
{}
