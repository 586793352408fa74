//! The words before the first step.

ghost use Rattle.std.specs.Prelude.{◌≡◌, ◌∷◌, [], ◌+◌, ◌*◌, ◌-◌, ◌<◌, ◌≤◌, ◌^◌, true, IfOk, length};
ghost use Rattle.gate_word.specs.Words.{word_of};
ghost use Rattle.part_geometry.specs.Pieces.{pieces, need};
ghost use Rattle.pair_core.specs.Names.{Name, Fits, number};
ghost use Rattle.pair_core.specs.Moves.{first_word, part_mask};
ghost use Rattle.pair_core.specs.declared.seat.Seat.{Seat};
ghost use Rattle.pair_core.specs.State.{IsFresh, ListsWords, word_count};

use crate::seat::Seat;
use crate::tables::Tables;
use gate_word::pack;
use std::alloc::{AllocError, Global};

/// A number with its `n` lowest bits set.
fn low_bits(n: u32) -> u32
    requires { n ≤ 32 }
    ensures { result ≡ 2 ^ n - 1 }
{
    ((1u64 << n) - 1) as u32
}

/// A bit for each partition of word `c`.
fn part_bits(parts: u32, c: usize) -> u32
    requires few { parts ≤ 1024 }
    requires some { 32 * c < parts }
    ensures { result ≡ part_mask parts c }
{
    low_bits((parts - 32 * c as u32).min(32))
}

/// A bit for each send partition that a piece touches.
#[tactic(auto, unfolding(part_geometry::specs::Pieces::need))]
fn piece_bits(tables: &Tables, i: usize) -> u32
    requires { i < pieces tables.now }
    ensures { result ≡ need tables.now i }
{
    // The geometry's limits, for the proof.
    let _geometry = tables.geometry();
    low_bits(tables.part_count(i))
}

/// The word with a number, before the first step.
fn first_word_at(tables: &Tables, n: usize) -> u64
    requires { n < word_count tables.now }
    ensures { (x : Name) → Fits tables.now x → number tables.now x ≡ n → result ≡ first_word tables.now x }
{
    let geometry = tables.geometry();
    let claims = tables.claim_words();
    let takes = tables.take_words();
    if n < claims {
        return pack(0, true, part_bits(geometry.send_parts(), n));
    }
    if n == claims {
        return pack(0, false, 0);
    }
    if n < claims + 1 + takes {
        return pack(0, false, part_bits(geometry.recv_parts(), n - claims - 1));
    }
    if n < claims + 1 + 2 * takes {
        let t = n - claims - 1 - takes;
        return pack(0, false, part_bits(geometry.recv_parts(), t));
    }
    let i = (n - claims - 1 - 2 * takes) % tables.pieces();
    pack(0, false, piece_bits(tables, i))
}

/// The words before the first step, by number.
pub(crate) fn first_words(alloc: Global, tables: &Tables) -> Result<Vec<u64>, AllocError>
    ensures size { IfOk result (λ words. length words.items ≡ word_count tables.now) }
    ensures words { IfOk result (λ words. ListsWords tables.now words.items (first_word tables.now)) }
{
    let geometry = tables.geometry();
    let count = tables.first_piece_word() + geometry.depth() as usize * tables.pieces();
    let mut words = Vec::new(alloc);
    for n in 0..count {
        words.push(first_word_at(tables, n))?;
    }
    Ok(words)
}

/// The views of the two sides before the first step.
pub(crate) fn first_seats(
    alloc: Global,
    tables: &Tables,
    words: &[u64],
) -> Result<Vec<Seat>, AllocError>
    requires size { length words.now ≡ word_count tables.now }
    requires words { ListsWords tables.now words.now (first_word tables.now) }
    ensures { IfOk result (λ seats. (v : Seat) × (w : Seat) × (seats.items ≡ v ∷ w ∷ []) × IsFresh tables.now v
        × IsFresh tables.now w × (v.seat ≡ 0) × (w.seat ≡ 1)) }
{
    // The geometry's limits, for the proof.
    let _geometry = tables.geometry();
    let mut seats = Vec::new(alloc);
    seats.push(Seat::new(alloc, 0, words)?)?;
    seats.push(Seat::new(alloc, 1, words)?)?;
    Ok(seats)
}
