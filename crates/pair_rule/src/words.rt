//! Where the words of a pair stand in its table.

ghost use Rattle.std.specs.Prelude.{◌≡◌, ◌+◌, ◌*◌, ◌<◌, ◌≤◌, ◌^◌};
ghost use Rattle.part_geometry.specs.Pieces.{pieces};
ghost use Rattle.pair_core.specs.Names.{Claim, Release, Take, Return, Piece, claim_words, take_words};
ghost use Rattle.pair_core.specs.Words.{empty};
ghost use Rattle.part_geometry.specs.declared.TheConstants.{LAST_ROUND, MAX_PARTS};
ghost use Rattle.part_geometry.specs.Cells.{cells};
ghost use Rattle.pair_rule.specs.Addresses.{address, table_size};
ghost use Rattle.pair_rule.specs.Rule.{slot_number, slot_row};
ghost use Rattle.pair_rule.specs.declared.TheConstants.{FREE_SLOTS};

use crate::{FREE_SLOTS, FREE_WORDS};
use gate_word::pack;
use part_tables::Tables;

/// How many claim words there are.
pub(crate) fn claim_words(tables: &Tables) -> usize
    ensures value { result ≡ claim_words tables.now }
    ensures limits { result ≤ 32 }
{
    (tables.geometry().send_parts() as usize).div_ceil(32)
}

/// How many take words there are, and as many return words.
pub(crate) fn take_words(tables: &Tables) -> usize
    ensures value { result ≡ take_words tables.now }
    ensures limits { result ≤ 32 }
{
    (tables.geometry().recv_parts() as usize).div_ceil(32)
}

/// Where claim word `c` stands.
pub(crate) fn claim_word(tables: &Tables, c: usize) -> usize
    requires { c < claim_words tables.now }
    ensures value { result ≡ address tables.now (Claim c) }
    ensures inside { result < table_size tables.now }
{
    // The geometry's limits, for the proof.
    let _geometry = tables.geometry();
    FREE_WORDS + c
}

/// Where the release word stands.
pub(crate) fn release_word(tables: &Tables) -> usize
    ensures value { result ≡ address tables.now Release }
    ensures inside { result < table_size tables.now }
{
    2 * FREE_WORDS + claim_words(tables)
}

/// Where take word `t` stands.
pub(crate) fn take_word(tables: &Tables, t: usize) -> usize
    requires { t < take_words tables.now }
    ensures value { result ≡ address tables.now (Take t) }
    ensures inside { result < table_size tables.now }
{
    // The geometry's limits, for the proof.
    let _geometry = tables.geometry();
    3 * FREE_WORDS + claim_words(tables) + 1 + t
}

/// Where return word `t` stands.
pub(crate) fn return_word(tables: &Tables, t: usize) -> usize
    requires { t < take_words tables.now }
    ensures value { result ≡ address tables.now (Return t) }
    ensures inside { result < table_size tables.now }
{
    4 * FREE_WORDS + claim_words(tables) + 1 + take_words(tables) + t
}

/// Where the word of piece `i` at a place stands.
pub(crate) fn piece_word(tables: &Tables, place: usize, i: usize) -> usize
    requires place { place < tables.now.depth }
    requires piece { i < pieces tables.now }
    ensures value { result ≡ address tables.now (Piece place i) }
    ensures inside { result < table_size tables.now }
{
    // The geometry's limits, for the proof.
    let _geometry = tables.geometry();
    let row = tables.pieces() + FREE_WORDS;
    5 * FREE_WORDS + claim_words(tables) + 1 + 2 * take_words(tables) + (place * row + i)
}

/// How many slots a place has.
pub(crate) fn slot_row(tables: &Tables) -> usize
    ensures value { result ≡ slot_row tables.now }
    ensures limits { result < 2 * MAX_PARTS + FREE_SLOTS }
{
    tables.cells() + FREE_SLOTS
}

/// The number of the slot of cell `cell` at a place; or the one behind the place's last.
pub(crate) fn slot_of(tables: &Tables, place: usize, cell: usize) -> usize
    requires place { place < tables.now.depth }
    requires cell { cell ≤ cells tables.now }
    ensures { result ≡ slot_number tables.now place cell }
{
    // The geometry's limits, for the proof.
    let _geometry = tables.geometry();
    place * slot_row(tables) + cell
}

/// The number whose one bit is bit `j`.
pub(crate) fn one_bit(j: u32) -> u64
    requires { j < 33 }
    ensures { result ≡ 2 ^ j }
{
    1 << j
}

/// The open word of a round with no bit set.
#[tactic(auto, unfolding(pair_core::specs::Words::empty))]
pub(crate) fn empty_word(round: u32) -> u64
    requires { round ≤ LAST_ROUND }
    ensures { result ≡ empty round }
{
    pack(round, false, 0)
}
