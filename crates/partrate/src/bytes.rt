//! The bytes that are marked: they tell their round and their place.

ghost use Rattle.std.specs.Prelude.{◌≤◌};

/// The word at a place of 8 bytes in a round. Each of its bytes differs from that of the 4 rounds before.
fn word_of(round: u32, word: usize) -> u64 {
    let first = u64::from(round).wrapping_mul(0x9E37_79B9_7F4A_7C15);
    first.wrapping_add((word as u64).wrapping_mul(0xD1B5_4A32_D192_ED03))
}

/// The byte at a place of the message in a round.
fn byte_of(round: u32, place: usize) -> u8 {
    word_of(round, place / 8).to_le_bytes()[place % 8]
}

/// How many of `count` bytes from a place on lie before the next whole word.
fn head_of(place: usize, count: usize) -> usize
    ensures { result ≤ count }
{
    ((8 - place % 8) % 8).min(count)
}

/// Fills the bytes from a place of the message on, byte by byte.
fn fill_bytes(bytes: &mut [u8], place: usize, round: u32) {
    let mut at = place;
    for byte in bytes.iter_mut() {
        *byte = byte_of(round, at);
        at = at.wrapping_add(1);
    }
}

/// Whether bytes from a place of the message on are those that are filled there.
fn are_bytes(bytes: &[u8], place: usize, round: u32) -> bool {
    let mut at = place;
    for byte in bytes {
        if *byte != byte_of(round, at) {
            return false;
        }
        at = at.wrapping_add(1);
    }
    true
}

/// Fills the bytes from a place of the message on, for a round.
pub fn fill(bytes: &mut [u8], place: usize, round: u32) {
    let (head, rest) = bytes.split_at_mut(head_of(place, bytes.len()));
    fill_bytes(head, place, round);
    let mut at = place.wrapping_add(head.len());
    let mut word = word_of(round, at / 8);
    let (chunks, tail) = rest.as_chunks_mut::<8>();
    for chunk in chunks.iter_mut() {
        *chunk = word.to_le_bytes();
        word = word.wrapping_add(word_of(0, 1));
        at = at.wrapping_add(8);
    }
    fill_bytes(tail, at, round);
}

/// Whether bytes from a place of the message on are those that `fill` makes.
pub fn check(bytes: &[u8], place: usize, round: u32) -> bool {
    let (head, mut rest) = bytes.split_at(head_of(place, bytes.len()));
    let mut at = place.wrapping_add(head.len());
    let mut word = word_of(round, at / 8);
    let mut wrong = 0;
    while let Some((chunk, more)) = rest.split_first_chunk::<8>() {
        wrong |= u64::from_le_bytes(*chunk) ^ word;
        word = word.wrapping_add(word_of(0, 1));
        at = at.wrapping_add(8);
        rest = more;
    }
    wrong == 0 && are_bytes(head, place, round) && are_bytes(rest, at, round)
}
