//! Words that were worked out by hand.

use gate_word::{bits_of, is_shut, join, later, pack, round_of};

#[test]
fn a_word_has_its_round_and_its_shut_bit_and_its_bits(rt: HostRuntime) {
    let cases = [
        ((5, false, 5), 42_949_672_965),
        ((5, true, 5), 47_244_640_261),
        ((0, true, 1), 4_294_967_297),
        ((1, false, 1), 8_589_934_593),
        ((1, false, 65_536), 8_590_000_128),
        (
            (2_147_483_647, true, 4_294_967_295),
            18_446_744_073_709_551_615,
        ),
    ];
    for ((round, shut, bits), word) in cases {
        let read = (round_of(word), is_shut(word), bits_of(word));
        let made = pack(round, shut, bits);
        assert_eq!(rt; (made, read), (word, (round, shut, bits)));
    }
}

#[test]
fn words_are_in_order_and_joined(rt: HostRuntime) {
    let (open, shut) = (42_949_672_965, 47_244_640_261);
    let cases = [
        (open, shut, (true, false, shut)),
        (shut, pack(6, false, 0), (true, false, pack(6, false, 0))),
        (
            pack(5, false, 1),
            pack(5, false, 2),
            (false, false, pack(5, false, 3)),
        ),
    ];
    for (a, b, wanted) in cases {
        assert_eq!(rt; (later(a, b), later(b, a), join(a, b)), wanted);
    }
}
