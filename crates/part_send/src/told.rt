//! The claim word that a marker keeps.

ghost use Rattle.std.specs.Prelude.{◌≡◌, ◌-◌, ◌^◌};

/// A claim word as a marker has seen it last, with its number. The number is `u32::MAX` where none is known.
#[derive(Clone, Copy)]
pub(crate) struct Told {
    pub(crate) number: u32,
    pub(crate) word: u64,
}

/// No claim word is known.
pub(crate) fn none_told() -> Told
    ensures { result.number ≡ 2 ^ 32 - 1 }
{
    Told {
        number: u32::MAX,
        word: 0,
    }
}
