//! Which bytes a mark may put where.

/// What the marks of a pair may say. `may` says of a tag, a round, a place of the message and a byte that a mark may
/// put that byte there in that round. Each pair has a tag, which is chosen at its creation and which contracts alone
/// see.
pub trait Content {
    ghost use Rattle.std.specs.Prelude.{ℕ};

    /// What `may` depends on. A tag that speaks of a large value holds it in a `Snapshot`, without its bytes.
    type Tag: Drop;

    ghost may: { Self.Tag → ℕ → ℕ → ℕ → Type 0 };
}

/// The content that allows every byte.
pub struct AnyBytes;

impl Content for AnyBytes {
    type Tag = ();

    ghost may = { λ _ _ _ _. Unit {0} };
}
