//! Laws of the receive end, for proofs; the bodies are empty.

ghost use Rattle.part_recv.specs.Seeing.{AreThePieces};
ghost use Rattle.part_recv.specs.Receiving.{FirstRests};

/// The pieces over a receive partition are those that touch it.
pub fn piece_laws()
    ensures { AreThePieces }
{}

/// The receive seat of a new pair is one that an end may be made of.
pub fn first_laws()
    ensures { FirstRests }
{}
