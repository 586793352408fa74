//! What the program writes to.

ghost use Rattle.std.specs.Prelude.{ℕ, List, Option};
ghost use Rattle.part_io.specs.Causes.{HasCause};
ghost use Rattle.part_io.specs.Sink.{Writes};

use crate::Failed;

/// Takes bytes, piece after piece.
pub trait Sink {
    /// The bytes written so far, where the sink tells them.
    ghost written: { Self → Option (List ℕ) };

    /// How often the outside has failed. The count never falls, and may stop at the last of a `u64`.
    ghost faults: { Self → ℕ };

    /// Adds the piece. It takes no memory.
    ///
    /// On `Failed` a front of the piece was added, maybe none of it, and a fault was counted.
    fn write(&mut self, piece: &[u8]) -> Result<(), Failed>
        ensures adds { Writes (written self.old) (written self.new) piece.now result }
        ensures cause { HasCause (faults self.old) (faults self.new) result };
}
