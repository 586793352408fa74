//! What the program reads from.

ghost use Rattle.std.specs.Prelude.{◌≡◌, ◌≤◌, ℕ, List, Option, IfOk, vec_len};
ghost use Rattle.part_io.specs.Shelf.{Reads, HasReadCause};

use crate::ReadAnswer;
use std::alloc::Global;

/// A shelf of files, read by name.
pub trait Shelf {
    /// The files, where the shelf tells them: the bytes of each name that it has.
    ghost files: { Self → Option (List ℕ → Option (List ℕ)) };

    /// How often the outside has failed. The count never falls, and may stop at the last of a `u64`.
    ghost faults: { Self → ℕ };

    /// The bytes of a file, of which there are at most `limit`.
    ///
    /// A longer file is `TooLong`, with that limit. `Missing` is a name that a shelf which tells its
    /// files does not have. `Failed` is a fault of the outside, which is counted, and `NoMemory` may
    /// be the answer to any read. A read changes no file.
    fn read(&mut self, alloc: Global, name: &str, limit: u32) -> Result<Vec<u8>, ReadAnswer>
        ensures answer { Reads (files self.old) name.now limit result }
        ensures within { IfOk result (λ bytes. vec_len bytes ≤ limit) }
        ensures files { files self.new ≡ files self.old }
        ensures cause { HasReadCause (faults self.old) (faults self.new) result };
}
