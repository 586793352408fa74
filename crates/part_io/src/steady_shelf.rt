//! A shelf in memory.

ghost use Rattle.std.specs.Prelude.{◌≡◌, None, Some, OnOk, OnErr};

use crate::{ReadAnswer, Shelf};
use std::alloc::{AllocError, Global};
use std::collections::BTreeMap;

/// A shelf in memory, which tells its files and never fails.
#[derive(Drop)]
pub struct SteadyShelf {
    alloc: Global,
    files: BTreeMap<String, Vec<u8>>,
}

impl SteadyShelf {
    ghost use Rattle.part_io.specs.SteadyShelf.{held, Puts};

    /// A shelf with no files.
    pub fn new(alloc: Global) -> SteadyShelf
        ensures { (name : _) → held result name ≡ None }
    {
        SteadyShelf {
            alloc,
            files: BTreeMap::new(alloc),
        }
    }

    /// Adds a file, or puts these bytes in the place of those of that name.
    ///
    /// Where there is no memory, the shelf stays as it was.
    pub fn put(&mut self, name: &str, bytes: &[u8]) -> Result<(), AllocError>
        ensures ok { OnOk result (Puts (held self.old) (held self.new) name.now bytes.now) }
        ensures err { OnErr result (held self.new ≡ held self.old) }
    {
        let key = String::from_str(self.alloc, name)?;
        let copy = Vec::from_slice(self.alloc, bytes)?;
        self.files.insert(key, copy)?;
        Ok(())
    }
}

impl Shelf for SteadyShelf {
    ghost use Rattle.part_io.specs.SteadyShelf.{held};

    ghost files = { λ shelf. Some (held shelf) };

    ghost faults = { λ _. 0 };

    fn read(&mut self, alloc: Global, name: &str, limit: u32) -> Result<Vec<u8>, ReadAnswer> {
        match self.files.get(name) {
            None => Err(ReadAnswer::Missing),
            Some(bytes) if bytes.len() > limit as usize => Err(ReadAnswer::TooLong { limit }),
            Some(bytes) => Ok(bytes.to_vec(alloc)?),
        }
    }
}
