//! The names of requests.

ghost use Rattle.std.specs.Prelude.{◌≡◌, bytes_eq, None, Some, OnOk, if◌then◌else◌};
ghost use Rattle.script_run.specs.Names.{lookup};

use std::alloc::{AllocError, Global};
use std::collections::BTreeMap;

/// Which name has which slot.
#[derive(Drop)]
pub(crate) struct Names<'a> {
    slots: BTreeMap<&'a [u8], u32>,
}

impl<'a> Names<'a> {
    /// No name yet.
    pub(crate) fn new(alloc: Global) -> Names<'a>
        ensures { (q : _) → lookup result q ≡ None }
    {
        Names {
            slots: BTreeMap::new(alloc),
        }
    }

    /// The slot of a name.
    pub(crate) fn slot(&self, name: &'a [u8]) -> Option<u32>
        ensures { result ≡ lookup self.now name.now }
    {
        self.slots.get(&name).copied()
    }

    /// One name more, which none has yet.
    pub(crate) fn add(&mut self, name: &'a [u8], slot: u32) -> Result<(), AllocError>
        ensures { OnOk result ((q : _) →
            lookup self.new q ≡ (if bytes_eq name.now q then Some slot else lookup self.old q)) }
    {
        self.slots.insert(name, slot)?;
        Ok(())
    }
}
