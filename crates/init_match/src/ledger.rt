//! The accepted initialisations, in order.

ghost use Rattle.std.specs.Prelude.{◌≡◌, ◌<◌, ◌^◌, [], ◌∷◌, ◌++◌, length, OnErr, OnOk};
ghost use Rattle.init_match.specs.Matching.{partner_before, partner_of};

use crate::keys::{Call, KeyLists, facing};
use std::alloc::{AllocError, Global};
use std::marker::Model;

/// The accepted initialisations, each in its slot, which is its number from 0 on. Contracts see the list of them.
#[derive(Drop)]
pub(crate) struct Ledger {
    calls: Vec<Call>,
    turns: Vec<u32>,
    keys: KeyLists,
}

impl Model for Ledger {
    ghost use Rattle.std.specs.Prelude.{List};
    ghost use Rattle.init_match.specs.declared.keys.Call.{Call};

    ghost Value = { List Call };

    ghost use Rattle.init_match.specs.Ledger.{IsLedger};

    ghost view = { λ l. l.calls.items };

    ghost invariant = { IsLedger };
}

impl Ledger {
    /// No call yet.
    pub(crate) fn new(alloc: Global) -> Ledger
        ensures { result ≡ [] }
    {
        Ledger {
            calls: Vec::new(alloc),
            turns: Vec::new(alloc),
            keys: KeyLists::new(alloc),
        }
    }

    /// How many there are.
    pub(crate) fn len(&self) -> usize
        ensures { result ≡ length self.now }
    {
        self.calls.len()
    }

    /// The call that this one would be paired with, and its slot.
    pub(crate) fn partner_before(&self, call: Call) -> Option<(u32, Call)>
        ensures { result ≡ partner_before self.now call }
    {
        let turn = self.keys.of(call.side, call.key).len();
        match self.keys.of(facing(call.side), call.key).get(turn) {
            Some(slot) => Some((*slot, self.calls[*slot as usize])),
            None => None,
        }
    }

    /// The other slot of the pair that a slot is in.
    pub(crate) fn partner(&self, slot: usize) -> Option<u32>
        ensures { result ≡ partner_of self.now slot }
    {
        let call = self.calls.get(slot)?;
        let turn = self.turns[slot] as usize;
        self.keys.of(facing(call.side), call.key).get(turn).copied()
    }

    /// One call more. It takes all memory before anything changes.
    pub(crate) fn push(&mut self, call: Call) -> Result<(), AllocError>
        requires { length self.old < 2 ^ 32 }
        ensures ok { OnOk result (self.new ≡ self.old ++ call ∷ []) }
        ensures err { OnErr result (self.new ≡ self.old) }
    {
        let slot = self.calls.len() as u32;
        let turn = self.keys.of(call.side, call.key).len() as u32;
        self.calls.reserve(1)?;
        self.turns.reserve(1)?;
        self.keys.push(call.side, call.key, slot)?;
        self.calls.push_reserved(call);
        self.turns.push_reserved(turn);
        Ok(())
    }
}
