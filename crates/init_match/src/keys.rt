//! Initialisations, and the slots of each key.

ghost use Rattle.std.specs.Prelude.{◌≡◌, ◌<◌, ◌&&◌, [], length, slice_index_or, slice_set, IfOk, OnErr, OnOk, Some};
ghost use Rattle.init_match.specs.Calls.{facing, same_key, same_side};
ghost use Rattle.init_match.specs.Slots.{no_slots, with_slot};

use part_geometry::Side;
use std::alloc::{AllocError, Global};
use std::collections::BTreeMap;
use std::marker::Model;

/// The other side.
pub(crate) fn facing(side: Side) -> Side
    ensures { result ≡ facing side }
{
    match side {
        Side::SendSide => Side::RecvSide,
        Side::RecvSide => Side::SendSide,
    }
}

/// What both initialisations of a pair have in common: the communicator, the ranks of the sender and the receiver,
/// and the tag (MPI 4.0, 4.2.1).
#[derive(Clone, Copy, PartialEq, Eq, PartialOrd, Ord)]
pub(crate) struct Key {
    pub(crate) comm: u32,
    pub(crate) from: u32,
    pub(crate) to: u32,
    pub(crate) tag: u32,
}

/// An initialisation of one side: how many partitions it has, and how many bytes a partition has.
#[derive(Clone, Copy)]
pub(crate) struct Call {
    pub(crate) side: Side,
    pub(crate) key: Key,
    pub(crate) parts: u32,
    pub(crate) bytes: u32,
}

impl Call {
    ghost use Rattle.init_match.specs.World.{call_of};

    pub(crate) fn new(
        side: Side,
        from: u32,
        to: u32,
        tag: u32,
        comm: u32,
        parts: u32,
        bytes: u32,
    ) -> Call
        ensures { result ≡ call_of side from to tag comm parts bytes }
    {
        let key = Key {
            comm,
            from,
            to,
            tag,
        };
        Call {
            side,
            key,
            parts,
            bytes,
        }
    }
}

/// The slots of the sends and of the receives of one key, in order.
#[derive(Drop)]
pub(crate) struct KeySlots {
    sends: Vec<u32>,
    recvs: Vec<u32>,
}

impl Model for KeySlots {
    ghost use Rattle.init_match.specs.Slots.{Slots};

    ghost Value = { Slots };

    ghost view = { λ k. record { sends = k.sends.items; recvs = k.recvs.items } };
}

impl KeySlots {
    ghost use Rattle.init_match.specs.Slots.{no_slots, side_slots, with_slot};

    fn new(alloc: Global) -> KeySlots
        ensures { result ≡ no_slots }
    {
        KeySlots {
            sends: Vec::new(alloc),
            recvs: Vec::new(alloc),
        }
    }

    fn of(&self, side: Side) -> &[u32]
        ensures { result.now ≡ side_slots side self.now }
    {
        match side {
            Side::SendSide => self.sends.as_slice(),
            Side::RecvSide => self.recvs.as_slice(),
        }
    }

    /// One slot more on a side.
    fn push(&mut self, side: Side, slot: u32) -> Result<(), AllocError>
        ensures ok { OnOk result (self.new ≡ with_slot side slot self.old) }
        ensures err { OnErr result (self.new ≡ self.old) }
    {
        match side {
            Side::SendSide => self.sends.push(slot)?,
            Side::RecvSide => self.recvs.push(slot)?,
        }
        Ok(())
    }
}

/// One slot more in one of the lists.
fn push_at(lists: &mut Vec<KeySlots>, index: usize, side: Side, slot: u32) -> Result<(), AllocError>
    requires { index < length lists.old.items }
    ensures ok { OnOk result (lists.new.items
        ≡ slice_set lists.old.items index (with_slot side slot (slice_index_or lists.old.items index no_slots))) }
    ensures err { OnErr result (lists.new.items ≡ lists.old.items) }
{
    let slots = &mut lists[index];
    slots.push(side, slot)
}

/// The slots of all keys. Which list is that of a key is told by a map.
#[derive(Drop)]
pub(crate) struct KeyLists {
    index: BTreeMap<Key, usize>,
    lists: Vec<KeySlots>,
}

impl KeyLists {
    ghost use Rattle.init_match.specs.KeyLists.{IsKeyLists, SameLists, lists_of, place_of};
    ghost use Rattle.init_match.specs.Slots.{appended};

    pub(crate) fn new(alloc: Global) -> KeyLists
        ensures valid { IsKeyLists result }
        ensures none { (s : _) (q : _) → lists_of result s q ≡ [] }
    {
        KeyLists {
            index: BTreeMap::new(alloc),
            lists: Vec::new(alloc),
        }
    }

    /// The slots of a side of a key, in order.
    pub(crate) fn of(&self, side: Side, key: Key) -> &[u32]
        requires { IsKeyLists self.now }
        ensures { result.now ≡ lists_of self.now side key }
    {
        match self.index.get(&key) {
            Some(index) => self.lists[*index].of(side),
            None => &[],
        }
    }

    /// Where the list of a key is, which is made if there is none.
    fn place(&mut self, key: Key) -> Result<usize, AllocError>
        requires { IsKeyLists self.old }
        ensures valid { IsKeyLists self.new }
        ensures same { SameLists self.old self.new }
        ensures place { IfOk result (λ index. place_of self.new key ≡ Some index) }
    {
        if let Some(index) = self.index.get(&key) {
            return Ok(*index);
        }
        let index = self.lists.len();
        let slots = KeySlots::new(*self.lists.allocator());
        self.lists.reserve(1)?;
        self.index.insert(key, index)?;
        self.lists.push_reserved(slots);
        Ok(index)
    }

    /// One slot more on a side of a key.
    pub(crate) fn push(&mut self, side: Side, key: Key, slot: u32) -> Result<(), AllocError>
        requires { IsKeyLists self.old }
        ensures valid { IsKeyLists self.new }
        ensures ok { OnOk result ((s : _) (q : _) → lists_of self.new s q
            ≡ appended (same_side s side && same_key q key) slot (lists_of self.old s q)) }
        ensures err { OnErr result (SameLists self.old self.new) }
    {
        let index = self.place(key)?;
        push_at(&mut self.lists, index, side, slot)
    }
}
