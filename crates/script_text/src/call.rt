//! The calls that lines of a script stand for.

ghost use Rattle.std.specs.Prelude.{◌≡◌, true, IfOk, bytes_eq};
ghost use Rattle.script_text.specs.Words.{is_name, name_of, bytes_of, numbers_of};

use crate::words;
use arrayvec::ArrayVec;
use std::alloc::{AllocError, Global};
use std::marker::Model;

/// The name of a request: 1 to 16 ASCII letters, digits or `_`. Contracts see its bytes.
#[derive(Drop)]
pub struct Name {
    letters: ArrayVec<u8, 16>,
}

impl Model for Name {
    ghost use Rattle.std.specs.Prelude.{List, ℕ, ◌≡◌, true};
    ghost use Rattle.script_text.specs.Words.{is_name};

    ghost Value = { List ℕ };

    ghost view = { λ n. n.letters.items };

    ghost invariant = { λ n. is_name n.letters.items ≡ true };
}

impl Name {
    /// The name that a word is, if it is one.
    pub(crate) fn new(word: &[u8]) -> Option<Name>
        ensures { result ≡ name_of word.now }
    {
        if !words::is_name(word) {
            return None;
        }
        let mut letters = ArrayVec::new();
        letters.try_extend_from_slice(word).ok()?;
        Some(Name { letters })
    }

    /// The letters of the name.
    pub fn as_slice(&self) -> &[u8]
        ensures value { result.now ≡ self.now }
        ensures limits { is_name self.now ≡ true }
    {
        self.letters.as_slice()
    }
}

/// The bytes that a line writes. Contracts see the list of them.
#[derive(Drop)]
pub struct Bytes {
    bytes: Vec<u8>,
}

impl Model for Bytes {
    ghost use Rattle.std.specs.Prelude.{List, ℕ};

    ghost Value = { List ℕ };

    ghost view = { λ b. b.bytes.items };
}

impl Bytes {
    /// The bytes that a word stands for, if it does.
    pub(crate) fn new(alloc: Global, word: &[u8]) -> Result<Option<Bytes>, AllocError>
        ensures { IfOk result (λ bytes. bytes ≡ bytes_of word.now) }
    {
        let bytes = words::bytes(alloc, word)?;
        match bytes {
            Some(bytes) => Ok(Some(Bytes { bytes })),
            None => Ok(None),
        }
    }

    /// All of them, in order.
    pub fn as_slice(&self) -> &[u8]
        ensures { result.now ≡ self.now }
    {
        self.bytes.as_slice()
    }
}

/// The partitions that a line lists. Contracts see the list of them.
#[derive(Drop)]
pub struct Parts {
    numbers: Vec<u32>,
}

impl Model for Parts {
    ghost use Rattle.std.specs.Prelude.{List, ℕ};

    ghost Value = { List ℕ };

    ghost view = { λ p. p.numbers.items };
}

impl Parts {
    /// The partitions that a word lists, if it does.
    pub(crate) fn new(alloc: Global, word: &[u8]) -> Result<Option<Parts>, AllocError>
        ensures { IfOk result (λ parts. parts ≡ numbers_of word.now) }
    {
        let numbers = words::numbers(alloc, word)?;
        match numbers {
            Some(numbers) => Ok(Some(Parts { numbers })),
            None => Ok(None),
        }
    }

    /// All of them, in order.
    pub fn as_slice(&self) -> &[u32]
        ensures { result.now ≡ self.now }
    {
        self.numbers.as_slice()
    }
}

/// What a `send` or a `recv` line says: the name and the place of one side of a message, and how this side
/// divides it.
#[derive(Drop)]
pub struct Init {
    /// The name of the request.
    pub name: Name,
    /// The rank that sends.
    pub from: u32,
    /// The rank that receives.
    pub to: u32,
    /// The tag of the message.
    pub tag: u32,
    /// The communicator of the message.
    pub comm: u32,
    /// How many partitions this side has.
    pub parts: u32,
    /// How many bytes one of them has.
    pub bytes: u32,
}

/// What is done with a request. A number is any of 32 bits: what it may be is the called function's to say.
#[derive(Drop)]
pub enum Action {
    /// `start`: it begins its next round (`MPI_Start`, MPI 4.0, 3.9).
    Start,
    /// `ready`: the sender writes the bytes of a partition and marks it (`MPI_Pready`, MPI 4.0, 4.2.2).
    Ready {
        round: u32,
        partition: u32,
        bytes: Bytes,
    },
    /// `range`: the same for the partitions from `low` to `high`, both included (`MPI_Pready_range`).
    ReadyRange {
        round: u32,
        low: u32,
        high: u32,
        bytes: Bytes,
    },
    /// `list`: the same for the partitions that are listed (`MPI_Pready_list`).
    ReadyList {
        round: u32,
        parts: Parts,
        bytes: Bytes,
    },
    /// `arrived`: whether a partition of the receiver has arrived (`MPI_Parrived`).
    Arrived {
        q: u32,
    },
    /// `take`: a partition of the receiver is taken.
    Take {
        q: u32,
    },
    /// `back`: what was taken is given back.
    Back {
        q: u32,
    },
    /// `test`: whether it has completed its round (`MPI_Test`).
    Test,
    /// `free`: it is given up (`MPI_Request_free`, MPI 4.0, 3.7.3).
    Free,
}

/// What a line of a script calls, between `world` and `end`.
#[derive(Drop)]
pub enum Call {
    /// `send`: the sender's side of a message (`MPI_Psend_init`, MPI 4.0, 4.2.1).
    Send(Init),
    /// `recv`: the receiver's side (`MPI_Precv_init`).
    Recv(Init),
    /// Any other line: what is done with the request of this name.
    Request { name: Name, action: Action },
}
