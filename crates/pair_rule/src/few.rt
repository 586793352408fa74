//! A few bytes that stand in the value itself.

ghost use Rattle.std.specs.Prelude.{◌≡◌, ◌≤◌, length, replicate};
ghost use Rattle.pair_rule.specs.declared.TheConstants.{SHORT};

use crate::SHORT;
use std::marker::Model;

/// Copies all bytes of a slice to one of the same length. Eight bytes, a number's, are copied without a call.
#[inline]
pub(crate) fn copy_bytes(to: &mut [u8], from: &[u8])
    requires { length from.now ≡ length to.old }
    ensures { to.new ≡ from.now }
{
    if to.len() == 8 {
        to[..8].copy_from_slice(&from[..8]);
    } else {
        to.copy_from_slice(from);
    }
}

/// At most `SHORT` bytes, in the value itself, which is as long as a vector. They begin where a word does, so that a
/// number is read from a copy just made without a wait. Contracts see the bytes.
#[derive(Drop)]
pub(crate) struct Few {
    len: u64,
    bytes: [u8; SHORT],
}

impl Model for Few {
    ghost use Rattle.std.specs.Prelude.{ℕ, ◌≤◌, List, take};
    ghost use Rattle.pair_rule.specs.declared.TheConstants.{SHORT};

    ghost Value = { List ℕ };

    ghost view = { λ f. take f.len f.bytes };

    ghost invariant = { λ f. f.len ≤ SHORT };
}

impl Few {
    /// So many zeros.
    pub(crate) fn zeros(count: usize) -> Few
        requires { count ≤ SHORT }
        ensures { result ≡ replicate count 0 }
    {
        Few {
            len: count as u64,
            bytes: [0; SHORT],
        }
    }

    /// All of them, in order.
    #[inline]
    pub(crate) fn as_slice(&self) -> &[u8]
        ensures { result.now ≡ self.now }
    {
        &self.bytes[..self.len as usize]
    }

    /// The same bytes once more.
    #[inline]
    pub(crate) fn copy(&self) -> Few
        ensures { result ≡ self.now }
    {
        Few {
            len: self.len,
            bytes: self.bytes,
        }
    }

    /// Puts as many bytes in as it has.
    #[inline]
    pub(crate) fn fill(&mut self, bytes: &[u8])
        requires { length bytes.now ≡ length self.old }
        ensures { self.new ≡ bytes.now }
    {
        copy_bytes(&mut self.bytes[..self.len as usize], bytes);
    }
}
