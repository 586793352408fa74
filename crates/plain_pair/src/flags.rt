//! One truth value for each partition, and one count for each piece.

ghost use Rattle.std.specs.Prelude.{slice_index_or, ◌≡◌, ◌+◌, ◌-◌, ◌*◌, ◌≤◌, ◌==◌, if◌then◌else◌, count_by, Bool, false, length, replicate, slice_set, true, ◌<◌, IfOk};
ghost use Rattle.part_geometry.specs.declared.TheConstants.{MAX_PARTS, MAX_TOTAL};
ghost use Rattle.plain_pair.specs.Moves.{least_without};

use std::alloc::{AllocError, Global};

/// None of `count` partitions.
pub(crate) fn none_of(alloc: Global, count: usize) -> Result<Vec<bool>, AllocError>
    ensures { IfOk result (λ flags. flags.items ≡ replicate count false) }
{
    vec![in alloc; false; count]
}

/// The counts of pieces of which nothing is marked.
pub(crate) fn all_missing(alloc: Global, needs: &[u32]) -> Result<Vec<u32>, AllocError>
    ensures { IfOk result (λ missing. missing.items ≡ needs.now) }
{
    Vec::from_slice(alloc, needs)
}

/// None of the partitions any more.
pub(crate) fn clear(flags: &mut Vec<bool>)
    ensures { flags.new.items ≡ replicate (length flags.old.items) false }
{
    flags.as_mut_slice().fill(false);
}

/// As many are missing of each piece as it needs.
pub(crate) fn reset(missing: &mut Vec<u32>, needs: &[u32])
    requires { length missing.old.items ≡ length needs.now }
    ensures { missing.new.items ≡ needs.now }
{
    missing.as_mut_slice().copy_from_slice(needs);
}

/// How many pieces went out up to a round of which these are missing.
pub(crate) fn pieces_out(round: u32, missing: &[u32]) -> u64
    requires { length missing.now ≤ MAX_TOTAL }
    ensures { result ≡ (if round == 0 then 0
        else (round - 1) * length missing.now + count_by (λ m. m == 0) missing.now) }
{
    if round == 0 {
        return 0;
    }
    let whole = missing.iter().filter(|m| **m == 0).count();
    u64::from(round - 1) * missing.len() as u64 + whole as u64
}

/// One partition more.
pub(crate) fn add(flags: &mut Vec<bool>, partition: usize)
    requires { partition < length flags.old.items }
    ensures { flags.new.items ≡ slice_set flags.old.items partition true }
{
    flags[partition] = true;
}

/// The least partition that isn't among these.
pub(crate) fn least_without(flags: &[bool]) -> Option<u32>
    requires { length flags.now ≤ MAX_PARTS }
    ensures { result ≡ least_without (length flags.now) (λ x. slice_index_or flags.now x false) }
{
    for i in 0..flags.len() {
        if !flags[i] {
            return Some(i as u32);
        }
    }
    None
}
