//! Keys by number.
ghost use Rattle.std.specs.Prelude.{◌≡◌, Some, IfOk, fold, map, slice_get};
ghost use Rattle.lq_lookup.specs.Numbers.{AreNumbers};
ghost use Rattle.lq_value.specs.KeyTests.{key_is};
ghost use Rattle.lq_value.specs.Lookups.{first_keys};

use indexmap::IndexSet;
use lq_value::{Key, copy_key};
use std::alloc::{AllocError, Global};

// The keys in order of first appearance, each once, and of each item the number of its key.
pub(crate) fn numbered(
    alloc: Global,
    keys: &[Key],
) -> Result<(IndexSet<Key>, Vec<usize>), AllocError>
    ensures { IfOk result (λ numbering. AreNumbers keys.now numbering.0.keys numbering.1.items) }
{
    let mut firsts: IndexSet<Key> = IndexSet::with_capacity(alloc, keys.len())?;
    let mut numbers = Vec::with_capacity(alloc, keys.len())?;
    for key in keys {
        let copy = copy_key(alloc, key)?;
        let (number, _) = firsts.insert_full(copy)?;
        numbers.push(number)?;
    }
    Ok((firsts, numbers))
}
