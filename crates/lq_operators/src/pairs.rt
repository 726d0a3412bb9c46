//! Items with their keys: the items of a key, taken by places.
ghost use Rattle.std.specs.Prelude.{◌≡◌, ◌++◌, map, slice_get, IfOk, OnOk};
ghost use Rattle.std.specs.List.{zip};
ghost use Rattle.std.specs.Option.{option_to_list};
ghost use Rattle.lq_value.specs.Keys.{key_value};
ghost use Rattle.lq_value.specs.SameAndOrder.{same_values};
ghost use Rattle.lq_language.specs.Stream.{elements_of};
ghost use Rattle.lq_operators.specs.Places.{FindsKeys, picked};

use crate::keys::is_same_at;
use lq_lookup::Lookup;
use lq_value::{List, RowRef, Value, copy, key_of};
use std::alloc::{AllocError, Global};

// The firsts of pairs, and their seconds.
pub(crate) fn split<K: Drop, V: Drop>(
    alloc: Global,
    pairs: List<(K, V)>,
) -> Result<(List<K>, List<V>), AllocError>
    ensures { IfOk result (λ lists. (lists.0 ≡ map (λ p. p.0) pairs)
        × (lists.1 ≡ map (λ p. p.1) pairs)) }
{
    let mut firsts = List::new(alloc);
    let mut seconds = List::new(alloc);
    for (first, second) in pairs.into_vec() {
        firsts.push(first)?;
        seconds.push(second)?;
    }
    Ok((firsts, seconds))
}

// Copies of the values whose keys are the same as this one, in their order.
pub(crate) fn elements_of<R: RowRef>(
    alloc: Global,
    key: &Value<R>,
    keys: &[Value<R>],
    values: &[Value<R>],
    lookup: &Lookup,
) -> Result<List<Value<R>>, AllocError>
    requires { FindsKeys lookup.now (map key_value keys.now) }
    ensures { IfOk result (λ elements. elements
        ≡ elements_of same_values key.now (zip keys.now values.now)) }
{
    let hashed = key_of(alloc, key)?;
    picked(alloc, key, keys, values, lookup.find(&hashed))
}

// Copies of the values at those of these places whose keys are the same as this one.
fn picked<R: RowRef>(
    alloc: Global,
    key: &Value<R>,
    keys: &[Value<R>],
    values: &[Value<R>],
    places: &[usize],
) -> Result<List<Value<R>>, AllocError>
    ensures { IfOk result (λ elements. elements
        ≡ picked (same_values key.now) keys.now values.now places.now) }
{
    let mut elements = List::new(alloc);
    for place in places {
        if is_same_at(key, keys, *place) {
            push_at(alloc, &mut elements, values, *place)?;
        }
    }
    Ok(elements)
}

// Puts a copy of the value at a place after those that are there.
fn push_at<R: RowRef>(
    alloc: Global,
    elements: &mut List<Value<R>>,
    values: &[Value<R>],
    place: usize,
) -> Result<(), AllocError>
    ensures { OnOk result (elements.new ≡ elements.old
        ++ option_to_list (slice_get values.now place)) }
{
    match values.get(place) {
        Some(value) => elements.push(copy(alloc, value)?),
        None => Ok(()),
    }
}
