//! Two sequences as one: one after the other, united, and those items of the first that are in the second, or are not.
ghost use Rattle.std.specs.Prelude.{◌≡◌, ◌++◌, filter, map, IfOk};
ghost use Rattle.lq_value.specs.Keys.{key_value};
ghost use Rattle.lq_value.specs.SameAndOrder.{same_values};
ghost use Rattle.lq_language.specs.Enumerable.{concat, contains, except, intersect, is_among, union};
ghost use Rattle.lq_operators.specs.Arguments.{is_wanted};
ghost use Rattle.lq_operators.specs.Places.{FindsKeys};

use crate::ending::at_end;
use crate::firsts::firsts_of;
use crate::keys::{is_among, lookup_of};
use crate::sequences::Stream;
use lq_lookup::Lookup;
use lq_value::{End, Fault, List, RowRef, Value, same};
use std::alloc::{AllocError, Global};

// The first, and where it comes to its end the second.
pub(crate) fn concat<T: Drop>(first: Stream<T>, second: Stream<T>) -> Result<Stream<T>, AllocError>
    ensures { IfOk result (λ stream. stream ≡ concat first second) }
{
    let (items, end) = first;
    match end {
        End::Done => {
            let (others, end) = second;
            Ok((appended(items, others)?, end))
        }
        End::Fault(_) => Ok((items, end)),
    }
}

fn appended<T: Drop>(items: List<T>, others: List<T>) -> Result<List<T>, AllocError>
    ensures { IfOk result (λ list. list ≡ items ++ others) }
{
    let mut items = items.into_vec();
    let mut others = others.into_vec();
    items.append(&mut others)?;
    Ok(List::from_vec(items))
}

// The distinct items of both, one after the other.
pub(crate) fn union<R: RowRef>(
    alloc: Global,
    first: Stream<Value<R>>,
    second: Stream<Value<R>>,
) -> Result<Stream<Value<R>>, AllocError>
    ensures { IfOk result (λ stream. stream ≡ union same_values first second) }
{
    let (items, end) = concat(first, second)?;
    Ok((firsts_of(alloc, items)?, end))
}

// The distinct items of the first that are in the second, which is read whole before them.
pub(crate) fn intersect<R: RowRef>(
    alloc: Global,
    first: Stream<Value<R>>,
    second: Stream<Value<R>>,
) -> Result<Stream<Value<R>>, AllocError>
    ensures { IfOk result (λ stream. stream ≡ intersect same_values first second) }
{
    let (others, last) = second;
    match last {
        End::Done => {
            let (items, end) = first;
            let firsts = firsts_of(alloc, items)?;
            Ok((filter_among(alloc, firsts, others.as_slice(), true)?, end))
        }
        End::Fault(_) => Ok((List::new(alloc), last)),
    }
}

// The distinct items of the first that are not in the second, which is read whole before them.
pub(crate) fn except<R: RowRef>(
    alloc: Global,
    first: Stream<Value<R>>,
    second: Stream<Value<R>>,
) -> Result<Stream<Value<R>>, AllocError>
    ensures { IfOk result (λ stream. stream ≡ except same_values first second) }
{
    let (others, last) = second;
    match last {
        End::Done => {
            let (items, end) = first;
            let candidates = firsts_of(alloc, items)?;
            Ok((
                filter_among(alloc, candidates, others.as_slice(), false)?,
                end,
            ))
        }
        End::Fault(_) => Ok((List::new(alloc), last)),
    }
}

// The items that are among the others, where these are wanted, and else the rest.
fn filter_among<R: RowRef>(
    alloc: Global,
    items: List<Value<R>>,
    others: &[Value<R>],
    wanted: bool,
) -> Result<List<Value<R>>, AllocError>
    ensures { IfOk result (λ selection. selection
        ≡ filter (λ item. is_wanted wanted (is_among same_values item others.now)) items) }
{
    let lookup = lookup_of(alloc, others)?;
    filter_by_lookup(alloc, items, others, &lookup, wanted)
}

fn filter_by_lookup<R: RowRef>(
    alloc: Global,
    items: List<Value<R>>,
    others: &[Value<R>],
    lookup: &Lookup,
    wanted: bool,
) -> Result<List<Value<R>>, AllocError>
    requires { FindsKeys lookup.now (map key_value others.now) }
    ensures { IfOk result (λ selection. selection
        ≡ filter (λ item. is_wanted wanted (is_among same_values item others.now)) items) }
{
    let mut selection = List::new(alloc);
    for item in items.into_vec() {
        let is_present = is_among(alloc, &item, others, lookup)?;
        if is_wanted(wanted, is_present) {
            selection.push(item)?;
        }
    }
    Ok(selection)
}

fn is_wanted(wanted: bool, is_present: bool) -> bool
    ensures { result ≡ is_wanted wanted is_present }
{
    if wanted { is_present } else { !is_present }
}

// Whether an item is the same as the value.
pub(crate) fn contains<R: RowRef>(
    value: &Value<R>,
    items: &[Value<R>],
    end: End,
) -> Result<bool, Fault>
    ensures { result ≡ contains same_values value.now items.now end }
{
    for item in items {
        if same(value, item) {
            return Ok(true);
        }
    }
    at_end(end, Ok(false))
}
