//! Each public call over keys once, over a few of them, for runs in which one growth of memory is refused.
ghost use Rattle.std.specs.Prelude.{[]};

use lq_lookup::{Groups, Lookup, Nulls, distinct, order_of_columns, stable_order};
use lq_value::{Key, List, RowRef, Scalar, Txt, Value, copy_key, key_of};
use std::alloc::{AllocError, Global};

// A row with no cells.
#[derive(Clone, Copy)]
struct NoRow;

impl RowRef for NoRow {
    ghost shown = { λ row. [] };

    fn cells(&self) -> &[Scalar] {
        &[]
    }

    fn again(&self) -> Self {
        NoRow
    }
}

/// Whether each answer is the one that is expected.
pub(crate) fn right(alloc: Global) -> Result<bool, AllocError> {
    let keys = keys(alloc)?;
    Ok(are_right(alloc, keys.as_slice())? && right_order(alloc)? && right_columns(alloc)?)
}

fn are_right(alloc: Global, keys: &[Key]) -> Result<bool, AllocError> {
    Ok(
        right_lookup(alloc, keys, Nulls::Skip, &[])?
            && right_lookup(alloc, keys, Nulls::Keep, &[0, 4])?
            && right_groups(alloc, keys)?
            && right_firsts(alloc, keys)?,
    )
}

// What a key is made of.
#[derive(Clone, Copy)]
enum Part {
    Null,
    One,
    Text,
    // A record of null and a record of null and a text.
    Record,
}

const PARTS: [Part; 7] = [
    Part::Null,
    Part::One,
    Part::Record,
    Part::One,
    Part::Null,
    Part::Record,
    Part::Text,
];

fn keys(alloc: Global) -> Result<Vec<Key>, AllocError> {
    let mut keys = Vec::new(alloc);
    for part in &PARTS {
        keys.push(key(alloc, *part)?)?;
    }
    Ok(keys)
}

fn key(alloc: Global, part: Part) -> Result<Key, AllocError> {
    let value = value(alloc, part)?;
    copied_key(alloc, &value)
}

// A copy of the key of a value.
fn copied_key(alloc: Global, value: &Value<NoRow>) -> Result<Key, AllocError> {
    let key = key_of(alloc, value)?;
    copy_key(alloc, &key)
}

fn value(alloc: Global, part: Part) -> Result<Value<NoRow>, AllocError> {
    match part {
        Part::Null => Ok(Value::Scalar(Scalar::Null)),
        Part::One => Ok(Value::Scalar(Scalar::Int(1))),
        Part::Text => text_value(alloc),
        Part::Record => record(alloc, record(alloc, text_value(alloc)?)?),
    }
}

fn text_value(alloc: Global) -> Result<Value<NoRow>, AllocError> {
    Ok(Value::Scalar(some_text(alloc)?))
}

fn some_text(alloc: Global) -> Result<Scalar, AllocError> {
    Ok(Scalar::Text(Txt::from_str(alloc, "text")?))
}

// A record of null and this value.
fn record(alloc: Global, value: Value<NoRow>) -> Result<Value<NoRow>, AllocError> {
    let mut members = List::new(alloc);
    members.push((Txt::from_str(alloc, "a")?, Value::Scalar(Scalar::Null)))?;
    members.push((Txt::from_str(alloc, "b")?, value))?;
    Ok(Value::Rec(members))
}

// Whether a lookup finds null at these places, and the other keys at theirs.
fn right_lookup(
    alloc: Global,
    keys: &[Key],
    nulls: Nulls,
    null_places: &[usize],
) -> Result<bool, AllocError> {
    let lookup = Lookup::build(alloc, keys, nulls)?;
    Ok(is_found(&lookup, keys, null_places) && lookup.find(&Key::Int(2)).is_empty())
}

fn is_found(lookup: &Lookup, keys: &[Key], null_places: &[usize]) -> bool {
    match keys {
        [null, one, record, ..] => {
            lookup.find(null) == null_places
                && lookup.find(one) == [1, 3].as_slice()
                && lookup.find(record) == [2, 5].as_slice()
        }
        _ => false,
    }
}

fn right_groups(alloc: Global, keys: &[Key]) -> Result<bool, AllocError> {
    let groups = Groups::build(alloc, keys)?;
    Ok(are_groups(&groups))
}

fn are_groups(groups: &Groups) -> bool {
    let first = matches!(groups.get(0), Some((Key::Null, places)) if places == [0, 4].as_slice());
    let second =
        matches!(groups.get(1), Some((Key::Int(1), places)) if places == [1, 3].as_slice());
    groups.len() == 4 && first && second
}

fn right_firsts(alloc: Global, keys: &[Key]) -> Result<bool, AllocError> {
    let firsts = distinct(alloc, keys)?;
    Ok(firsts.as_slice() == [0, 1, 2, 6].as_slice())
}

// By an int that ascends, and by a text that descends.
fn right_order(alloc: Global) -> Result<bool, AllocError> {
    let lists = lists(alloc)?;
    is_arranged(alloc, lists.as_slice())
}

fn is_arranged(alloc: Global, lists: &[List<Scalar>]) -> Result<bool, AllocError> {
    let places = stable_order(alloc, lists, &[false, true])?;
    Ok(places.as_slice() == [3, 1, 0, 2].as_slice())
}

// By an int that ascends, and by another that descends.
fn right_columns(alloc: Global) -> Result<bool, AllocError> {
    let columns = [ints(alloc, &[1, 0, 1, 0])?, ints(alloc, &[7, 7, 9, 8])?];
    let places = order_of_columns(alloc, columns.as_slice(), 4, &[false, true])?;
    Ok(places.as_slice() == [3, 1, 2, 0].as_slice())
}

fn ints(alloc: Global, numbers: &[i32]) -> Result<List<Scalar>, AllocError> {
    let mut list = List::new(alloc);
    for number in numbers {
        list.push(Scalar::Int(*number))?;
    }
    Ok(list)
}

fn lists(alloc: Global) -> Result<Vec<List<Scalar>>, AllocError> {
    let mut lists = Vec::new(alloc);
    for (is_one, has_text) in &[(true, true), (false, false), (true, false), (false, true)] {
        lists.push(list(alloc, *is_one, *has_text)?)?;
    }
    Ok(lists)
}

// One or null, and a text or null.
fn list(alloc: Global, is_one: bool, has_text: bool) -> Result<List<Scalar>, AllocError> {
    let mut list = List::new(alloc);
    list.push(if is_one { Scalar::Int(1) } else { Scalar::Null })?;
    if has_text {
        list.push(some_text(alloc)?)?;
    } else {
        list.push(Scalar::Null)?;
    }
    Ok(list)
}
