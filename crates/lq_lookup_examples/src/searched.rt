//! Random lists of values: what is found by their keys is what a plain search by sameness finds.
use crate::keys::{NoRow, Random, keys_of, value};
use lq_lookup::{Groups, Lookup, Nulls, distinct};
use lq_value::{Key, Scalar, Value, copy_key, key_of, same};
use std::alloc::{AllocError, Global};
use std::test::Fail;

fn is_null(value: &Value<NoRow>) -> bool {
    matches!(value, Value::Scalar(Scalar::Null))
}

// Whether these are the places of the values that are the same as one of them, in their order.
fn are_searched(values: &[Value<NoRow>], wanted: &Value<NoRow>, places: &[usize]) -> bool {
    let mut left = places;
    for (place, value) in values.iter().enumerate() {
        if same(value, wanted) {
            match left {
                [first, others @ ..] if *first == place => left = others,
                _ => return false,
            }
        }
    }
    left.is_empty()
}

fn is_among(values: &[Value<NoRow>], wanted: &Value<NoRow>) -> bool {
    for value in values {
        if same(value, wanted) {
            return true;
        }
    }
    false
}

// Whether these are the places of the values that are the same as none before them.
fn are_firsts(values: &[Value<NoRow>], places: &[usize]) -> bool {
    let mut left = places;
    for (place, value) in values.iter().enumerate() {
        if is_among(values.get(..place).unwrap_or(&[]), value) {
            continue;
        }
        match left {
            [first, others @ ..] if *first == place => left = others,
            _ => return false,
        }
    }
    left.is_empty()
}

fn random_values(alloc: Global, random: &mut Random) -> Result<Vec<Value<NoRow>>, AllocError> {
    let mut values = Vec::new(alloc);
    for _ in 0..random.below(20) {
        values.push(value(alloc, random)?)?;
    }
    Ok(values)
}

// A lookup that keeps null, and one that skips it.
#[derive(Drop)]
struct Lookups {
    keeping: Lookup,
    skipping: Lookup,
}

fn built(alloc: Global, keys: &[Key]) -> Result<Lookups, AllocError> {
    Ok(Lookups {
        keeping: Lookup::build(alloc, keys, Nulls::Keep)?,
        skipping: Lookup::build(alloc, keys, Nulls::Skip)?,
    })
}

// Whether both lookups find what is searched for one value, but the second nothing for null.
fn is_found_by(
    lookups: &Lookups,
    values: &[Value<NoRow>],
    wanted: &Value<NoRow>,
    key: &Key,
) -> bool {
    let kept = lookups.keeping.find(key);
    let skipped = if is_null(wanted) { &[] } else { kept };
    are_searched(values, wanted, kept) && lookups.skipping.find(key) == skipped
}

// The same by a copy of its key.
fn is_found(
    alloc: Global,
    lookups: &Lookups,
    values: &[Value<NoRow>],
    wanted: &Value<NoRow>,
) -> Result<bool, AllocError> {
    let key = copied_key(alloc, wanted)?;
    Ok(is_found_by(lookups, values, wanted, &key))
}

fn copied_key(alloc: Global, value: &Value<NoRow>) -> Result<Key, AllocError> {
    let key = key_of(alloc, value)?;
    copy_key(alloc, &key)
}

fn is_each_found(
    alloc: Global,
    lookups: &Lookups,
    values: &[Value<NoRow>],
) -> Result<bool, AllocError> {
    for wanted in values {
        if !is_found(alloc, lookups, values, wanted)? {
            return Ok(false);
        }
    }
    Ok(true)
}

// Whether each value is found, and one that may not be there.
fn are_all_found(
    alloc: Global,
    keys: &[Key],
    values: &[Value<NoRow>],
    other: &Value<NoRow>,
) -> Result<bool, AllocError> {
    let lookups = built(alloc, keys)?;
    Ok(is_found(alloc, &lookups, values, other)? && is_each_found(alloc, &lookups, values)?)
}

// Whether a group is of the key and the places of the value at a place.
fn is_group(
    group: Option<(&Key, &[usize])>,
    keys: &[Key],
    values: &[Value<NoRow>],
    place: usize,
) -> bool {
    match (group, keys.get(place), values.get(place)) {
        (Some((key, found)), Some(wanted), Some(value)) => {
            *key == *wanted && are_searched(values, value, found)
        }
        _ => false,
    }
}

fn are_groups(groups: &Groups, keys: &[Key], values: &[Value<NoRow>], firsts: &[usize]) -> bool {
    for (number, first) in firsts.iter().enumerate() {
        if !is_group(groups.get(number), keys, values, *first) {
            return false;
        }
    }
    groups.len() == firsts.len() && groups.get(firsts.len()).is_none()
}

// Whether the groups are these values, each with what is searched.
fn are_grouped(
    alloc: Global,
    keys: &[Key],
    values: &[Value<NoRow>],
    firsts: &[usize],
) -> Result<bool, AllocError> {
    let groups = Groups::build(alloc, keys)?;
    Ok(are_groups(&groups, keys, values, firsts))
}

// Whether the distinct places are those of the first values, and the groups these values.
fn are_distinct(alloc: Global, keys: &[Key], values: &[Value<NoRow>]) -> Result<bool, AllocError> {
    let firsts = distinct(alloc, keys)?;
    Ok(
        are_firsts(values, firsts.as_slice())
            && are_grouped(alloc, keys, values, firsts.as_slice())?,
    )
}

fn is_right_of(
    alloc: Global,
    values: &[Value<NoRow>],
    other: &Value<NoRow>,
) -> Result<bool, AllocError> {
    let keys = keys_of(alloc, values)?;
    Ok(
        are_all_found(alloc, keys.as_slice(), values, other)?
            && are_distinct(alloc, keys.as_slice(), values)?,
    )
}

fn is_right(alloc: Global, random: &mut Random) -> Result<bool, AllocError> {
    let values = random_values(alloc, random)?;
    let other = value(alloc, random)?;
    is_right_of(alloc, values.as_slice(), &other)
}

#[test]
fn what_is_found_is_what_is_searched(rt: HostRuntime) -> Result<(), Fail> {
    let mut random = Random { state: 20261123 };
    for _ in 0..1_000u32 {
        assert!(rt; is_right(rt.alloc(), &mut random)?);
    }
    Ok(())
}
