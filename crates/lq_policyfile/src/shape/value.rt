//! Values of a TOML tree that are read as something.
ghost use Rattle.std.specs.Prelude.{◌≡◌, map, option_map};
ghost use Rattle.std.specs.List.{list_any};
ghost use Rattle.std.specs.Str.{bytes_eq};
ghost use Rattle.toml.specs.Data.{get_member};
ghost use Rattle.toml.specs.View.{items_view, table_view, view};
ghost use Rattle.lq_policyfile.specs.Outcome.{Reads};
ghost use Rattle.lq_policyfile.specs.TomlValues.{each, has_only, optional, required};

use crate::error::ShapeError;
use lq_value::{List, Txt};
use std::alloc::Global;
use toml::{Table, Value};

/// What a TOML value of some shape is read as.
pub(crate) trait Shaped: Drop {
    ghost use Rattle.std.specs.Prelude.{Option};
    ghost use Rattle.toml.specs.Data.{Data};
    ghost use Rattle.toml.specs.View.{view};
    ghost use Rattle.lq_policyfile.specs.Outcome.{Reads};

    /// What data is, where it has the shape.
    ghost shape: { Data → Option Self };

    /// Reads a value, or refuses it where it has another shape.
    fn read(alloc: Global, value: &Value) -> Result<Self, ShapeError>
        ensures { Reads (shape (view value.now)) result };
}

impl Shaped for bool {
    ghost use Rattle.toml.specs.Data.{as_bool};

    ghost shape = { as_bool };

    fn read(_alloc: Global, value: &Value) -> Result<bool, ShapeError> {
        value.as_bool().ok_or(ShapeError::Shape)
    }
}

impl Shaped for Txt {
    ghost use Rattle.toml.specs.Data.{as_str};

    ghost shape = { as_str };

    fn read(alloc: Global, value: &Value) -> Result<Txt, ShapeError> {
        let text = value.as_str().ok_or(ShapeError::Shape)?;
        Ok(Txt::from_str(alloc, text)?)
    }
}

/// Reads each item of an array.
fn each<T: Shaped>(alloc: Global, values: &[Value]) -> Result<List<T>, ShapeError>
    ensures { Reads (each T.shape (items_view values.now)) result }
{
    let mut read = List::new(alloc);
    let mut left = values;
    while let [value, others @ ..] = left {
        read.push(T::read(alloc, value)?)?;
        left = others;
    }
    Ok(read)
}

impl<T: Shaped> Shaped for List<T> {
    ghost use Rattle.lq_policyfile.specs.TomlValues.{array_of};

    ghost shape = { array_of T.shape };

    fn read(alloc: Global, value: &Value) -> Result<List<T>, ShapeError> {
        let values = value.as_array().ok_or(ShapeError::Shape)?;
        each(alloc, values)
    }
}

/// The value under a key.
fn member<'a>(table: &'a Table, key: &str) -> Option<&'a Value>
    ensures { option_map (λ v. view v.now) result ≡ get_member key.now (table_view table.now) }
{
    table.get(key)
}

/// Reads the value under a key, which has to be there.
pub(crate) fn required<T: Shaped>(alloc: Global, table: &Table, key: &str) -> Result<T, ShapeError>
    ensures { Reads (required T.shape key.now (table_view table.now)) result }
{
    match member(table, key) {
        Some(value) => T::read(alloc, value),
        None => Err(ShapeError::Shape),
    }
}

/// Reads the value under a key; where the key is absent, it is `default`.
pub(crate) fn optional<T: Shaped>(
    alloc: Global,
    table: &Table,
    key: &str,
    default: T,
) -> Result<T, ShapeError>
    ensures { Reads (optional T.shape default key.now (table_view table.now)) result }
{
    match member(table, key) {
        Some(value) => T::read(alloc, value),
        None => Ok(default),
    }
}

/// Whether the key is one of these.
fn is_among(keys: &[&str], key: &str) -> bool
    ensures { result ≡ list_any (bytes_eq key.now) (map (λ known. known.now) keys.now) }
{
    let mut left = keys;
    while let [known, others @ ..] = left {
        if key == *known {
            return true;
        }
        left = others;
    }
    false
}

/// Whether the table has no other keys than these.
#[tactic(auto, using(crate::proofs::ShapeLemmas::keys_are))]
pub(crate) fn has_only(table: &Table, keys: &[&str]) -> bool
    ensures { result ≡ has_only (map (λ key. key.now) keys.now) (table_view table.now) }
{
    for key in table.keys() {
        if !is_among(keys, key.as_str()) {
            return false;
        }
    }
    true
}
