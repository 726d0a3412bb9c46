//! The columns of a table: the names of its type, and then those that only its items have.
ghost use Rattle.std.specs.Prelude.{◌≡◌, OnOk, IfOk, bytes_eq, fold, map};
ghost use Rattle.std.specs.List.{list_any};
ghost use Rattle.serde_json.specs.View.{members_view, view};
ghost use Rattle.lq_render.specs.Parts.{columns, names_of, with_name, with_names};

use lq_value::Txt;
use serde_json::{Map, Value};
use std::alloc::{AllocError, Global};

/// Whether a name is among others.
fn has_name(names: &[Txt], name: &str) -> bool
    ensures { result ≡ list_any (λ other. bytes_eq other name.now) names.now }
{
    names.iter().any(|other| other.as_str() == name)
}

/// Puts a name at the end, unless it is among the others.
fn add_name(alloc: Global, names: &mut Vec<Txt>, name: &str) -> Result<(), AllocError>
    ensures { OnOk result (names.new.items ≡ with_name names.old.items name.now) }
{
    if has_name(names.as_slice(), name) {
        return Ok(());
    }
    names.push(Txt::from_str(alloc, name)?)?;
    Ok(())
}

/// Adds the names of members.
fn add_members(
    alloc: Global,
    names: &mut Vec<Txt>,
    members: &Map<String, Value>,
) -> Result<(), AllocError>
    ensures { OnOk result (names.new.items
        ≡ fold with_name names.old.items (names_of (members_view members.now.entries))) }
{
    for (name, _) in members.iter() {
        add_name(alloc, names, name.as_str())?;
    }
    Ok(())
}

/// Adds the names of a value's members.
fn add_names(alloc: Global, names: &mut Vec<Txt>, value: &Value) -> Result<(), AllocError>
    ensures { OnOk result (names.new.items ≡ with_names names.old.items (view value.now)) }
{
    match value {
        Value::Object(members) => add_members(alloc, names, members),
        Value::Null | Value::Bool(_) | Value::Number(_) | Value::String(_) | Value::Array(_) => Ok(
            (),
        ),
    }
}

/// Copies of names.
fn copies_of(alloc: Global, names: &[Txt]) -> Result<Vec<Txt>, AllocError>
    ensures { IfOk result (λ copies. copies.items ≡ names.now) }
{
    let mut copies = Vec::new(alloc);
    for name in names {
        copies.push(Txt::from_str(alloc, name.as_str())?)?;
    }
    Ok(copies)
}

/// The columns of a table of these items: the names that are known, and then those that only the items have.
pub(crate) fn columns_of(
    alloc: Global,
    names: &[Txt],
    items: &[Value],
) -> Result<Vec<Txt>, AllocError>
    ensures { IfOk result (λ found. found.items ≡ columns names.now (map view items.now)) }
{
    let mut found = copies_of(alloc, names)?;
    for item in items {
        add_names(alloc, &mut found, item)?;
    }
    Ok(found)
}

/// The names that are known, and then those that only this value's members have.
pub(crate) fn columns_of_value(
    alloc: Global,
    names: &[Txt],
    value: &Value,
) -> Result<Vec<Txt>, AllocError>
    ensures { IfOk result (λ found. found.items ≡ with_names names.now (view value.now)) }
{
    let mut found = copies_of(alloc, names)?;
    add_names(alloc, &mut found, value)?;
    Ok(found)
}
