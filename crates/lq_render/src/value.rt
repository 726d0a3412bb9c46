//! Single values: a row or a record as a table of its members, each other value on a line.
ghost use Rattle.std.specs.Prelude.{◌≡◌, ◌++◌, ◌∷◌, [], OnOk, IfOk, map, string_bytes};
ghost use Rattle.serde_json.specs.View.{view};
ghost use Rattle.lq_render.specs.Cells.{text_of};
ghost use Rattle.lq_render.specs.Parts.{member_of, member_row, member_table, members_or_line, value_text};

use crate::cells::{escaped_text, text_of};
use crate::columns::columns_of_value;
use crate::grid::{Cell, push_grid};
use crate::items::push_line;
use lq_value::{List, Txt};
use serde_json::Value;
use std::alloc::{AllocError, Global};

/// The text of a member; that of null where there is none of the name.
fn member_text(alloc: Global, value: &Value, name: &str) -> Result<Txt, AllocError>
    ensures { IfOk result (λ text. text ≡ text_of (member_of (view value.now) name.now)) }
{
    match value.get(name) {
        Some(member) => text_of(alloc, member),
        None => text_of(alloc, &Value::Null),
    }
}

/// A member by its name and its value.
fn member_row(alloc: Global, value: &Value, name: &str) -> Result<List<Cell>, AllocError>
    ensures { IfOk result (λ cells. cells ≡ member_row (view value.now) name.now) }
{
    let text = member_text(alloc, value, name)?;
    let name = escaped_text(alloc, name)?;
    let mut cells = List::new(alloc);
    cells.push(Cell::from_text(name))?;
    cells.push(Cell::from_text(text))?;
    Ok(cells)
}

/// The members of these names, a row each.
fn member_rows(alloc: Global, names: &[Txt], value: &Value) -> Result<Vec<List<Cell>>, AllocError>
    ensures { IfOk result (λ rows. rows.items ≡ map (member_row (view value.now)) names.now) }
{
    let mut rows = Vec::new(alloc);
    for name in names {
        rows.push(member_row(alloc, value, name.as_str())?)?;
    }
    Ok(rows)
}

/// Puts a table of a value's members at the end.
fn push_members(
    alloc: Global,
    out: &mut String,
    names: &[Txt],
    value: &Value,
) -> Result<(), AllocError>
    ensures { OnOk result (string_bytes out.new
        ≡ string_bytes out.old ++ member_table names.now (view value.now)) }
{
    let rows = member_rows(alloc, names, value)?;
    let header = [
        Txt::from_str(alloc, "name")?,
        Txt::from_str(alloc, "value")?,
    ];
    push_grid(alloc, out, "", &header, rows.as_slice())
}

/// Puts a row or a record at the end as a table of its members, each other value on a line.
fn push_members_or_line(
    alloc: Global,
    out: &mut String,
    names: &[Txt],
    value: &Value,
) -> Result<(), AllocError>
    ensures { OnOk result (string_bytes out.new
        ≡ string_bytes out.old ++ members_or_line names.now (view value.now)) }
{
    match value {
        Value::Object(_) => {
            if names.is_empty() {
                return push_line(alloc, out, "", value);
            }
            push_members(alloc, out, names, value)
        }
        Value::Null | Value::Bool(_) | Value::Number(_) | Value::String(_) | Value::Array(_) =>
            push_line(alloc, out, "", value),
    }
}

/// Puts a value at the end by the members of these names, and those that only it has.
pub(crate) fn push_value(
    alloc: Global,
    out: &mut String,
    names: &[Txt],
    value: &Value,
) -> Result<(), AllocError>
    ensures { OnOk result (string_bytes out.new
        ≡ string_bytes out.old ++ value_text names.now (view value.now)) }
{
    let names = columns_of_value(alloc, names, value)?;
    push_members_or_line(alloc, out, names.as_slice(), value)
}
