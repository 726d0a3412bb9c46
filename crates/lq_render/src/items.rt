//! Items: rows and records as a table, others one a line.
ghost use Rattle.std.specs.Prelude.{◌≡◌, ◌++◌, OnOk, IfOk, codes, flat_map, length, map, option_map, string_bytes, take};
ghost use Rattle.std.specs.List.{list_all};
ghost use Rattle.serde_json.specs.View.{view};
ghost use Rattle.lq_render.specs.Cells.{cell_of};
ghost use Rattle.lq_render.specs.Parts.{heading, is_row, items_in, items_shown, left_out, line_text, member_of, row_of, shown_by_columns, table_text};

use crate::cells::{cell_of, escaped_text, short_text, text_of};
use crate::columns::columns_of;
use crate::counts::push_count;
use crate::grid::{Cell, push_grid};
use lq_value::{List, Txt};
use serde_json::Value;
use std::alloc::{AllocError, Global};

/// Whether a value can be a row: an object, or null.
fn is_row(value: &Value) -> bool
    ensures { result ≡ is_row (view value.now) }
{
    match value {
        Value::Null | Value::Object(_) => true,
        Value::Bool(_) | Value::Number(_) | Value::String(_) | Value::Array(_) => false,
    }
}

/// Whether all items can be rows.
fn are_rows(items: &[Value]) -> bool
    ensures { result ≡ list_all is_row (map view items.now) }
{
    for item in items {
        if !is_row(item) {
            return false;
        }
    }
    true
}

/// The cell of a member; that of null where there is none of the name.
fn member_cell(alloc: Global, value: &Value, name: &str) -> Result<Cell, AllocError>
    ensures { IfOk result (λ cell. cell ≡ cell_of (member_of (view value.now) name.now)) }
{
    match value.get(name) {
        Some(member) => cell_of(alloc, member),
        None => cell_of(alloc, &Value::Null),
    }
}

/// A row's cells, in the order of the columns.
fn row_of(alloc: Global, names: &[Txt], value: &Value) -> Result<List<Cell>, AllocError>
    ensures { IfOk result (λ cells. cells ≡ row_of names.now (view value.now)) }
{
    let mut cells = List::new(alloc);
    for name in names {
        cells.push(member_cell(alloc, value, name.as_str())?)?;
    }
    Ok(cells)
}

/// The rows of items.
fn rows_of(alloc: Global, names: &[Txt], items: &[Value]) -> Result<Vec<List<Cell>>, AllocError>
    ensures { IfOk result (λ rows. rows.items ≡ map (row_of names.now) (map view items.now)) }
{
    let mut rows = Vec::new(alloc);
    for item in items {
        rows.push(row_of(alloc, names, item)?)?;
    }
    Ok(rows)
}

/// The heading of a column.
fn heading(alloc: Global, name: &str) -> Result<Txt, AllocError>
    ensures { IfOk result (λ text. text ≡ heading name.now) }
{
    let name = escaped_text(alloc, name)?;
    short_text(alloc, name)
}

/// The headings of columns.
fn headings(alloc: Global, names: &[Txt]) -> Result<Vec<Txt>, AllocError>
    ensures { IfOk result (λ header. header.items ≡ map heading names.now) }
{
    let mut header = Vec::new(alloc);
    for name in names {
        header.push(heading(alloc, name.as_str())?)?;
    }
    Ok(header)
}

/// Puts a table of items at the end.
fn push_table(
    alloc: Global,
    out: &mut String,
    indent: &str,
    names: &[Txt],
    items: &[Value],
) -> Result<(), AllocError>
    ensures { OnOk result (string_bytes out.new
        ≡ string_bytes out.old ++ table_text indent.now names.now (map view items.now)) }
{
    let header = headings(alloc, names)?;
    let rows = rows_of(alloc, names, items)?;
    push_grid(alloc, out, indent, header.as_slice(), rows.as_slice())
}

/// Puts a value on a line of its own at the end.
pub(crate) fn push_line(
    alloc: Global,
    out: &mut String,
    indent: &str,
    value: &Value,
) -> Result<(), AllocError>
    ensures { OnOk result (string_bytes out.new
        ≡ string_bytes out.old ++ line_text indent.now (view value.now)) }
{
    let text = text_of(alloc, value)?;
    out.push_str(indent)?;
    out.push_str(text.as_str())?;
    out.push_str("\n")
}

/// Puts each item on a line of its own at the end.
fn push_lines(
    alloc: Global,
    out: &mut String,
    indent: &str,
    items: &[Value],
) -> Result<(), AllocError>
    ensures { OnOk result (string_bytes out.new
        ≡ string_bytes out.old ++ flat_map (line_text indent.now) (map view items.now)) }
{
    for item in items {
        push_line(alloc, out, indent, item)?;
    }
    Ok(())
}

/// Puts items at the end, rows and records as a table, others one a line.
fn push_shown(
    alloc: Global,
    out: &mut String,
    indent: &str,
    names: &[Txt],
    items: &[Value],
) -> Result<(), AllocError>
    ensures { OnOk result (string_bytes out.new
        ≡ string_bytes out.old ++ items_shown indent.now names.now (map view items.now)) }
{
    if !names.is_empty() && are_rows(items) {
        return push_table(alloc, out, indent, names, items);
    }
    push_lines(alloc, out, indent, items)
}

/// Puts items at the end by their columns: those of these names, and then those that only the items have.
pub(crate) fn push_by_columns(
    alloc: Global,
    out: &mut String,
    indent: &str,
    names: &[Txt],
    items: &[Value],
) -> Result<(), AllocError>
    ensures { OnOk result (string_bytes out.new
        ≡ string_bytes out.old ++ shown_by_columns indent.now names.now (map view items.now)) }
{
    let columns = columns_of(alloc, names, items)?;
    push_shown(alloc, out, indent, columns.as_slice(), items)
}

/// Puts at the end how many items are left out; nothing where all are shown.
pub(crate) fn push_left_out(
    alloc: Global,
    out: &mut String,
    indent: &str,
    count: usize,
) -> Result<(), AllocError>
    ensures { OnOk result (string_bytes out.new
        ≡ string_bytes out.old ++ left_out indent.now count) }
{
    if count == 0 {
        return Ok(());
    }
    out.push_str(indent)?;
    out.push_str("… ")?;
    push_count(alloc, out, count as u64)?;
    out.push_str(" more\n")
}

/// How many items there are.
#[tactic(auto, using(crate::proofs::Lists::shown_count))]
pub(crate) fn count_of(items: &[Value]) -> usize
    ensures { result ≡ length (map view items.now) }
{
    items.len()
}

/// The first items, up to this many.
fn front(items: &[Value], most: usize) -> &[Value]
    ensures { result.now ≡ take most items.now }
{
    &items[..items.len().min(most)]
}

/// The first items, up to this many, as data.
pub(crate) fn first_items(items: &[Value], most: usize) -> &[Value]
    ensures { map view result.now ≡ take most (map view items.now) }
{
    front(items, most)
}

/// The items of an array; none of any other value.
pub(crate) fn items_in(value: &Value) -> Option<&[Value]>
    ensures { option_map (λ items. map view items.now) result ≡ items_in (view value.now) }
{
    match value.as_array() {
        Some(items) => Some(items.as_slice()),
        None => None,
    }
}

/// Puts at the end that there are no items.
pub(crate) fn push_none(out: &mut String, indent: &str) -> Result<(), AllocError>
    ensures { OnOk result (string_bytes out.new
        ≡ string_bytes out.old ++ (indent.now ++ codes "no rows\n")) }
{
    out.push_str(indent)?;
    out.push_str("no rows\n")
}
