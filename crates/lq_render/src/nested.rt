//! Items by their type: the items of a sequence and the elements of a group are below a line of their own, and indented.
ghost use Rattle.std.specs.Prelude.{◌≡◌, ◌++◌, OnOk, IfOk, flat_map, map, option_map, string_bytes};
ghost use Rattle.serde_json.specs.View.{view};
ghost use Rattle.lq_value.specs.declared.ty.Ty.{out-Ty};
ghost use Rattle.lq_machine.specs.States.{schemas_of};
ghost use Rattle.lq_render.specs.Layouts.{items_by_type, shown_by_type};
ghost use Rattle.lq_render.specs.Parts.{deeper, elements_of, first_text, group_text, items_line, key_line, sequence_text, shown_by_columns};
ghost use Rattle.lq_render.specs.Types.{member_names};

use crate::cells::text_of;
use crate::items::{
    count_of, first_items, items_in, push_by_columns, push_left_out, push_line, push_none,
};
use crate::layout::{Layout, member_names};
use lq_value::Ty;
use serde_json::Value;
use std::alloc::{AllocError, Global};

/// An indentation with two blanks more.
fn deeper(alloc: Global, indent: &str) -> Result<String, AllocError>
    ensures { IfOk result (λ text. string_bytes text ≡ deeper indent.now) }
{
    format!(in alloc; "{indent}  ")
}

/// The elements of a group; none of any other value.
fn elements_of(value: &Value) -> Option<&[Value]>
    ensures { option_map (λ items. map view items.now) result ≡ elements_of (view value.now) }
{
    match value.get("items") {
        Some(elements) => items_in(elements),
        None => None,
    }
}

/// Puts the line above the items of a sequence at the end.
fn push_items_line(out: &mut String, indent: &str) -> Result<(), AllocError>
    ensures { OnOk result (string_bytes out.new ≡ string_bytes out.old ++ items_line indent.now) }
{
    out.push_str(indent)?;
    out.push_str("Items:\n")
}

/// Puts the line above the elements of a group at the end.
fn push_key_line(
    alloc: Global,
    out: &mut String,
    indent: &str,
    key: &Value,
) -> Result<(), AllocError>
    ensures { OnOk result (string_bytes out.new
        ≡ string_bytes out.old ++ key_line indent.now (view key.now)) }
{
    let key = text_of(alloc, key)?;
    out.push_str(indent)?;
    out.push_str("Key: ")?;
    out.push_str(key.as_str())?;
    out.push_str("\n")
}

/// Puts items that are no sequences and no groups at the end: rows and records as a table, others one a line.
fn push_plain(
    alloc: Global,
    out: &mut String,
    layout: &Layout<'_>,
    indent: &str,
    ty: &Ty,
    items: &[Value],
) -> Result<(), AllocError>
    ensures { OnOk result (string_bytes out.new
        ≡ string_bytes out.old ++ shown_by_columns indent.now
        (member_names (schemas_of layout.now.store.now) (out-Ty ty.now)) (map view items.now)) }
{
    let names = member_names(alloc, layout.store, ty)?;
    push_by_columns(alloc, out, indent, names.as_slice(), items)
}

/// Puts items of this type at the end, or that there are none.
#[cycle(nested)]
#[tactic(auto, using(crate::proofs::ShownTypes::nested))]
pub(crate) fn push_items(
    alloc: Global,
    out: &mut String,
    layout: &Layout<'_>,
    indent: &str,
    ty: &Ty,
    items: &[Value],
) -> Result<(), AllocError>
    ensures { OnOk result (string_bytes out.new
        ≡ string_bytes out.old ++ items_by_type (schemas_of layout.now.store.now)
        layout.now.most_rows ty.now indent.now (map view items.now)) }
{
    if count_of(items) == 0 {
        return push_none(out, indent);
    }
    push_first(alloc, out, layout, indent, ty, items)
}

/// Puts the first items of this type at the end, up to the most rows, and how many more there are.
#[cycle(nested)]
fn push_first(
    alloc: Global,
    out: &mut String,
    layout: &Layout<'_>,
    indent: &str,
    ty: &Ty,
    items: &[Value],
) -> Result<(), AllocError>
    ensures { let shown = shown_by_type (schemas_of layout.now.store.now) layout.now.most_rows
        ty.now indent.now in
        OnOk result (string_bytes out.new ≡ string_bytes out.old
        ++ first_text layout.now.most_rows indent.now shown (map view items.now)) }
{
    let first = first_items(items, layout.most_rows);
    push_shown(alloc, out, layout, indent, ty, first)?;
    let left_out = count_of(items).saturating_sub(layout.most_rows);
    push_left_out(alloc, out, indent, left_out)
}

/// Puts all of these items of this type at the end.
#[cycle(nested)]
#[tactic(auto, using(crate::proofs::ShownTypes::nested))]
fn push_shown(
    alloc: Global,
    out: &mut String,
    layout: &Layout<'_>,
    indent: &str,
    ty: &Ty,
    items: &[Value],
) -> Result<(), AllocError>
    ensures { OnOk result (string_bytes out.new
        ≡ string_bytes out.old ++ shown_by_type (schemas_of layout.now.store.now)
        layout.now.most_rows ty.now indent.now (map view items.now)) }
{
    match ty {
        Ty::Seq(item) => push_sequences(alloc, out, layout, indent, item.get(), items),
        Ty::Group(_, element) => push_groups(alloc, out, layout, indent, element.get(), items),
        Ty::Int | Ty::IntN | Ty::Bool | Ty::Str | Ty::Null | Ty::Row(_) | Ty::Rec(_) => {
            push_plain(alloc, out, layout, indent, ty, items)
        }
    }
}

/// Puts sequences at the end, one after another.
#[cycle(nested)]
fn push_sequences(
    alloc: Global,
    out: &mut String,
    layout: &Layout<'_>,
    indent: &str,
    ty: &Ty,
    sequences: &[Value],
) -> Result<(), AllocError>
    ensures { let below = items_by_type (schemas_of layout.now.store.now) layout.now.most_rows
        ty.now in
        OnOk result (string_bytes out.new
        ≡ string_bytes out.old ++ flat_map (sequence_text below indent.now)
        (map view sequences.now)) }
{
    for sequence in sequences {
        push_sequence(alloc, out, layout, indent, ty, sequence)?;
    }
    Ok(())
}

/// Puts a sequence of items of this type at the end; a value that isn't one has a line of its own.
#[cycle(nested)]
fn push_sequence(
    alloc: Global,
    out: &mut String,
    layout: &Layout<'_>,
    indent: &str,
    ty: &Ty,
    value: &Value,
) -> Result<(), AllocError>
    ensures { let below = items_by_type (schemas_of layout.now.store.now) layout.now.most_rows
        ty.now in
        OnOk result (string_bytes out.new
        ≡ string_bytes out.old ++ sequence_text below indent.now (view value.now)) }
{
    match items_in(value) {
        Some(items) => {
            push_items_line(out, indent)?;
            push_below(alloc, out, layout, indent, ty, items)
        }
        None => push_line(alloc, out, indent, value),
    }
}

/// Puts groups at the end, one after another.
#[cycle(nested)]
fn push_groups(
    alloc: Global,
    out: &mut String,
    layout: &Layout<'_>,
    indent: &str,
    ty: &Ty,
    groups: &[Value],
) -> Result<(), AllocError>
    ensures { let below = items_by_type (schemas_of layout.now.store.now) layout.now.most_rows
        ty.now in
        OnOk result (string_bytes out.new
        ≡ string_bytes out.old ++ flat_map (group_text below indent.now) (map view groups.now)) }
{
    for group in groups {
        push_group(alloc, out, layout, indent, ty, group)?;
    }
    Ok(())
}

/// Puts a group of elements of this type at the end; a value that isn't one has a line of its own.
#[cycle(nested)]
pub(crate) fn push_group(
    alloc: Global,
    out: &mut String,
    layout: &Layout<'_>,
    indent: &str,
    ty: &Ty,
    value: &Value,
) -> Result<(), AllocError>
    ensures { let below = items_by_type (schemas_of layout.now.store.now) layout.now.most_rows
        ty.now in
        OnOk result (string_bytes out.new
        ≡ string_bytes out.old ++ group_text below indent.now (view value.now)) }
{
    match (value.get("Key"), elements_of(value)) {
        (Some(key), Some(elements)) => {
            push_key_line(alloc, out, indent, key)?;
            push_below(alloc, out, layout, indent, ty, elements)
        }
        _ => push_line(alloc, out, indent, value),
    }
}

/// Puts items of this type at the end, indented by two blanks more.
#[cycle(nested)]
fn push_below(
    alloc: Global,
    out: &mut String,
    layout: &Layout<'_>,
    indent: &str,
    ty: &Ty,
    items: &[Value],
) -> Result<(), AllocError>
    ensures { OnOk result (string_bytes out.new
        ≡ string_bytes out.old ++ items_by_type (schemas_of layout.now.store.now)
        layout.now.most_rows ty.now (deeper indent.now) (map view items.now)) }
{
    let deeper = deeper(alloc, indent)?;
    push_items(alloc, out, layout, deeper.as_str(), ty, items)
}
