//! The items and the value of a reply, by the type that it is served by.
ghost use Rattle.std.specs.Prelude.{◌≡◌, ◌++◌, [], OnOk, map, string_bytes};
ghost use Rattle.serde_json.specs.View.{view};
ghost use Rattle.lq_value.specs.declared.ty.Ty.{out-Ty};
ghost use Rattle.lq_machine.specs.States.{schemas_of};
ghost use Rattle.lq_render.specs.Layouts.{items_of_layer, shape_by, untyped_text, value_of_layer};
ghost use Rattle.lq_render.specs.Parts.{first_text, shown_by_columns};

use crate::items::{count_of, first_items, push_by_columns, push_left_out, push_none};
use crate::layout::{Layout, member_names};
use crate::nested::{push_group, push_items};
use crate::value::push_value;
use lq_value::Ty;
use serde_json::Value;
use std::alloc::{AllocError, Global};

/// Puts items whose type isn't known at the end, or that there are none.
fn push_untyped(
    alloc: Global,
    out: &mut String,
    most_rows: usize,
    items: &[Value],
) -> Result<(), AllocError>
    ensures { OnOk result (string_bytes out.new
        ≡ string_bytes out.old ++ untyped_text most_rows (map view items.now)) }
{
    if count_of(items) == 0 {
        return push_none(out, "");
    }
    push_first_untyped(alloc, out, most_rows, items)
}

/// Puts the first items, whose type isn't known, at the end, and how many more there are.
fn push_first_untyped(
    alloc: Global,
    out: &mut String,
    most_rows: usize,
    items: &[Value],
) -> Result<(), AllocError>
    ensures { OnOk result (string_bytes out.new ≡ string_bytes out.old
        ++ first_text most_rows [] (shown_by_columns [] []) (map view items.now)) }
{
    let first = first_items(items, most_rows);
    push_by_columns(alloc, out, "", &[], first)?;
    let left_out = count_of(items).saturating_sub(most_rows);
    push_left_out(alloc, out, "", left_out)
}

/// Puts the items of a sequence of this type at the end.
#[tactic(auto, using(crate::proofs::ShownTypes::nested))]
fn push_items_of(
    alloc: Global,
    out: &mut String,
    layout: &Layout<'_>,
    ty: &Ty,
    items: &[Value],
) -> Result<(), AllocError>
    ensures { OnOk result (string_bytes out.new
        ≡ string_bytes out.old ++ items_of_layer (schemas_of layout.now.store.now)
        layout.now.most_rows (out-Ty ty.now) (map view items.now)) }
{
    match ty {
        Ty::Seq(item) => push_items(alloc, out, layout, "", item.get(), items),
        _ => push_untyped(alloc, out, layout.most_rows, items),
    }
}

/// Puts the items of a reply at the end.
pub(crate) fn push_served_items(
    alloc: Global,
    out: &mut String,
    layout: &Layout<'_>,
    items: &[Value],
) -> Result<(), AllocError>
    ensures { OnOk result (string_bytes out.new
        ≡ string_bytes out.old ++ (shape_by layout.now).items (map view items.now)) }
{
    match layout.ty {
        Some(ty) => push_items_of(alloc, out, layout, ty, items),
        None => push_untyped(alloc, out, layout.most_rows, items),
    }
}

/// Puts a value of this type at the end.
#[tactic(auto, using(crate::proofs::ShownTypes::nested))]
fn push_value_of(
    alloc: Global,
    out: &mut String,
    layout: &Layout<'_>,
    ty: &Ty,
    value: &Value,
) -> Result<(), AllocError>
    ensures { OnOk result (string_bytes out.new
        ≡ string_bytes out.old ++ value_of_layer (schemas_of layout.now.store.now)
        layout.now.most_rows (out-Ty ty.now) (view value.now)) }
{
    match ty {
        Ty::Group(_, element) => push_group(alloc, out, layout, "", element.get(), value),
        _ => {
            let names = member_names(alloc, layout.store, ty)?;
            push_value(alloc, out, names.as_slice(), value)
        }
    }
}

/// Puts the value of a reply at the end.
pub(crate) fn push_served_value(
    alloc: Global,
    out: &mut String,
    layout: &Layout<'_>,
    value: &Value,
) -> Result<(), AllocError>
    ensures { OnOk result (string_bytes out.new
        ≡ string_bytes out.old ++ (shape_by layout.now).value (view value.now)) }
{
    match layout.ty {
        Some(ty) => push_value_of(alloc, out, layout, ty, value),
        None => push_value(alloc, out, &[], value),
    }
}
