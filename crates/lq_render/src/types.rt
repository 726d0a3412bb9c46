//! The texts of types.
ghost use Rattle.std.specs.Prelude.{◌≡◌, ◌++◌, OnOk, IfOk, false, true, map, slice_get, string_bytes};
ghost use Rattle.lq_machine.specs.States.{schemas_of};
ghost use Rattle.lq_render.specs.Types.{closing, fields_text, opening, separator, table_name, type_part, type_text};

use lq_store::Store;
use lq_value::{TableNumber, Txt, Ty};
use std::alloc::{AllocError, Global};

/// The name of a table; empty where there is no such table.
fn table_name(store: &Store, table: TableNumber) -> &str
    ensures { result.now ≡ table_name (slice_get (schemas_of store.now) table) }
{
    if table as usize >= store.len() {
        return "";
    }
    store.schema(table).name.as_str()
}

/// What a group's type begins with.
fn opening(is_part: bool) -> &'static str
    ensures { result.now ≡ opening is_part }
{
    if is_part { "(group of " } else { "group of " }
}

/// What is written before a member of a record type.
fn separator(is_first: bool) -> &'static str
    ensures { result.now ≡ separator is_first }
{
    if is_first { "" } else { ", " }
}

/// What a group's type ends in.
fn closing(is_part: bool) -> &'static str
    ensures { result.now ≡ closing is_part }
{
    if is_part { ")" } else { "" }
}

/// Puts the text of a type at the end; `is_part` says whether `[]` or ` by` follows it.
#[cycle(types)]
#[tactic(auto, using(crate::proofs::TypeFolds::types))]
fn push_type(out: &mut String, ty: &Ty, store: &Store, is_part: bool) -> Result<(), AllocError>
    ensures { OnOk result (string_bytes out.new
        ≡ string_bytes out.old ++ type_part (schemas_of store.now) ty.now is_part) }
{
    match ty {
        Ty::Int => out.push_str("int"),
        Ty::IntN => out.push_str("int?"),
        Ty::Bool => out.push_str("bool"),
        Ty::Str => out.push_str("string"),
        Ty::Null => out.push_str("null"),
        Ty::Row(table) => out.push_str(table_name(store, *table)),
        Ty::Rec(fields) => {
            out.push_str("{")?;
            push_fields(out, fields.as_slice(), store)?;
            out.push_str("}")
        }
        Ty::Seq(item) => {
            push_type(out, item.get(), store, true)?;
            out.push_str("[]")
        }
        Ty::Group(key, element) => {
            out.push_str(opening(is_part))?;
            push_type(out, element.get(), store, true)?;
            out.push_str(" by ")?;
            push_type(out, key.get(), store, true)?;
            out.push_str(closing(is_part))
        }
    }
}

/// Puts the members of a record type at the end.
#[cycle(types)]
#[tactic(auto, using(crate::proofs::TypeFolds::types))]
fn push_fields(out: &mut String, fields: &[(Txt, Ty)], store: &Store) -> Result<(), AllocError>
    ensures { let parts = map (λ field. (field.0, type_part (schemas_of store.now) field.1))
        fields.now in
        OnOk result (string_bytes out.new ≡ string_bytes out.old ++ fields_text true parts) }
{
    let mut is_first = true;
    for (name, ty) in fields {
        out.push_str(separator(is_first))?;
        out.push_str(name.as_str())?;
        out.push_str(": ")?;
        push_type(out, ty, store, false)?;
        is_first = false;
    }
    Ok(())
}

/// A type as text: `int`, `int?`, `bool`, `string`, `null`, the name of a table for a row of it, `{name: string, n: int}`,
/// `employees[]` for a sequence, `group of string by int` for a group of texts by an int. A group in a sequence or a
/// group is in parentheses. Refuses for want of memory alone.
pub fn type_text(alloc: Global, ty: &Ty, store: &Store) -> Result<String, AllocError>
    ensures { IfOk result (λ text. string_bytes text
        ≡ type_text (schemas_of store.now) ty.now) }
{
    let mut text = String::new(alloc);
    push_type(&mut text, ty, store, false)?;
    Ok(text)
}
