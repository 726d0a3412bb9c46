//! What a reply is shown by: the type of what a statement serves, and the most rows.
ghost use Rattle.std.specs.Prelude.{◌≡◌, IfOk, map, slice_get};
ghost use Rattle.lq_value.specs.declared.ty.Ty.{out-Ty};
ghost use Rattle.lq_machine.specs.Served.{columns_in};
ghost use Rattle.lq_machine.specs.States.{schemas_of};
ghost use Rattle.lq_render.specs.Types.{member_names};

use lq_store::Store;
use lq_value::{Column, List, TableNumber, Txt, Ty};
use std::alloc::{AllocError, Global};

/// What a reply is shown by.
#[derive(Clone, Copy)]
pub struct Layout<'a> {
    /// The type of the expression that the line serves, where it is known: it gives the order of columns.
    pub ty: Option<&'a Ty>,
    /// The tables, whose schemas give the names of columns.
    pub store: &'a Store,
    /// The most rows of a table, lines of a list, groups or sequences that are shown, and so at each level.
    pub most_rows: usize,
}

/// The names of columns.
fn names_of_columns(alloc: Global, columns: &[Column]) -> Result<List<Txt>, AllocError>
    ensures { IfOk result (λ names. names ≡ map (λ column. column.name) columns.now) }
{
    let mut names = List::new(alloc);
    for column in columns {
        names.push(Txt::from_str(alloc, column.name.as_str())?)?;
    }
    Ok(names)
}

/// The names of the columns of a table; none where there is no such table.
fn column_names(alloc: Global, store: &Store, table: TableNumber) -> Result<List<Txt>, AllocError>
    ensures { IfOk result (λ names. names
        ≡ columns_in (slice_get (schemas_of store.now) table)) }
{
    if table as usize >= store.len() {
        return Ok(List::new(alloc));
    }
    names_of_columns(alloc, store.schema(table).columns.as_slice())
}

/// The names of the members of a record.
fn names_of_fields(alloc: Global, fields: &[(Txt, Ty)]) -> Result<List<Txt>, AllocError>
    ensures { IfOk result (λ names. names ≡ map (λ field. field.0) fields.now) }
{
    let mut names = List::new(alloc);
    for (name, _) in fields {
        names.push(Txt::from_str(alloc, name.as_str())?)?;
    }
    Ok(names)
}

/// The names of the members of values of a type.
pub(crate) fn member_names(alloc: Global, store: &Store, ty: &Ty) -> Result<List<Txt>, AllocError>
    ensures { IfOk result (λ names. names
        ≡ member_names (schemas_of store.now) (out-Ty ty.now)) }
{
    match ty {
        Ty::Row(table) => column_names(alloc, store, *table),
        Ty::Rec(fields) => names_of_fields(alloc, fields.as_slice()),
        Ty::Int | Ty::IntN | Ty::Bool | Ty::Str | Ty::Null | Ty::Group(_, _) | Ty::Seq(_) => {
            Ok(List::new(alloc))
        }
    }
}
