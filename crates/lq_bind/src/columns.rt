//! The trees of cells: the columns of a row (ECMA-334, member access).
ghost use Rattle.std.specs.Prelude.{◌≡◌, Some, option_and_then, option_map, slice_get};
ghost use Rattle.std.specs.Option.{option_copied};
ghost use Rattle.lq_value.specs.Tables.{first_named};
ghost use Rattle.lq_machine.specs.States.{schemas_of};
ghost use Rattle.lq_language.specs.Names.{type_of_column};
ghost use Rattle.lq_tree.specs.Binding.{column_tree, tree_of};
ghost use Rattle.lq_tree.specs.declared.tree.Form.TheVariants as form;
ghost use Rattle.lq_bind.specs.Outcomes.{Gives};

use crate::error::TermError;
use crate::trees::new_tree;
use lq_store::Store;
use lq_tree::{Form, Tree};
use lq_value::{Column, ColumnType, Held, Schema, TableNumber, Ty};
use std::alloc::Global;

/// The type of a column's cells.
fn type_of_column(ty: ColumnType) -> Ty
    ensures { result ≡ type_of_column ty }
{
    match ty {
        ColumnType::Int => Ty::Int,
        ColumnType::IntN => Ty::IntN,
        ColumnType::Bool => Ty::Bool,
        ColumnType::Str => Ty::Str,
    }
}

/// The number of the column of this name.
pub(crate) fn column_named(columns: &[Column], name: &str) -> Option<usize>
    ensures { result ≡ first_named (λ column. column.name) name.now columns.now }
{
    columns
        .iter()
        .position(|column| column.name.as_str() == name)
}

/// The type of the column of this number.
pub(crate) fn column_at(columns: &[Column], number: usize) -> Option<ColumnType>
    ensures { result ≡ option_map (λ column. column.ty) (slice_get columns.now number) }
{
    let column = columns.get(number)?;
    Some(column.ty)
}

/// The schema of the table of this number.
pub(crate) fn schema_at(store: &Store, table: TableNumber) -> Option<&Schema>
    ensures { option_copied result ≡ slice_get (schemas_of store.now) table }
{
    if (table as usize) >= store.len() {
        return None;
    }
    Some(store.schema(table))
}

/// The cell of a row in the column of this number, which has this type. No table has more columns
/// than numbers reach; one that had is refused as past all memory.
fn cell_at(
    alloc: Global,
    row: Held<Form>,
    table: TableNumber,
    number: usize,
    ty: ColumnType,
) -> Result<Tree, TermError>
    ensures { Gives (Some (tree_of (type_of_column ty) (form.Column row table number))) result }
{
    let Ok(number) = u16::try_from(number) else {
        return Err(TermError::Memory);
    };
    new_tree(alloc, type_of_column(ty), Form::Column(row, table, number))
}

/// The cell of a row under the column of this name.
fn column(
    alloc: Global,
    name: &str,
    table: TableNumber,
    row: Held<Form>,
    schema: &Schema,
) -> Result<Tree, TermError>
    ensures { Gives (column_tree name.now table row schema.now) result }
{
    let columns = schema.columns.as_slice();
    let number = column_named(columns, name).ok_or(TermError::IllTyped)?;
    let ty = column_at(columns, number).ok_or(TermError::IllTyped)?;
    cell_at(alloc, row, table, number, ty)
}

/// The cell of a row of the table of this number.
pub(crate) fn cell(
    alloc: Global,
    store: &Store,
    name: &str,
    table: TableNumber,
    row: Held<Form>,
) -> Result<Tree, TermError>
    ensures { Gives (option_and_then (column_tree name.now table row)
        (slice_get (schemas_of store.now) table)) result }
{
    let schema = schema_at(store, table).ok_or(TermError::IllTyped)?;
    column(alloc, name, table, row, schema)
}
