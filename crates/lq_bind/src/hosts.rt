//! The trees of host predicates, which are asked of columns of a row.
ghost use Rattle.std.specs.Prelude.{◌≡◌, Some, option_map, slice_get};
ghost use Rattle.lq_value.specs.declared.ty.Ty.TheOpen.{Ty-F};
ghost use Rattle.lq_machine.specs.States.{schemas_of};
ghost use Rattle.lq_language.specs.HostNames.{are_int_columns, column_numbers, is_int_type};
ghost use Rattle.lq_language.specs.Names.{column_named, column_number, column_type};
ghost use Rattle.lq_tree.specs.Binding.{host_form, host_layer, host_tree};
ghost use Rattle.lq_bind.specs.Hosts.{holds_ints};
ghost use Rattle.lq_bind.specs.Outcomes.{Gives};

use crate::columns::{column_at, column_named, schema_at};
use crate::error::TermError;
use crate::trees::new_tree;
use lq_grammar::Picked;
use lq_host::Pick;
use lq_language::{HostName, predicate_number};
use lq_store::Store;
use lq_tree::{Form, Tree};
use lq_value::{Column, ColumnNumber, ColumnType, Held, TableNumber, Ty};
use std::alloc::Global;

/// The type of the cells in the column of this name.
#[tactic(auto, using(crate::proofs::HostLemmas::columns))]
fn cell_type(columns: &[Column], name: &str) -> Option<ColumnType>
    ensures { result ≡ option_map (λ column. column.ty) (column_named name.now columns.now) }
{
    let number = column_named(columns, name)?;
    column_at(columns, number)
}

/// Whether there is a column, with an int in each cell.
fn is_int_cell(cells: Option<ColumnType>) -> bool
    ensures { result ≡ holds_ints cells }
{
    matches!(cells, Some(ColumnType::Int))
}

/// Whether the table has this column, with an int in each cell.
#[tactic(auto, using(crate::proofs::HostLemmas::columns))]
fn is_int_column(store: &Store, table: TableNumber, name: &str) -> bool
    ensures { result ≡ is_int_type (column_type (schemas_of store.now) table name.now) }
{
    let Some(schema) = schema_at(store, table) else {
        return false;
    };
    is_int_cell(cell_type(schema.columns.as_slice(), name))
}

/// Whether the table has these columns, with an int in each cell.
fn are_int_columns(store: &Store, table: TableNumber, columns: &Picked) -> bool
    ensures { result ≡ are_int_columns (schemas_of store.now) table columns.now }
{
    match columns {
        Picked::One(column) => is_int_column(store, table, column.as_str()),
        Picked::Two(first, second) => {
            is_int_column(store, table, first.as_str())
                && is_int_column(store, table, second.as_str())
        }
    }
}

/// The place of the column of this name.
fn place_of(store: &Store, table: TableNumber, name: &str) -> Option<usize>
    ensures { result ≡ column_number name.now (slice_get (schemas_of store.now) table) }
{
    let schema = schema_at(store, table)?;
    column_named(schema.columns.as_slice(), name)
}

/// The number of the column of this name. No table has more columns than numbers reach; one that
/// had is refused as past all memory.
fn number_of(store: &Store, table: TableNumber, name: &str) -> Result<ColumnNumber, TermError>
    ensures { Gives (column_number name.now (slice_get (schemas_of store.now) table)) result }
{
    let place = place_of(store, table, name).ok_or(TermError::IllTyped)?;
    let Ok(number) = u16::try_from(place) else {
        return Err(TermError::Memory);
    };
    Ok(number)
}

/// The numbers of these columns.
fn numbers_of(store: &Store, table: TableNumber, columns: &Picked) -> Result<Pick, TermError>
    ensures { Gives (column_numbers (slice_get (schemas_of store.now) table) columns.now) result }
{
    match columns {
        Picked::One(column) => Ok(Pick::One(number_of(store, table, column.as_str())?)),
        Picked::Two(first, second) => {
            let first = number_of(store, table, first.as_str())?;
            let second = number_of(store, table, second.as_str())?;
            Ok(Pick::Two(first, second))
        }
    }
}

/// The predicate of this number, asked of columns of a row. No host has more predicates than
/// numbers reach.
fn host_at(
    alloc: Global,
    predicate: usize,
    row: Held<Form>,
    table: TableNumber,
    columns: Pick,
) -> Result<Tree, TermError>
    ensures { Gives (Some (host_form table row columns predicate)) result }
{
    let Ok(predicate) = u16::try_from(predicate) else {
        return Err(TermError::Memory);
    };
    new_tree(alloc, Ty::Bool, Form::Host(predicate, row, table, columns))
}

/// The predicate of this name, asked of columns of a row of the table.
fn asked_of_row(
    alloc: Global,
    store: &Store,
    known: &[HostName],
    predicate: &str,
    columns: &Picked,
    table: TableNumber,
    row: Held<Form>,
) -> Result<Tree, TermError>
    ensures { Gives (host_layer (schemas_of store.now) known.now predicate.now columns.now row
        (Ty-F.Row table)) result }
{
    if !are_int_columns(store, table, columns) {
        return Err(TermError::IllTyped);
    }
    let numbers = numbers_of(store, table, columns)?;
    let predicate = predicate_number(known, predicate, columns).ok_or(TermError::IllTyped)?;
    host_at(alloc, predicate, row, table, numbers)
}

/// The predicate of this name, where it is known, asked of columns of what has this tree.
#[tactic(auto, using(crate::proofs::Layers::types))]
#[inline(never)]
pub(crate) fn host_call(
    alloc: Global,
    store: &Store,
    known: &[HostName],
    predicate: &str,
    columns: &Picked,
    row: Tree,
) -> Result<Tree, TermError>
    ensures { Gives (host_tree (schemas_of store.now) known.now predicate.now columns.now row)
        result }
{
    let Tree { ty, form } = row;
    match ty {
        Ty::Row(table) => asked_of_row(alloc, store, known, predicate, columns, table, form),
        Ty::Int | Ty::IntN | Ty::Bool | Ty::Str | Ty::Null => Err(TermError::IllTyped),
        Ty::Rec(_) | Ty::Seq(_) | Ty::Group(_, _) => Err(TermError::IllTyped),
    }
}
