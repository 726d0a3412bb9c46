//! The tables that a tree reads.
ghost use Rattle.std.specs.Prelude.{◌≡◌, map, slice_get, option_and_then, option_map};
ghost use Rattle.std.specs.Option.{option_copied};
ghost use Rattle.lq_machine.specs.Served.{columns_in};
ghost use Rattle.lq_language.specs.TableRows.{cell_named};
ghost use Rattle.lq_tree.specs.FormMeaning.{name_of_column};
ghost use Rattle.lq_plan.specs.Worlds.{HaveDistinctColumns, cell_of, schemas_in};

use lq_scalar::cell_named;
use lq_value::{Column, ColumnNumber, RowRef, Scalar, Schema, TableNumber};

/// A row that knows its table, and its number there.
pub trait TableRow: RowRef {
    ghost use Rattle.std.specs.Prelude.{◌≡◌, ℕ};

    ghost table_of: { Self → ℕ };

    ghost number_of: { Self → ℕ };

    /// The number of the row's table.
    #[inline(never)]
    fn table(&self) -> TableNumber
        ensures { result ≡ table_of self.now };

    /// The row's own number in its table.
    fn number(&self) -> u64
        ensures { result ≡ number_of self.now };
}

/// A table as a tree reads it.
#[derive(Drop)]
pub struct TableRows<'a, S> {
    /// What the table is called and what its rows hold.
    pub schema: &'a Schema,
    /// What hands out its rows, in their order: these and no others are read.
    pub rows: S,
}

/// The columns of the table with this number, or none.
fn columns<'a, S>(tables: &[TableRows<'a, S>], table: TableNumber) -> &'a [Column]
    ensures { map (λ column. column.name) result.now ≡ columns_in
        (slice_get (schemas_in tables.now) table) }
{
    match tables.get(table as usize) {
        Some(entry) => entry.schema.columns.as_slice(),
        None => &[],
    }
}

/// The name of a column, by its number.
pub(crate) fn column_name<'a, S>(
    tables: &[TableRows<'a, S>],
    table: TableNumber,
    column: ColumnNumber,
) -> Option<&'a str>
    ensures { option_map (λ name. name.now) result ≡ name_of_column
        (schemas_in tables.now) table column }
{
    let entry = tables.get(table as usize)?;
    let column = entry.schema.columns.as_slice().get(column as usize)?;
    Some(column.name.as_str())
}

/// The cell at a place.
fn cell_at(cells: &[Scalar], place: ColumnNumber) -> Option<&Scalar>
    ensures { option_copied result ≡ slice_get cells.now place }
{
    cells.get(place as usize)
}

/// The cell of a row under the name of a column of a table, which the types of a tree make the
/// row's own: there it stands at the column's place, since no two columns have the same name.
pub(crate) fn cell<'r, R: TableRow, S>(
    tables: &[TableRows<'_, S>],
    row: &'r R,
    table: TableNumber,
    column: ColumnNumber,
) -> Option<&'r Scalar>
    requires { HaveDistinctColumns (schemas_in tables.now) }
    ensures { option_copied result
        ≡ option_and_then (cell_of R.table_of R.shown tables.now row.now)
        (name_of_column (schemas_in tables.now) table column) }
{
    let name = column_name(tables, table, column)?;
    if row.table() == table {
        return cell_at(row.cells(), column);
    }
    cell_named(columns(tables, row.table()), row.cells(), name)
}
