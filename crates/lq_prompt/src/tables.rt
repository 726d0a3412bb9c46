//! The tables: their columns, and how many of their rows the present role sees.
ghost use Rattle.std.specs.Prelude.{◌≡◌, ◌++◌, IfOk, OnOk, map, string_bytes};
ghost use Rattle.lq_prompt.specs.Tables.{column_row, count_seen, int_text, seen, table_rows, tables_rows, tables_text, type_of};

use crate::grids::{count, joined, row, table_text, word};
use lq_policy::{Action, Use};
use lq_render::Cell;
use lq_run::State;
use lq_value::{Column, ColumnType, List, Row, Schema, TableNumber};
use std::alloc::{AllocError, Global};

/// The type `int` with its range.
fn int_text(alloc: Global, range: Option<(i32, i32)>) -> Result<String, AllocError>
    ensures { IfOk result (λ text. string_bytes text ≡ int_text range) }
{
    let Some((low, high)) = range else {
        return String::from_str(alloc, "int");
    };
    let (low, high) = (format!(in alloc; "{low}")?, format!(in alloc; "{high}")?);
    joined(alloc, &["int[", &low, "..", &high, "]"])
}

/// The type of a column, as the header of a table's file has it.
fn type_text(alloc: Global, column: &Column) -> Result<String, AllocError>
    ensures { IfOk result (λ text. string_bytes text ≡ type_of column.now.ty column.now.range) }
{
    match column.ty {
        ColumnType::Int => int_text(alloc, column.range),
        ColumnType::IntN => String::from_str(alloc, "int?"),
        ColumnType::Bool => String::from_str(alloc, "bool"),
        ColumnType::Str => String::from_str(alloc, "string"),
    }
}

/// How many of these rows of a table the present role sees.
fn count_seen(state: &State, table: TableNumber, rows: &[Row]) -> usize
    ensures { result ≡ count_seen state.now table rows.now }
{
    let mut count = 0;
    for row in rows {
        let cells = row.cells.as_slice();
        if state
            .policies()
            .visible(state.role(), Action::Select, table, cells)
        {
            count += 1;
        }
    }
    count
}

/// How many of the rows of a table the present role sees; or, where it has no right to the table, the rule that denies it.
fn seen(alloc: Global, state: &State, table: TableNumber, rows: &[Row]) -> Result<Cell, AllocError>
    ensures { IfOk result (λ cell. cell ≡ seen state.now table rows.now) }
{
    match state.policies().right(state.role(), Use::Table(table)) {
        Ok(()) => count(alloc, count_seen(state, table, rows) as u64),
        Err(rule) => word(alloc, rule),
    }
}

/// The row of a column.
fn column_row(alloc: Global, column: &Column) -> Result<List<Cell>, AllocError>
    ensures { IfOk result (λ cells. cells ≡ column_row column.now) }
{
    let ty = type_text(alloc, column)?;
    let name = word(alloc, column.name.as_str())?;
    row(
        alloc,
        [word(alloc, "")?, word(alloc, "")?, name, word(alloc, &ty)?],
    )
}

/// Adds the rows of columns.
fn add_columns(
    alloc: Global,
    columns: &[Column],
    grid: &mut List<List<Cell>>,
) -> Result<(), AllocError>
    ensures { OnOk result (grid.new ≡ grid.old ++ map column_row columns.now) }
{
    for column in columns {
        grid.push(column_row(alloc, column)?)?;
    }
    Ok(())
}

/// Adds the rows of a table: one for itself, and one for each of its columns.
fn add_table(
    alloc: Global,
    state: &State,
    table: TableNumber,
    schema: &Schema,
    rows: &[Row],
    grid: &mut List<List<Cell>>,
) -> Result<(), AllocError>
    ensures { OnOk result (grid.new ≡ grid.old ++ table_rows state.now table schema.now rows.now) }
{
    let name = word(alloc, schema.name.as_str())?;
    let seen = seen(alloc, state, table, rows)?;
    grid.push(row(alloc, [name, seen])?)?;
    add_columns(alloc, schema.columns.as_slice(), grid)
}

/// The rows of the tables.
fn tables_rows(alloc: Global, state: &State) -> Result<List<List<Cell>>, AllocError>
    ensures { IfOk result (λ grid. grid ≡ tables_rows state.now 0 state.now.tables) }
{
    let mut grid = List::new(alloc);
    for table in 0..state.store().len() {
        let store = state.store();
        let (schema, rows) = (store.schema(table as u16), store.rows(table as u16));
        add_table(alloc, state, table as u16, schema, rows, &mut grid)?;
    }
    Ok(grid)
}

/// The tables.
pub(crate) fn tables_text(alloc: Global, state: &State) -> Result<String, AllocError>
    ensures { IfOk result (λ text. string_bytes text ≡ tables_text state.now) }
{
    let grid = tables_rows(alloc, state)?;
    table_text(alloc, &["table", "rows seen", "column", "type"], &grid)
}
