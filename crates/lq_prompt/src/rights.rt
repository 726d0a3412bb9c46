//! What the present role may use.
ghost use Rattle.std.specs.Prelude.{◌≡◌, ◌≤◌, ◌++◌, IfOk, OnOk, length, string_bytes};
ghost use Rattle.lq_prompt.specs.Rights.{column_rows, right_row, rights_rows, rights_text, table_rows};

use crate::grids::{row, table_text, word};
use lq_policy::Use;
use lq_render::Cell;
use lq_run::State;
use lq_value::{List, Schema, TableNumber};
use std::alloc::{AllocError, Global};

/// The row of a use of a table, under the name that it has there.
fn right_row(
    alloc: Global,
    state: &State,
    table: &str,
    name: &str,
    used: Use,
) -> Result<List<Cell>, AllocError>
    ensures { IfOk result (λ cells. cells ≡ right_row state.now table.now name.now used) }
{
    let (table, name) = (word(alloc, table)?, word(alloc, name)?);
    match state.policies().right(state.role(), used) {
        Ok(()) => row(alloc, [table, name, word(alloc, "yes")?]),
        Err(rule) => row(alloc, [table, name, word(alloc, "no")?, word(alloc, rule)?]),
    }
}

/// Adds the rows of the columns of a table.
fn add_columns(
    alloc: Global,
    state: &State,
    table: TableNumber,
    schema: &Schema,
    grid: &mut List<List<Cell>>,
) -> Result<(), AllocError>
    requires { length schema.now.columns ≤ 100 }
    ensures { OnOk result (grid.new ≡ grid.old
        ++ column_rows state.now schema.now.name table 0 schema.now.columns) }
{
    let name = schema.name.as_str();
    let columns = schema.columns.as_slice();
    for (place, column) in columns.iter().enumerate() {
        let used = Use::Column(table, place as u16);
        grid.push(right_row(alloc, state, name, column.name.as_str(), used)?)?;
    }
    Ok(())
}

/// Adds the rows of a table: each of its columns, inserts and deletes.
fn add_table(
    alloc: Global,
    state: &State,
    table: TableNumber,
    schema: &Schema,
    grid: &mut List<List<Cell>>,
) -> Result<(), AllocError>
    requires { length schema.now.columns ≤ 100 }
    ensures { OnOk result (grid.new ≡ grid.old ++ table_rows state.now table schema.now) }
{
    add_columns(alloc, state, table, schema, grid)?;
    let name = schema.name.as_str();
    grid.push(right_row(alloc, state, name, "insert", Use::Insert(table))?)?;
    grid.push(right_row(alloc, state, name, "delete", Use::Delete(table))?)
}

/// The rows of the tables.
fn rights_rows(alloc: Global, state: &State) -> Result<List<List<Cell>>, AllocError>
    ensures { IfOk result (λ grid. grid ≡ rights_rows state.now 0 state.now.tables) }
{
    let mut grid = List::new(alloc);
    for table in 0..state.store().len() {
        let schema = state.store().schema(table as u16);
        add_table(alloc, state, table as u16, schema, &mut grid)?;
    }
    Ok(grid)
}

/// What the present role may use of each table.
pub(crate) fn rights_text(alloc: Global, state: &State) -> Result<String, AllocError>
    ensures { IfOk result (λ text. string_bytes text ≡ rights_text state.now) }
{
    let grid = rights_rows(alloc, state)?;
    table_text(alloc, &["table", "use", "may", "denied by"], &grid)
}
