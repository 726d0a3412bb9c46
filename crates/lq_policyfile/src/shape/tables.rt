//! The entries of tables.
ghost use Rattle.std.specs.Prelude.{◌≡◌};
ghost use Rattle.toml.specs.View.{table_view};
ghost use Rattle.lq_policyfile.specs.Outcome.{Reads};
ghost use Rattle.lq_policyfile.specs.Shape.{table_fields, table_in};

use crate::entry::TableEntry;
use crate::error::ShapeError;
use crate::shape::value::{Shaped, has_only, required};
use std::alloc::Global;
use toml::{Table, Value};

/// A table, from the values of its keys.
fn table_fields(alloc: Global, table: &Table) -> Result<TableEntry, ShapeError>
    ensures { Reads (table_fields (table_view table.now)) result }
{
    let name = required(alloc, table, "name")?;
    let row_security = required(alloc, table, "row_security")?;
    Ok(TableEntry { name, row_security })
}

/// A table with no other keys than its own.
fn table_in(alloc: Global, table: &Table) -> Result<TableEntry, ShapeError>
    ensures { Reads (table_in (table_view table.now)) result }
{
    if has_only(table, &["name", "row_security"]) {
        table_fields(alloc, table)
    } else {
        Err(ShapeError::Shape)
    }
}

impl Shaped for TableEntry {
    ghost use Rattle.lq_policyfile.specs.Shape.{table_of};

    ghost shape = { table_of };

    fn read(alloc: Global, value: &Value) -> Result<TableEntry, ShapeError> {
        table_in(alloc, value.as_table().ok_or(ShapeError::Shape)?)
    }
}
