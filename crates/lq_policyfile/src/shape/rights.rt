//! The entries of grants and withholds.
ghost use Rattle.std.specs.Prelude.{◌≡◌};
ghost use Rattle.toml.specs.View.{table_view};
ghost use Rattle.lq_policyfile.specs.Outcome.{Reads};
ghost use Rattle.lq_policyfile.specs.Shape.{right_fields, right_in};

use crate::entry::RightEntry;
use crate::error::ShapeError;
use crate::shape::policies::{all_roles, rule_name};
use crate::shape::value::{Shaped, has_only, optional, required};
use std::alloc::Global;
use toml::{Table, Value};

/// A grant or a withhold, from the values of its keys.
fn right_fields(alloc: Global, table: &Table) -> Result<RightEntry, ShapeError>
    ensures { Reads (right_fields (table_view table.now)) result }
{
    let name = rule_name(alloc, table)?;
    let to = optional(alloc, table, "to", all_roles(alloc)?)?;
    let rights = required(alloc, table, "rights")?;
    Ok(RightEntry { name, to, rights })
}

/// A grant or a withhold with no other keys than its own.
fn right_in(alloc: Global, table: &Table) -> Result<RightEntry, ShapeError>
    ensures { Reads (right_in (table_view table.now)) result }
{
    if has_only(table, &["name", "to", "rights"]) {
        right_fields(alloc, table)
    } else {
        Err(ShapeError::Shape)
    }
}

impl Shaped for RightEntry {
    ghost use Rattle.lq_policyfile.specs.Shape.{right_entry_of};

    ghost shape = { right_entry_of };

    fn read(alloc: Global, value: &Value) -> Result<RightEntry, ShapeError> {
        right_in(alloc, value.as_table().ok_or(ShapeError::Shape)?)
    }
}
