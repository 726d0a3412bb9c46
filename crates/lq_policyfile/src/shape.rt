//! Reads the entries of a policy file from a TOML tree.
ghost use Rattle.toml.specs.View.{table_view};
ghost use Rattle.std.specs.Prelude.{◌≡◌};
ghost use Rattle.lq_policyfile.specs.Outcome.{Reads};
ghost use Rattle.lq_policyfile.specs.Shape.{entries_of, file_fields};

mod policies;
mod right_forms;
mod rights;
mod roles;
mod rules;
mod tables;
mod value;
mod words;

use crate::entry::FileEntries;
use crate::error::ShapeError;
use lq_value::List;
use std::alloc::Global;
use toml::Table;
use value::{has_only, optional};

/// The entries of a file, from the values of its keys.
fn file_fields(alloc: Global, table: &Table) -> Result<FileEntries, ShapeError>
    ensures { Reads (file_fields (table_view table.now)) result }
{
    let roles = optional(alloc, table, "role", List::new(alloc))?;
    let tables = optional(alloc, table, "table", List::new(alloc))?;
    let policies = optional(alloc, table, "policy", List::new(alloc))?;
    let grants = optional(alloc, table, "grant", List::new(alloc))?;
    let withholds = optional(alloc, table, "withhold", List::new(alloc))?;
    Ok(FileEntries {
        roles,
        tables,
        policies,
        grants,
        withholds,
    })
}

/// The entries of a file with no other keys than its own.
#[tactic(auto, unfolding(crate::specs::Shape::entries_of))]
pub(crate) fn entries_of(alloc: Global, table: &Table) -> Result<FileEntries, ShapeError>
    ensures { Reads (entries_of (table_view table.now)) result }
{
    if has_only(table, &["role", "table", "policy", "grant", "withhold"]) {
        file_fields(alloc, table)
    } else {
        Err(ShapeError::Shape)
    }
}
