//! The entries of roles.
ghost use Rattle.toml.specs.View.{table_view};
ghost use Rattle.std.specs.Prelude.{◌≡◌};
ghost use Rattle.lq_policyfile.specs.Outcome.{Reads};
ghost use Rattle.lq_policyfile.specs.Shape.{is_role_name, role_fields, role_in, role_name};

use crate::entry::RoleEntry;
use crate::error::ShapeError;
use crate::shape::value::{Shaped, has_only, optional, required};
use lq_lex::is_name;
use lq_value::{List, Txt};
use std::alloc::Global;
use toml::{Table, Value};

/// Whether a role may have this name.
fn is_role_name(name: &str) -> bool
    ensures { result ≡ is_role_name name.now }
{
    is_name(name) && name != "public"
}

/// The name of a role.
fn role_name(alloc: Global, table: &Table) -> Result<Txt, ShapeError>
    ensures { Reads (role_name (table_view table.now)) result }
{
    let name: Txt = required(alloc, table, "name")?;
    if is_role_name(name.as_str()) {
        Ok(name)
    } else {
        Err(ShapeError::Shape)
    }
}

/// A role, from the values of its keys.
fn role_fields(alloc: Global, table: &Table) -> Result<RoleEntry, ShapeError>
    ensures { Reads (role_fields (table_view table.now)) result }
{
    let name = role_name(alloc, table)?;
    let member_of = optional(alloc, table, "member_of", List::new(alloc))?;
    let bypass = optional(alloc, table, "bypass", false)?;
    Ok(RoleEntry {
        name,
        member_of,
        bypass,
    })
}

/// A role with no other keys than its own.
fn role_in(alloc: Global, table: &Table) -> Result<RoleEntry, ShapeError>
    ensures { Reads (role_in (table_view table.now)) result }
{
    if has_only(table, &["name", "member_of", "bypass"]) {
        role_fields(alloc, table)
    } else {
        Err(ShapeError::Shape)
    }
}

impl Shaped for RoleEntry {
    ghost use Rattle.lq_policyfile.specs.Shape.{role_of};

    ghost shape = { role_of };

    fn read(alloc: Global, value: &Value) -> Result<RoleEntry, ShapeError> {
        role_in(alloc, value.as_table().ok_or(ShapeError::Shape)?)
    }
}
