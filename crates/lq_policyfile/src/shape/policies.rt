//! The entries of row policies.
ghost use Rattle.std.specs.Prelude.{◌≡◌, ◌∷◌, [], codes, IfOk};
ghost use Rattle.toml.specs.View.{table_view};
ghost use Rattle.lq_policyfile.specs.Outcome.{Reads};
ghost use Rattle.lq_policyfile.specs.Shape.{is_rule_name, policy_fields, policy_in, rule_name};

use crate::entry::{Kind, PolicyEntry};
use crate::error::ShapeError;
use crate::shape::rules::rules_in;
use crate::shape::value::{Shaped, has_only, optional, required};
use lq_value::{List, Txt};
use std::alloc::{AllocError, Global};
use toml::{Table, Value};

/// The most bytes that the name of a rule has.
const MOST_NAME_BYTES: usize = 64;

/// Whether a rule may have this name. Two names mean a refusal that no rule makes.
fn is_rule_name(name: &str) -> bool
    ensures { result ≡ is_rule_name name.now }
{
    1 <= name.len() && name.len() <= MOST_NAME_BYTES && name != "no-grant" && name != "default-deny"
}

/// The name of a rule.
pub(crate) fn rule_name(alloc: Global, table: &Table) -> Result<Txt, ShapeError>
    ensures { Reads (rule_name (table_view table.now)) result }
{
    let name: Txt = required(alloc, table, "name")?;
    if is_rule_name(name.as_str()) {
        Ok(name)
    } else {
        Err(ShapeError::Shape)
    }
}

/// The list of `public`, which means all roles.
pub(crate) fn all_roles(alloc: Global) -> Result<List<Txt>, AllocError>
    ensures { IfOk result (λ names. names ≡ codes "public" ∷ []) }
{
    let mut names = List::new(alloc);
    names.push(Txt::from_str(alloc, "public")?)?;
    Ok(names)
}

/// A policy, from the values of its keys.
fn policy_fields(alloc: Global, table: &Table) -> Result<PolicyEntry, ShapeError>
    ensures { Reads (policy_fields (table_view table.now)) result }
{
    let name = rule_name(alloc, table)?;
    let guarded = required(alloc, table, "table")?;
    let kind = optional(alloc, table, "kind", Kind::Permissive)?;
    let to = optional(alloc, table, "to", all_roles(alloc)?)?;
    let rules = rules_in(alloc, table)?;
    Ok(PolicyEntry {
        name,
        table: guarded,
        kind,
        to,
        rules,
    })
}

/// A policy with no other keys than its own.
fn policy_in(alloc: Global, table: &Table) -> Result<PolicyEntry, ShapeError>
    ensures { Reads (policy_in (table_view table.now)) result }
{
    if has_only(
        table,
        &["name", "table", "kind", "for", "to", "using", "check"],
    ) {
        policy_fields(alloc, table)
    } else {
        Err(ShapeError::Shape)
    }
}

impl Shaped for PolicyEntry {
    ghost use Rattle.lq_policyfile.specs.Shape.{policy_of};

    ghost shape = { policy_of };

    fn read(alloc: Global, value: &Value) -> Result<PolicyEntry, ShapeError> {
        policy_in(alloc, value.as_table().ok_or(ShapeError::Shape)?)
    }
}
