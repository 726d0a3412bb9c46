//! The parts of policies, from entries whose names are known.
ghost use Rattle.std.specs.Prelude.{◌≡◌, [], map, true, IfOk, Some, slice_get, option_map};
ghost use Rattle.std.specs.List.{list_any};
ghost use Rattle.lq_policyfile.specs.Duplicates.{are_new};
ghost use Rattle.lq_policyfile.specs.File.{action_of, is_for_all, is_restrictive, is_secured, number_among, parts_of, policy_part, role_part, table_part};
ghost use Rattle.lq_policyfile.specs.Names.{role_names};
ghost use Rattle.lq_policyfile.specs.RightUses.{table_number};

use crate::duplicates::names_of;
use crate::entry::{Actions, FileEntries, Kind, PolicyEntry, RoleEntry, TableEntry};
use crate::name_set::NameSet;
use crate::right_uses::right_rules;
use lq_language::HostName;
use lq_security::{Action, Policy, PolicyParts, Role, TablePart};
use lq_store::{Column, Schema, Store};
use lq_value::{List, TableNumber, Txt};
use std::alloc::{AllocError, Global};

// ---- roles

/// The number of the role of this name, which is there.
fn number_among(names: &NameSet<'_>, name: &str) -> usize
    ensures { result ≡ number_among names.now name.now }
{
    names.place(name).unwrap_or(0)
}

/// The numbers of the roles of these names, which are there.
fn numbers_among(
    alloc: Global,
    names: &NameSet<'_>,
    members: &[Txt],
) -> Result<List<usize>, AllocError>
    ensures { IfOk result (λ numbers. numbers ≡ map (number_among names.now) members.now) }
{
    let mut numbers = List::new(alloc);
    let mut left = members;
    while let [name, others @ ..] = left {
        numbers.push(number_among(names, name.as_str()))?;
        left = others;
    }
    Ok(numbers)
}

/// The role of an entry, among the names of all.
fn role_part(alloc: Global, names: &NameSet<'_>, entry: &RoleEntry) -> Result<Role, AllocError>
    ensures { IfOk result (λ role. role ≡ role_part names.now entry.now) }
{
    Ok(Role {
        name: Txt::from_str(alloc, entry.name.as_str())?,
        member_of: numbers_among(alloc, names, entry.member_of.as_slice())?,
        bypass: entry.bypass,
    })
}

/// The roles of entries, among the names of all.
fn role_parts(
    alloc: Global,
    names: &NameSet<'_>,
    entries: &[RoleEntry],
) -> Result<List<Role>, AllocError>
    ensures { IfOk result (λ roles. roles ≡ map (role_part names.now) entries.now) }
{
    let mut roles = List::new(alloc);
    let mut left = entries;
    while let [entry, others @ ..] = left {
        roles.push(role_part(alloc, names, entry)?)?;
        left = others;
    }
    Ok(roles)
}

/// The roles of all entries.
fn roles_of(alloc: Global, entries: &[RoleEntry]) -> Result<List<Role>, AllocError>
    requires { are_new [] (role_names entries.now) ≡ true }
    ensures { IfOk result (λ roles. roles ≡ map (role_part (role_names entries.now)) entries.now) }
{
    let names = names_of(alloc, entries)?;
    role_parts(alloc, &names, entries)
}

// ---- tables

/// The names of columns.
fn column_names(alloc: Global, columns: &[Column]) -> Result<List<Txt>, AllocError>
    ensures { IfOk result (λ names. names ≡ map (λ column. column.name) columns.now) }
{
    let mut names = List::new(alloc);
    let mut left = columns;
    while let [column, others @ ..] = left {
        names.push(Txt::from_str(alloc, column.name.as_str())?)?;
        left = others;
    }
    Ok(names)
}

/// Whether an entry of the table of this name turns its row security on.
fn is_secured(entries: &[TableEntry], name: &str) -> bool
    ensures { result ≡ is_secured entries.now name.now }
{
    entries
        .iter()
        .any(|entry| entry.name.as_str() == name && entry.row_security)
}

/// What policies know of a table.
fn table_part(
    alloc: Global,
    entries: &[TableEntry],
    schema: &Schema,
) -> Result<TablePart, AllocError>
    ensures { IfOk result (λ part. part ≡ table_part entries.now schema.now) }
{
    Ok(TablePart {
        columns: column_names(alloc, schema.columns.as_slice())?,
        secured: is_secured(entries, schema.name.as_str()),
    })
}

/// What policies know of each table of the store.
fn tables_of(
    alloc: Global,
    store: &Store,
    entries: &[TableEntry],
) -> Result<List<TablePart>, AllocError>
    ensures { IfOk result (λ parts. parts
        ≡ map (λ table. table_part entries.now table.schema) store.now) }
{
    let mut parts = List::new(alloc);
    for number in 0..store.len() {
        let schema = store.schema(number as TableNumber);
        parts.push(table_part(alloc, entries, schema)?)?;
    }
    Ok(parts)
}

// ---- policies

fn is_restrictive(kind: Kind) -> bool
    ensures { result ≡ is_restrictive kind }
{
    matches!(kind, Kind::Restrictive)
}

fn is_for_all(actions: Actions) -> bool
    ensures { result ≡ is_for_all actions }
{
    matches!(actions, Actions::All)
}

/// The action of a policy for one; where it is for every action any would do.
fn action_of(actions: Actions) -> Action
    ensures { result ≡ action_of actions }
{
    match actions {
        Actions::All => Action::Select,
        Actions::Only(action) => action,
    }
}

/// The number of the table of this name, which is there.
pub(crate) fn table_number(store: &Store, name: &str) -> TableNumber
    ensures { result ≡ table_number store.now name.now }
{
    store.find(name).unwrap_or(0)
}

/// The policy of an entry.
fn policy_part(store: &Store, entry: PolicyEntry) -> Policy
    ensures { result ≡ policy_part store.now entry }
{
    let table = table_number(store, entry.table.as_str());
    let PolicyEntry {
        name,
        kind,
        to,
        rules,
        ..
    } = entry;
    Policy {
        name,
        table,
        restrictive: is_restrictive(kind),
        for_all: is_for_all(rules.actions),
        action: action_of(rules.actions),
        to,
        using: rules.using,
        check: rules.check,
    }
}

/// The policies of entries.
fn policies_of(
    alloc: Global,
    store: &Store,
    entries: List<PolicyEntry>,
) -> Result<List<Policy>, AllocError>
    ensures { IfOk result (λ policies. policies ≡ map (policy_part store.now) entries) }
{
    let mut policies = List::new(alloc);
    for entry in entries.into_vec() {
        policies.push(policy_part(store, entry))?;
    }
    Ok(policies)
}

/// The parts of policies whose names are known.
pub(crate) fn parts_of(
    alloc: Global,
    store: &Store,
    hosts: List<HostName>,
    file: FileEntries,
) -> Result<PolicyParts, AllocError>
    requires { are_new [] (role_names file.roles) ≡ true }
    ensures { IfOk result (λ parts. parts ≡ parts_of store.now hosts file) }
{
    let FileEntries {
        roles,
        tables,
        policies,
        grants,
        withholds,
    } = file;
    Ok(PolicyParts {
        roles: roles_of(alloc, roles.as_slice())?,
        tables: tables_of(alloc, store, tables.as_slice())?,
        policies: policies_of(alloc, store, policies)?,
        grants: right_rules(alloc, store, hosts.as_slice(), grants)?,
        withholds: right_rules(alloc, store, hosts.as_slice(), withholds)?,
        predicates: hosts,
    })
}
