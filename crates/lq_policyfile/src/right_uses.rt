//! What rights are for, where their names are known.
ghost use Rattle.std.specs.Prelude.{◌≡◌, ◌++◌, ◌≤◌, flat_map, length, map, unwrap_or, IfOk, IfSome, OnOk, ◌<◌};
ghost use Rattle.lq_value.specs.Tables.{first_named};
ghost use Rattle.lq_language.specs.Uses.{columns_from};
ghost use Rattle.lq_policyfile.specs.RightUses.{column_number, host_number, right_rule, uses_of};

use crate::entry::{RightEntry, RightForm};
use crate::names::columns_of;
use crate::parts::table_number;
use lq_host::PredicateNumber;
use lq_language::{HostName, RightRule, Use};
use lq_store::{Column, Store};
use lq_value::{ColumnNumber, List, TableNumber};
use std::alloc::{AllocError, Global};

/// The place of the column of this name.
fn column_place(columns: &[Column], name: &str) -> Option<usize>
    ensures place { result ≡ first_named (λ column. column.name) name.now columns.now }
    ensures within { IfSome result (λ place. place < length columns.now) }
{
    columns
        .iter()
        .position(|column| column.name.as_str() == name)
}

/// The number of the column of this name, which is there.
fn column_number(columns: &[Column], name: &str) -> ColumnNumber
    requires few { length columns.now ≤ 100 }
    ensures { result ≡ column_number columns.now name.now }
{
    match column_place(columns, name) {
        Some(place) => place as ColumnNumber,
        None => 0,
    }
}

/// The place of the host predicate of this name.
fn host_place(hosts: &[HostName], name: &str) -> Option<usize>
    ensures { result ≡ first_named (λ host. host.name) name.now hosts.now }
{
    hosts.iter().position(|host| host.name.as_str() == name)
}

/// The number of the host predicate of this name, which is there. No host has more predicates than
/// numbers reach; one that had is refused as past all memory.
fn host_number(hosts: &[HostName], name: &str) -> Result<PredicateNumber, AllocError>
    ensures { IfOk result (λ number. number ≡ host_number hosts.now name.now) }
{
    let place = host_place(hosts, name).unwrap_or(0);
    let Ok(number) = u16::try_from(place) else {
        return Err(AllocError);
    };
    Ok(number)
}

/// Adds each column of a table with this number.
fn add_columns(
    uses: &mut List<Use>,
    table: TableNumber,
    columns: &[Column],
) -> Result<(), AllocError>
    requires few { length columns.now ≤ 100 }
    ensures { OnOk result (uses.new ≡ uses.old ++ columns_from table 0 columns.now) }
{
    let mut number = 0;
    let mut left = columns;
    while let [_column, others @ ..] = left {
        uses.push(Use::Column(table, number))?;
        number += 1;
        left = others;
    }
    Ok(())
}

/// Adds what a right is for.
fn add_uses(
    uses: &mut List<Use>,
    store: &Store,
    hosts: &[HostName],
    right: &RightForm,
) -> Result<(), AllocError>
    ensures { OnOk result (uses.new ≡ uses.old ++ uses_of store.now hosts.now right.now) }
{
    match right {
        RightForm::Column(table, column) => {
            let number = column_number(columns_of(store, table.as_str()), column.as_str());
            uses.push(Use::Column(table_number(store, table.as_str()), number))
        }
        RightForm::AllColumns(table) => {
            let columns = columns_of(store, table.as_str());
            add_columns(uses, table_number(store, table.as_str()), columns)
        }
        RightForm::Insert(table) => uses.push(Use::Insert(table_number(store, table.as_str()))),
        RightForm::Delete(table) => uses.push(Use::Delete(table_number(store, table.as_str()))),
        RightForm::Host(predicate) => {
            let number = host_number(hosts, predicate.as_str())?;
            uses.push(Use::Host(number))
        }
    }
}

/// What rights are for, in their order.
fn all_uses(
    alloc: Global,
    store: &Store,
    hosts: &[HostName],
    rights: &[RightForm],
) -> Result<List<Use>, AllocError>
    ensures { IfOk result (λ uses. uses ≡ flat_map (uses_of store.now hosts.now) rights.now) }
{
    let mut uses = List::new(alloc);
    let mut left = rights;
    while let [right, others @ ..] = left {
        add_uses(&mut uses, store, hosts, right)?;
        left = others;
    }
    Ok(uses)
}

/// The rule of an entry.
fn right_rule(
    alloc: Global,
    store: &Store,
    hosts: &[HostName],
    entry: RightEntry,
) -> Result<RightRule, AllocError>
    ensures { IfOk result (λ rule. rule ≡ right_rule store.now hosts.now entry) }
{
    let RightEntry { name, to, rights } = entry;
    let rights = all_uses(alloc, store, hosts, rights.as_slice())?;
    Ok(RightRule { name, to, rights })
}

/// The rules of entries.
pub(crate) fn right_rules(
    alloc: Global,
    store: &Store,
    hosts: &[HostName],
    entries: List<RightEntry>,
) -> Result<List<RightRule>, AllocError>
    ensures { IfOk result (λ rules. rules ≡ map (right_rule store.now hosts.now) entries) }
{
    let mut rules = List::new(alloc);
    for entry in entries.into_vec() {
        rules.push(right_rule(alloc, store, hosts, entry)?)?;
    }
    Ok(rules)
}
