//! The line of a denial: the rule that denies a use, and the use as it is named.
ghost use Rattle.std.specs.Prelude.{◌≡◌, codes, slice_get, string_bytes, IfOk};
ghost use Rattle.lq_machine.specs.States.{schemas_of};
ghost use Rattle.lq_machine.specs.Served.{columns_in, denied_data, line_of, name_at, name_of_predicate, name_of_table, use_name};

use crate::line::Line;
use lq_host::PredicateNumber;
use lq_language::{HostName, Use};
use lq_store::Store;
use lq_value::{ColumnNumber, TableNumber};
use serde_json::Map;
use std::alloc::{AllocError, Global};

/// The name of a table; empty where there is no such table.
fn table_name(store: &Store, table: TableNumber) -> &str
    ensures { result.now ≡ name_of_table (slice_get (schemas_of store.now) table) }
{
    if table as usize >= store.len() {
        return "";
    }
    store.schema(table).name.as_str()
}

/// The name of a column; empty where there is no such column.
fn column_name(store: &Store, table: TableNumber, column: ColumnNumber) -> &str
    ensures { result.now
        ≡ name_at (slice_get (columns_in (slice_get (schemas_of store.now) table)) column) }
{
    if table as usize >= store.len() {
        return "";
    }
    match store.schema(table).columns.as_slice().get(column as usize) {
        Some(column) => column.name.as_str(),
        None => "",
    }
}

/// The name of a host predicate; empty where there is no such predicate.
fn predicate_name(hosts: &[HostName], predicate: PredicateNumber) -> &str
    ensures { result.now ≡ name_of_predicate (slice_get hosts.now predicate) }
{
    match hosts.get(predicate as usize) {
        Some(host) => host.name.as_str(),
        None => "",
    }
}

/// A use as it is named.
fn use_name(
    alloc: Global,
    store: &Store,
    hosts: &[HostName],
    used: Use,
) -> Result<String, AllocError>
    ensures { IfOk result
        (λ name. string_bytes name ≡ use_name (schemas_of store.now) hosts.now used) }
{
    match used {
        Use::Table(table) => Ok(String::from_str(alloc, table_name(store, table))?),
        Use::Column(table, column) => {
            let (table, column) = (table_name(store, table), column_name(store, table, column));
            Ok(format!(in alloc; "{table}.{column}")?)
        }
        Use::Insert(table) => {
            let table = table_name(store, table);
            Ok(format!(in alloc; "{table} insert")?)
        }
        Use::Delete(table) => {
            let table = table_name(store, table);
            Ok(format!(in alloc; "{table} delete")?)
        }
        Use::Host(predicate) => {
            let predicate = predicate_name(hosts, predicate);
            Ok(format!(in alloc; "Host.{predicate}")?)
        }
    }
}

/// The line of a denial by a rule.
pub(crate) fn denied_line(
    alloc: Global,
    store: &Store,
    hosts: &[HostName],
    rule: &str,
    used: Use,
) -> Result<Line, AllocError>
    ensures { IfOk result (λ line. line
        ≡ line_of (denied_data (schemas_of store.now) hosts.now rule.now used)) }
{
    let name = use_name(alloc, store, hosts, used)?;
    let name = serde_json::Value::try_from_str(alloc, name.as_str())?;
    let rule = serde_json::Value::try_from_str(alloc, rule)?;
    let mut members = Map::new(alloc);
    serde_json::put(&mut members, alloc, "use", name)?;
    serde_json::put(&mut members, alloc, "denied", rule)?;
    let mut line = serde_json::Value::Object(members).to_vec(alloc)?;
    line.push(b'\n')?;
    Ok(Line::from_bytes(line))
}
