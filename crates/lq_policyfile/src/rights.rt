//! Names in grants and withholds that aren't there.
ghost use Rattle.std.specs.Prelude.{◌≡◌};
ghost use Rattle.std.specs.List.{list_all};
ghost use Rattle.lq_policyfile.specs.Names.{is_entry_known, is_right_known};

use crate::entry::{RightEntry, RightForm};
use crate::name_set::NameSet;
use crate::names::{are_addressees, columns_of, is_table};
use crate::rule_names::{has_column, is_predicate};
use lq_language::HostName;
use lq_store::Store;

/// Whether a right names only what is there.
fn is_right_known(store: &Store, hosts: &[HostName], right: &RightForm) -> bool
    ensures { result ≡ is_right_known store.now hosts.now right.now }
{
    match right {
        RightForm::Column(table, column) => {
            is_table(store, table.as_str())
                && has_column(columns_of(store, table.as_str()), column.as_str())
        }
        RightForm::AllColumns(table) | RightForm::Insert(table) | RightForm::Delete(table) => {
            is_table(store, table.as_str())
        }
        RightForm::Host(predicate) => is_predicate(hosts, predicate.as_str()),
    }
}

/// Whether each right names only what is there.
fn are_rights_known(store: &Store, hosts: &[HostName], rights: &[RightForm]) -> bool
    ensures { result ≡ list_all (is_right_known store.now hosts.now) rights.now }
{
    rights
        .iter()
        .all(|right| is_right_known(store, hosts, right))
}

/// Whether a grant or a withhold names only what is there.
fn is_entry_known(
    store: &Store,
    hosts: &[HostName],
    roles: &NameSet<'_>,
    entry: &RightEntry,
) -> bool
    ensures { result ≡ is_entry_known store.now hosts.now roles.now entry.now }
{
    are_addressees(roles, entry.to.as_slice())
        && are_rights_known(store, hosts, entry.rights.as_slice())
}

/// Whether each grant or withhold names only what is there.
pub(crate) fn are_entries_known(
    store: &Store,
    hosts: &[HostName],
    roles: &NameSet<'_>,
    entries: &[RightEntry],
) -> bool
    ensures { result ≡ list_all (is_entry_known store.now hosts.now roles.now) entries.now }
{
    entries
        .iter()
        .all(|entry| is_entry_known(store, hosts, roles, entry))
}
