//! Names of entries that aren't there.
ghost use Rattle.std.specs.Prelude.{◌≡◌, ◌≤◌, [], false, length, IfOk, OnOk};
ghost use Rattle.std.specs.List.{list_all};
ghost use Rattle.lq_policyfile.specs.NameSets.{with_name};
ghost use Rattle.lq_policyfile.specs.Names.{all_pass, are_memberships_known, are_names_known, are_rules_known, columns_of, is_addressee, is_among, is_policy_known, is_table, is_table_known, passes};
ghost use Rattle.lq_policyfile.specs.RuleNames.{knows};

use crate::duplicates::names_of;
use crate::entry::{FileEntries, PolicyEntry, RoleEntry, Rules, TableEntry};
use crate::name_set::NameSet;
use crate::rights::are_entries_known;
use crate::rule_names::is_expression_known;
use lq_grammar::Expr;
use lq_language::HostName;
use lq_store::{Column, Store};
use lq_value::Txt;
use std::alloc::{AllocError, Global};

/// Whether a role is a member of earlier roles alone; it is one of them from now on.
fn is_known<'a>(earlier: &mut NameSet<'a>, role: &'a RoleEntry) -> Result<bool, AllocError>
    ensures known { IfOk result (λ answer. answer
        ≡ list_all (is_among earlier.old) role.now.member_of) }
    ensures names { OnOk result (earlier.new ≡ with_name earlier.old role.now.name) }
{
    let are_earlier = earlier.has_all(role.member_of.as_slice());
    earlier.add(role.name.as_str())?;
    Ok(are_earlier)
}

/// Whether each role is a member of roles that come before it.
fn are_memberships_known(alloc: Global, roles: &[RoleEntry]) -> Result<bool, AllocError>
    ensures { IfOk result (λ answer. answer ≡ are_memberships_known [] roles.now) }
{
    let mut earlier = NameSet::new(alloc);
    for role in roles {
        if !is_known(&mut earlier, role)? {
            return Ok(false);
        }
    }
    Ok(true)
}

/// Whether there is a table of this name.
pub(crate) fn is_table(store: &Store, name: &str) -> bool
    ensures { result ≡ is_table store.now name.now }
{
    store.find(name).is_some()
}

/// Whether each table that is spoken of is there.
fn are_tables_known(store: &Store, tables: &[TableEntry]) -> bool
    ensures { result ≡ list_all (is_table_known store.now) tables.now }
{
    tables
        .iter()
        .all(|table| is_table(store, table.name.as_str()))
}

/// The columns of the table of this name, none where it isn't there.
#[tactic(auto, using(lq_store::proofs::KeptTableLaws::few_columns))]
pub(crate) fn columns_of<'a>(store: &'a Store, table: &str) -> &'a [Column]
    ensures columns { result.now ≡ columns_of store.now table.now }
    ensures few { length result.now ≤ 100 }
{
    match store.find(table) {
        Some(number) => store.schema(number).columns.as_slice(),
        None => &[],
    }
}

/// Whether a rule that is there names only what is there.
fn is_rule_known(hosts: &[HostName], columns: &[Column], rule: &Option<Expr>) -> bool
    ensures { result ≡ passes (λ expr. knows hosts.now columns.now expr false) rule.now }
{
    match rule {
        Some(rule) => is_expression_known(hosts, columns, rule, false),
        None => true,
    }
}

/// Whether the rules name only what is there.
fn are_both_known(hosts: &[HostName], columns: &[Column], rules: &Rules) -> bool
    ensures { result ≡ all_pass (λ expr. knows hosts.now columns.now expr false) rules.now }
{
    is_rule_known(hosts, columns, &rules.using) && is_rule_known(hosts, columns, &rules.check)
}

/// Whether each name is that of a role or `public`.
pub(crate) fn are_addressees(roles: &NameSet<'_>, names: &[Txt]) -> bool
    ensures { result ≡ list_all (is_addressee roles.now) names.now }
{
    names.iter().all(|name| name.as_str() == "public" || roles.contains(name.as_str()))
}

/// Whether a policy names only what is there.
fn is_policy_known(
    store: &Store,
    hosts: &[HostName],
    roles: &NameSet<'_>,
    policy: &PolicyEntry,
) -> bool
    ensures { result ≡ is_policy_known store.now hosts.now roles.now policy.now }
{
    is_table(store, policy.table.as_str())
        && are_addressees(roles, policy.to.as_slice())
        && are_both_known(
            hosts,
            columns_of(store, policy.table.as_str()),
            &policy.rules,
        )
}

/// Whether each policy names only what is there.
fn are_policies_known(
    store: &Store,
    hosts: &[HostName],
    roles: &NameSet<'_>,
    policies: &[PolicyEntry],
) -> bool
    ensures { result ≡ list_all (is_policy_known store.now hosts.now roles.now) policies.now }
{
    policies
        .iter()
        .all(|policy| is_policy_known(store, hosts, roles, policy))
}

/// Whether each policy, grant and withhold names only what is there.
fn are_rules_known(
    store: &Store,
    hosts: &[HostName],
    roles: &NameSet<'_>,
    file: &FileEntries,
) -> bool
    ensures { result ≡ are_rules_known store.now hosts.now roles.now file.now }
{
    are_policies_known(store, hosts, roles, file.policies.as_slice())
        && are_entries_known(store, hosts, roles, file.grants.as_slice())
        && are_entries_known(store, hosts, roles, file.withholds.as_slice())
}

/// Whether the file names only what is there.
#[tactic(auto, using(crate::proofs::NameLemmas::rules_by_set), unfolding(crate::specs::Names::are_names_known))]
pub(crate) fn are_names_known(
    alloc: Global,
    store: &Store,
    hosts: &[HostName],
    file: &FileEntries,
) -> Result<bool, AllocError>
    ensures { IfOk result (λ answer. answer ≡ are_names_known store.now hosts.now file.now) }
{
    let roles = names_of(alloc, file.roles.as_slice())?;
    Ok(
        are_memberships_known(alloc, file.roles.as_slice())?
            && are_tables_known(store, file.tables.as_slice())
            && are_rules_known(store, hosts, &roles, file),
    )
}
