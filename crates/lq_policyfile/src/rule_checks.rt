//! The types of rules, and which of them can't fault.
ghost use Rattle.std.specs.Prelude.{◌≡◌, option_map};
ghost use Rattle.lq_security.specs.Totality.{is_total};
ghost use Rattle.lq_language.specs.Names.{column_named, type_of_column};
ghost use Rattle.lq_policyfile.specs.Names.{all_pass, passes};
ghost use Rattle.lq_policyfile.specs.RuleChecks.{are_rules_total, are_rules_typed, is_policy_typed, is_typed};

use crate::entry::{PolicyEntry, Rules};
use crate::names::columns_of;
use lq_grammar::Expr;
use lq_language::HostName;
use lq_scalar::{ExprType, Names, Referent, ScalarRef, is_total, type_of};
use lq_store::{Column, ColumnType, Store};
use lq_value::{Scalar, TableNumber};

/// The type of the column of this name.
fn type_of_named(columns: &[Column], name: &str) -> Option<ColumnType>
    ensures { option_map type_of_column result
        ≡ option_map (λ column. type_of_column column.ty) (column_named name.now columns.now) }
{
    let mut left = columns;
    while let [column, others @ ..] = left {
        if column.name.as_str() == name {
            return Some(column.ty);
        }
        left = others;
    }
    None
}

/// The names of a rule: `row`, a row of the table with these columns, and `user`. No type depends on
/// what they mean.
#[derive(Drop)]
struct RuleNames<'a> {
    columns: &'a [Column],
}

impl Names for RuleNames<'_> {
    ghost use Rattle.lq_policyfile.specs.TypedNames.{typed_scope, typed_world};

    ghost Row = { Unit {0} };

    ghost world = { λ names. typed_world names.columns.now };

    ghost scope = { λ names. typed_scope };

    /// The type of a name. The one table has the empty name, which no rule spells.
    fn name_type(&self, name: &str) -> Option<ExprType> {
        match name {
            "row" => Some(ExprType::Row(0)),
            "user" => Some(ExprType::Str),
            "" => Some(ExprType::Rows(0)),
            _ => None,
        }
    }

    /// The type of a column of the one table.
    fn column_type(&self, table: TableNumber, column: &str) -> Option<ExprType> {
        if table != 0 {
            return None;
        }
        type_of_named(self.columns, column).map(ExprType::of_column)
    }

    /// `row` is some row, and `user` some text.
    #[tactic(auto, using(crate::proofs::TypingLemmas::values))]
    fn named(&self, name: &str) -> Option<Referent<'_>> {
        match name {
            "row" => Some(Referent::Row),
            "user" => Some(Referent::Scalar(ScalarRef::Text(""))),
            _ => None,
        }
    }

    /// No cell is known.
    #[tactic(auto, using(crate::proofs::TypingLemmas::no_cell))]
    fn cell(&self, _row: &str, _column: &str) -> Option<&Scalar> {
        None
    }
}

/// Whether a rule is a truth value, where these host predicates are known.
#[tactic(auto, using(lq_scalar::proofs::TypeLaws::layer_known))]
fn is_typed(hosts: &[HostName], columns: &[Column], rule: &Expr) -> bool
    ensures { result ≡ is_typed hosts.now columns.now rule.now }
{
    matches!(
        type_of(&RuleNames { columns }, hosts, rule),
        Some(ExprType::Bool)
    )
}

/// The same of a rule that is there.
fn is_typed_if_there(hosts: &[HostName], columns: &[Column], rule: &Option<Expr>) -> bool
    ensures { result ≡ passes (is_typed hosts.now columns.now) rule.now }
{
    match rule {
        Some(rule) => is_typed(hosts, columns, rule),
        None => true,
    }
}

/// Whether the rules are truth values.
fn are_typed(hosts: &[HostName], columns: &[Column], rules: &Rules) -> bool
    ensures { result ≡ all_pass (is_typed hosts.now columns.now) rules.now }
{
    is_typed_if_there(hosts, columns, &rules.using)
        && is_typed_if_there(hosts, columns, &rules.check)
}

/// Whether the rules of a policy are truth values.
fn is_policy_typed(store: &Store, hosts: &[HostName], policy: &PolicyEntry) -> bool
    ensures { result ≡ is_policy_typed store.now hosts.now policy.now }
{
    let columns = columns_of(store, policy.table.as_str());
    are_typed(hosts, columns, &policy.rules)
}

/// Whether the rules of each policy are truth values.
pub(crate) fn are_rules_typed(store: &Store, hosts: &[HostName], policies: &[PolicyEntry]) -> bool
    ensures { result ≡ are_rules_typed store.now hosts.now policies.now }
{
    policies
        .iter()
        .all(|policy| is_policy_typed(store, hosts, policy))
}

/// Whether a rule that is there can't fault.
fn is_total_if_there(rule: &Option<Expr>) -> bool
    ensures { result ≡ passes is_total rule.now }
{
    match rule {
        Some(rule) => is_total(rule),
        None => true,
    }
}

/// Whether the rules of each policy can't fault.
pub(crate) fn are_rules_total(policies: &[PolicyEntry]) -> bool
    ensures { result ≡ are_rules_total policies.now }
{
    policies.iter().all(|policy| {
        is_total_if_there(&policy.rules.using) && is_total_if_there(&policy.rules.check)
    })
}
