//! The rules of policies, prepared for the rows of their tables.
ghost use Rattle.std.specs.Prelude.{◌≡◌, slice_get, true, IfOk};
ghost use Rattle.std.specs.List.{AllZip};
ghost use Rattle.std.specs.Option.{option_copied};
ghost use Rattle.lq_policy.specs.Guards.{IsGuarded, IsPrepared, columns_at, rule_in};
ghost use Rattle.lq_policy.specs.Rules.{are_rules_total, is_rule_total};

use lq_grammar::Expr;
use lq_rule::PreparedRule;
use lq_security::{Action, Policy, TablePart};
use lq_value::{TableNumber, Txt};
use std::alloc::{AllocError, Global};

/// The prepared rules of a policy.
#[derive(Drop)]
pub(crate) struct Guard {
    using: Option<PreparedRule>,
    check: Option<PreparedRule>,
}

impl Guard {
    ghost use Rattle.std.specs.Prelude.{◌≡◌, true, IfOk};
    ghost use Rattle.std.specs.Option.{option_copied};
    ghost use Rattle.lq_policy.specs.Guards.{Guards, prepared_for};
    ghost use Rattle.lq_policy.specs.Rules.{is_policy_total};

    /// The rules of a policy, prepared for rows with these columns.
    fn prepare(alloc: Global, columns: &[Txt], policy: &Policy) -> Result<Guard, AllocError>
        requires { is_policy_total policy.now ≡ true }
        ensures { IfOk result (Guards columns.now policy.now) }
    {
        Ok(Guard {
            using: prepared(alloc, columns, &policy.using)?,
            check: prepared(alloc, columns, &policy.check)?,
        })
    }

    /// The rule for an action, if the policy has one: a new row is checked by the rule for rows
    /// that are there where there is none of its own.
    fn rule(&self, action: Action) -> Option<&PreparedRule>
        ensures { option_copied result ≡ prepared_for action self.now }
    {
        match action {
            Action::Insert => self.check.as_ref().or(self.using.as_ref()),
            Action::Select | Action::Delete => self.using.as_ref(),
        }
    }
}

/// The rule, if there is one, prepared for rows with these columns.
fn prepared(
    alloc: Global,
    columns: &[Txt],
    rule: &Option<Expr>,
) -> Result<Option<PreparedRule>, AllocError>
    requires { is_rule_total rule.now ≡ true }
    ensures { IfOk result (IsPrepared columns.now rule.now) }
{
    match rule {
        Some(rule) => Ok(Some(PreparedRule::prepare(alloc, columns, rule)?)),
        None => Ok(None),
    }
}

/// The names of the columns of a table; none, where it isn't there.
fn columns_at(tables: &[TablePart], table: TableNumber) -> &[Txt]
    ensures { result.now ≡ columns_at tables.now table }
{
    match tables.get(table as usize) {
        Some(part) => part.columns.as_slice(),
        None => &[],
    }
}

/// For each policy, its rules, prepared for the rows of its table.
pub(crate) fn guards(
    alloc: Global,
    tables: &[TablePart],
    policies: &[Policy],
) -> Result<Vec<Guard>, AllocError>
    requires { are_rules_total policies.now ≡ true }
    ensures { IfOk result (λ guards. AllZip (IsGuarded tables.now) policies.now guards.items) }
{
    let mut guards = Vec::new(alloc);
    for policy in policies {
        let columns = columns_at(tables, policy.table);
        let guard = Guard::prepare(alloc, columns, policy)?;
        guards.push(guard)?;
    }
    Ok(guards)
}

/// The guard of this number.
fn guard_at(guards: &[Guard], number: usize) -> Option<&Guard>
    ensures { option_copied result ≡ slice_get guards.now number }
{
    guards.get(number)
}

/// The rule for an action of the policy of this number, if it has one.
pub(crate) fn rule_at(guards: &[Guard], number: usize, action: Action) -> Option<&PreparedRule>
    ensures { option_copied result ≡ rule_in action (slice_get guards.now number) }
{
    guard_at(guards, number)?.rule(action)
}
