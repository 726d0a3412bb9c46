//! Whether the rules of policies are total by their form, which means that they can't fault.
ghost use Rattle.std.specs.Prelude.{◌≡◌};
ghost use Rattle.lq_policy.specs.Rules.{are_rules_total, is_policy_total, is_rule_total};

use lq_grammar::Expr;
use lq_scalar::is_total;
use lq_security::{Policy, PolicyParts};

/// Whether the rule, if it is there, is total by its form.
fn is_rule_total(rule: &Option<Expr>) -> bool
    ensures { result ≡ is_rule_total rule.now }
{
    match rule {
        Some(rule) => is_total(rule),
        None => true,
    }
}

/// Whether each rule of the policy is total by its form.
fn is_policy_total(policy: &Policy) -> bool
    ensures { result ≡ is_policy_total policy.now }
{
    is_rule_total(&policy.using) && is_rule_total(&policy.check)
}

/// Whether each rule of the policies is total by its form.
pub fn are_rules_total(parts: &PolicyParts) -> bool
    ensures { result ≡ are_rules_total parts.now.policies }
{
    parts
        .policies
        .as_slice()
        .iter()
        .all(|policy| is_policy_total(policy))
}
