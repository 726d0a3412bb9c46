//! The rules of policies.
ghost use Rattle.std.specs.Prelude.{◌≡◌, option_map, Some};
ghost use Rattle.toml.specs.View.{table_view};
ghost use Rattle.lq_grammar.specs.Reading.{rule_reading_of};
ghost use Rattle.lq_policyfile.specs.Outcome.{Reads};
ghost use Rattle.lq_policyfile.specs.Shape.{are_in_place, rule_fields, rules_in, tree_of};

use crate::entry::{Actions, Rules};
use crate::error::ShapeError;
use crate::shape::value::{Shaped, optional};
use lq_grammar::Expr;
use lq_security::Action;
use lq_syntax::{SyntaxError, parse_rule};
use std::alloc::Global;
use toml::{Table, Value};

/// The tree of a text that spells a rule.
fn rule(alloc: Global, text: &str) -> Result<Expr, ShapeError>
    ensures { Reads (tree_of (rule_reading_of text.now)) result }
{
    match parse_rule(alloc, text) {
        Ok(rule) => Ok(rule),
        Err(SyntaxError::Memory) => Err(ShapeError::Memory),
        Err(SyntaxError::Syntax | SyntaxError::TooDeep) => Err(ShapeError::Shape),
    }
}

/// A rule that a policy may have.
impl Shaped for Option<Expr> {
    ghost use Rattle.lq_policyfile.specs.TomlValues.{by_text};
    ghost use Rattle.lq_policyfile.specs.Shape.{rule_of};

    ghost shape = { by_text rule_of };

    fn read(alloc: Global, value: &Value) -> Result<Option<Expr>, ShapeError> {
        let text = value.as_str().ok_or(ShapeError::Shape)?;
        Ok(Some(rule(alloc, text)?))
    }
}

/// Whether the rules are those that a policy for these actions has.
fn are_in_place(rules: &Rules) -> bool
    ensures { result ≡ are_in_place rules.now }
{
    let (using, check) = (rules.using.is_some(), rules.check.is_some());
    match rules.actions {
        Actions::All => using,
        Actions::Only(Action::Insert) => !using && check,
        Actions::Only(Action::Select | Action::Delete) => using && !check,
    }
}

/// The rules of a policy, from the values of their keys.
fn rule_fields(alloc: Global, table: &Table) -> Result<Rules, ShapeError>
    ensures { Reads (rule_fields (table_view table.now)) result }
{
    let actions = optional(alloc, table, "for", Actions::All)?;
    let using = optional(alloc, table, "using", None)?;
    let check = optional(alloc, table, "check", None)?;
    Ok(Rules {
        actions,
        using,
        check,
    })
}

/// The rules of a policy, where they are in their place.
pub(crate) fn rules_in(alloc: Global, table: &Table) -> Result<Rules, ShapeError>
    ensures { Reads (rules_in (table_view table.now)) result }
{
    let rules = rule_fields(alloc, table)?;
    if are_in_place(&rules) {
        Ok(rules)
    } else {
        Err(ShapeError::Shape)
    }
}
