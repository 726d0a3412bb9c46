//! Rules of row policies, read on a row (PostgreSQL, CREATE POLICY). A rule's names are `row`, with
//! its columns, and `user`, the name of the role.
ghost use Rattle.std.specs.Prelude.{◌≡◌, true};
ghost use Rattle.lq_security.specs.Totality.{is_total};
ghost use Rattle.lq_security.specs.Visible.{rule_holds};

use crate::cell::cell_named;
use crate::evaluation::Evaluation;
use crate::names::{ExprType, Names, Referent};
use crate::scalar_ref::ScalarRef;
use crate::texts::NoTexts;
use lq_grammar::Expr;
use lq_value::{Scalar, TableNumber, Txt};

/// A row as a rule reads it: its cells, in the order of its columns' names.
#[derive(Clone, Copy, Drop)]
pub struct Cells<'a> {
    /// The names of the columns.
    pub columns: &'a [Txt],
    /// The cells.
    pub cells: &'a [Scalar],
}

/// The names of a rule.
#[derive(Clone, Copy, Drop)]
struct RuleNames<'a> {
    row: Cells<'a>,
    user: &'a str,
}

impl Names for RuleNames<'_> {
    ghost use Rattle.std.specs.Prelude.{List};
    ghost use Rattle.lq_value.specs.declared.scalar.Scalar.{Scalar};
    ghost use Rattle.lq_security.specs.Visible.{rule_scope, rule_world};

    ghost Row = { List Scalar };

    ghost world = { λ names. rule_world names.row.columns.now };

    ghost scope = { λ names. rule_scope names.row.cells.now names.user.now };

    // The one table that a rule is about has the number 0. Its columns' types aren't known: no
    // meaning of a total rule depends on them.
    fn name_type(&self, name: &str) -> Option<ExprType> {
        if "row" == name {
            return Some(ExprType::Row(0));
        }
        if "user" == name {
            return Some(ExprType::Str);
        }
        None
    }

    fn column_type(&self, _table: TableNumber, _column: &str) -> Option<ExprType> {
        None
    }

    #[tactic(auto, using(crate::proofs::RuleLemmas::values))]
    fn named(&self, name: &str) -> Option<Referent<'_>> {
        if "row" == name {
            return Some(Referent::Row);
        }
        if "user" == name {
            return Some(Referent::Scalar(ScalarRef::Text(self.user)));
        }
        None
    }

    #[tactic(auto, using(crate::proofs::RuleLemmas::values, crate::proofs::RuleLemmas::names_themselves))]
    fn cell(&self, row: &str, column: &str) -> Option<&Scalar> {
        if "row" == row {
            return cell_named(self.row.columns, self.row.cells, column);
        }
        None
    }
}

/// Whether the rule, which is total, is true on a row of any table for the user. Takes no memory.
pub fn holds(rule: &Expr, row: Cells<'_>, user: &str) -> bool
    requires { is_total rule.now ≡ true }
    ensures { result ≡ rule_holds row.entry.columns.now rule.now row.entry.cells.now user.now }
{
    let names = RuleNames { row, user };
    let evaluation = Evaluation {
        names: &names,
        texts: NoTexts,
    };
    evaluation.truth(rule).unwrap_or(false)
}
