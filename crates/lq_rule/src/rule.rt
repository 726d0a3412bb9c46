//! Rules prepared for the rows of a table (PostgreSQL, CREATE POLICY).
use crate::conditions::condition;
use crate::prepare::prepared;
use crate::prepared::Prepared;
use crate::ranges::Range;
use lq_condition::Condition;
use lq_grammar::Expr;
use lq_value::{Scalar, Txt};
use std::alloc::{AllocError, Global};

/// A rule of a row policy, prepared for rows with certain columns.
#[derive(Drop)]
pub struct PreparedRule {
    /// The rule, where it only compares a cell with a number.
    range: Option<Range>,
    /// What comparisons and searches of cells say of the rule.
    quick: Condition,
    /// The whole rule, read where these say nothing.
    tree: Prepared,
}

impl PreparedRule {
    ghost use Rattle.std.specs.Prelude.{◌≡◌, IfOk, IfSome, List, ℕ, true};
    ghost use Rattle.lq_security.specs.Totality.{is_total};
    ghost use Rattle.lq_rule.specs.Deciding.{DecidesAs, decides, verdict_within};

    /// Prepares a rule, which is total, for rows with these columns. Copies the texts that are in it;
    /// on a row it then takes no memory.
    #[tactic(auto, using(crate::proofs::DecidingLemmas::decides_as))]
    pub fn prepare(alloc: Global, columns: &[Txt], rule: &Expr) -> Result<PreparedRule, AllocError>
        requires { is_total rule.now ≡ true }
        ensures { IfOk result (λ prepared. DecidesAs columns.now rule.now prepared) }
    {
        let tree = prepared(alloc, columns, rule)?;
        let quick = condition(alloc, &tree)?;
        Ok(PreparedRule {
            range: Range::of(&tree),
            quick,
            tree,
        })
    }

    /// Whether the number that the rule compares, if it does no more, is in its range.
    #[inline(always)]
    fn verdict_within(&self, cells: &[Scalar]) -> Option<bool>
        ensures { result ≡ verdict_within self.now.range cells.now }
    {
        match &self.range {
            Some(range) => range.verdict(cells),
            None => None,
        }
    }

    /// Whether the rule is true on a row with these cells, for a role of whatever name, where it only
    /// compares one of them with a number and that one is a number. Takes no memory.
    #[inline(always)]
    #[tactic(auto, unfolding(crate::specs::Deciding::decides))]
    pub fn verdict(&self, cells: &[Scalar]) -> Option<bool>
        ensures { IfSome result (λ truth. (user : List ℕ)
            → decides self.now cells.now user ≡ truth) }
    {
        self.verdict_within(cells)
    }

    /// Whether the rule is true on a row with these cells, in the order of the columns, for the role
    /// of this name. Takes no memory.
    #[tactic(auto, unfolding(crate::specs::Deciding::decides))]
    pub fn holds(&self, cells: &[Scalar], user: &str) -> bool
        ensures { result ≡ decides self.now cells.now user.now }
    {
        if let Some(truth) = self.verdict_within(cells) {
            return truth;
        }
        match self.quick.verdict(cells) {
            Some(truth) => truth,
            None => self.tree.is_true(cells, user),
        }
    }
}
