//! The rules of the policies that apply to an action.
use crate::row_and_user::RowAndUser;
use lq_rule::PreparedRule;
use std::alloc::{AllocError, Global};

/// The rules of the policies that apply to an action. None is for a policy without a rule
/// for it.
#[derive(Drop)]
pub(crate) struct Admission<'a> {
    permissive: Vec<Option<&'a PreparedRule>>,
    restrictive: Vec<Option<&'a PreparedRule>>,
}

impl<'a> Admission<'a> {
    ghost use Rattle.std.specs.Prelude.{◌≡◌, ◌&&◌, ◌||◌, false, true, not, IfOk, IfSome, List, ℕ};
    ghost use Rattle.std.specs.Option.{option_copied};
    ghost use Rattle.lq_value.specs.declared.scalar.Scalar.{Scalar};
    ghost use Rattle.lq_policy.specs.Guards.{decides_on};
    ghost use Rattle.lq_policy.specs.RowRules.{admits_by, allowed_by, permitted_by};

    /// No rules. Takes no memory.
    pub(crate) fn new(alloc: Global) -> Admission<'a>
        ensures permitted { (cells : List Scalar) (user : List ℕ)
            → permitted_by cells user result ≡ false }
        ensures allowed { (cells : List Scalar) (user : List ℕ)
            → allowed_by cells user result ≡ true }
    {
        Admission {
            permissive: Vec::new(alloc),
            restrictive: Vec::new(alloc),
        }
    }

    /// Puts the rule of a policy after the others.
    pub(crate) fn push(
        &mut self,
        restrictive: bool,
        rule: Option<&'a PreparedRule>,
    ) -> Result<(), AllocError>
        ensures permitted { IfOk result (λ _. (cells : List Scalar) (user : List ℕ)
            → permitted_by cells user self.new
            ≡ permitted_by cells user self.old || (not restrictive
            && decides_on cells user (option_copied rule.entry))) }
        ensures allowed { IfOk result (λ _. (cells : List Scalar) (user : List ℕ)
            → allowed_by cells user self.new
            ≡ allowed_by cells user self.old && (not restrictive
            || decides_on cells user (option_copied rule.entry))) }
    {
        if restrictive {
            self.restrictive.push(rule)?;
        } else {
            self.permissive.push(rule)?;
        }
        Ok(())
    }

    /// Whether the rules admit the row, where each that is asked compares a number.
    #[inline(always)]
    pub(crate) fn verdict(&self, asked: RowAndUser<'_>) -> Option<bool>
        ensures { IfSome result (λ truth.
            admits_by asked.entry.cells.now asked.entry.user.now self.now ≡ truth) }
    {
        match asked.verdict_of_any(self.permissive.as_slice()) {
            Some(true) => asked.verdict_of_all(self.restrictive.as_slice()),
            said => said,
        }
    }

    /// Whether some permissive rule is true on the row.
    fn is_permitted(&self, asked: RowAndUser<'_>) -> bool
        ensures { result ≡ permitted_by asked.entry.cells.now asked.entry.user.now self.now }
    {
        asked.is_admitted_by_any(self.permissive.as_slice())
    }

    /// Whether every restrictive rule is true on the row.
    fn is_allowed(&self, asked: RowAndUser<'_>) -> bool
        ensures { result ≡ allowed_by asked.entry.cells.now asked.entry.user.now self.now }
    {
        asked.is_admitted_by_all(self.restrictive.as_slice())
    }

    /// Whether the rules admit the row.
    pub(crate) fn is_admitted_by_rules(&self, asked: RowAndUser<'_>) -> bool
        ensures { result ≡ admits_by asked.entry.cells.now asked.entry.user.now self.now }
    {
        self.is_permitted(asked) && self.is_allowed(asked)
    }
}
