//! Rows as prepared rules read them.
use lq_rule::PreparedRule;
use lq_value::Scalar;

/// A row of a table, and the name of the role that asks for it.
#[derive(Clone, Copy, Drop)]
pub(crate) struct RowAndUser<'a> {
    pub(crate) user: &'a str,
    pub(crate) cells: &'a [Scalar],
}

impl RowAndUser<'_> {
    ghost use Rattle.std.specs.Prelude.{◌≡◌, IfSome};
    ghost use Rattle.std.specs.List.{list_all, list_any};
    ghost use Rattle.std.specs.Option.{option_copied};
    ghost use Rattle.lq_policy.specs.Guards.{decides_on, rules_of};

    /// Whether there is a rule, and it is true on the row.
    pub(crate) fn is_admitted_by(self, rule: Option<&PreparedRule>) -> bool
        ensures { result ≡ decides_on self.entry.cells.now self.entry.user.now
            (option_copied rule.entry) }
    {
        match rule {
            Some(rule) => rule.holds(self.cells, self.user),
            None => false,
        }
    }

    /// Whether one of the rules is true on the row.
    pub(crate) fn is_admitted_by_any(self, rules: &[Option<&PreparedRule>]) -> bool
        ensures { result ≡ list_any (decides_on self.entry.cells.now self.entry.user.now)
            (rules_of rules.now) }
    {
        let mut left = rules;
        while let [rule, others @ ..] = left {
            if self.is_admitted_by(*rule) {
                return true;
            }
            left = others;
        }
        false
    }

    /// Whether each of the rules is true on the row.
    pub(crate) fn is_admitted_by_all(self, rules: &[Option<&PreparedRule>]) -> bool
        ensures { result ≡ list_all (decides_on self.entry.cells.now self.entry.user.now)
            (rules_of rules.now) }
    {
        let mut left = rules;
        while let [rule, others @ ..] = left {
            if !self.is_admitted_by(*rule) {
                return false;
            }
            left = others;
        }
        true
    }

    /// Whether there is a rule that is true on the row, where no more is asked than a number.
    #[inline(always)]
    fn verdict_of(self, rule: Option<&PreparedRule>) -> Option<bool>
        ensures { IfSome result (λ truth.
            decides_on self.entry.cells.now self.entry.user.now (option_copied rule.entry)
            ≡ truth) }
    {
        match rule {
            Some(rule) => rule.verdict(self.cells),
            None => Some(false),
        }
    }

    /// Whether one of the rules is true on the row, where each that is asked compares a number.
    #[inline(always)]
    pub(crate) fn verdict_of_any(self, rules: &[Option<&PreparedRule>]) -> Option<bool>
        ensures { IfSome result (λ truth.
            list_any (decides_on self.entry.cells.now self.entry.user.now) (rules_of rules.now)
            ≡ truth) }
    {
        let mut left = rules;
        while let [rule, others @ ..] = left {
            match self.verdict_of(*rule) {
                Some(false) => left = others,
                said => return said,
            }
        }
        Some(false)
    }

    /// Whether each of the rules is true on the row, where each that is asked compares a number.
    #[inline(always)]
    pub(crate) fn verdict_of_all(self, rules: &[Option<&PreparedRule>]) -> Option<bool>
        ensures { IfSome result (λ truth.
            list_all (decides_on self.entry.cells.now self.entry.user.now) (rules_of rules.now)
            ≡ truth) }
    {
        let mut left = rules;
        while let [rule, others @ ..] = left {
            match self.verdict_of(*rule) {
                Some(true) => left = others,
                said => return said,
            }
        }
        Some(true)
    }
}
