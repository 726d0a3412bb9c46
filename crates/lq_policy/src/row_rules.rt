//! What bears on a role's action on a table, worked out once and asked for each row.
ghost use Rattle.std.specs.Prelude.{◌≡◌};

use crate::admission::Admission;
use crate::row_and_user::RowAndUser;
use lq_value::Scalar;

/// The rules for a role that policies bear on.
#[derive(Drop)]
pub(crate) struct Ruled<'a> {
    /// The name of the role.
    pub(crate) user: &'a str,
    /// Each of these has to admit a row.
    pub(crate) admissions: Vec<Admission<'a>>,
}

/// Which rows of a table a role's action is admitted to.
#[derive(Drop)]
pub(crate) enum Verdict<'a> {
    /// To each row.
    Every,
    /// To no row.
    None,
    /// To those that the rules admit.
    Ruled(Ruled<'a>),
}

/// What bears on a role's action on a table, as `Policies::rules_for` works it out.
#[derive(Drop)]
pub struct RowRules<'a> {
    pub(crate) verdict: Verdict<'a>,
}

impl Ruled<'_> {
    ghost use Rattle.std.specs.Prelude.{◌≡◌, IfSome};
    ghost use Rattle.lq_policy.specs.RowRules.{rules_admit};

    /// Whether the rules admit the row, where each that is asked compares a number.
    #[inline(always)]
    fn verdict(&self, cells: &[Scalar]) -> Option<bool>
        ensures { IfSome result (λ truth. rules_admit self.now cells.now ≡ truth) }
    {
        let asked = RowAndUser {
            user: self.user,
            cells,
        };
        let mut left = self.admissions.as_slice();
        while let [rules, others @ ..] = left {
            match rules.verdict(asked) {
                Some(true) => left = others,
                said => return said,
            }
        }
        Some(true)
    }

    /// Whether the rules admit the row, whatever they are.
    #[inline(never)]
    fn is_admitted_by_each(&self, cells: &[Scalar]) -> bool
        ensures { result ≡ rules_admit self.now cells.now }
    {
        let asked = RowAndUser {
            user: self.user,
            cells,
        };
        self.admissions
            .iter()
            .all(|rules| rules.is_admitted_by_rules(asked))
    }

    /// Whether the rules admit the row.
    #[inline(never)]
    fn is_admitted(&self, cells: &[Scalar]) -> bool
        ensures { result ≡ rules_admit self.now cells.now }
    {
        match self.verdict(cells) {
            Some(truth) => truth,
            None => self.is_admitted_by_each(cells),
        }
    }
}

impl RowRules<'_> {
    ghost use Rattle.std.specs.Prelude.{◌≡◌};
    ghost use Rattle.lq_policy.specs.RowRules.{admits};

    /// Whether the role's action is admitted to the row of the table that has these cells. Takes
    /// no memory.
    #[inline(always)]
    pub fn is_admitted(&self, cells: &[Scalar]) -> bool
        ensures { result ≡ admits self.now cells.now }
    {
        match &self.verdict {
            Verdict::Every => true,
            Verdict::None => false,
            Verdict::Ruled(rules) => rules.is_admitted(cells),
        }
    }
}
