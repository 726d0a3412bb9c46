//! Explanations of decisions on rows, for whoever asks why a row is seen or hidden.
use crate::access::{Access, RoleId};
use crate::policies::{Policies, is_same_action};
use crate::row_and_user::RowAndUser;
use lq_security::{Action, Policy};
use lq_value::{List, Scalar, TableNumber, Txt};
use std::alloc::{AllocError, Global};

/// What is reported of a policy that has a say in an action on a row.
#[derive(Drop)]
pub struct ExplainedPolicy {
    /// Its name.
    pub name: Txt,
    /// Whether it is restrictive; else it is permissive.
    pub is_restrictive: bool,
    /// Whether its rule for the action is true on the row. It isn't where the policy has none.
    pub is_true: bool,
}

/// Why a role may or may not do something with a row.
#[derive(Drop)]
pub enum Explanation {
    /// The policies don't know the table: nobody may do anything with its rows.
    NoTable,
    /// Row security of the table is off: everyone may.
    RowSecurityOff,
    /// The policies don't have the role: it may do nothing with the rows.
    NoRole,
    /// The role bypasses row security: it may.
    Bypass,
    /// The policies decide.
    Policies {
        /// Those that apply to the action, in the order of the file. Of a deletion, also those that
        /// apply to reading, since who deletes a row has to be able to read it.
        policies: List<ExplainedPolicy>,
        /// Whether the role may.
        is_allowed: bool,
        /// The name that a new row is refused under; none where it is accepted, or isn't a new one.
        refused_by: Option<Txt>,
    },
}

impl Policies {
    ghost use Rattle.std.specs.Prelude.{◌≡◌, List, Some, filter, map, slice_get, true, IfOk};
    ghost use Rattle.lq_security.specs.Visible.{holds_on, rule_for};
    ghost use Rattle.lq_policy.specs.Asking.{asked_of};
    ghost use Rattle.lq_policy.specs.Explanations.{explained, explained_policies, explanation_for};
    ghost use Rattle.lq_policy.specs.Explanations.{explanation_of, has_a_say, is_allowed, refused_by};
    ghost use Rattle.lq_policy.specs.Guards.{columns_at};
    ghost use Rattle.lq_policy.specs.Roles.{number_of};
    ghost use Rattle.lq_policy.specs.declared.explaining.Explanation.{Explanation};
    ghost use Rattle.lq_policy.specs.declared.explaining.Explanation.TheVariants as explanation;

    /// Whether the policy applies to the access, or to the reading that a deletion needs.
    fn has_a_say(&self, access: Access, policy: &Policy) -> bool
        ensures { result
            ≡ has_a_say self.now.roles (number_of access.role) access.action access.table
            policy.now }
    {
        match access.action {
            Action::Delete => {
                self.is_applicable(access.reading(), policy) || self.is_applicable(access, policy)
            }
            Action::Select | Action::Insert => self.is_applicable(access, policy),
        }
    }

    /// Whether the rule of a policy that has a say, and this number, is true on the row.
    fn is_true(&self, access: Access, number: usize, policy: &Policy, asked: RowAndUser<'_>) -> bool
        requires numbered { slice_get self.now.policies number ≡ Some policy.now }
        requires concerned { has_a_say self.now.roles (number_of access.role) access.action
            access.table policy.now ≡ true }
        ensures { result
            ≡ holds_on (asked_of self.now access asked.entry) (rule_for access.action policy.now) }
    {
        asked.is_admitted_by(self.rule_of(number, access.action))
    }

    /// What is reported of a policy that has a say, and this number.
    fn explained(
        &self,
        alloc: Global,
        access: Access,
        number: usize,
        policy: &Policy,
        asked: RowAndUser<'_>,
    ) -> Result<ExplainedPolicy, AllocError>
        requires numbered { slice_get self.now.policies number ≡ Some policy.now }
        requires concerned { has_a_say self.now.roles (number_of access.role) access.action
            access.table policy.now ≡ true }
        ensures { IfOk result (λ report. report
            ≡ explained access.action (asked_of self.now access asked.entry) policy.now) }
    {
        let is_true = self.is_true(access, number, policy, asked);
        Ok(ExplainedPolicy {
            name: Txt::from_str(alloc, policy.name.as_str())?,
            is_restrictive: policy.restrictive,
            is_true,
        })
    }

    /// What is reported of those policies that have a say.
    fn explained_among(
        &self,
        alloc: Global,
        access: Access,
        policies: &[Policy],
        asked: RowAndUser<'_>,
    ) -> Result<List<ExplainedPolicy>, AllocError>
        requires { policies.now ≡ self.now.policies }
        ensures { IfOk result (λ reports. reports
            ≡ map (explained access.action (asked_of self.now access asked.entry))
            (filter (has_a_say self.now.roles (number_of access.role) access.action access.table)
            policies.now)) }
    {
        let mut reported = List::new(alloc);
        for (number, policy) in policies.iter().enumerate() {
            if self.has_a_say(access, policy) {
                reported.push(self.explained(alloc, access, number, policy, asked)?)?;
            }
        }
        Ok(reported)
    }

    /// The name of what refuses a new row; none where nothing does, or the row isn't a new one.
    fn refused_by(
        &self,
        alloc: Global,
        access: Access,
        cells: &[Scalar],
    ) -> Result<Option<Txt>, AllocError>
        ensures { IfOk result (λ name. name
            ≡ refused_by self.now (number_of access.role) access.action access.table cells.now) }
    {
        if !is_same_action(access.action, Action::Insert) {
            return Ok(None);
        }
        match self.check(access.role, access.table, cells) {
            Ok(()) => Ok(None),
            Err(name) => Ok(Some(Txt::from_str(alloc, name)?)),
        }
    }

    /// Whether the role may do this with the row.
    fn is_access_allowed(&self, access: Access, cells: &[Scalar]) -> bool
        ensures { result
            ≡ is_allowed self.now (number_of access.role) access.action access.table cells.now }
    {
        match access.action {
            Action::Insert => self.check(access.role, access.table, cells).is_ok(),
            Action::Select | Action::Delete => {
                self.visible(access.role, access.action, access.table, cells)
            }
        }
    }

    /// How the policies decide.
    fn explanation_by(
        &self,
        alloc: Global,
        access: Access,
        asked: RowAndUser<'_>,
    ) -> Result<Explanation, AllocError>
        ensures { IfOk result (λ answer. answer
            ≡ explanation.Policies
            (explained_policies self.now (number_of access.role) access.action access.table
            (asked_of self.now access asked.entry))
            (is_allowed self.now (number_of access.role) access.action access.table
            asked.entry.cells.now)
            (refused_by self.now (number_of access.role) access.action access.table
            asked.entry.cells.now)) }
    {
        let policies = self.parts.policies.as_slice();
        Ok(Explanation::Policies {
            policies: self.explained_among(alloc, access, policies, asked)?,
            is_allowed: self.is_access_allowed(access, asked.cells),
            refused_by: self.refused_by(alloc, access, asked.cells)?,
        })
    }

    /// Why the role may or may not, where the row security of the table is on.
    fn explanation_for(
        &self,
        alloc: Global,
        access: Access,
        cells: &[Scalar],
    ) -> Result<Explanation, AllocError>
        ensures { IfOk result (λ answer. answer
            ≡ explanation_for self.now (number_of access.role) access.action access.table
            (columns_at self.now.tables access.table) cells.now
            (slice_get self.now.roles (number_of access.role))) }
    {
        let Some(asking) = self.parts.roles.as_slice().get(access.role.number) else {
            return Ok(Explanation::NoRole);
        };
        if asking.bypass {
            return Ok(Explanation::Bypass);
        }
        let asked = RowAndUser {
            user: asking.name.as_str(),
            cells,
        };
        self.explanation_by(alloc, access, asked)
    }

    /// Why the role may or may not do this with the row of the table that has these cells, by the
    /// decisions of `visible` and, for a new row, of `check`.
    ///
    /// It names each policy that applies, in the order of the file, and no other, with whether its
    /// rule is true on the row.
    pub fn explain(
        &self,
        alloc: Global,
        role: RoleId,
        action: Action,
        table: TableNumber,
        cells: &[Scalar],
    ) -> Result<Explanation, AllocError>
        ensures { IfOk result (λ answer. answer
            ≡ explanation_of self.now (number_of role) action table cells.now) }
    {
        let access = Access {
            role,
            action,
            table,
        };
        match self.parts.tables.as_slice().get(table as usize) {
            Some(part) if part.secured => self.explanation_for(alloc, access, cells),
            Some(_) => Ok(Explanation::RowSecurityOff),
            None => Ok(Explanation::NoTable),
        }
    }
}
