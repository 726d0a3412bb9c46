//! Policies, which decide on each row.
ghost use Rattle.std.specs.Prelude.{◌≡◌, [], true, IfOk};
ghost use Rattle.std.specs.List.{AllZip};
ghost use Rattle.lq_security.specs.Visible.{is_same_action, memberships_after};
ghost use Rattle.lq_policy.specs.Guards.{IsGuarded};
ghost use Rattle.lq_policy.specs.Memberships.{DecideMemberships};
ghost use Rattle.lq_policy.specs.Rules.{are_rules_total};

use crate::access::{Access, RoleId};
use crate::admission::Admission;
use crate::guard::{Guard, guards, rule_at};
use crate::role_set::{RoleSet, has_role_named, memberships};
use crate::row_and_user::RowAndUser;
use crate::row_rules::{RowRules, Ruled, Verdict};
use crate::{error, role_rights};
use lq_language::HostName;
use lq_rule::PreparedRule;
use lq_security::{Action, Policy, PolicyParts};
use lq_value::{Scalar, TableNumber, Txt};
use std::alloc::{AllocError, Global};
use std::marker::Model;

/// The name that a new row is refused under where no permissive policy is true on it.
const DEFAULT_DENY: &str = "default-deny";

/// Roles, tables and row policies, which decide on each row. Each rule of theirs is total.
#[derive(Drop)]
pub struct Policies {
    pub(crate) parts: PolicyParts,
    /// For each role, those that it has besides itself.
    groups: Vec<RoleSet>,
    /// For each policy, its rules, prepared.
    guards: Vec<Guard>,
    /// What the role may use that was prepared last.
    pub(crate) rights: Option<role_rights::RoleRights>,
}

impl Model for Policies {
    ghost use Rattle.lq_security.specs.declared.policy.PolicyParts.{PolicyParts};

    ghost Value = { PolicyParts };

    ghost use Rattle.lq_grammar.specs.contracts.syntax.Expr as expr;
    ghost use Rattle.std.specs.Coded.{codes};

    ghost coded = { Prim.hlevel (codes, expr.the_row.coded) };

    ghost view = { λ p. p.parts };

    ghost use Rattle.std.specs.Prelude.{[]};
    ghost use Rattle.std.specs.List.{AllZip};
    ghost use Rattle.lq_security.specs.Visible.{memberships_after};
    ghost use Rattle.lq_policy.specs.Guards.{IsGuarded};
    ghost use Rattle.lq_policy.specs.Memberships.{DecideMemberships};
    ghost use Rattle.lq_policy.specs.RoleRights.{TellsRights};

    ghost invariant = { λ p. DecideMemberships (memberships_after [] p.parts.roles) p.groups.items
        × AllZip (IsGuarded p.parts.tables) p.parts.policies p.guards.items
        × TellsRights p.parts p.rights };
}

/// Whether two actions are the same.
pub(crate) fn is_same_action(a: Action, b: Action) -> bool
    ensures { result ≡ is_same_action a b }
{
    a == b
}

/// What is worked out once: the roles that each role has, and the rules of each policy.
fn prepared(alloc: Global, parts: &PolicyParts) -> Result<(Vec<RoleSet>, Vec<Guard>), AllocError>
    requires { are_rules_total parts.now.policies ≡ true }
    ensures groups { IfOk result (λ pair.
        DecideMemberships (memberships_after [] parts.now.roles) pair.0.items) }
    ensures guards { IfOk result (λ pair.
        AllZip (IsGuarded parts.now.tables) parts.now.policies pair.1.items) }
{
    let groups = memberships(alloc, parts.roles.as_slice())?;
    let guards = guards(alloc, parts.tables.as_slice(), parts.policies.as_slice())?;
    Ok((groups, guards))
}

impl Policies {
    ghost use Rattle.std.specs.Prelude.{◌≡◌, ◌&&◌, ◌||◌, not, List, ℕ, Some, filter, option_map, slice_get, true, IfOk, IfErr};
    ghost use Rattle.std.specs.List.{list_all, list_any};
    ghost use Rattle.std.specs.Option.{option_copied};
    ghost use Rattle.lq_security.specs.Visible.{admit, admitted_by, admitted_for, admitted_to, allows, applying, first_refusing, holds_on, is_listed, permits, refuser_among, refuser_for, refuser_of, rule_for, visible_to};
    ghost use Rattle.lq_policy.specs.Asking.{asked_of, bears_on};
    ghost use Rattle.lq_policy.specs.Guards.{IsRuleOf, asked_at, columns_at};
    ghost use Rattle.lq_policy.specs.Roles.{goes_by_name, number_of, refused_under, role_number};
    ghost use Rattle.lq_policy.specs.RowRules.{admits, admits_by, admits_under, allowed_by, permitted_by};
    ghost use Rattle.lq_value.specs.declared.scalar.Scalar.{Scalar};
    ghost use Rattle.lq_policy.specs.Rules.{are_rules_total};

    /// Policies of these parts, which they keep. Where there is no memory the parts are handed
    /// back as they were. Each rule is total, as `are_rules_total` decides.
    pub fn build(
        alloc: Global,
        parts: PolicyParts,
    ) -> Result<Policies, (error::PolicyError, PolicyParts)>
        requires { are_rules_total parts.policies ≡ true }
        ensures ok { IfOk result (λ policies. policies ≡ parts) }
        ensures err { IfErr result (λ error. error.1 ≡ parts) }
    {
        match prepared(alloc, &parts) {
            Ok((groups, guards)) => Ok(Policies {
                parts,
                groups,
                guards,
                rights: None,
            }),
            Err(AllocError) => Err((error::PolicyError::Memory, parts)),
        }
    }

    /// The host predicates that rights name, by their numbers.
    pub fn predicates(&self) -> &[HostName]
        ensures { result.now ≡ self.now.predicates }
    {
        self.parts.predicates.as_slice()
    }

    /// The role of this name.
    pub fn role(&self, name: &str) -> Option<RoleId>
        ensures { option_map number_of result ≡ role_number self.now name.now }
    {
        for (number, role) in self.parts.roles.as_slice().iter().enumerate() {
            if role.name.as_str() == name {
                return Some(RoleId { number });
            }
        }
        None
    }

    /// Whether this role has a role of this name.
    fn has_role_named(&self, role: RoleId, name: &str) -> bool
        ensures { result ≡ goes_by_name self.now.roles (number_of role) name.now }
    {
        has_role_named(
            self.parts.roles.as_slice(),
            self.groups.as_slice(),
            role.number,
            name,
        )
    }

    /// Whether a list has `public`, or the name of a role that this one has.
    pub(crate) fn is_listed(&self, role: RoleId, to: &[Txt]) -> bool
        ensures { result ≡ is_listed self.now.roles (number_of role) to.now }
    {
        let mut left = to;
        while let [name, others @ ..] = left {
            if name.as_str() == "public" || self.has_role_named(role, name.as_str()) {
                return true;
            }
            left = others;
        }
        false
    }

    /// Whether the policy applies to what a role does with a table.
    pub(crate) fn is_applicable(&self, access: Access, policy: &Policy) -> bool
        ensures { result ≡ bears_on self.now.roles access policy.now }
    {
        policy.table == access.table
            && (policy.for_all || is_same_action(policy.action, access.action))
            && self.is_listed(access.role, policy.to.as_slice())
    }

    /// The prepared rule for an action of the policy of this number, if it has one.
    pub(crate) fn rule_of(&self, number: usize, action: Action) -> Option<&PreparedRule>
        ensures { IsRuleOf self.now.tables action (slice_get self.now.policies number)
            (option_copied result) }
    {
        rule_at(self.guards.as_slice(), number, action)
    }

    /// Whether the rule of a policy that applies, and has this number, is true on the row.
    fn is_admitted_by(
        &self,
        access: Access,
        number: usize,
        policy: &Policy,
        asked: RowAndUser<'_>,
    ) -> bool
        requires numbered { slice_get self.now.policies number ≡ Some policy.now }
        requires applies { bears_on self.now.roles access policy.now ≡ true }
        ensures { result ≡ holds_on (asked_of self.now access asked.entry)
            (rule_for access.action policy.now) }
    {
        asked.is_admitted_by(self.rule_of(number, access.action))
    }

    /// Whether the policy, which has this number, applies and permits the row.
    fn is_permitted_by(
        &self,
        access: Access,
        number: usize,
        policy: &Policy,
        asked: RowAndUser<'_>,
    ) -> bool
        requires { slice_get self.now.policies number ≡ Some policy.now }
        ensures { result ≡ bears_on self.now.roles access policy.now
            && permits access.action (asked_of self.now access asked.entry) policy.now }
    {
        self.is_applicable(access, policy)
            && !policy.restrictive
            && self.is_admitted_by(access, number, policy, asked)
    }

    /// Whether the policy, which has this number, applies and doesn't allow the row.
    fn is_refused_by(
        &self,
        access: Access,
        number: usize,
        policy: &Policy,
        asked: RowAndUser<'_>,
    ) -> bool
        requires { slice_get self.now.policies number ≡ Some policy.now }
        ensures { result ≡ bears_on self.now.roles access policy.now
            && not (allows access.action (asked_of self.now access asked.entry) policy.now) }
    {
        self.is_applicable(access, policy)
            && policy.restrictive
            && !self.is_admitted_by(access, number, policy, asked)
    }

    /// Whether some policy that applies permits the row.
    fn is_permitted(&self, access: Access, asked: RowAndUser<'_>, policies: &[Policy]) -> bool
        requires { policies.now ≡ self.now.policies }
        ensures { result ≡ list_any (permits access.action (asked_of self.now access asked.entry))
            (filter (bears_on self.now.roles access) policies.now) }
    {
        for (number, policy) in policies.iter().enumerate() {
            if self.is_permitted_by(access, number, policy, asked) {
                return true;
            }
        }
        false
    }

    /// Whether each policy that applies allows the row.
    fn is_allowed(&self, access: Access, asked: RowAndUser<'_>, policies: &[Policy]) -> bool
        requires { policies.now ≡ self.now.policies }
        ensures { result ≡ list_all (allows access.action (asked_of self.now access asked.entry))
            (filter (bears_on self.now.roles access) policies.now) }
    {
        for (number, policy) in policies.iter().enumerate() {
            if self.is_refused_by(access, number, policy, asked) {
                return false;
            }
        }
        true
    }

    /// Whether the policies that apply admit the row.
    fn is_admitted_by_rules(&self, access: Access, asked: RowAndUser<'_>) -> bool
        ensures { result ≡ admitted_by self.now (number_of access.role) access.table
            (asked_of self.now access asked.entry) access.action }
    {
        let policies = self.parts.policies.as_slice();
        self.is_permitted(access, asked, policies) && self.is_allowed(access, asked, policies)
    }

    /// Whether the policies admit a role, which doesn't bypass them, to an action on the row.
    fn is_role_admitted(&self, access: Access, asked: RowAndUser<'_>) -> bool
        ensures { result ≡ admitted_for self.now (number_of access.role) access.action access.table
            (asked_of self.now access asked.entry) }
    {
        match access.action {
            Action::Delete => self.is_admitted_by_rules(access.reading(), asked)
                && self.is_admitted_by_rules(access, asked),
            Action::Select | Action::Insert => self.is_admitted_by_rules(access, asked),
        }
    }

    /// Whether the row of a table with row security is visible to the role.
    fn is_admitted(&self, access: Access, cells: &[Scalar]) -> bool
        ensures { result ≡ admitted_to self.now (number_of access.role) access.action access.table
            (columns_at self.now.tables access.table)
            cells.now (slice_get self.now.roles (number_of access.role)) }
    {
        let Some(asking) = self.parts.roles.as_slice().get(access.role.number) else {
            return false;
        };
        let asked = RowAndUser {
            user: asking.name.as_str(),
            cells,
        };
        asking.bypass || self.is_role_admitted(access, asked)
    }

    /// Whether the role may do this with the row of the table that has these cells.
    ///
    /// Where the table's row security is on, a role that these policies don't have may do nothing
    /// with it. With a table that they don't know nobody may do anything. Takes no memory.
    #[tactic(auto, unfolding(lq_security::specs::Visible::visible_to))]
    pub fn visible(
        &self,
        role: RoleId,
        action: Action,
        table: TableNumber,
        cells: &[Scalar],
    ) -> bool
        ensures { result ≡ visible_to self.now (number_of role) action table cells.now }
    {
        let access = Access {
            role,
            action,
            table,
        };
        match self.parts.tables.as_slice().get(table as usize) {
            Some(part) => !part.secured || self.is_admitted(access, cells),
            None => false,
        }
    }

    /// The name of the first policy that applies and doesn't allow the new row.
    fn first_refusing<'a>(
        &self,
        access: Access,
        asked: RowAndUser<'_>,
        policies: &'a [Policy],
    ) -> Option<&'a str>
        requires policies { policies.now ≡ self.now.policies }
        requires new_row { access.action ≡ Action.Insert }
        ensures { option_copied result ≡ first_refusing (asked_of self.now access asked.entry)
            (filter (bears_on self.now.roles access) policies.now) }
    {
        for (number, policy) in policies.iter().enumerate() {
            if self.is_refused_by(access, number, policy, asked) {
                return Some(policy.name.as_str());
            }
        }
        None
    }

    /// The name of what refuses the row among the policies that apply.
    fn refuser_among(&self, access: Access, asked: RowAndUser<'_>) -> Option<&str>
        requires { access.action ≡ Action.Insert }
        ensures { option_copied result ≡ refuser_among
            (applying self.now (number_of access.role) access.action access.table)
            (asked_of self.now access asked.entry) }
    {
        let policies = self.parts.policies.as_slice();
        if self.is_permitted(access, asked, policies) {
            self.first_refusing(access, asked, policies)
        } else {
            Some(DEFAULT_DENY)
        }
    }

    /// The name of what refuses the row of a table with row security to the role.
    fn refuser_for(&self, access: Access, cells: &[Scalar]) -> Option<&str>
        requires { access.action ≡ Action.Insert }
        ensures { option_copied result ≡ refuser_for self.now (number_of access.role) access.table
            (columns_at self.now.tables access.table)
            cells.now (slice_get self.now.roles (number_of access.role)) }
    {
        let Some(asking) = self.parts.roles.as_slice().get(access.role.number) else {
            return Some(DEFAULT_DENY);
        };
        if asking.bypass {
            return None;
        }
        let asked = RowAndUser {
            user: asking.name.as_str(),
            cells,
        };
        self.refuser_among(access, asked)
    }

    /// The name of what refuses a new row of the table.
    #[tactic(auto, unfolding(lq_security::specs::Visible::refuser_of))]
    fn refuser(&self, role: RoleId, table: TableNumber, cells: &[Scalar]) -> Option<&str>
        ensures { option_copied result ≡ refuser_of self.now (number_of role) table cells.now }
    {
        let access = Access {
            role,
            action: Action::Insert,
            table,
        };
        let Some(part) = self.parts.tables.as_slice().get(table as usize) else {
            return Some(DEFAULT_DENY);
        };
        if part.secured {
            self.refuser_for(access, cells)
        } else {
            None
        }
    }

    /// Whether the role may put a row with these cells into the table. Takes no memory.
    ///
    /// A row is refused under a name: `default-deny` where no permissive policy that applies is
    /// true on it, or where these policies don't have the role or the table; else that of the
    /// first restrictive policy that applies and isn't.
    pub fn check(&self, role: RoleId, table: TableNumber, cells: &[Scalar]) -> Result<(), &str>
        ensures { refused_under result ≡ refuser_of self.now (number_of role) table cells.now }
    {
        match self.refuser(role, table, cells) {
            Some(name) => Err(name),
            None => Ok(()),
        }
    }

    /// Puts the rule of a policy, which has this number, after others, if the policy applies.
    fn add_rule<'a>(
        &'a self,
        access: Access,
        rules: &mut Admission<'a>,
        number: usize,
        policy: &Policy,
    ) -> Result<(), AllocError>
        requires { slice_get self.now.policies number ≡ Some policy.now }
        ensures permitted { IfOk result (λ _. (cells : List Scalar) (user : List ℕ)
            → permitted_by cells user rules.new
            ≡ permitted_by cells user rules.old
            || (bears_on self.now.roles access policy.now
            && permits access.action (asked_at self.now.tables access.table cells user)
            policy.now)) }
        ensures allowed { IfOk result (λ _. (cells : List Scalar) (user : List ℕ)
            → allowed_by cells user rules.new
            ≡ allowed_by cells user rules.old
            && (not (bears_on self.now.roles access policy.now)
            || allows access.action (asked_at self.now.tables access.table cells user)
            policy.now)) }
    {
        if self.is_applicable(access, policy) {
            rules.push(policy.restrictive, self.rule_of(number, access.action))?;
        }
        Ok(())
    }

    /// The rules of those policies that apply.
    fn rules_among(
        &self,
        alloc: Global,
        access: Access,
        policies: &[Policy],
    ) -> Result<Admission<'_>, AllocError>
        requires { policies.now ≡ self.now.policies }
        ensures { IfOk result (λ rules. (cells : List Scalar) (user : List ℕ)
            → admits_by cells user rules
            ≡ admit access.action (filter (bears_on self.now.roles access) policies.now)
            (asked_at self.now.tables access.table cells user)) }
    {
        let mut rules = Admission::new(alloc);
        for (number, policy) in policies.iter().enumerate() {
            self.add_rule(access, &mut rules, number, policy)?;
        }
        Ok(rules)
    }

    /// The rules of the policies that apply.
    fn admission(&self, alloc: Global, access: Access) -> Result<Admission<'_>, AllocError>
        ensures { IfOk result (λ rules. (cells : List Scalar) (user : List ℕ)
            → admits_by cells user rules
            ≡ admitted_by self.now (number_of access.role) access.table
            (asked_at self.now.tables access.table cells user) access.action) }
    {
        self.rules_among(alloc, access, self.parts.policies.as_slice())
    }

    /// The rules that have to admit a row, for a role that doesn't bypass them.
    fn admissions(&self, alloc: Global, access: Access) -> Result<Vec<Admission<'_>>, AllocError>
        ensures { IfOk result (λ admissions. (cells : List Scalar) (user : List ℕ)
            → list_all (admits_by cells user) admissions.items
            ≡ admitted_for self.now (number_of access.role) access.action access.table
            (asked_at self.now.tables access.table cells user)) }
    {
        let mut admissions = Vec::new(alloc);
        if is_same_action(access.action, Action::Delete) {
            admissions.push(self.admission(alloc, access.reading())?)?;
        }
        admissions.push(self.admission(alloc, access)?)?;
        Ok(admissions)
    }

    /// What bears on the role's action on a table with row security.
    fn verdict(&self, alloc: Global, access: Access) -> Result<Verdict<'_>, AllocError>
        ensures { IfOk result (λ verdict. (cells : List Scalar) → admits_under verdict cells
            ≡ admitted_to self.now (number_of access.role) access.action access.table
            (columns_at self.now.tables access.table) cells
            (slice_get self.now.roles (number_of access.role))) }
    {
        let Some(asking) = self.parts.roles.as_slice().get(access.role.number) else {
            return Ok(Verdict::None);
        };
        if asking.bypass {
            return Ok(Verdict::Every);
        }
        let admissions = self.admissions(alloc, access)?;
        Ok(Verdict::Ruled(Ruled {
            user: asking.name.as_str(),
            admissions,
        }))
    }

    /// What bears on the role's action on the table, worked out once. It admits the rows that
    /// `visible` admits.
    #[tactic(auto, unfolding(lq_security::specs::Visible::visible_to))]
    pub fn rules_for(
        &self,
        alloc: Global,
        role: RoleId,
        action: Action,
        table: TableNumber,
    ) -> Result<RowRules<'_>, AllocError>
        ensures { IfOk result (λ rules. (cells : List Scalar)
            → admits rules cells ≡ visible_to self.now (number_of role) action table cells) }
    {
        let access = Access {
            role,
            action,
            table,
        };
        let verdict = match self.parts.tables.as_slice().get(table as usize) {
            Some(part) if part.secured => self.verdict(alloc, access)?,
            Some(_) => Verdict::Every,
            None => Verdict::None,
        };
        Ok(RowRules { verdict })
    }
}
