//! Rights: what a role may use, and the name of the rule that denies it.
ghost use Rattle.std.specs.Prelude.{◌≡◌};
ghost use Rattle.std.specs.List.{list_any};
ghost use Rattle.lq_security.specs.Rights.{covers, is_column_of, is_same_use};

use crate::access::RoleId;
use crate::policies::Policies;
use crate::role_rights::{RoleRights, add_open, add_rights};
use crate::use_set::UseSet;
use lq_language::{RightRule, Use};
use lq_value::TableNumber;
use std::alloc::{AllocError, Global};

/// The name under which a use is denied that no withhold bears on.
const NO_GRANT: &str = "no-grant";

/// Whether two uses are the same.
fn is_same_use(a: Use, b: Use) -> bool
    ensures { result ≡ is_same_use a b }
{
    a == b
}

/// Whether a use is that of a column of this table.
fn is_column_of(table: TableNumber, used: Use) -> bool
    ensures { result ≡ is_column_of table used }
{
    match used {
        Use::Column(of, _) => table == of,
        Use::Table(_) | Use::Insert(_) | Use::Delete(_) | Use::Host(_) => false,
    }
}

/// Whether a rule has this use among its rights.
fn has_right(used: Use, rule: &RightRule) -> bool
    ensures { result ≡ covers used rule.now }
{
    let rights = rule.rights.as_slice();
    rights.iter().any(|right| is_same_use(used, *right))
}

/// Whether a rule has a column of this table among its rights.
fn has_column(table: TableNumber, rule: &RightRule) -> bool
    ensures { result ≡ list_any (is_column_of table) rule.now.rights }
{
    let rights = rule.rights.as_slice();
    rights.iter().any(|right| is_column_of(table, *right))
}

impl Policies {
    ghost use Rattle.std.specs.Prelude.{◌≡◌, ◌&&◌, not, Some, IfOk, IfSome};
    ghost use Rattle.std.specs.List.{list_any};
    ghost use Rattle.std.specs.Option.{option_copied};
    ghost use Rattle.lq_security.specs.Rights.{bears, concerns, denier_of, first_concerning, is_withheld, may_use, opens};
    ghost use Rattle.lq_policy.specs.RoleRights.{TellsRights, grants_by, is_among};
    ghost use Rattle.lq_policy.specs.Roles.{number_of, refused_under};
    ghost use Rattle.lq_language.specs.declared.rights.Use.{Use};

    /// The rights that the rules which apply to a role cover.
    fn covered_uses(
        &self,
        alloc: Global,
        role: RoleId,
        rules: &[RightRule],
    ) -> Result<UseSet, AllocError>
        ensures { IfOk result (λ set. (used : Use)
            → is_among set used ≡ list_any (bears self.now.roles (number_of role) used) rules.now) }
    {
        let mut set = UseSet::new(alloc);
        for rule in rules {
            if self.is_listed(role, rule.to.as_slice()) {
                add_rights(&mut set, rule.rights.as_slice())?;
            }
        }
        Ok(set)
    }

    /// What the grants that apply to a role give it by rights that aren't withheld.
    fn granted_uses(
        &self,
        alloc: Global,
        role: RoleId,
        grants: &[RightRule],
        withheld: &UseSet,
    ) -> Result<UseSet, AllocError>
        ensures { IfOk result (λ set. (used : Use)
            → is_among set used
            ≡ list_any (grants_by self.now.roles (number_of role) withheld.now used) grants.now) }
    {
        let mut set = UseSet::new(alloc);
        for grant in grants {
            if self.is_listed(role, grant.to.as_slice()) {
                add_open(&mut set, grant.rights.as_slice(), withheld)?;
            }
        }
        Ok(set)
    }

    /// What a role may use, worked out once.
    fn rights_for(&self, alloc: Global, role: RoleId) -> Result<RoleRights, AllocError>
        ensures { IfOk result (λ rights. TellsRights self.now (Some rights)) }
    {
        let withheld = self.covered_uses(alloc, role, self.parts.withholds.as_slice())?;
        let allowed = self.granted_uses(alloc, role, self.parts.grants.as_slice(), &withheld)?;
        Ok(RoleRights { role, allowed })
    }

    /// Works out what a role may use, so that from now on `right` looks it up, until another role is
    /// prepared. The policies are the same, also where memory is refused.
    pub fn prepare(&mut self, alloc: Global, role: RoleId) -> Result<(), AllocError>
        ensures { self.new ≡ self.old }
    {
        let rights = self.rights_for(alloc, role)?;
        self.rights = Some(rights);
        Ok(())
    }

    /// Whether the role may use this, where it is prepared.
    fn known(&self, role: RoleId, used: Use) -> Option<bool>
        ensures { IfSome result (λ answer. answer ≡ may_use self.now (number_of role) used) }
    {
        match &self.rights {
            Some(rights) if rights.are_of(role) => Some(rights.allowed.contains(used)),
            _ => None,
        }
    }

    /// Whether a rule applies to the role and covers the use.
    fn is_rule_for(&self, role: RoleId, used: Use, rule: &RightRule) -> bool
        ensures { result ≡ bears self.now.roles (number_of role) used rule.now }
    {
        self.is_listed(role, rule.to.as_slice()) && has_right(used, rule)
    }

    /// Whether one of these rules applies to the role and covers the use.
    fn is_covered(&self, role: RoleId, used: Use, rules: &[RightRule]) -> bool
        ensures { result ≡ list_any (bears self.now.roles (number_of role) used) rules.now }
    {
        rules.iter().any(|rule| self.is_rule_for(role, used, rule))
    }

    /// Whether some withhold that applies covers the use.
    fn is_withheld(&self, role: RoleId, used: Use) -> bool
        ensures { result ≡ is_withheld self.now (number_of role) used }
    {
        self.is_covered(role, used, self.parts.withholds.as_slice())
    }

    /// Whether a right is to a column of the table that isn't withheld.
    fn is_open_column(&self, role: RoleId, table: TableNumber, right: Use) -> bool
        ensures { result ≡ is_column_of table right
            && not (is_withheld self.now (number_of role) right) }
    {
        is_column_of(table, right) && !self.is_withheld(role, right)
    }

    /// Whether one of these rights is.
    fn has_open_column(&self, role: RoleId, table: TableNumber, rights: &[Use]) -> bool
        ensures { result ≡ list_any (λ right. is_column_of table right
            && not (is_withheld self.now (number_of role) right)) rights.now }
    {
        rights
            .iter()
            .any(|right| self.is_open_column(role, table, *right))
    }

    /// Whether a grant applies and covers a column of the table that isn't withheld.
    fn has_open_right(&self, role: RoleId, table: TableNumber, rule: &RightRule) -> bool
        ensures { result ≡ opens self.now (number_of role) table rule.now }
    {
        self.is_listed(role, rule.to.as_slice())
            && self.has_open_column(role, table, rule.rights.as_slice())
    }

    /// Whether the role has a right to a column of the table.
    fn has_open_grant(&self, role: RoleId, table: TableNumber, grants: &[RightRule]) -> bool
        ensures { result ≡ list_any (opens self.now (number_of role) table) grants.now }
    {
        grants
            .iter()
            .any(|rule| self.has_open_right(role, table, rule))
    }

    /// Whether the role may use this, by the rules.
    #[tactic(auto, unfolding(lq_security::specs::Rights::may_use))]
    fn is_usable_by_rules(&self, role: RoleId, used: Use) -> bool
        ensures { result ≡ may_use self.now (number_of role) used }
    {
        let grants = self.parts.grants.as_slice();
        match used {
            Use::Table(table) => self.has_open_grant(role, table, grants),
            Use::Column(_, _) | Use::Insert(_) | Use::Delete(_) | Use::Host(_) => {
                self.is_covered(role, used, grants) && !self.is_withheld(role, used)
            }
        }
    }

    /// Whether the role may use this.
    fn is_usable(&self, role: RoleId, used: Use) -> bool
        ensures { result ≡ may_use self.now (number_of role) used }
    {
        match self.known(role, used) {
            Some(may) => may,
            None => self.is_usable_by_rules(role, used),
        }
    }

    /// Whether a rule applies to the role and covers the use, or of a table any of its columns.
    fn is_rule_about(&self, role: RoleId, used: Use, rule: &RightRule) -> bool
        ensures { result ≡ concerns self.now.roles (number_of role) used rule.now }
    {
        match used {
            Use::Table(table) => {
                self.is_listed(role, rule.to.as_slice()) && has_column(table, rule)
            }
            Use::Column(_, _) | Use::Insert(_) | Use::Delete(_) | Use::Host(_) => {
                self.is_rule_for(role, used, rule)
            }
        }
    }

    /// The name of the first of these rules that concerns the use.
    fn first_concerning<'a>(&self, role: RoleId, used: Use, rules: &'a [RightRule]) -> &'a str
        ensures { result.now ≡ first_concerning self.now.roles (number_of role) used rules.now }
    {
        for rule in rules {
            if self.is_rule_about(role, used, rule) {
                return rule.name.as_str();
            }
        }
        NO_GRANT
    }

    /// Whether the role has a right to this use: to a table where it has one to a column of it, and
    /// to anything else where some grant that applies covers it and no withhold that applies does.
    /// Takes no memory. Where the role is prepared, a use to which it has a right is looked up; else it
    /// is looked for in each rule.
    ///
    /// A use is denied under the name of the first withhold that applies and covers it (of a table
    /// any of its columns), or under `no-grant` where there is none.
    #[tactic(auto, unfolding(lq_security::specs::Rights::denier_of))]
    pub fn right(&self, role: RoleId, used: Use) -> Result<(), &str>
        ensures { refused_under result ≡ denier_of self.now (number_of role) used }
    {
        if self.is_usable(role, used) {
            return Ok(());
        }
        Err(self.first_concerning(role, used, self.parts.withholds.as_slice()))
    }
}
