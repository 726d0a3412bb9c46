//! Laws of row policies (PostgreSQL, CREATE POLICY). Each function's contract is the law that it is
//! named for; the functions themselves do nothing.
ghost use Rattle.lq_security.specs.PolicyLaws.{TellsMemberships, TellsVisible, FindsCells, SeesVisibleRows, SeesEachTable, AcceptsVisible, TellsRefuser};
ghost use Rattle.lq_security.specs.PolicyLaws.{IsDeniedByDefault, IsDeniedToStrangers, IsOpenWithoutSecurity, IsOpenToBypass};
ghost use Rattle.lq_security.specs.PolicyLaws.{ReadsWhatItRemoves, NarrowsByRestriction, WidensByPermission};
ghost use Rattle.lq_security.specs.RuleLaws.{HoldsWhereTrue};

/// The function that works out memberships gives exactly the roles that a role has: itself, and
/// those that it is a member of, by any chain.
pub fn memberships()
    ensures { TellsMemberships }
{}

/// Under policies that were read for the tables, the function that decides on a row gives exactly the
/// visible rows: those of a table without row security, those that a role sees that bypasses it, and
/// those on which some permissive policy that applies is true and every restrictive one that applies
/// is, by what the language says of their rules.
pub fn visible_rows()
    ensures { TellsVisible }
{}

/// A rule holds on a row exactly where it is true there. One that faults doesn't hold.
pub fn rules_that_hold()
    ensures { HoldsWhereTrue }
{}

/// A rule reads the cell under the first column of the name that it gives.
pub fn cells_by_name()
    ensures { FindsCells }
{}

/// Under policies that were read for the tables, these as seen have the visible rows of each table, in
/// order, and no other row.
pub fn seen_rows()
    ensures rows { SeesVisibleRows }
    ensures tables { SeesEachTable }
{}

/// Under policies that were read for the tables, a new row is accepted exactly where the role may put
/// it in; else it is refused by default, where no permissive policy is true on it, or by the first
/// restrictive one that isn't.
pub fn refused_rows()
    ensures accepted { AcceptsVisible }
    ensures refused { TellsRefuser }
{}

/// A table whose row security is on shows no row to a role for which it has no permissive policy,
/// and none to a role that the policies don't have.
pub fn default_deny()
    ensures role { IsDeniedByDefault }
    ensures stranger { IsDeniedToStrangers }
{}

/// A table whose row security is off shows every row to everyone, and every table does to a role that
/// bypasses row security.
pub fn open_rows()
    ensures unsecured { IsOpenWithoutSecurity }
    ensures bypass { IsOpenToBypass }
{}

/// Who may remove a row may read it.
pub fn removed_rows_are_seen()
    ensures { ReadsWhatItRemoves }
{}

/// One more restrictive policy never shows a row that was hidden.
pub fn restrictive_narrows()
    ensures { NarrowsByRestriction }
{}

/// One more permissive policy never hides a row that was visible.
pub fn permissive_widens()
    ensures { WidensByPermission }
{}
