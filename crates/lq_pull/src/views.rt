//! What a role reads of tables.
use lq_guard::{Scan, scan_by};
use lq_policy::{Action, Policies, RoleId, RowRules};
use lq_store::Store;
use lq_value::TableNumber;

/// Tables as a role sees them under policies.
#[derive(Clone, Copy, Drop)]
pub struct View<'a> {
    /// The tables.
    pub store: &'a Store,
    /// The policies for them.
    pub policies: &'a Policies,
    /// The role that reads them.
    pub role: RoleId,
}

impl<'a> View<'a> {
    ghost use Rattle.std.specs.Prelude.{◌≡◌, ◌<◌, List, length};
    ghost use Rattle.lq_value.specs.declared.scalar.Scalar.{Scalar};
    ghost use Rattle.lq_security.specs.Visible.{visible_to};
    ghost use Rattle.lq_policy.specs.Roles.{number_of};
    ghost use Rattle.lq_policy.specs.RowRules.{admits};
    ghost use Rattle.lq_guard.specs.SeenRows.{rows_left};
    ghost use Rattle.lq_pull.specs.Views.{AreRowsFor, sight_of};

    /// A scan of a table for what the role does, by rules that were worked out for that.
    pub(crate) fn scan<'r>(
        &self,
        table: TableNumber,
        action: Action,
        rules: &'r RowRules<'a>,
    ) -> Scan<'a, 'r>
        requires within { table < length self.now.store.now }
        requires rules { (cells : List Scalar) → admits rules.now cells
            ≡ visible_to self.now.policies.now (number_of self.now.role) action table cells }
        ensures { AreRowsFor (sight_of self.now) action table (rows_left result) }
    {
        scan_by(self.store, self.policies, table, self.role, action, rules)
    }
}
