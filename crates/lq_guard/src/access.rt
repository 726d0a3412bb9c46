//! Who does what with the rows of which table.
use lq_policy::{Action, Policies, RoleId};
use lq_value::{Scalar, TableNumber};

/// What a role does with the rows of a table, under policies.
#[derive(Clone, Copy, Drop)]
pub(crate) struct Access<'a> {
    pub(crate) policies: &'a Policies,
    pub(crate) role: RoleId,
    pub(crate) action: Action,
    pub(crate) table: TableNumber,
}

impl Access<'_> {
    ghost use Rattle.std.specs.Prelude.{◌≡◌};
    ghost use Rattle.lq_guard.specs.Accesses.{is_visible_to};

    /// Whether the policies let the role do this with the row of the table that has these cells.
    #[inline(never)]
    pub(crate) fn is_admitted(&self, cells: &[Scalar]) -> bool
        ensures { result ≡ is_visible_to self.now cells.now }
    {
        self.policies
            .visible(self.role, self.action, self.table, cells)
    }
}
