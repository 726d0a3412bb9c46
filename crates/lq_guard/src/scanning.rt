//! What hands out the visible rows of a table.
ghost use Rattle.std.specs.Prelude.{◌≡◌, ◌<◌, List, Some, length, option_map, slice_get};
ghost use Rattle.lq_value.specs.declared.scalar.Scalar.{Scalar};
ghost use Rattle.lq_security.specs.Visible.{visible_to};
ghost use Rattle.lq_policy.specs.Roles.{number_of};
ghost use Rattle.lq_policy.specs.RowRules.{admits};
ghost use Rattle.lq_guard.specs.SeenRows.{visible_rows, rows_left};

use crate::access::Access;
use crate::scans::Scan;
use lq_policy::{Action, Policies, RoleId, RowRules};
use lq_store::Store;
use lq_value::TableNumber;

/// Hands out the rows of a table with which a role may do this, each where it stands and in order, by asking the policies of each row.
/// Takes no memory.
pub fn scan<'a>(
    store: &'a Store,
    policies: &'a Policies,
    table: TableNumber,
    role: RoleId,
    action: Action,
) -> Scan<'a, 'a>
    requires { table < length store.now }
    ensures { Some (rows_left result)
        ≡ option_map (λ t. visible_rows policies.now (number_of role) action table t.rows)
        (slice_get store.now table) }
{
    let access = Access {
        policies,
        role,
        action,
        table,
    };
    Scan::new(access, store.rows(table), None)
}

/// The same, by asking rules of each row that `Policies::rules_for` worked out for the same role, action and table. Takes no memory.
pub fn scan_by<'a, 'r>(
    store: &'a Store,
    policies: &'a Policies,
    table: TableNumber,
    role: RoleId,
    action: Action,
    rules: &'r RowRules<'a>,
) -> Scan<'a, 'r>
    requires within { table < length store.now }
    requires rules { (cells : List Scalar)
        → admits rules.now cells ≡ visible_to policies.now (number_of role) action table cells }
    ensures { Some (rows_left result)
        ≡ option_map (λ t. visible_rows policies.now (number_of role) action table t.rows)
        (slice_get store.now table) }
{
    let access = Access {
        policies,
        role,
        action,
        table,
    };
    Scan::new(access, store.rows(table), Some(rules))
}
