//! What is reported of a row, and to whom.
ghost use Rattle.std.specs.Prelude.{◌≡◌, ◌==◌, find, IfOk};
ghost use Rattle.std.specs.Option.{option_copied};
ghost use Rattle.lq_policy.specs.Explanations.{explanation_of};
ghost use Rattle.lq_policy.specs.Roles.{number_of};
ghost use Rattle.lq_audit.specs.Disclosure.{Discloses, FindsKnown, may_know, row_numbered};

use crate::answers::Why;
use lq_policy::{Action, Explanation, RoleId};
use lq_run::State;
use lq_store::Store;
use lq_value::{Row, TableNumber};
use std::alloc::{AllocError, Global};

/// The row of this number among some rows, if there is one.
fn numbered(rows: &[Row], number: u64) -> Option<&Row>
    ensures { option_copied result ≡ find (λ row. row.number == number) rows.now }
{
    rows.iter().find(|row| row.number == number)
}

/// The row of the table that has this number, if there is one.
#[tactic(auto, using(crate::proofs::RowLemmas::row_there))]
fn row_of(store: &Store, table: TableNumber, number: u64) -> Option<&Row>
    ensures { option_copied result ≡ row_numbered store.now table number }
{
    if table as usize >= store.len() {
        return None;
    }
    numbered(store.rows(table), number)
}

/// Whether whoever asks may know of the row of this table.
fn is_disclosable(state: &State, starting: RoleId, table: TableNumber, row: &Row) -> bool
    ensures { result ≡ may_know state.now.policies state.now.role (number_of starting) table
        row.now }
{
    let policies = state.policies();
    policies.is_bypassing(starting)
        || policies.visible(state.role(), Action::Select, table, row.cells.as_slice())
}

/// Why the present role may or may not do this with the row.
fn explanation(
    alloc: Global,
    state: &State,
    action: Action,
    table: TableNumber,
    row: &Row,
) -> Result<Explanation, AllocError>
    ensures { IfOk result (λ found. found
        ≡ explanation_of state.now.policies state.now.role action table row.now.cells) }
{
    let cells = row.cells.as_slice();
    state
        .policies()
        .explain(alloc, state.role(), action, table, cells)
}

/// The row of the table that has this number, if there is one of which whoever asks may know.
fn known_row(state: &State, starting: RoleId, table: TableNumber, number: u64) -> Option<&Row>
    ensures { FindsKnown state.now.tables state.now.policies state.now.role (number_of starting)
        table number (option_copied result) }
{
    let row = row_of(state.store(), table, number)?;
    if is_disclosable(state, starting, table, row) {
        Some(row)
    } else {
        None
    }
}

/// Why the present role of a session may or may not do this with the row of the table that has this
/// number: as `Policies::explain` reports it, but only where the role that the session began with
/// bypasses row security, or the present role sees the row.
///
/// The answer is `Secret` else, and also where the table has no row of the number, or isn't there,
/// so that whoever asks can't find out about a hidden row that it is there.
pub fn why(
    alloc: Global,
    state: &State,
    starting: RoleId,
    action: Action,
    table: TableNumber,
    number: u64,
) -> Result<Why, AllocError>
    ensures { IfOk result (Discloses state.now.tables state.now.policies state.now.role
        (number_of starting) action table number) }
{
    match known_row(state, starting, table, number) {
        Some(row) => {
            let found = explanation(alloc, state, action, table, row)?;
            Ok(Why::Explained(found))
        }
        None => Ok(Why::Secret),
    }
}
