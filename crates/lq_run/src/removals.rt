//! The rows that a `delete` removes.
ghost use Rattle.std.specs.Prelude.{◌≡◌, ◌<◌, length, IfOk};
ghost use Rattle.lq_run.specs.Calls.{AddsDeletionCalls};
ghost use Rattle.lq_run.specs.States.{AreKnown, state_with};
ghost use Rattle.lq_run.specs.Statements.{ChoosesRows};

use crate::state::State;
use lq_host::{Asks, Log};
use lq_pull::removable_numbers;
use lq_tree::Tree;
use lq_value::{End, TableNumber};
use std::alloc::{AllocError, Global};

/// The numbers of the rows of a table that the role may remove and on which the condition is true, in their order, up to the first fault
/// that the condition meets; and how that ends. The queries in the condition read the rows that the role sees, and its host
/// predicates are these. Where the statement is neither refused nor denied, the log has behind it calls that the statement may make.
pub fn chosen_rows<H: Asks>(
    alloc: Global,
    table: TableNumber,
    condition: &Tree,
    state: &State,
    hosts: &H,
    log: &mut Log<H>,
) -> Result<(Vec<u64>, End), AllocError>
    requires within { table < length state.now.tables }
    requires known { AreKnown (H.known hosts.now) state.now }
    ensures calls { AddsDeletionCalls (state_with (H.known hosts.now) state.now) table
        condition.now log.old log.new }
    ensures chosen { IfOk result
        (ChoosesRows (state_with (H.known hosts.now) state.now) table condition.now) }
{
    removable_numbers(alloc, condition, table, &state.view(), hosts, log)
}
