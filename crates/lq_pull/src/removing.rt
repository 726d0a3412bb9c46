//! Rows that a role may remove and on which a condition is true.
ghost use Rattle.std.specs.Prelude.{◌≡◌, ◌<◌, length, IfOk};
ghost use Rattle.lq_language.specs.ValuesOfTypes.{Every};
ghost use Rattle.lq_security.specs.declared.policy.Action.TheVariants as action;
ghost use Rattle.lq_store.specs.Rules.{IsTable};
ghost use Rattle.lq_tree.specs.AllowedCalls.{AddsOwnCalls};
ghost use Rattle.lq_guard.specs.SeenRows.{number_of_row};
ghost use Rattle.lq_pipe.specs.Conditions.{numbers_true};
ghost use Rattle.lq_pull.specs.Views.{row_facts, rows_for, sight_of, world_seen};

use crate::preparing::prepare_tables;
use crate::readers::Reader;
use crate::tables::with_rows;
use crate::views::View;
use lq_guard::VisibleRow;
use lq_host::{Asks, Log};
use lq_pipe::numbers_where;
use lq_policy::Action;
use lq_tree::Tree;
use lq_use::uses;
use lq_value::{End, TableNumber};
use std::alloc::{AllocError, Global};

/// The numbers of the rows of a table that a role may remove and on which a condition is true, in their order, up to the first fault that
/// the condition meets; and how that ends. The condition's first slot holds the row. It is asked of no other row, the queries in it read
/// the tables as the role sees them, and its host predicates are these. Refused where no memory was left.
pub fn removable_numbers<H: Asks>(
    alloc: Global,
    condition: &Tree,
    table: TableNumber,
    view: &View<'_>,
    hosts: &H,
    log: &mut Log<H>,
) -> Result<(Vec<u64>, End), AllocError>
    requires { table < length view.now.store.now }
    ensures calls { AddsOwnCalls (world_seen (sight_of view.now) (H.known hosts.now)) row_facts
        condition.now.form (rows_for (sight_of view.now) action.Delete table) log.old log.new }
    ensures meant { IfOk result (λ found. (found.0.items, found.1) ≡ numbers_true
        (world_seen (sight_of view.now) (H.known hosts.now)) number_of_row condition.now.form
        (rows_for (sight_of view.now) action.Delete table)) }
    ensures rules { IfOk result (λ found. Every IsTable view.now.store.now) }
{
    let used = uses(alloc, condition, view.store, false)?;
    // No table is at the head of a condition: those that it names are read for each row.
    let prepared = prepare_tables(alloc, view, used.as_slice(), None)?;
    let tables = with_rows(alloc, view, prepared.as_slice())?;
    let rules = view
        .policies
        .rules_for(alloc, view.role, Action::Delete, table)?;
    let mut rows = Reader::Scan(view.scan(table, Action::Delete, &rules));
    numbers_where::<VisibleRow<'_>, Reader<'_, '_>, H>(
        alloc,
        condition,
        table,
        &mut rows,
        tables.as_slice(),
        hosts,
        log,
    )
}
