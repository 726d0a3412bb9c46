//! The numbers of the rows on which a condition is true.
ghost use Rattle.std.specs.Prelude.{◌≡◌, IfOk, OnOk};
ghost use Rattle.lq_tree.specs.AllowedCalls.{AddsOwnCalls};
ghost use Rattle.lq_plan.specs.Watching.{facts_of};
ghost use Rattle.lq_pipe.specs.Conditions.{numbers_true, selection_with};
ghost use Rattle.lq_plan.specs.Worlds.{HaveDistinctColumns, schemas_in, world_of};

use crate::running::Running;
use lq_host::{Asks, Log};
use lq_plan::{Plan, Reads, Slots, Sources, TableRow, TableRows};
use lq_tree::{Form, Tree};
use lq_value::{End, Fault, TableNumber, Value};
use std::alloc::{AllocError, Global};

impl<'a, R: TableRow, S: Reads<R>, H: Asks> Running<'a, R, S, H> {
    ghost use Rattle.std.specs.Prelude.{◌≡◌, IfOk, List, true};
    ghost use Rattle.std.specs.List.{list_all};
    ghost use Rattle.lq_pipe.specs.Conditions.{holds_on, numbers_true};
    ghost use Rattle.lq_host.specs.declared.call.Call.{Call};
    ghost use Rattle.lq_tree.specs.Watches.{Watch};
    ghost use Rattle.lq_pipe.specs.Runs.{PlansRows, world, Grown, covers};

    /// Whether any condition is true on a row, which stands in its first slot.
    fn evaluate_row(
        &self,
        condition: &Form,
        row: &R,
        log: &mut Log<H>,
    ) -> Result<Result<bool, Fault>, AllocError>
        ensures meant { IfOk result (λ truth. truth ≡ holds_on (world self.now) condition.now row.now) }
        ensures grows { (w : Watch R) (start : List Call) → covers self.now w condition.now ≡ true
            → w.row row.now ≡ true
            → Grown self.now w start log.old → Grown self.now w start log.new }
    {
        self.holds(condition, &Value::Row(row.again()), &Slots::Empty, log)
    }

    /// Whether a condition is true on a row. Where the plan says nothing of it, it is evaluated.
    #[tactic(auto, using(crate::proofs::RowLemmas::row_decided))]
    fn holds_on(
        &self,
        plan: &Plan,
        condition: &Form,
        row: &R,
        log: &mut Log<H>,
    ) -> Result<Result<bool, Fault>, AllocError>
        requires { PlansRows self.now condition.now plan.now }
        ensures meant { IfOk result (λ truth. truth ≡ holds_on (world self.now) condition.now row.now) }
        ensures grows { (w : Watch R) (start : List Call) → covers self.now w condition.now ≡ true
            → w.row row.now ≡ true
            → Grown self.now w start log.old → Grown self.now w start log.new }
    {
        match plan.verdict(row) {
            Some(truth) => Ok(Ok(truth)),
            None => self.evaluate_row(condition, row, log),
        }
    }

    /// The numbers of those rows of a table on which a condition is true, up to its first fault.
    #[tactic(auto, using(crate::proofs::RowLemmas::keeps_numbers))]
    fn filter_rows(
        &self,
        condition: &Form,
        table: TableNumber,
        rows: &mut S,
        log: &mut Log<H>,
    ) -> Result<(Vec<u64>, End), AllocError>
        ensures meant { IfOk result (λ found. (found.0.items, found.1)
            ≡ numbers_true (world self.now) R.number_of condition.now (S.left rows.old)) }
        ensures grows { (w : Watch R) (start : List Call) → covers self.now w condition.now ≡ true
            → list_all w.row (S.left rows.old) ≡ true
            → Grown self.now w start log.old → Grown self.now w start log.new }
    {
        let plan = self.sources.plan_rows(condition, table)?;
        let mut numbers = Vec::new(self.sources.alloc);
        while let Some(row) = rows.next_row() {
            match self.holds_on(&plan, condition, &row, log)? {
                Ok(is_true) => select_if(&mut numbers, row.number(), is_true)?,
                Err(fault) => return Ok((numbers, End::Fault(fault))),
            }
        }
        Ok((numbers, End::Done))
    }
}

/// Puts the number of a row behind those that are selected, where a condition is true on the row.
fn select_if(selection: &mut Vec<u64>, number: u64, is_true: bool) -> Result<(), AllocError>
    ensures { OnOk result (selection.new.items ≡ selection_with is_true number selection.old.items) }
{
    if is_true {
        selection.push(number)?;
    }
    Ok(())
}

/// The numbers of those rows of a table on which a condition is true, in their order, and how they end (.NET,
/// `Enumerable.Where`): the first fault that the condition meets is their ending, behind the rows
/// that were kept before it. The rows are pulled one by one, and none after that fault. The condition's first
/// slot holds the row, and its tables and host predicates are these. Any number of a table is right: its rows
/// may be asked faster than others. Refused where no memory was left.
pub fn numbers_where<'a, R: TableRow, S: Reads<R>, H: Asks>(
    alloc: Global,
    condition: &Tree,
    table: TableNumber,
    rows: &mut S,
    tables: &'a [TableRows<'a, S>],
    hosts: &'a H,
    log: &mut Log<H>,
) -> Result<(Vec<u64>, End), AllocError>
    requires { HaveDistinctColumns (schemas_in tables.now) }
    ensures calls { AddsOwnCalls
        (world_of R.table_of R.shown S.left (H.known hosts.now) tables.now)
        (facts_of R.table_of R.number_of R.shown) condition.now.form (S.left rows.old)
        log.old log.new }
    ensures meant { IfOk result (λ found. (found.0.items, found.1) ≡ numbers_true
        (world_of R.table_of R.shown S.left (H.known hosts.now) tables.now)
        R.number_of condition.now.form (S.left rows.old)) }
{
    let sources: Sources<'a, R, S, H> = Sources::new(alloc, tables, hosts);
    let running = Running { sources };
    running.filter_rows(condition.form.get(), table, rows, log)
}
