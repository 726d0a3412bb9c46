//! The value and the stream of a typed tree.
ghost use Rattle.std.specs.Prelude.{◌≡◌, [], IfOk};
ghost use Rattle.lq_language.specs.OperandMeaning.{stream_of};
ghost use Rattle.lq_operators.specs.Answers.{IsAnswer};
ghost use Rattle.lq_tree.specs.AllowedCalls.{AddsOwnCalls};
ghost use Rattle.lq_tree.specs.FormMeaning.{form_meaning};
ghost use Rattle.lq_plan.specs.Watching.{facts_of};
ghost use Rattle.lq_plan.specs.Worlds.{HaveDistinctColumns, schemas_in, world_of};
ghost use Rattle.lq_pipe.specs.Pulls.{AddsCovered};

use crate::running::Running;
use lq_host::{Asks, Log};
use lq_operators::RunError;
use lq_plan::{Reads, Slots, Sources, TableRow, TableRows, sequences};
use lq_tree::{Form, Tree};
use lq_value::{End, List, Value};
use std::alloc::{AllocError, Global};

/// The value of a form in which no slot is filled, over these tables and host predicates, or its first fault (ECMA-334, expressions; .NET,
/// `Enumerable`). Whatever watch covers the form, the calls that are added are watched. `Memory` where none was left.
#[tactic(auto, using(lq_plan::proofs::SlotLaws::no_values))]
pub fn form_value<'a, R: TableRow, S: Reads<R>, H: Asks>(
    alloc: Global,
    form: &Form,
    tables: &'a [TableRows<'a, S>],
    hosts: &'a H,
    log: &mut Log<H>,
) -> Result<Value<R>, RunError>
    requires { HaveDistinctColumns (schemas_in tables.now) }
    ensures calls { AddsCovered (world_of R.table_of R.shown S.left (H.known hosts.now) tables.now)
        (facts_of R.table_of R.number_of R.shown) form.now log.old log.new }
    ensures meant { IsAnswer (form_meaning
        (world_of R.table_of R.shown S.left (H.known hosts.now) tables.now)
        form.now []) result }
{
    let sources = Sources::new(alloc, tables, hosts);
    let running = Running { sources };
    running.evaluate(form, &Slots::Empty, log)
}

/// The value of a typed tree over these tables and host predicates, or its first fault. `Memory` where
/// none was left.
pub fn value<'a, R: TableRow, S: Reads<R>, H: Asks>(
    alloc: Global,
    tree: &Tree,
    tables: &'a [TableRows<'a, S>],
    hosts: &'a H,
    log: &mut Log<H>,
) -> Result<Value<R>, RunError>
    requires { HaveDistinctColumns (schemas_in tables.now) }
    ensures calls { AddsOwnCalls (world_of R.table_of R.shown S.left (H.known hosts.now) tables.now)
        (facts_of R.table_of R.number_of R.shown) tree.now.form [] log.old log.new }
    ensures meant { IsAnswer (form_meaning
        (world_of R.table_of R.shown S.left (H.known hosts.now) tables.now)
        tree.now.form []) result }
{
    form_value::<R, S, H>(alloc, tree.form.get(), tables, hosts, log)
}

/// The items of a typed tree over these tables and host predicates, and how they end: a fault that is
/// met in making them is their ending. Refused where no memory was left.
pub fn run<'a, R: TableRow, S: Reads<R>, H: Asks>(
    alloc: Global,
    tree: &Tree,
    tables: &'a [TableRows<'a, S>],
    hosts: &'a H,
    log: &mut Log<H>,
) -> Result<(List<Value<R>>, End), AllocError>
    requires { HaveDistinctColumns (schemas_in tables.now) }
    ensures calls { AddsOwnCalls (world_of R.table_of R.shown S.left (H.known hosts.now) tables.now)
        (facts_of R.table_of R.number_of R.shown) tree.now.form [] log.old log.new }
    ensures meant { IfOk result (λ s. s
        ≡ stream_of (world_of R.table_of R.shown S.left (H.known hosts.now) tables.now)
        (form_meaning (world_of R.table_of R.shown S.left (H.known hosts.now) tables.now)
        tree.now.form [])) }
{
    sequences::stream(alloc, value::<R, S, H>(alloc, tree, tables, hosts, log))
}
