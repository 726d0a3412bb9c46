//! The pulling of items by who keeps the base.
ghost use Rattle.std.specs.Prelude.{◌≡◌, [], IfOk};
ghost use Rattle.lq_plan.specs.Handing.{StaysOfRows};
ghost use Rattle.lq_plan.specs.Watching.{facts_of};
ghost use Rattle.lq_plan.specs.Worlds.{HaveDistinctColumns, schemas_in, world_of};
ghost use Rattle.lq_pipe.specs.Pulls.{CallsOnTaken, HandsOn, HandsWithin, IsPlanned, StepsOn};

use crate::running::Running;
use lq_host::{Asks, Log};
use lq_plan::{Base, Pipe, Reads, Slots, Sources, TableRow, TableRows};
use lq_value::{End, Value};
use std::alloc::{AllocError, Global};

/// The next item of a pipe, or how the items end: rows are handed out by the base up to the first one of which an item or a fault comes, and no
/// further, also where a growth is refused. The conditions and lambdas of the pipe read these tables, and ask these host predicates. Refused where
/// no memory was left.
pub fn next_item<'a, R: TableRow, S: Reads<R>, H: Asks>(
    alloc: Global,
    pipe: &Pipe<'_>,
    base: &mut Base<R, S>,
    tables: &'a [TableRows<'a, S>],
    hosts: &'a H,
    log: &mut Log<H>,
) -> Result<Result<Value<R>, End>, AllocError>
    requires columns { HaveDistinctColumns (schemas_in tables.now) }
    requires planned { IsPlanned R.table_of R.shown
        (world_of R.table_of R.shown S.left (H.known hosts.now) tables.now) pipe.now }
    ensures meant { IfOk result (λ step. StepsOn R.table_of R.shown
        (world_of R.table_of R.shown S.left (H.known hosts.now) tables.now) pipe.now
        base.old step base.new) }
    ensures calls { CallsOnTaken R.table_of R.shown
        (world_of R.table_of R.shown S.left (H.known hosts.now) tables.now) pipe.now
        (facts_of R.table_of R.number_of R.shown) base.old log.old base.new log.new }
    ensures hands { IfOk result (λ step. HandsOn R.table_of R.shown
        (world_of R.table_of R.shown S.left (H.known hosts.now) tables.now) pipe.now
        base.old step base.new) }
    ensures within { HandsWithin
        (world_of R.table_of R.shown S.left (H.known hosts.now) tables.now) pipe.now
        base.old base.new }
    ensures alone { StaysOfRows base.old base.new }
{
    let sources = Sources::new(alloc, tables, hosts);
    let running = Running { sources };
    running.next(pipe, base, &Slots::Empty, log)
}
