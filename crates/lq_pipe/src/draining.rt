//! Streams that are given item by item to what takes them.
ghost use Rattle.std.specs.Prelude.{◌≡◌, [], IfOk};
ghost use Rattle.lq_language.specs.OperandMeaning.{stream_of};
ghost use Rattle.lq_tree.specs.AllowedCalls.{AddsOwnCalls};
ghost use Rattle.lq_tree.specs.FormMeaning.{form_meaning};
ghost use Rattle.lq_plan.specs.Watching.{facts_of};
ghost use Rattle.lq_plan.specs.Worlds.{HaveDistinctColumns, schemas_in, world_of};
ghost use Rattle.lq_sink.specs.Draining.{Drains};

use crate::running::Running;
use crate::trees::run;
use lq_host::{Asks, Log};
use lq_plan::{Base, Outcome, Pipe, Pulled, Reads, Slots, Sources, TableRow, TableRows, stage_of};
use lq_sink::{Flow, Sink};
use lq_tree::{Form, Tree};
use lq_value::{End, List, RowRef, Value};
use std::alloc::{AllocError, Global};

/// Whether a form's items are pulled one by one: rows, and what comes of items through conditions and lambdas. Any answer is right; items that
/// aren't pulled are made before the first one is given.
fn is_pulled(form: &Form) -> bool {
    match form {
        Form::Table(_) => true,
        Form::Where(_, _) => true,
        // all groups are made before the first one, and what a record reads of them may be tallied meanwhile
        Form::Select(source, body) => match (source.get(), body.get()) {
            (Form::GroupBy(_, _, _), Form::Record(_)) => false,
            _ => true,
        },
        Form::Sequence(source) => is_pulled(source.get()),
        _ => false,
    }
}

/// Gives items that are there to a sink until it stops, and returns how they end.
#[tactic(auto, using(crate::proofs::DrainLemmas::remains))]
fn drain_items<R: RowRef, K: Sink<R>>(items: List<Value<R>>, end: End, sink: &mut K) -> End
    ensures { Drains K.takes items end sink.old result sink.new }
{
    for item in items.into_vec() {
        match sink.take(item) {
            Flow::Go => {}
            Flow::Stop => return End::Done,
        }
    }
    end
}

impl<'a, R: TableRow, S: Reads<R>, H: Asks> Running<'a, R, S, H> {
    ghost use Rattle.std.specs.Prelude.{◌≡◌, [], true, IfOk, List};
    ghost use Rattle.lq_host.specs.declared.call.Call.{Call};
    ghost use Rattle.lq_tree.specs.Watches.{Watch};
    ghost use Rattle.lq_plan.specs.Meanings.{items_meant};
    ghost use Rattle.lq_plan.specs.Pipes.{all_items, items_left};
    ghost use Rattle.lq_plan.specs.Slots.{values_in};
    ghost use Rattle.lq_plan.specs.declared.slots.Slots.TheVariants as slots;
    ghost use Rattle.lq_sink.specs.Draining.{Drains};
    ghost use Rattle.lq_pipe.specs.Runs.{HasTaken, IsPlanned, world, Grown, covers, covers_stage};
    ghost use Rattle.lq_pipe.specs.Steps.{Steps};

    /// A pipe that has the items of a form, where no slot is filled.
    fn pipe_over<'f>(&self, form: &'f Form) -> Result<Pipe<'f>, AllocError>
        ensures planned { IfOk result (IsPlanned self.now slots.Empty) }
        ensures items { IfOk result (λ pipe. all_items (world self.now) (values_in slots.Empty) pipe
            ≡ items_meant (world self.now) form.now slots.Empty) }
        ensures covered { IfOk result (λ pipe. (w : Watch R) → covers self.now w form.now ≡ true
            → (covers self.now w pipe.source.now ≡ true)
            × (covers_stage self.now w pipe.stage ≡ true)) }
    {
        match stage_of(form) {
            Some((stage, source)) => Ok(self.sources.pipe(stage, source, &Slots::Empty)?),
            None => Ok(self.sources.pipe_of(form, &Slots::Empty)?),
        }
    }

    /// The next item of a pipe, or how they end, as `next` gives it; but put where it is called, since no query
    /// stands within the loop of a drain.
    #[inline(always)]
    #[tactic(auto, using(crate::proofs::PullLaws::next_steps))]
    fn next_in_place(
        &self,
        pipe: &Pipe<'_>,
        base: &mut Base<R, S>,
        slots: &Slots<'_, R>,
        log: &mut Log<H>,
    ) -> Result<Result<Value<R>, End>, AllocError>
        requires { IsPlanned self.now slots.now pipe.now }
        ensures meant { IfOk result (λ step. Steps
            (items_left (world self.now) (values_in slots.now) pipe.now base.old) step
            (items_left (world self.now) (values_in slots.now) pipe.now base.new)) }
        ensures pulled { HasTaken self.now slots.now pipe.now base.old log.old base.new log.new }
    {
        loop {
            match base.pull(&pipe.plan) {
                Ok(Pulled::Row(row)) => return self.pass_row(pipe, row, slots, log),
                Ok(Pulled::Item(item)) => {
                    match self.pass_item(pipe, item, slots, log)? {
                        Outcome::Item(item) => return Ok(Ok(item)),
                        Outcome::Dropped => {}
                        Outcome::Fault(fault) => return Ok(Err(End::Fault(fault))),
                    }
                }
                Err(end) => return Ok(Err(end)),
            }
        }
    }

    /// Gives the items of a pipe to a sink until it stops, and returns how they end.
    #[tactic(auto, using(crate::proofs::PullLaws::reads))]
    fn drain_pipe<K: Sink<R>>(
        &self,
        pipe: &Pipe<'_>,
        log: &mut Log<H>,
        sink: &mut K,
    ) -> Result<End, AllocError>
        requires { IsPlanned self.now slots.Empty pipe.now }
        ensures meant { IfOk result (λ end. Drains K.takes
            (all_items (world self.now) (values_in slots.Empty) pipe.now).0
            (all_items (world self.now) (values_in slots.Empty) pipe.now).1
            sink.old end sink.new) }
        ensures grows { (w : Watch R) (start : List Call)
            → covers self.now w pipe.now.source.now ≡ true
            → covers_stage self.now w pipe.now.stage ≡ true
            → Grown self.now w start log.old → Grown self.now w start log.new }
    {
        let mut base = self.open(None, pipe.source, &Slots::Empty, log)?;
        loop {
            match self.next_in_place(pipe, &mut base, &Slots::Empty, log)? {
                Ok(item) => match sink.take(item) {
                    Flow::Go => {}
                    Flow::Stop => return Ok(End::Done),
                },
                Err(end) => return Ok(end),
            }
        }
    }
}

/// Gives the items of a typed tree over these tables and host predicates to a sink, one by one and in order, until the sink stops. What comes of
/// rows or items through conditions and lambdas is made when it is given. Returns how the items end: a fault that is met in making one is their
/// ending, and after a stop they are done. Refused where no memory was left.
pub fn drain<'a, R: TableRow, S: Reads<R>, H: Asks, K: Sink<R>>(
    alloc: Global,
    tree: &Tree,
    tables: &'a [TableRows<'a, S>],
    hosts: &'a H,
    log: &mut Log<H>,
    sink: &mut K,
) -> Result<End, AllocError>
    requires { HaveDistinctColumns (schemas_in tables.now) }
    ensures calls { AddsOwnCalls (world_of R.table_of R.shown S.left (H.known hosts.now) tables.now)
        (facts_of R.table_of R.number_of R.shown) tree.now.form [] log.old log.new }
    ensures meant { IfOk result (λ end. Drains K.takes
        (stream_of (world_of R.table_of R.shown S.left (H.known hosts.now) tables.now)
        (form_meaning (world_of R.table_of R.shown S.left (H.known hosts.now) tables.now)
        tree.now.form [])).0
        (stream_of (world_of R.table_of R.shown S.left (H.known hosts.now) tables.now)
        (form_meaning (world_of R.table_of R.shown S.left (H.known hosts.now) tables.now)
        tree.now.form [])).1 sink.old end sink.new) }
{
    let form = tree.form.get();
    if !is_pulled(form) {
        let (items, end) = run::<R, S, H>(alloc, tree, tables, hosts, log)?;
        return Ok(drain_items(items, end, sink));
    }
    let sources = Sources::new(alloc, tables, hosts);
    let running = Running { sources };
    let pipe = running.pipe_over(form)?;
    running.drain_pipe(&pipe, log, sink)
}
