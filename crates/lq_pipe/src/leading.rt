//! The first items of an order, which are found as its items are pulled: no others are sorted.
ghost use Rattle.std.specs.Prelude.{◌≡◌, ◌<◌, IfOk, IfSome, List, Some, length};
ghost use Rattle.lq_value.specs.declared.value.Value.{Value};
ghost use Rattle.lq_language.specs.Worlds.{World};
ghost use Rattle.lq_tree.specs.declared.tree.Form.TheVariants as of_form;
ghost use Rattle.lq_plan.specs.Leading.{LambdasGiveCells, bodies_of};
ghost use Rattle.lq_plan.specs.Pulling.{base_stream, outcome_stream};
ghost use Rattle.lq_pipe.specs.Leading.{LeadsOn, limit_below};

use crate::running::Running;
use lq_grammar::SortKey;
use lq_host::{Asks, Log};
use lq_operators::Leading;
use lq_plan::leading::{add_by_cells, are_few, may_give_cells};
use lq_plan::{
    Base, Lambda, Outcome, Pipe, Pulled, Reads, Slots, Stage, TableRow, arrangements, stage_of,
};
use lq_tree::Form;
use lq_value::{End, List, Scalar, Value};
use std::alloc::{AllocError, Global};

/// How many items of a source are read at most, where so many are read behind a stage; there is no limit where
/// a condition may drop some.
pub(crate) fn limit_below(stage: &Stage<'_>, limit: Option<usize>) -> Option<usize>
    ensures { result ≡ limit_below stage.now limit }
{
    match stage {
        Stage::Plain => limit,
        Stage::Where(_) => None,
        Stage::Select(_) => limit,
    }
}

/// Where a form is an order of which few items are read: how many, its source and its keys.
fn few_of_order(limit: Option<usize>, form: &Form) -> Option<(usize, &Form, &List<SortKey<Form>>)>
    ensures form { IfSome result (λ found. form.now ≡ of_form.OrderBy found.1.now found.2.now) }
    ensures limit { IfSome result (λ found. limit ≡ Some found.0) }
    ensures some { IfSome result (λ found. 0 < found.0) }
{
    let Some(wanted) = limit else {
        return None;
    };
    if !are_few(wanted) {
        return None;
    }
    match form {
        Form::OrderBy(source, keys) => Some((wanted, source.get(), keys)),
        _ => None,
    }
}

/// Adds what an item has become to the first items of an order, and answers how that ends; none where a lambda
/// isn't known to give a cell of it.
#[inline(always)]
#[tactic(auto, using(crate::proofs::LeadingLemmas::leads_with))]
fn add_leading<R: TableRow>(
    alloc: Global,
    lambdas: &[Lambda<'_>],
    outcome: Outcome<R>,
    keys: &mut Vec<Scalar>,
    leading: &mut Leading<Value<R>>,
) -> Result<Option<End>, AllocError>
    requires { length lambdas.now ≡ length leading.old.directions }
    ensures leads { IfOk result (λ next. (world : World R) (slots : List (Value R))
        → LambdasGiveCells R.table_of R.shown world slots lambdas.now
        → LeadsOn world slots (bodies_of lambdas.now) leading.old (outcome_stream outcome) next
        leading.new) }
    ensures directions { IfOk result (λ next. leading.new.directions ≡ leading.old.directions) }
{
    match outcome {
        Outcome::Item(item) => match add_by_cells(alloc, lambdas, item, keys, leading)? {
            true => Ok(Some(End::Done)),
            false => Ok(None),
        },
        Outcome::Dropped => Ok(Some(End::Done)),
        Outcome::Fault(fault) => Ok(Some(End::Fault(fault))),
    }
}

/// The base of items that are there. It is a function of its own, so that what turns them round has no place on the
/// stack in `open`, through which queries go that stand in one another.
#[inline(never)]
fn base_of_items<R: TableRow, S: Reads<R>>(found: (List<Value<R>>, End)) -> Base<R, S>
    ensures { base_stream result ≡ found }
{
    let (items, end) = found;
    Base::of_items(items, end)
}

impl<'a, R: TableRow, S: Reads<R>, H: Asks> Running<'a, R, S, H> {
    ghost use Rattle.std.specs.Prelude.{◌≡◌, [], IfOk, IfSome, List, length, true};
    ghost use Rattle.lq_host.specs.declared.call.Call.{Call};
    ghost use Rattle.lq_tree.specs.Watches.{Watch, have_watched_rows};
    ghost use Rattle.lq_plan.specs.Counts.{read_first};
    ghost use Rattle.lq_plan.specs.Leading.{bodies_of};
    ghost use Rattle.lq_plan.specs.Meanings.{items_meant};
    ghost use Rattle.lq_plan.specs.Pipes.{all_items};
    ghost use Rattle.lq_plan.specs.Pulling.{base_stream, items_at};
    ghost use Rattle.lq_plan.specs.Slots.{values_in};
    ghost use Rattle.lq_plan.specs.Watching.{watches};
    ghost use Rattle.lq_plan.specs.declared.stages.Stage.TheVariants as of_stage;
    ghost use Rattle.lq_pipe.specs.Leading.{GiveCells, Leads};
    ghost use Rattle.lq_pipe.specs.Runs.{IsPlanned, world, Grown, covers, covers_stage};

    /// The base of a form of which no more items than a limit are read, where there is one: as `open` gives it, but
    /// where that base is an order, it may have only the first items, and those behind them aren't sorted.
    #[cycle(running)]
    #[inline(never)]
    #[tactic(auto, using(crate::proofs::LeadingLemmas::opens_first))]
    pub(crate) fn open(
        &self,
        limit: Option<usize>,
        form: &Form,
        slots: &Slots<'_, R>,
        log: &mut Log<H>,
    ) -> Result<Base<R, S>, AllocError>
        ensures meant { IfOk result (λ base. read_first limit
            (items_at (world self.now) (values_in slots.now) form.now (base_stream base))
            ≡ read_first limit (items_meant (world self.now) form.now slots.now)) }
        ensures from { IfOk result (λ base. (w : Watch R) → covers self.now w form.now ≡ true
            → watches w slots.now ≡ true → have_watched_rows w (base_stream base).0 ≡ true) }
        ensures grows { (w : Watch R) (start : List Call) → covers self.now w form.now ≡ true
            → watches w slots.now ≡ true
            → Grown self.now w start log.old → Grown self.now w start log.new }
    {
        match stage_of(form) {
            Some((stage, source)) => self.open(limit_below(&stage, limit), source, slots, log),
            None => match self.first_sorted(limit, form, slots, log)? {
                Some(found) => Ok(base_of_items(found)),
                None => self.base_of(form, slots, log),
            },
        }
    }

    /// The first items of an order, up to a limit, and how they end as far as they are read: the other items
    /// aren't sorted. None where the form is no order, or where all are to be sorted, since many are read, or a
    /// key isn't known to be a cell: that shows before an item is pulled, of each tree that has types.
    #[cycle(running)]
    #[inline(never)]
    fn first_sorted(
        &self,
        limit: Option<usize>,
        form: &Form,
        slots: &Slots<'_, R>,
        log: &mut Log<H>,
    ) -> Result<Option<(List<Value<R>>, End)>, AllocError>
        ensures meant { IfOk result (λ found. IfSome found (λ items. items
            ≡ read_first limit (items_meant (world self.now) form.now slots.now))) }
        ensures grows { (w : Watch R) (start : List Call) → covers self.now w form.now ≡ true
            → watches w slots.now ≡ true
            → Grown self.now w start log.old → Grown self.now w start log.new }
    {
        let Some((wanted, source, keys)) = few_of_order(limit, form) else {
            return Ok(None);
        };
        let alloc = self.sources.alloc;
        let lambdas = self.sources.key_lambdas(keys.as_slice(), slots)?;
        if !may_give_cells(lambdas.as_slice()) {
            return Ok(None);
        }
        let directions = arrangements::directions(alloc, keys.as_slice())?;
        let pipe = self.sources.pipe_of(source, slots)?;
        match self.leading_items(wanted, directions, lambdas.as_slice(), &pipe, slots, log)? {
            Some((leading, end)) => match end {
                End::Done => Ok(Some((leading.into_items(), End::Done))),
                End::Fault(fault) => Ok(Some((List::new(alloc), End::Fault(fault)))),
            },
            None => Ok(None),
        }
    }

    /// The first items of an order, of all items of a pipe, and how these end. None where a key of an item isn't
    /// known to be a cell.
    #[cycle(running)]
    #[inline(never)]
    fn leading_items(
        &self,
        wanted: usize,
        directions: List<bool>,
        lambdas: &[Lambda<'_>],
        pipe: &Pipe<'_>,
        slots: &Slots<'_, R>,
        log: &mut Log<H>,
    ) -> Result<Option<(Leading<Value<R>>, End)>, AllocError>
        requires planned { IsPlanned self.now slots.now pipe.now }
        requires plain { pipe.now.stage ≡ of_stage.Plain }
        requires counted { length lambdas.now ≡ length directions }
        requires cells { GiveCells self.now slots.now lambdas.now }
        ensures meant { IfOk result (λ found. IfSome found (λ first. Leads (world self.now)
            (values_in slots.now) (bodies_of lambdas.now) directions wanted first.0 ([], first.1)
            (all_items (world self.now) (values_in slots.now) pipe.now))) }
        ensures grows { (w : Watch R) (start : List Call)
            → covers self.now w pipe.now.source.now ≡ true
            → covers_stage self.now w pipe.now.stage ≡ true
            → watches w slots.now ≡ true
            → Grown self.now w start log.old → Grown self.now w start log.new }
    {
        let alloc = self.sources.alloc;
        let mut base = self.open(None, pipe.source, slots, log)?;
        let mut keys = Vec::new(alloc);
        let mut leading = Leading::new(alloc, wanted, directions);
        loop {
            match base.pull(&pipe.plan) {
                Ok(Pulled::Row(row)) => {
                    if !add_by_cells(alloc, lambdas, Value::Row(row), &mut keys, &mut leading)? {
                        return Ok(None);
                    }
                }
                Ok(Pulled::Item(item)) => {
                    let outcome = self.pass_item(pipe, item, slots, log)?;
                    match add_leading(alloc, lambdas, outcome, &mut keys, &mut leading)? {
                        Some(End::Done) => {}
                        Some(End::Fault(fault)) => return Ok(Some((leading, End::Fault(fault)))),
                        None => return Ok(None),
                    }
                }
                Err(end) => return Ok(Some((leading, end))),
            }
        }
    }
}
