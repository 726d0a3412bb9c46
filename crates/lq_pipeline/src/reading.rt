//! The reading of rows through the conditions and lambdas above their table, up to what decides an answer.
ghost use Rattle.std.specs.Prelude.{◌≡◌, [], IfOk};
ghost use Rattle.lq_value.specs.SameAndOrder.{same_values};
ghost use Rattle.lq_language.specs.Enumerable.{all, contains, is_among};
ghost use Rattle.lq_pipe.specs.Handing.{comes_of};
ghost use Rattle.lq_pipe.specs.Steps.{Steps};
ghost use Rattle.lq_plan.specs.Counts.{read_first};
ghost use Rattle.lq_plan.specs.Handing.{handed_out, items_to_come, rows_to_come};
ghost use Rattle.lq_plan.specs.Pipes.{items_left};
ghost use Rattle.lq_plan.specs.Plans.{IsPlanned, world};
ghost use Rattle.lq_plan.specs.Watching.{facts};
ghost use Rattle.lq_plan.specs.declared.slots.Slots.TheVariants as slots;
ghost use Rattle.lq_pipeline.specs.Reading.{Reads, Takes, covered_by};
ghost use Rattle.lq_pipeline.specs.Settling.{reaches};
ghost use Rattle.lq_pipeline.specs.Truths.{has_untrue, truth_of_value};

use lq_host::{Asks, Log};
use lq_pipe::{Base, Pipe, Reads, TableRow, next_item};
use lq_plan::{Sources, counts, scalars};
use lq_value::{End, Fault, List, Value, same};
use std::alloc::AllocError;

/// The next item of a pipe, or how the items end. What was handed out is what was needed for that, also where a growth is refused.
pub(crate) fn pull<R: TableRow, S: Reads<R>, H: Asks>(
    sources: &Sources<'_, R, S, H>,
    pipe: &Pipe<'_>,
    base: &mut Base<R, S>,
    log: &mut Log<H>,
) -> Result<Result<Value<R>, End>, AllocError>
    requires planned { IsPlanned sources.now slots.Empty pipe.now }
    requires rows { items_to_come base.old ≡ [] }
    ensures meant { IfOk result (λ step. Steps
        (items_left (world sources.now) [] pipe.now base.old) step
        (items_left (world sources.now) [] pipe.now base.new)) }
    ensures takes { Takes (world sources.now) (facts sources.now)
        (covered_by (world sources.now) pipe.now) (comes_of (world sources.now) [] pipe.now)
        (rows_to_come base.old) (handed_out base.old) log.old result (rows_to_come base.new) (handed_out base.new) log.new }
    ensures rows { items_to_come base.new ≡ [] }
{
    next_item(
        sources.alloc,
        pipe,
        base,
        sources.tables,
        sources.hosts,
        log,
    )
}

/// The items of a pipe up to a limit, where there is one, and how they end as far as they are read.
pub(crate) fn read<R: TableRow, S: Reads<R>, H: Asks>(
    sources: &Sources<'_, R, S, H>,
    pipe: &Pipe<'_>,
    limit: Option<usize>,
    base: &mut Base<R, S>,
    log: &mut Log<H>,
) -> Result<(List<Value<R>>, End), AllocError>
    requires planned { IsPlanned sources.now slots.Empty pipe.now }
    requires rows { items_to_come base.old ≡ [] }
    ensures meant { IfOk result (λ items. items
        ≡ read_first limit (items_left (world sources.now) [] pipe.now base.old)) }
    ensures reads { Reads (world sources.now) (facts sources.now)
        (covered_by (world sources.now) pipe.now) (comes_of (world sources.now) [] pipe.now) (reaches limit)
        (rows_to_come base.old) (handed_out base.old) log.old result
        (rows_to_come base.new) (handed_out base.new) log.new }
    ensures rows { items_to_come base.new ≡ [] }
{
    let mut items = List::new(sources.alloc);
    let mut left = limit;
    while let Some(less) = counts::one_less(left) {
        match pull(sources, pipe, base, log) {
            Ok(Ok(item)) => match items.push(item) {
                Ok(()) => {}
                Err(error) => return Err(error),
            },
            Ok(Err(end)) => return Ok((items, end)),
            Err(error) => return Err(error),
        }
        left = less;
    }
    Ok((items, End::Done))
}

/// Whether an item of a pipe is the same as a value, or the fault that the items end with. Nothing is read behind the first that is.
pub(crate) fn has_item<R: TableRow, S: Reads<R>, H: Asks>(
    sources: &Sources<'_, R, S, H>,
    pipe: &Pipe<'_>,
    value: &Value<R>,
    base: &mut Base<R, S>,
    log: &mut Log<H>,
) -> Result<Result<bool, Fault>, AllocError>
    requires planned { IsPlanned sources.now slots.Empty pipe.now }
    requires rows { items_to_come base.old ≡ [] }
    ensures meant { IfOk result (λ found. found ≡ contains same_values value.now
        (items_left (world sources.now) [] pipe.now base.old).0
        (items_left (world sources.now) [] pipe.now base.old).1) }
    ensures reads { Reads (world sources.now) (facts sources.now)
        (covered_by (world sources.now) pipe.now) (comes_of (world sources.now) [] pipe.now)
        (is_among same_values value.now)
        (rows_to_come base.old) (handed_out base.old) log.old result
        (rows_to_come base.new) (handed_out base.new) log.new }
    ensures rows { items_to_come base.new ≡ [] }
{
    loop {
        match pull(sources, pipe, base, log) {
            Ok(Ok(item)) => {
                if same(value, &item) {
                    return Ok(Ok(true));
                }
            }
            Ok(Err(End::Done)) => return Ok(Ok(false)),
            Ok(Err(End::Fault(fault))) => return Ok(Err(fault)),
            Err(error) => return Err(error),
        }
    }
}

/// Whether all items of a pipe are true, up to the first that isn't, or the fault that comes before. Nothing is read behind it.
pub(crate) fn are_true<R: TableRow, S: Reads<R>, H: Asks>(
    sources: &Sources<'_, R, S, H>,
    pipe: &Pipe<'_>,
    base: &mut Base<R, S>,
    log: &mut Log<H>,
) -> Result<Result<bool, Fault>, AllocError>
    requires planned { IsPlanned sources.now slots.Empty pipe.now }
    requires rows { items_to_come base.old ≡ [] }
    ensures meant { IfOk result (λ found. found ≡ all (truth_of_value (world sources.now))
        (items_left (world sources.now) [] pipe.now base.old).0
        (items_left (world sources.now) [] pipe.now base.old).1) }
    ensures reads { Reads (world sources.now) (facts sources.now)
        (covered_by (world sources.now) pipe.now) (comes_of (world sources.now) [] pipe.now)
        (has_untrue (world sources.now))
        (rows_to_come base.old) (handed_out base.old) log.old result
        (rows_to_come base.new) (handed_out base.new) log.new }
    ensures rows { items_to_come base.new ≡ [] }
{
    loop {
        match pull(sources, pipe, base, log) {
            Ok(Ok(item)) => match scalars::truth_or_fault(scalars::truth_in(item)) {
                Ok(Ok(true)) => {}
                Ok(Ok(false)) => return Ok(Ok(false)),
                Ok(Err(fault)) => return Ok(Err(fault)),
                Err(error) => return Err(error),
            },
            Ok(Err(End::Done)) => return Ok(Ok(true)),
            Ok(Err(End::Fault(fault))) => return Ok(Err(fault)),
            Err(error) => return Err(error),
        }
    }
}
