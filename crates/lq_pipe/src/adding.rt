//! The adding of what comes to distinct items, and of items to their groups.
ghost use Rattle.std.specs.Prelude.{◌≡◌, ◌∷◌, [], IfOk, List, Ok, Some, true, false};
ghost use Rattle.lq_value.specs.declared.value.End.TheVariants as end;
ghost use Rattle.lq_value.specs.declared.value.Value.{Value};
ghost use Rattle.lq_value.specs.declared.value.Value.TheVariants as value;
ghost use Rattle.lq_language.specs.Stream.{Stream, one};
ghost use Rattle.lq_language.specs.Worlds.{World};
ghost use Rattle.lq_operators.specs.Firsts.{firsts_in};
ghost use Rattle.lq_operators.specs.Groups.{groups_in};
ghost use Rattle.lq_plan.specs.Prepared.{GivesCell};
ghost use Rattle.lq_plan.specs.Pulling.{outcome_stream};
ghost use Rattle.lq_pipe.specs.Gathering.{AddsFirsts, AddsPairs};
ghost use Rattle.lq_pipe.specs.Items.{keys_and_elements};
ghost use Rattle.lq_pipe.specs.Steps.{GivesStep};

use lq_operators::{Distinct, Grouping};
use lq_plan::{Lambda, Outcome, TableRow};
use lq_value::{End, Fault, Scalar, Value};
use std::alloc::{AllocError, Global};

/// Adds the scalar that is the item which comes.
#[inline(always)]
pub(crate) fn add_cell<R: TableRow>(
    firsts: &mut Distinct<R>,
    alloc: Global,
    cell: &Scalar,
) -> Result<End, AllocError>
    ensures { IfOk result (λ e. AddsFirsts (firsts_in firsts.old) (firsts_in firsts.new)
        (value.Scalar cell.now ∷ [], end.Done) e) }
{
    firsts.add_scalar(alloc, cell)?;
    Ok(End::Done)
}

/// Adds the item that comes, if one does, and answers how that ends.
#[inline]
pub(crate) fn add_step<R: TableRow>(
    firsts: &mut Distinct<R>,
    alloc: Global,
    step: Result<Value<R>, End>,
) -> Result<End, AllocError>
    ensures { (s : Stream (Value R)) → GivesStep s step
        → IfOk result (AddsFirsts (firsts_in firsts.old) (firsts_in firsts.new) s) }
{
    match step {
        Ok(item) => {
            firsts.add(alloc, item)?;
            Ok(End::Done)
        }
        Err(end) => Ok(end),
    }
}

/// The same of what comes of an item.
#[inline]
pub(crate) fn add_outcome<R: TableRow>(
    firsts: &mut Distinct<R>,
    alloc: Global,
    outcome: Outcome<R>,
) -> Result<End, AllocError>
    ensures { IfOk result (λ e. AddsFirsts (firsts_in firsts.old) (firsts_in firsts.new)
        (outcome_stream outcome) e) }
{
    match outcome {
        Outcome::Item(item) => {
            firsts.add(alloc, item)?;
            Ok(End::Done)
        }
        Outcome::Dropped => Ok(End::Done),
        Outcome::Fault(fault) => Ok(End::Fault(fault)),
    }
}

/// Puts an item that is its own element behind those of its key, where this is a cell of it, and answers
/// whether that was so.
#[inline(always)]
pub(crate) fn group_in_place<R: TableRow>(
    grouping: &mut Grouping<R>,
    alloc: Global,
    key: &Lambda<'_>,
    element: &Lambda<'_>,
    item: &Value<R>,
) -> Result<bool, AllocError>
    ensures added { (world : World R) (slots : List (Value R))
        → GivesCell R.table_of R.shown world slots key.now
        → GivesCell R.table_of R.shown world slots element.now → result ≡ Ok true
        → AddsPairs (groups_in grouping.old) (groups_in grouping.new)
        (keys_and_elements world slots key.now.body.now (Some element.now.body)
        (item.now ∷ [], end.Done)) end.Done }
    ensures stays { result ≡ Ok false → grouping.new ≡ grouping.old }
{
    if !element.gives_item(item) {
        return Ok(false);
    }
    match (item, key.cell(item)) {
        (Value::Row(row), Some(cell)) => {
            grouping.add_by_scalar(alloc, cell, Value::Row(row.again()))?;
            Ok(true)
        }
        _ => Ok(false),
    }
}

/// Puts an element behind those of its key, and answers how that ends.
#[inline]
pub(crate) fn group_pair<R: TableRow>(
    grouping: &mut Grouping<R>,
    alloc: Global,
    pair: Result<(Value<R>, Value<R>), Fault>,
) -> Result<End, AllocError>
    ensures { IfOk result (λ e. AddsPairs (groups_in grouping.old) (groups_in grouping.new)
        (one pair) e) }
{
    match pair {
        Ok((key, element)) => {
            grouping.add(alloc, key, element)?;
            Ok(End::Done)
        }
        Err(fault) => Ok(End::Fault(fault)),
    }
}
