//! Methods without an argument.
ghost use Rattle.lq_language.specs.Meaning.{simple_meaning};
ghost use Rattle.lq_language.specs.OperandMeaning.{as_value};
ghost use Rattle.lq_operators.specs.Answers.{IsAnswer};
ghost use Rattle.lq_operators.specs.Tallies.{tallied};

use crate::defaults::default_of;
use crate::error::RunError;
use crate::firsts::firsts_of;
use crate::items::{any, first, last, single};
use crate::numbers::{Extreme, Tally, tallied};
use crate::sequences::{default_if_empty, reversed, sequence};
use lq_language::Simple;
use lq_value::{End, Fault, List, RowRef, Scalar, Ty, Value};
use std::alloc::Global;

/// What a method without an argument makes of items of the type `ty`, after which the source ends so
/// (.NET, Enumerable): what each reads, where it stops and which fault it meets are as there.
pub fn simple<R: RowRef>(
    alloc: Global,
    method: Simple,
    ty: &Ty,
    items: List<Value<R>>,
    end: End,
) -> Result<Value<R>, RunError>
    ensures { IsAnswer (simple_meaning method ty.now (items, end)) result }
{
    match method {
        Simple::Distinct => Ok(Value::Seq(firsts_of(alloc, items)?, end)),
        Simple::Reverse => Ok(sequence(reversed(alloc, items, end))),
        Simple::DefaultIfEmpty => Ok(sequence(default_if_empty(default_of(ty), items, end)?)),
        Simple::Any => Ok(Value::Scalar(Scalar::Bool(any(items, end)?))),
        Simple::Count => number(Tally::Count(0), ty, items.as_slice(), end),
        Simple::First => Ok(first(Err(Fault::InvalidOperation), items, end)?),
        Simple::FirstOrDefault => Ok(first(Ok(default_of(ty)), items, end)?),
        Simple::Last => Ok(last(Err(Fault::InvalidOperation), items, end)?),
        Simple::Single => Ok(single(Err(Fault::InvalidOperation), items, end)?),
        Simple::SingleOrDefault => Ok(single(Ok(default_of(ty)), items, end)?),
        Simple::Sum => number(Tally::Sum(0), ty, items.as_slice(), end),
        Simple::Min => number(Tally::Best(Extreme::Least, None), ty, items.as_slice(), end),
        Simple::Max => number(
            Tally::Best(Extreme::Greatest, None),
            ty,
            items.as_slice(),
            end,
        ),
    }
}

// The number that a tally comes to over the items.
fn number<R: RowRef>(
    tally: Tally,
    ty: &Ty,
    items: &[Value<R>],
    end: End,
) -> Result<Value<R>, RunError>
    ensures { IsAnswer (as_value (tallied ty.now tally (items.now, end))) result }
{
    Ok(Value::Scalar(tallied(tally, ty, items, end)?))
}
