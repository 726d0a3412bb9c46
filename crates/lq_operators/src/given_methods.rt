//! Methods with an argument: a second sequence, a number of items, or a value.
ghost use Rattle.std.specs.Prelude.{◌≡◌};
ghost use Rattle.lq_value.specs.declared.value.Fault.TheVariants as fault;
ghost use Rattle.lq_language.specs.Worlds.{World};
ghost use Rattle.lq_language.specs.declared.methods.Given.TheVariants as given;
ghost use Rattle.lq_language.specs.Meaning.{given_meaning};
ghost use Rattle.lq_operators.specs.Answers.{IsAnswer};
ghost use Rattle.lq_operators.specs.Arguments.{nowhere};

use crate::arguments::{number_of, stream_of};
use crate::error::RunError;
use crate::items::element_at;
use crate::sequences::{Stream, sequence};
use crate::sets::{concat, contains, except, intersect, union};
use crate::slices::{as_count, skip, take_first};
use lq_language::Given;
use lq_value::{End, Fault, List, RowRef, Scalar, Value};
use std::alloc::Global;

/// What a method with an argument makes of items, after which the source ends so (.NET, Enumerable).
/// The argument may be a fault: of a sequence it is the ending of its stream, and else the answer,
/// before the source is read. An argument that isn't a sequence, or isn't a number, which no typed call has,
/// is a null reference.
pub fn given<R: RowRef>(
    alloc: Global,
    method: Given,
    argument: Result<Value<R>, Fault>,
    items: List<Value<R>>,
    end: End,
) -> Result<Value<R>, RunError>
    ensures { (world : World R) → world.unknown ≡ fault.NullReference
        → IsAnswer (given_meaning world method argument (items, end)) result }
{
    answer_of(alloc, method, argument, (items, end))
}

fn answer_of<R: RowRef>(
    alloc: Global,
    method: Given,
    argument: Result<Value<R>, Fault>,
    source: Stream<Value<R>>,
) -> Result<Value<R>, RunError>
    ensures { IsAnswer (given_meaning nowhere method argument source) result }
{
    match method {
        Given::Concat => Ok(sequence(concat(source, stream_of(alloc, argument))?)),
        Given::Union => Ok(sequence(union(alloc, source, stream_of(alloc, argument))?)),
        Given::Intersect => Ok(sequence(intersect(alloc, source, stream_of(alloc, argument))?)),
        Given::Except => Ok(sequence(except(alloc, source, stream_of(alloc, argument))?)),
        Given::Skip => skip_items(argument, source),
        Given::Take => take_items(argument, source),
        Given::ElementAt => {
            let (items, end) = source;
            Ok(element_at(number_of(argument)?, items, end)?)
        }
        Given::Contains => {
            let (items, end) = source;
            let answer = contains(&argument?, items.as_slice(), end)?;
            Ok(Value::Scalar(Scalar::Bool(answer)))
        }
    }
}

fn skip_items<R: RowRef>(
    argument: Result<Value<R>, Fault>,
    source: Stream<Value<R>>,
) -> Result<Value<R>, RunError>
    ensures { IsAnswer (given_meaning nowhere given.Skip argument source) result }
{
    let number = number_of(argument)?;
    let (items, end) = source;
    Ok(Value::Seq(skip(as_count(number), items), end))
}

fn take_items<R: RowRef>(
    argument: Result<Value<R>, Fault>,
    source: Stream<Value<R>>,
) -> Result<Value<R>, RunError>
    ensures { IsAnswer (given_meaning nowhere given.Take argument source) result }
{
    let number = number_of(argument)?;
    let (items, end) = source;
    Ok(sequence(take_first(as_count(number), items, end)))
}
