//! What an argument represents: a sequence, or a number.
ghost use Rattle.std.specs.Prelude.{◌≡◌, Ok};
ghost use Rattle.lq_value.specs.declared.value.Value.{out-Value};
ghost use Rattle.lq_language.specs.OperandMeaning.{items_of, on_scalar, stream_of};
ghost use Rattle.lq_language.specs.Meaning.{number_of};
ghost use Rattle.lq_operators.specs.Arguments.{nowhere};

use crate::sequences::Stream;
use lq_value::{End, Fault, List, RowRef, Scalar, Value};
use std::alloc::Global;

// The stream of an argument. A fault met in making it is its ending, and so is a null reference where it isn't a sequence.
pub(crate) fn stream_of<R: RowRef>(
    alloc: Global,
    argument: Result<Value<R>, Fault>,
) -> Stream<Value<R>>
    ensures { result ≡ stream_of nowhere argument }
{
    match argument {
        Ok(value) => items_of(alloc, value),
        Err(fault) => (List::new(alloc), End::Fault(fault)),
    }
}

#[tactic(auto, using(crate::proofs::Opens::layers))]
fn items_of<R: RowRef>(alloc: Global, value: Value<R>) -> Stream<Value<R>>
    ensures { result ≡ items_of nowhere (out-Value R value) }
{
    match value {
        Value::Seq(items, end) => (items, end),
        Value::Group(_, items) => (items, End::Done),
        Value::Scalar(_) => (List::new(alloc), End::Fault(Fault::NullReference)),
        Value::Row(_) => (List::new(alloc), End::Fault(Fault::NullReference)),
        Value::Rec(_) => (List::new(alloc), End::Fault(Fault::NullReference)),
    }
}

// The number that a value is; a null reference where it isn't one.
#[tactic(auto, using(crate::proofs::Opens::layers))]
fn int_of<R: RowRef>(value: &Value<R>) -> Result<i32, Fault>
    ensures { result ≡ on_scalar nowhere (Ok value.now) (number_of {R = R} nowhere) }
{
    match value {
        Value::Scalar(Scalar::Int(number)) => Ok(*number),
        _ => Err(Fault::NullReference),
    }
}

// The number that an argument is; a null reference where it isn't one.
pub(crate) fn number_of<R: RowRef>(argument: Result<Value<R>, Fault>) -> Result<i32, Fault>
    ensures { result ≡ on_scalar nowhere argument (number_of {R = R} nowhere) }
{
    int_of(&argument?)
}
