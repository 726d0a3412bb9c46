//! Which of two scalars comes first.
ghost use Rattle.std.specs.Prelude.{◌≡◌};
ghost use Rattle.lq_value.specs.SameAndOrder.{kind_of, order_of};

use crate::scalar::Scalar;
use std::cmp::Ordering;

/// Which of two scalars comes first, as .NET's default comparer has it for two of one type: null
/// before all, ints by size, false before true; but texts by their UTF-8 bytes, with no culture. Two
/// of different kinds, which no typed expression compares, are in the order null, ints, truth
/// values, texts, so that the order is total and sorting by it needs no condition. Takes no memory.
pub fn order(left: &Scalar, right: &Scalar) -> Ordering
    ensures { result ≡ order_of left.now right.now }
{
    match (left, right) {
        (Scalar::Int(left), Scalar::Int(right)) => left.cmp(right),
        (Scalar::Bool(left), Scalar::Bool(right)) => left.cmp(right),
        (Scalar::Text(left), Scalar::Text(right)) => left.as_str().cmp(right.as_str()),
        _ => kind(left).cmp(&kind(right)),
    }
}

// The place of a scalar's kind among the kinds.
fn kind(scalar: &Scalar) -> u8
    ensures { result ≡ kind_of scalar.now }
{
    match scalar {
        Scalar::Null => 0,
        Scalar::Int(_) => 1,
        Scalar::Bool(_) => 2,
        Scalar::Text(_) => 3,
    }
}
