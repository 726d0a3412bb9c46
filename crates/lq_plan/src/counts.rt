//! How many items a method reads at most.
ghost use Rattle.std.specs.Prelude.{◌≡◌};
ghost use Rattle.lq_value.specs.declared.value.Value.{out-Value};
ghost use Rattle.lq_plan.specs.Counts.{given_limit, fault_limit, is_zero, value_limit, simple_limit, number_limit, one_less};

use lq_language::{Given, Simple};
use lq_value::{Fault, RowRef, Scalar, Value};

/// So many items are read by a method without an argument, where there is a limit to them: the
/// first decides (.NET, `Enumerable.Any`, `First`), or it is a second one that is a fault (`Single`).
#[inline]
pub fn simple_limit(method: Simple) -> Option<usize>
    ensures { result ≡ simple_limit method }
{
    match method {
        Simple::Any | Simple::First | Simple::FirstOrDefault => Some(1),
        Simple::Single | Simple::SingleOrDefault => Some(2),
        _ => None,
    }
}

/// The items up to a number, or up to the place that it is.
fn number_limit(method: Given, number: i32) -> Option<usize>
    ensures { result ≡ number_limit method number }
{
    match method {
        Given::Take => Some(if number < 0 { 0 } else { number as usize }),
        Given::ElementAt => Some(if number < 0 { 0 } else { number as usize + 1 }),
        _ => None,
    }
}

/// The same by a value, if it is a number.
#[tactic(auto, using(crate::proofs::PartLemmas::layers))]
fn value_limit<R: RowRef>(method: Given, argument: &Value<R>) -> Option<usize>
    ensures { result ≡ value_limit method (out-Value R argument.now) }
{
    match argument {
        Value::Scalar(Scalar::Int(number)) => number_limit(method, *number),
        Value::Scalar(_) => None,
        Value::Row(_) | Value::Rec(_) | Value::Group(_, _) | Value::Seq(_, _) => None,
    }
}

/// No item is read where the argument is a fault that is the answer.
fn fault_limit(method: Given) -> Option<usize>
    ensures { result ≡ fault_limit method }
{
    match method {
        Given::Skip | Given::Take | Given::ElementAt | Given::Contains => Some(0),
        Given::Concat | Given::Union | Given::Intersect | Given::Except => None,
    }
}

/// So many items are read by a method with this argument, where there is a limit to them: those up to
/// a number (.NET, `Enumerable.Take`) or up to the place that it is (`ElementAt`), and none where the
/// argument is a fault that is the answer.
pub fn given_limit<R: RowRef>(method: Given, argument: &Result<Value<R>, Fault>) -> Option<usize>
    ensures { result ≡ given_limit method argument.now }
{
    match argument {
        Ok(value) => value_limit(method, value),
        Err(_) => fault_limit(method),
    }
}

/// Whether no item is read at all.
#[inline]
pub fn is_zero(limit: Option<usize>) -> bool
    ensures { result ≡ is_zero limit }
{
    matches!(limit, Some(0))
}

/// What is left of a limit once one item more is read; none where the limit is reached. Where there is no
/// limit, there is none after it either.
#[inline]
pub fn one_less(limit: Option<usize>) -> Option<Option<usize>>
    ensures { result ≡ one_less limit }
{
    match limit {
        Some(0) => None,
        Some(count) => Some(Some(count - 1)),
        None => Some(None),
    }
}
