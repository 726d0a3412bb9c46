//! Numbers of a sequence: how many items, the sum, the least and the greatest, item by item.
ghost use Rattle.std.specs.Prelude.{◌≡◌};
ghost use Rattle.lq_value.specs.declared.ty.Ty.{Ty};
ghost use Rattle.lq_value.specs.declared.value.Value.{Value, out-Value};
ghost use Rattle.lq_language.specs.Enumerable.{in_front};
ghost use Rattle.lq_language.specs.Stream.{Stream};
ghost use Rattle.lq_language.specs.Meaning.{number_in};
ghost use Rattle.lq_operators.specs.Numbers.{best_more, better, sum_more};
ghost use Rattle.lq_operators.specs.Tallies.{begins, goes_on, int_in, tallied, tally_result, tally_with};

use crate::defaults::no_number;
use crate::ending::at_end;
use lq_language::Simple;
use lq_value::{End, Fault, RowRef, Scalar, Ty, Value};

/// Which of two numbers is looked for.
#[derive(Clone, Copy)]
pub enum Extreme {
    /// The lesser one.
    Least,
    /// The greater one.
    Greatest,
}

/// What a method that makes a number of its items has of those that it read (.NET,
/// Enumerable.Count, Sum, Min and Max).
#[derive(Clone, Copy)]
pub enum Tally {
    /// So many items.
    Count(i32),
    /// Numbers of this sum.
    Sum(i32),
    /// Numbers the best of which is this one; none where no number was read.
    Best(Extreme, Option<i32>),
}

// The number that an item is; null isn't one.
#[tactic(auto, using(crate::proofs::Opens::layers))]
fn number_in<R: RowRef>(item: &Value<R>) -> Option<i32>
    ensures { result ≡ number_in (out-Value R item.now) }
{
    match item {
        Value::Scalar(Scalar::Int(number)) => Some(*number),
        Value::Scalar(_) => None,
        Value::Row(_) => None,
        Value::Rec(_) => None,
        Value::Group(_, _) => None,
        Value::Seq(_, _) => None,
    }
}

// The number that a scalar is; null isn't one.
fn int_in(scalar: &Scalar) -> Option<i32>
    ensures { result ≡ int_in scalar.now }
{
    match scalar {
        Scalar::Int(number) => Some(*number),
        _ => None,
    }
}

// The number itself, or the one that was there.
fn better(extreme: Extreme, best: i32, number: i32) -> i32
    ensures { result ≡ better extreme best number }
{
    match extreme {
        Extreme::Least if best <= number => best,
        Extreme::Least => number,
        Extreme::Greatest if best <= number => number,
        Extreme::Greatest => best,
    }
}

// The best of the numbers, with one more.
fn best_more(extreme: Extreme, best: Option<i32>, number: Option<i32>) -> Option<i32>
    ensures { result ≡ best_more extreme best number }
{
    match (best, number) {
        (Some(best), Some(number)) => Some(better(extreme, best, number)),
        (None, Some(number)) => Some(number),
        (best, None) => best,
    }
}

// The sum of two numbers; past what an int holds it is an overflow.
#[tactic(auto, using(crate::proofs::NumberLaws::sums))]
fn sum_more(total: i32, number: i32) -> Result<i32, Fault>
    ensures { result ≡ sum_more total number }
{
    match total.checked_add(number) {
        Some(sum) => Ok(sum),
        None => Err(Fault::Overflow),
    }
}

impl Tally {
    ghost use Rattle.std.specs.Prelude.{◌≡◌, Err, IfErr, Ok, OnOk};
    /// The tally that a method begins with; none where it makes no number of its items.
    pub fn of(method: Simple) -> Option<Tally>
        ensures { result ≡ begins method }
    {
        match method {
            Simple::Count => Some(Tally::Count(0)),
            Simple::Sum => Some(Tally::Sum(0)),
            Simple::Min => Some(Tally::Best(Extreme::Least, None)),
            Simple::Max => Some(Tally::Best(Extreme::Greatest, None)),
            _ => None,
        }
    }

    /// The tally with one item more. A count or a sum past what an int holds is an overflow, at
    /// that item.
    #[inline]
    #[tactic(auto, using(crate::proofs::NumberLaws::items_on))]
    pub fn with<R: RowRef>(self, item: &Value<R>) -> Result<Tally, Fault>
        ensures { (t : Ty) (s : Stream (Value R))
            → tallied t self (in_front item.now s) ≡ goes_on t result s }
    {
        self.with_number(number_in(item))
    }

    /// The same, where the item is this scalar.
    #[inline]
    pub fn with_scalar(self, scalar: &Scalar) -> Result<Tally, Fault>
        ensures { result ≡ tally_with self (int_in scalar.now) }
    {
        self.with_number(int_in(scalar))
    }

    /// The same, where the item is this number, or none at all: a row isn't one.
    #[inline]
    pub fn with_number(self, number: Option<i32>) -> Result<Tally, Fault>
        ensures { result ≡ tally_with self number }
    {
        match self {
            Tally::Count(count) => Ok(Tally::Count(sum_more(count, 1)?)),
            Tally::Sum(total) => match number {
                Some(number) => Ok(Tally::Sum(sum_more(total, number)?)),
                None => Ok(Tally::Sum(total)),
            },
            Tally::Best(extreme, best) => {
                Ok(Tally::Best(extreme, best_more(extreme, best, number)))
            }
        }
    }

    /// Adds one item more in place, which is this number, or none at all; or the fault that is met there.
    #[inline(always)]
    pub(crate) fn add(&mut self, number: Option<i32>) -> Result<(), Fault>
        ensures ok { OnOk result (tally_with self.old number ≡ Ok self.new) }
        ensures fault { IfErr result (λ f. tally_with self.old number ≡ Err f) }
    {
        match self {
            Tally::Count(count) => *count = sum_more(*count, 1)?,
            Tally::Sum(total) => {
                if let Some(number) = number {
                    *total = sum_more(*total, number)?;
                }
            }
            Tally::Best(extreme, best) => *best = best_more(*extreme, *best, number),
        }
        Ok(())
    }

    /// What the method answers on items of this type, where they end so.
    pub fn result(self, ty: &Ty, end: End) -> Result<Scalar, Fault>
        ensures { result ≡ tally_result ty.now self end }
    {
        match self {
            Tally::Count(number) => at_end(end, Ok(Scalar::Int(number))),
            Tally::Sum(number) => at_end(end, Ok(Scalar::Int(number))),
            Tally::Best(_, Some(number)) => at_end(end, Ok(Scalar::Int(number))),
            Tally::Best(_, None) => at_end(end, no_number(ty)),
        }
    }
}

// What a tally comes to over these items.
pub(crate) fn tallied<R: RowRef>(
    tally: Tally,
    ty: &Ty,
    items: &[Value<R>],
    end: End,
) -> Result<Scalar, Fault>
    ensures { result ≡ tallied ty.now tally (items.now, end) }
{
    let mut tally = tally;
    for item in items {
        tally = tally.with(item)?;
    }
    tally.result(ty, end)
}
