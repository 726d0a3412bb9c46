//! An operator or member, applied to the values of its operands.
ghost use Rattle.std.specs.Prelude.{◌≡◌};
ghost use Rattle.lq_value.specs.declared.value.Fault.TheVariants as fault;
ghost use Rattle.lq_language.specs.Operations.{applied, compared, of_one, of_two, truth, truth_of};
ghost use Rattle.lq_scalar.specs.Operands.{IsAnswer, number_or_null};

use crate::arithmetic::{arithmetic, negated};
use crate::comparison::compared;
use crate::error::ScalarError;
use crate::members::{has_value, value_of};
use crate::scalar_ref::ScalarRef;
use crate::texts::{joined, length_of, search_text};
use lq_grammar::Binary;
use lq_language::Op;
use lq_value::{Fault, Scalar};
use std::alloc::Global;

/// What an operator or member gives to the values of its operands, in their order: its result or
/// its fault. `+` of texts alone takes memory.
///
/// Values of another number than the operator takes give NullReference, and so do values of other
/// kinds where none is null; no typed expression has such.
pub fn apply(alloc: Global, op: Op, values: &[Scalar]) -> Result<Scalar, ScalarError>
    ensures { IsAnswer (applied fault.NullReference op values.now) result }
{
    match values {
        [operand] => Ok(of_one(op, operand)?),
        [left, right] => of_two(alloc, op, left, right),
        _ => Err(ScalarError::Fault(Fault::NullReference)),
    }
}

fn of_one(op: Op, operand: &Scalar) -> Result<Scalar, Fault>
    ensures { result ≡ of_one fault.NullReference op operand.now }
{
    match op {
        Op::Not => Ok(Scalar::Bool(!truth_of(operand)?)),
        Op::Minus => Ok(number(negated(ScalarRef::of(operand))?)),
        Op::HasValue => Ok(Scalar::Bool(has_value(ScalarRef::of(operand))?)),
        Op::Value => Ok(Scalar::Int(value_of(ScalarRef::of(operand))?)),
        Op::Length => Ok(Scalar::Int(length_of(ScalarRef::of(operand))?)),
        _ => Err(Fault::NullReference),
    }
}

fn of_two(alloc: Global, op: Op, left: &Scalar, right: &Scalar) -> Result<Scalar, ScalarError>
    ensures { IsAnswer (of_two fault.NullReference op left.now right.now) result }
{
    match op {
        Op::Multiply | Op::Divide | Op::Remainder | Op::Add | Op::Subtract => {
            let result = arithmetic(op, ScalarRef::of(left), ScalarRef::of(right))?;
            Ok(number(result))
        }
        Op::Concat => Ok(Scalar::Text(joined(alloc, ScalarRef::of(left), ScalarRef::of(right))?)),
        Op::Less => Ok(compared_as(Binary::Less, left, right)?),
        Op::Greater => Ok(compared_as(Binary::Greater, left, right)?),
        Op::LessOrEqual => Ok(compared_as(Binary::LessOrEqual, left, right)?),
        Op::GreaterOrEqual => Ok(compared_as(Binary::GreaterOrEqual, left, right)?),
        Op::Equal => Ok(compared_as(Binary::Equal, left, right)?),
        Op::NotEqual => Ok(compared_as(Binary::NotEqual, left, right)?),
        Op::StartsWith | Op::EndsWith | Op::Contains => {
            let answer = search_text(op, ScalarRef::of(left), ScalarRef::of(right))?;
            Ok(Scalar::Bool(answer))
        }
        Op::Not | Op::Minus | Op::HasValue | Op::Value | Op::Length => {
            Err(ScalarError::Fault(Fault::NullReference))
        }
    }
}

/// A number, or null.
fn number(number: Option<i32>) -> Scalar
    ensures { result ≡ number_or_null number }
{
    match number {
        Some(number) => Scalar::Int(number),
        None => Scalar::Null,
    }
}

fn compared_as(operator: Binary, left: &Scalar, right: &Scalar) -> Result<Scalar, Fault>
    ensures { result ≡ truth fault.NullReference
        (compared fault.NullReference operator left.now right.now) }
{
    let truth = compared(operator, ScalarRef::of(left), ScalarRef::of(right))?;
    Ok(Scalar::Bool(truth))
}

fn truth_of(operand: &Scalar) -> Result<bool, Fault>
    ensures { result ≡ truth_of fault.NullReference operand.now }
{
    match operand {
        Scalar::Bool(truth) => Ok(*truth),
        _ => Err(Fault::NullReference),
    }
}
