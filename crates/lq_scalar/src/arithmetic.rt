//! Arithmetic, checked, with null (ECMA-334, arithmetic operators).
ghost use Rattle.std.specs.Prelude.{◌≡◌};
ghost use Rattle.lq_value.specs.declared.value.Fault.TheVariants as fault;
ghost use Rattle.lq_language.specs.Operations.{arithmetic, computed, divided, left_over, negated};
ghost use Rattle.lq_scalar.specs.Operands.{int_or_overflow, ints_in, numbers_in, shown_scalar};

use crate::scalar_ref::ScalarRef;
use lq_language::Op;
use lq_value::Fault;

/// What an operator of arithmetic gives to two numbers: null, where one is null. None represents null.
pub(crate) fn arithmetic(
    op: Op,
    left: ScalarRef<'_>,
    right: ScalarRef<'_>,
) -> Result<Option<i32>, Fault>
    ensures { numbers_in result ≡ arithmetic fault.NullReference op (shown_scalar left.entry)
        (shown_scalar right.entry) }
{
    match (left, right) {
        (ScalarRef::Int(left), ScalarRef::Int(right)) => Ok(Some(computed(op, left, right)?)),
        (ScalarRef::Int(_) | ScalarRef::Null, ScalarRef::Int(_) | ScalarRef::Null) => Ok(None),
        _ => Err(Fault::NullReference),
    }
}

/// The number with the other sign; of null, null.
#[tactic(auto, using(crate::proofs::NumberLaws::checked_is))]
pub(crate) fn negated(operand: ScalarRef<'_>) -> Result<Option<i32>, Fault>
    ensures { numbers_in result ≡ negated fault.NullReference (shown_scalar operand.entry) }
{
    match operand {
        ScalarRef::Int(number) => Ok(Some(int_or_overflow(number.checked_neg())?)),
        ScalarRef::Null => Ok(None),
        _ => Err(Fault::NullReference),
    }
}

/// An int; None is one that no int holds.
pub(crate) fn int_or_overflow(number: Option<i32>) -> Result<i32, Fault>
    ensures { ints_in result ≡ int_or_overflow number }
{
    match number {
        Some(number) => Ok(number),
        None => Err(Fault::Overflow),
    }
}

/// What an operator of arithmetic gives to two ints.
#[tactic(auto, using(crate::proofs::NumberLaws::checked_is))]
fn computed(op: Op, left: i32, right: i32) -> Result<i32, Fault>
    ensures { ints_in result ≡ computed fault.NullReference op left right }
{
    match op {
        Op::Multiply => int_or_overflow(left.checked_mul(right)),
        Op::Divide => divided(left, right),
        Op::Remainder => left_over(left, right),
        Op::Add => int_or_overflow(left.checked_add(right)),
        Op::Subtract => int_or_overflow(left.checked_sub(right)),
        _ => Err(Fault::NullReference),
    }
}

/// The quotient, truncated towards zero.
#[tactic(auto, using(crate::proofs::NumberLaws::quotient_is))]
fn divided(left: i32, right: i32) -> Result<i32, Fault>
    ensures { ints_in result ≡ divided left right }
{
    if right == 0 {
        return Err(Fault::DivideByZero);
    }
    int_or_overflow(left.checked_div(right))
}

/// What the quotient leaves of the dividend. The least int has no quotient by -1, and so no
/// remainder.
#[tactic(auto, using(crate::proofs::NumberLaws::remainder_is))]
fn left_over(left: i32, right: i32) -> Result<i32, Fault>
    ensures { ints_in result ≡ left_over left right }
{
    if right == 0 {
        return Err(Fault::DivideByZero);
    }
    int_or_overflow(left.checked_rem(right))
}
