//! Scalars: what operators and members give to them.
ghost use Rattle.std.specs.Prelude.{◌≡◌, Bool, IfOk, IfSome, Result, Ok};
ghost use Rattle.lq_value.specs.declared.scalar.Scalar.{Scalar};
ghost use Rattle.lq_value.specs.declared.scalar.Scalar.TheVariants as scalar;
ghost use Rattle.lq_value.specs.declared.value.Fault.{Fault};
ghost use Rattle.lq_value.specs.declared.value.Fault.TheVariants as fault;
ghost use Rattle.lq_value.specs.declared.value.Value.{out-Value};
ghost use Rattle.lq_language.specs.Worlds.{World};
ghost use Rattle.lq_language.specs.OperandMeaning.{as_value, is_null, scalar_of};
ghost use Rattle.lq_language.specs.Operations.{of_one, of_two, on_ok, operation_of, searched, truth as of_truth, truth_of};
ghost use Rattle.lq_operators.specs.Answers.{IsAnswer};
ghost use Rattle.lq_scalar.specs.Operands.{IsAnswer as IsScalar, shown_scalar};
ghost use Rattle.lq_plan.specs.Meanings.{Answers};

use lq_condition::compare_numbers;
use lq_grammar::Binary;
use lq_language::Op;
use lq_operators::RunError;
use lq_scalar::{ScalarError, ScalarRef, apply, operate, search_text};
use lq_value::{Fault, RowRef, Scalar, Value, copy_scalar};
use std::alloc::{AllocError, Global};

/// The scalar that a value is, or the fault of a form without meaning: no typed tree has another value
/// where a scalar is asked for.
#[tactic(auto, using(crate::proofs::PartLemmas::layers))]
pub fn scalar<R: RowRef>(value: Value<R>) -> Result<Scalar, RunError>
    ensures { (world : World R) → world.unknown ≡ fault.NullReference
        → Answers (scalar_of world (out-Value R value)) result }
{
    match value {
        Value::Scalar(scalar) => Ok(scalar),
        Value::Row(_) | Value::Rec(_) | Value::Group(_, _) | Value::Seq(_, _) => {
            Err(RunError::Fault(Fault::NullReference))
        }
    }
}

/// The truth value that a scalar is, or the fault of a form without meaning: no typed tree has another
/// scalar where a truth value is asked for.
#[inline]
pub fn truth(scalar: &Scalar) -> Result<bool, RunError>
    ensures { Answers (truth_of fault.NullReference scalar.now) result }
{
    match scalar {
        Scalar::Bool(truth) => Ok(*truth),
        Scalar::Null | Scalar::Int(_) | Scalar::Text(_) => {
            Err(RunError::Fault(Fault::NullReference))
        }
    }
}

/// The truth value that a scalar is which is borrowed.
fn truth_of_ref(scalar: ScalarRef<'_>) -> Result<bool, RunError>
    ensures { Answers (truth_of fault.NullReference (shown_scalar scalar.entry)) result }
{
    match scalar {
        ScalarRef::Bool(truth) => Ok(truth),
        ScalarRef::Null | ScalarRef::Int(_) | ScalarRef::Text(_) => {
            Err(RunError::Fault(Fault::NullReference))
        }
    }
}

/// What a sign compares two scalars as, if it compares and both are numbers.
fn compare_scalars(sign: Binary, left: &Scalar, right: &Scalar) -> Option<bool>
    ensures { IfSome result (λ truth. of_two fault.NullReference
        (operation_of sign) left.now right.now ≡ Ok (scalar.Bool truth)) }
{
    match (left, right) {
        (Scalar::Int(m), Scalar::Int(n)) => compare_numbers(sign, *m, *n),
        _ => None,
    }
}

/// The truth value that a sign between two scalars gives. Two numbers are compared without a scalar in between.
pub(crate) fn truth_of_sign(sign: Binary, left: &Scalar, right: &Scalar) -> Result<bool, RunError>
    ensures { Answers (on_ok (of_two fault.NullReference (operation_of sign) left.now right.now)
        (truth_of fault.NullReference)) result }
{
    if let Some(truth) = compare_scalars(sign, left, right) {
        return Ok(truth);
    }
    match operate(sign, ScalarRef::of(left), ScalarRef::of(right)) {
        Ok(scalar) => truth_of_ref(scalar),
        Err(fault) => Err(RunError::Fault(fault)),
    }
}

/// The truth value that a value is, or the fault of a form without meaning: no typed tree has another
/// value where a truth value is asked for.
#[tactic(auto, using(crate::proofs::PartLemmas::layers))]
pub fn truth_in<R: RowRef>(value: Value<R>) -> Result<bool, RunError>
    ensures { (world : World R) → world.unknown ≡ fault.NullReference
        → Answers (on_ok (scalar_of world (out-Value R value)) (truth_of fault.NullReference))
        result }
{
    match value {
        Value::Scalar(scalar) => truth(&scalar),
        Value::Row(_) | Value::Rec(_) | Value::Group(_, _) | Value::Seq(_, _) => {
            Err(RunError::Fault(Fault::NullReference))
        }
    }
}

/// The truth value or the fault that was found. Refused exactly where memory was.
#[inline]
pub fn truth_or_fault(answer: Result<bool, RunError>) -> Result<Result<bool, Fault>, AllocError>
    ensures { (meant : Result Bool Fault) → Answers meant answer
        → IfOk result (λ truth. truth ≡ meant) }
{
    match answer {
        Ok(truth) => Ok(Ok(truth)),
        Err(RunError::Fault(fault)) => Ok(Err(fault)),
        Err(RunError::Memory) => Err(AllocError),
    }
}

/// Whether a scalar is null.
#[inline]
pub fn is_null(scalar: &Scalar) -> bool
    ensures { result ≡ is_null scalar.now }
{
    match scalar {
        Scalar::Null => true,
        Scalar::Int(_) | Scalar::Bool(_) | Scalar::Text(_) => false,
    }
}

/// A scalar as a value, or why there is none.
fn as_value<R: RowRef>(answer: Result<Scalar, ScalarError>) -> Result<Value<R>, RunError>
    ensures { (meant : Result Scalar Fault) → IsScalar meant answer
        → IsAnswer (as_value meant) result }
{
    match answer {
        Ok(scalar) => Ok(Value::Scalar(scalar)),
        Err(ScalarError::Fault(fault)) => Err(RunError::Fault(fault)),
        Err(ScalarError::Memory) => Err(RunError::Memory),
    }
}

/// What an operator or member gives to one operand, or its fault (ECMA-334, unary operators). `Memory`
/// where none was left.
#[inline(never)]
pub fn of_one<R: RowRef>(alloc: Global, op: Op, operand: Scalar) -> Result<Value<R>, RunError>
    ensures { IsAnswer (as_value (of_one fault.NullReference op operand)) result }
{
    as_value(apply(alloc, op, &[operand]))
}

/// The sign that an operator between two scalars is, where it is one that makes no text.
pub(crate) fn sign_of(op: Op) -> Option<Binary>
    ensures { IfSome result (λ sign. op ≡ operation_of sign) }
{
    match op {
        Op::Multiply => Some(Binary::Multiply),
        Op::Divide => Some(Binary::Divide),
        Op::Remainder => Some(Binary::Remainder),
        Op::Add => Some(Binary::Add),
        Op::Subtract => Some(Binary::Subtract),
        Op::Less => Some(Binary::Less),
        Op::Greater => Some(Binary::Greater),
        Op::LessOrEqual => Some(Binary::LessOrEqual),
        Op::GreaterOrEqual => Some(Binary::GreaterOrEqual),
        Op::Equal => Some(Binary::Equal),
        Op::NotEqual => Some(Binary::NotEqual),
        _ => None,
    }
}

/// What a sign between two scalars gives. It is a number, a truth value or null.
fn of_sign<R: RowRef>(
    alloc: Global,
    sign: Binary,
    left: &Scalar,
    right: &Scalar,
) -> Result<Value<R>, RunError>
    ensures { IsAnswer (as_value (of_two fault.NullReference
        (operation_of sign) left.now right.now)) result }
{
    match operate(sign, ScalarRef::of(left), ScalarRef::of(right)) {
        Ok(scalar) => Ok(Value::Scalar(scalar.to_scalar(alloc)?)),
        Err(fault) => Err(RunError::Fault(fault)),
    }
}

/// Whether a text has the other where the operator looks for it.
fn of_search<R: RowRef>(op: Op, text: &Scalar, needle: &Scalar) -> Result<Value<R>, RunError>
    ensures { IsAnswer (as_value (of_truth fault.NullReference
        (searched fault.NullReference op text.now needle.now))) result }
{
    match search_text(op, ScalarRef::of(text), ScalarRef::of(needle)) {
        Ok(truth) => Ok(Value::Scalar(Scalar::Bool(truth))),
        Err(fault) => Err(RunError::Fault(fault)),
    }
}

/// What an operator gives to two operands that are its own.
fn of_copies<R: RowRef>(
    alloc: Global,
    op: Op,
    left: Scalar,
    right: Scalar,
) -> Result<Value<R>, RunError>
    ensures { IsAnswer (as_value (of_two fault.NullReference op left right)) result }
{
    as_value(apply(alloc, op, &[left, right]))
}

/// What an operator gives to two operands, which stay where they are, or its fault (ECMA-334,
/// arithmetic and relational operators). `Memory` where none was left for a text.
#[inline(never)]
pub fn of_two<R: RowRef>(
    alloc: Global,
    op: Op,
    left: &Scalar,
    right: &Scalar,
) -> Result<Value<R>, RunError>
    ensures { IsAnswer (as_value (of_two fault.NullReference op left.now right.now)) result }
{
    if let Some(sign) = sign_of(op) {
        return of_sign(alloc, sign, left, right);
    }
    match op {
        Op::StartsWith | Op::EndsWith | Op::Contains => of_search(op, left, right),
        _ => {
            let left = copy_scalar(alloc, left)?;
            of_copies(alloc, op, left, copy_scalar(alloc, right)?)
        }
    }
}
