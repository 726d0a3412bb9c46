//! The signs between and before borrowed numbers (ECMA-334, arithmetic, relational and equality
//! operators).
ghost use Rattle.std.specs.Prelude.{◌≡◌};
ghost use Rattle.lq_value.specs.declared.value.Fault.TheVariants as fault;
ghost use Rattle.lq_language.specs.Operations.{negated, of_two, operation_of};
ghost use Rattle.lq_scalar.specs.Operands.{number_or_null, shown_scalar, shown_scalars};

use crate::arithmetic::{arithmetic, negated};
use crate::comparison::compared;
use crate::scalar_ref::ScalarRef;
use lq_grammar::Binary;
use lq_language::Op;
use lq_value::Fault;

/// What a sign between two numbers gives: what they compare as, or their sum and the like. Takes no
/// memory. `==` and `!=` compare any two of one kind; other operands that aren't numbers, which no
/// typed expression has here, give NullReference where none is null.
pub fn operate<'a>(
    operator: Binary,
    left: ScalarRef<'_>,
    right: ScalarRef<'_>,
) -> Result<ScalarRef<'a>, Fault>
    ensures { shown_scalars result ≡ of_two fault.NullReference (operation_of operator)
        (shown_scalar left.entry) (shown_scalar right.entry) }
{
    match operator {
        Binary::Multiply => Ok(number(arithmetic(Op::Multiply, left, right)?)),
        Binary::Divide => Ok(number(arithmetic(Op::Divide, left, right)?)),
        Binary::Remainder => Ok(number(arithmetic(Op::Remainder, left, right)?)),
        Binary::Add => Ok(number(arithmetic(Op::Add, left, right)?)),
        Binary::Subtract => Ok(number(arithmetic(Op::Subtract, left, right)?)),
        Binary::Less
        | Binary::Greater
        | Binary::LessOrEqual
        | Binary::GreaterOrEqual
        | Binary::Equal
        | Binary::NotEqual => Ok(ScalarRef::Bool(compared(operator, left, right)?)),
    }
}

/// The number with the other sign; of null, null. Takes no memory.
pub(crate) fn negate<'a>(operand: ScalarRef<'_>) -> Result<ScalarRef<'a>, Fault>
    ensures { shown_scalars result ≡ negated fault.NullReference (shown_scalar operand.entry) }
{
    Ok(number(negated(operand)?))
}

/// A number, or null.
fn number<'a>(number: Option<i32>) -> ScalarRef<'a>
    ensures { shown_scalar result ≡ number_or_null number }
{
    match number {
        Some(number) => ScalarRef::Int(number),
        None => ScalarRef::Null,
    }
}
