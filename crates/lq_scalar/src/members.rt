//! The members of scalars by their names: those of an `int?`, and those of a text (.NET,
//! `Nullable<int>` and `String`).
ghost use Rattle.std.specs.Prelude.{◌≡◌};
ghost use Rattle.lq_value.specs.declared.value.Fault.TheVariants as fault;
ghost use Rattle.lq_language.specs.Members.{search_named};
ghost use Rattle.lq_language.specs.Operations.{has_value, of_search, value_of};
ghost use Rattle.lq_scalar.specs.Operands.{ints_in, shown_scalar, shown_scalars};
ghost use Rattle.lq_scalar.specs.Shapes.{named_member};

use crate::scalar_ref::ScalarRef;
use crate::texts::{length_of, search_text};
use lq_language::Op;
use lq_value::Fault;

/// Whether an `int?` has a value (.NET, `Nullable<int>.HasValue`). Truth values and texts, which no
/// typed expression has here, give NullReference.
pub fn has_value(operand: ScalarRef<'_>) -> Result<bool, Fault>
    ensures { result ≡ has_value fault.NullReference (shown_scalar operand.entry) }
{
    match operand {
        ScalarRef::Int(_) => Ok(true),
        ScalarRef::Null => Ok(false),
        _ => Err(Fault::NullReference),
    }
}

/// The value of an `int?`.
pub(crate) fn value_of(operand: ScalarRef<'_>) -> Result<i32, Fault>
    ensures { ints_in result ≡ value_of fault.NullReference (shown_scalar operand.entry) }
{
    match operand {
        ScalarRef::Int(number) => Ok(number),
        ScalarRef::Null => Err(Fault::InvalidOperation),
        _ => Err(Fault::NullReference),
    }
}

/// The member of this name of a scalar.
pub(crate) fn member_of<'a>(operand: ScalarRef<'_>, member: &str) -> Result<ScalarRef<'a>, Fault>
    ensures { shown_scalars result ≡ named_member member.now (shown_scalar operand.entry) }
{
    if member == "HasValue" {
        return Ok(ScalarRef::Bool(has_value(operand)?));
    }
    if member == "Value" {
        return Ok(ScalarRef::Int(value_of(operand)?));
    }
    if member == "Length" {
        return Ok(ScalarRef::Int(length_of(operand)?));
    }
    Err(Fault::NullReference)
}

/// What a method of this name finds in a text.
pub(crate) fn search<'a>(
    method: &str,
    text: ScalarRef<'_>,
    needle: ScalarRef<'_>,
) -> Result<ScalarRef<'a>, Fault>
    ensures { shown_scalars result ≡ of_search fault.NullReference (search_named method.now)
        (shown_scalar text.entry) (shown_scalar needle.entry) }
{
    let Some(op) = search_named(method) else {
        return Err(Fault::NullReference);
    };
    Ok(ScalarRef::Bool(search_text(op, text, needle)?))
}

/// The method of this name that looks for a text in another.
fn search_named(method: &str) -> Option<Op>
    ensures { result ≡ search_named method.now }
{
    if method == "StartsWith" {
        return Some(Op::StartsWith);
    }
    if method == "EndsWith" {
        return Some(Op::EndsWith);
    }
    if method == "Contains" {
        return Some(Op::Contains);
    }
    None
}
