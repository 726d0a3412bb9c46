//! Comparisons of scalars (ECMA-334, relational and equality operators).
ghost use Rattle.std.specs.Prelude.{◌≡◌, int_le, int_lt};
ghost use Rattle.lq_value.specs.declared.value.Fault.TheVariants as fault;
ghost use Rattle.lq_language.specs.Operations.{compared, ordered_by, same_content};
ghost use Rattle.lq_language.specs.OperandTypes.{is_comparison};
ghost use Rattle.lq_scalar.specs.Operands.{shown_scalar};

use crate::scalar_ref::ScalarRef;
use lq_grammar::Binary;
use lq_value::Fault;

/// Whether the operator compares its operands.
pub(crate) fn is_comparison(operator: Binary) -> bool
    ensures { result ≡ is_comparison operator }
{
    matches!(
        operator,
        Binary::Less
            | Binary::Greater
            | Binary::LessOrEqual
            | Binary::GreaterOrEqual
            | Binary::Equal
            | Binary::NotEqual
    )
}

/// What two scalars compare as: `<` and the like of numbers, `==` and `!=` of scalars of one kind
/// or null. Takes no memory, and copies no text. Any other operator gives NullReference, and so do
/// operands of other kinds, which no typed expression has, where none is null.
pub(crate) fn compared(
    operator: Binary,
    left: ScalarRef<'_>,
    right: ScalarRef<'_>,
) -> Result<bool, Fault>
    ensures { result ≡ compared fault.NullReference operator (shown_scalar left.entry)
        (shown_scalar right.entry) }
{
    match operator {
        Binary::Less => is_less(left, right),
        Binary::Greater => is_less(right, left),
        Binary::LessOrEqual => is_at_most(left, right),
        Binary::GreaterOrEqual => is_at_most(right, left),
        Binary::Equal => is_same(left, right),
        Binary::NotEqual => match is_same(left, right) {
            Ok(same) => Ok(!same),
            Err(fault) => Err(fault),
        },
        _ => Err(Fault::NullReference),
    }
}

/// Whether the first int is less than the second; nothing is less than null or more.
fn is_less(left: ScalarRef<'_>, right: ScalarRef<'_>) -> Result<bool, Fault>
    ensures { result ≡ ordered_by fault.NullReference int_lt (shown_scalar left.entry)
        (shown_scalar right.entry) }
{
    match (left, right) {
        (ScalarRef::Int(m), ScalarRef::Int(n)) => Ok(m < n),
        (ScalarRef::Null, _) | (_, ScalarRef::Null) => Ok(false),
        _ => Err(Fault::NullReference),
    }
}

/// Whether the first int is at most the second; nothing is at most null, and null is at most nothing.
fn is_at_most(left: ScalarRef<'_>, right: ScalarRef<'_>) -> Result<bool, Fault>
    ensures { result ≡ ordered_by fault.NullReference int_le (shown_scalar left.entry)
        (shown_scalar right.entry) }
{
    match (left, right) {
        (ScalarRef::Int(m), ScalarRef::Int(n)) => Ok(m <= n),
        (ScalarRef::Null, _) | (_, ScalarRef::Null) => Ok(false),
        _ => Err(Fault::NullReference),
    }
}

/// Whether both are null or have the same content.
fn is_same(left: ScalarRef<'_>, right: ScalarRef<'_>) -> Result<bool, Fault>
    ensures { result ≡ same_content fault.NullReference (shown_scalar left.entry)
        (shown_scalar right.entry) }
{
    match (left, right) {
        (ScalarRef::Null, ScalarRef::Null) => Ok(true),
        (ScalarRef::Int(m), ScalarRef::Int(n)) => Ok(m == n),
        (ScalarRef::Bool(a), ScalarRef::Bool(b)) => Ok(a == b),
        (ScalarRef::Text(s), ScalarRef::Text(t)) => Ok(s.as_bytes() == t.as_bytes()),
        (ScalarRef::Null, _) | (_, ScalarRef::Null) => Ok(false),
        _ => Err(Fault::NullReference),
    }
}
