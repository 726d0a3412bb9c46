//! What a sign or a search says of one cell.
ghost use Rattle.std.specs.Prelude.{◌≡◌, ℤ, None, Ok, Some, false, slice_get, IfSome};
ghost use Rattle.std.specs.Option.{option_copied};
ghost use Rattle.lq_value.specs.declared.scalar.Scalar.TheVariants as scalar;
ghost use Rattle.lq_value.specs.declared.value.Fault.TheVariants as fault;
ghost use Rattle.lq_language.specs.OperandTypes.{is_comparison};
ghost use Rattle.lq_language.specs.Operations.{of_two, on_ok, operation_of, text_matches, truth_of};
ghost use Rattle.lq_scalar.specs.Operands.{shown_scalar};
ghost use Rattle.lq_condition.specs.Verdicts.{IsTurned, cells_verdict, search_verdict, sign_verdict, truth_verdict, unless_fault, value_verdict};

use lq_grammar::Binary;
use lq_language::Op;
use lq_scalar::{ScalarRef, has_value, operate};
use lq_value::Scalar;

/// The cell at a place.
pub(crate) fn cell_at(cells: &[Scalar], place: usize) -> Option<&Scalar>
    ensures { option_copied result ≡ slice_get cells.now place }
{
    cells.get(place)
}

/// The number that a scalar is.
pub(crate) fn number_in(operand: &Scalar) -> Option<i32>
    ensures { IfSome result (λ n. operand.now ≡ scalar.Int n) }
{
    match operand {
        Scalar::Int(number) => Some(*number),
        _ => None,
    }
}

/// The sign that says between a scalar and a cell what this one says between the cell and the scalar;
/// nothing exactly where it doesn't compare.
#[tactic(auto, using(crate::proofs::ConditionLaws::signs_turned))]
pub fn turned_sign(sign: Binary) -> Option<Binary>
    ensures turned { IfSome result (IsTurned sign) }
    ensures none { result ≡ None → is_comparison sign ≡ false }
{
    match sign {
        Binary::Less => Some(Binary::Greater),
        Binary::Greater => Some(Binary::Less),
        Binary::LessOrEqual => Some(Binary::GreaterOrEqual),
        Binary::GreaterOrEqual => Some(Binary::LessOrEqual),
        Binary::Equal => Some(Binary::Equal),
        Binary::NotEqual => Some(Binary::NotEqual),
        Binary::Multiply | Binary::Divide | Binary::Remainder | Binary::Add | Binary::Subtract => {
            None
        }
    }
}

/// What a sign says of two numbers (ECMA-334, relational and equality operators); nothing exactly where
/// it doesn't compare, but is one of arithmetic.
pub fn compare_numbers(sign: Binary, m: i32, n: i32) -> Option<bool>
    ensures truth { IfSome result (λ truth.
        of_two fault.NullReference (operation_of sign) (scalar.Int m) (scalar.Int n)
        ≡ Ok (scalar.Bool truth)) }
    ensures none { result ≡ None → is_comparison sign ≡ false }
{
    match sign {
        Binary::Less => Some(m < n),
        Binary::Greater => Some(n < m),
        Binary::LessOrEqual => Some(m <= n),
        Binary::GreaterOrEqual => Some(n <= m),
        Binary::Equal => Some(m == n),
        Binary::NotEqual => Some(m != n),
        Binary::Multiply | Binary::Divide | Binary::Remainder | Binary::Add | Binary::Subtract => {
            None
        }
    }
}

/// The same of a cell and a number, if the cell holds a number.
fn compare_with_number(sign: Binary, cell: &Scalar, number: i32) -> Option<bool>
    ensures { IfSome result (λ truth.
        of_two fault.NullReference (operation_of sign) cell.now (scalar.Int number)
        ≡ Ok (scalar.Bool truth)) }
{
    match cell {
        Scalar::Int(cell) => compare_numbers(sign, *cell, number),
        _ => None,
    }
}

/// The truth value that a scalar is.
fn truth(scalar: ScalarRef<'_>) -> Option<bool>
    ensures { result ≡ unless_fault (truth_of fault.NullReference (shown_scalar scalar.entry)) }
{
    match scalar {
        ScalarRef::Bool(truth) => Some(truth),
        ScalarRef::Null | ScalarRef::Int(_) | ScalarRef::Text(_) => None,
    }
}

/// The truth value that a sign gives a cell and a scalar.
fn operate_on_cell(sign: Binary, cell: &Scalar, operand: ScalarRef<'_>) -> Option<bool>
    ensures { result ≡ unless_fault (on_ok
        (of_two fault.NullReference (operation_of sign) cell.now (shown_scalar operand.entry))
        (truth_of fault.NullReference)) }
{
    match operate(sign, ScalarRef::of(cell), operand) {
        Ok(scalar) => truth(scalar),
        Err(_) => None,
    }
}

/// What a sign says of null beside any number: it is neither less nor more, and isn't the same.
fn null_verdict(sign: Binary) -> Option<bool>
    ensures { (n : ℤ) → result ≡ sign_verdict sign (Some scalar.Null) (scalar.Int n) }
{
    match sign {
        Binary::Less | Binary::Greater | Binary::LessOrEqual | Binary::GreaterOrEqual => {
            Some(false)
        }
        Binary::Equal => Some(false),
        Binary::NotEqual => Some(true),
        Binary::Multiply | Binary::Divide | Binary::Remainder | Binary::Add | Binary::Subtract => {
            None
        }
    }
}

/// The same beside a number. It has a frame of its own, so that two numbers are compared without one.
#[inline(never)]
fn operate_with_number(sign: Binary, cell: &Scalar, number: i32) -> Option<bool>
    ensures { result ≡ sign_verdict sign (Some cell.now) (scalar.Int number) }
{
    match cell {
        Scalar::Null => null_verdict(sign),
        _ => operate_on_cell(sign, cell, ScalarRef::Int(number)),
    }
}

/// What a sign says of a cell beside a scalar.
#[inline(never)]
pub(crate) fn literal_verdict(sign: Binary, cell: Option<&Scalar>, literal: &Scalar) -> Option<bool>
    ensures { result ≡ sign_verdict sign (option_copied cell.entry) literal.now }
{
    match cell {
        Some(cell) => operate_on_cell(sign, cell, ScalarRef::of(literal)),
        None => None,
    }
}

/// The same beside a number.
pub(crate) fn number_verdict(sign: Binary, cell: Option<&Scalar>, number: i32) -> Option<bool>
    ensures { result ≡ sign_verdict sign (option_copied cell.entry) (scalar.Int number) }
{
    match cell {
        Some(cell) => match compare_with_number(sign, cell, number) {
            Some(truth) => Some(truth),
            None => operate_with_number(sign, cell, number),
        },
        None => None,
    }
}

/// The same beside any scalar.
#[inline(never)]
fn beside_verdict(sign: Binary, cell: Option<&Scalar>, operand: &Scalar) -> Option<bool>
    ensures { result ≡ sign_verdict sign (option_copied cell.entry) operand.now }
{
    match number_in(operand) {
        Some(number) => number_verdict(sign, cell, number),
        None => literal_verdict(sign, cell, operand),
    }
}

/// What a sign says of two cells.
pub(crate) fn cells_verdict(
    sign: Binary,
    left: Option<&Scalar>,
    right: Option<&Scalar>,
) -> Option<bool>
    ensures { result ≡ cells_verdict sign (option_copied left.entry) (option_copied right.entry) }
{
    match right {
        Some(right) => beside_verdict(sign, left, right),
        None => None,
    }
}

/// The truth value that a cell holds.
pub(crate) fn truth_verdict(cell: Option<&Scalar>) -> Option<bool>
    ensures { result ≡ truth_verdict (option_copied cell.entry) }
{
    match cell {
        Some(cell) => truth(ScalarRef::of(cell)),
        None => None,
    }
}

/// Whether a cell has a value.
pub(crate) fn value_verdict(cell: Option<&Scalar>) -> Option<bool>
    ensures { result ≡ value_verdict (option_copied cell.entry) }
{
    match cell {
        Some(cell) => has_value(ScalarRef::of(cell)).ok(),
        None => None,
    }
}

/// Whether a text has another where the method looks for it.
#[tactic(auto, using(crate::proofs::SearchLemmas::searches))]
fn text_verdict(op: Op, text: &str, needle: &str) -> Option<bool>
    ensures { result ≡ unless_fault (text_matches fault.NullReference op text.now needle.now) }
{
    match op {
        Op::StartsWith => Some(text.starts_with(needle)),
        Op::EndsWith => Some(text.ends_with(needle)),
        Op::Contains => Some(text.contains(needle)),
        _ => None,
    }
}

/// Whether a text is in a cell, where the method looks for it.
#[inline(never)]
pub(crate) fn search_verdict(op: Op, cell: Option<&Scalar>, needle: &str) -> Option<bool>
    ensures { result ≡ search_verdict op (option_copied cell.entry) (scalar.Text needle.now) }
{
    match cell {
        Some(Scalar::Text(text)) => text_verdict(op, text.as_str(), needle),
        Some(_) => None,
        None => None,
    }
}
