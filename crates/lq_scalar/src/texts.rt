//! Texts: joined, measured and searched by their bytes (ECMA-334, string concatenation; .NET,
//! `String`).
ghost use Rattle.std.specs.Prelude.{◌≡◌};
ghost use Rattle.std.specs.Str.{chars};
ghost use Rattle.lq_value.specs.declared.value.Fault.TheVariants as fault;
ghost use Rattle.lq_language.specs.Operations.{text_matches, joined, length_of, searched, utf16_units};
ghost use Rattle.lq_scalar.specs.Operands.{IsText, ints_in, shown_scalar, units_within};

use crate::arithmetic::int_or_overflow;
use crate::error::ScalarError;
use crate::scalar_ref::ScalarRef;
use lq_language::Op;
use lq_value::{Fault, Txt};
use std::alloc::{AllocError, Global};

/// What makes the texts of an evaluation.
pub(crate) trait Joins: Copy {
    ghost use Rattle.std.specs.Prelude.{◌≡◌, ◌++◌, IfOk};

    /// One text after the other.
    fn concatenated(self, left: &str, right: &str) -> Result<Txt, AllocError>
        ensures { IfOk result (λ text. text ≡ left.now ++ right.now) };
}

impl Joins for Global {
    fn concatenated(self, left: &str, right: &str) -> Result<Txt, AllocError> {
        let mut text = String::from_str(self, left)?;
        text.push_str(right)?;
        Ok(Txt::from_string(text))
    }
}

/// What makes no text: for expressions in which there is no `+`.
#[derive(Clone, Copy, Drop)]
pub(crate) struct NoTexts;

impl Joins for NoTexts {
    fn concatenated(self, _left: &str, _right: &str) -> Result<Txt, AllocError> {
        Err(AllocError)
    }
}

/// Two texts, one after the other; null is taken as empty.
pub(crate) fn joined<T: Joins>(
    texts: T,
    left: ScalarRef<'_>,
    right: ScalarRef<'_>,
) -> Result<Txt, ScalarError>
    ensures { IsText (joined fault.NullReference (shown_scalar left.entry)
        (shown_scalar right.entry)) result }
{
    match (left, right) {
        (ScalarRef::Text(left), ScalarRef::Text(right)) => { Ok(texts.concatenated(left, right)?) }
        (ScalarRef::Text(text), ScalarRef::Null) => Ok(texts.concatenated(text, "")?),
        (ScalarRef::Null, ScalarRef::Text(text)) => Ok(texts.concatenated("", text)?),
        (ScalarRef::Null, ScalarRef::Null) => Ok(texts.concatenated("", "")?),
        _ => Err(ScalarError::Fault(Fault::NullReference)),
    }
}

/// The length of a text in UTF-16 units.
pub(crate) fn length_of(operand: ScalarRef<'_>) -> Result<i32, Fault>
    ensures { ints_in result ≡ length_of fault.NullReference (shown_scalar operand.entry) }
{
    match operand {
        ScalarRef::Text(text) => int_or_overflow(utf16_units(text)),
        ScalarRef::Null | ScalarRef::Int(_) | ScalarRef::Bool(_) => Err(Fault::NullReference),
    }
}

/// How many UTF-16 units a text takes; None where that is more than an int holds.
fn utf16_units(text: &str) -> Option<i32>
    ensures { result ≡ units_within (utf16_units (chars text.now)) }
{
    let mut units: u32 = 0;
    for c in text.chars() {
        let Some(counted) = units.checked_add(c.len_utf16() as u32) else {
            return None;
        };
        units = counted;
    }
    i32::try_from(units).ok()
}

/// Whether a text begins with another, ends with it or has it somewhere, as the operator says (.NET,
/// `String.StartsWith` and the like, by the bytes of UTF-8). Takes no memory. NullReference where one of
/// them isn't a text, and for any other operator.
pub fn search_text(op: Op, text: ScalarRef<'_>, needle: ScalarRef<'_>) -> Result<bool, Fault>
    ensures { result ≡ searched fault.NullReference op (shown_scalar text.entry)
        (shown_scalar needle.entry) }
{
    let (ScalarRef::Text(text), ScalarRef::Text(needle)) = (text, needle) else {
        return Err(Fault::NullReference);
    };
    text_matches(op, text, needle)
}

#[tactic(auto, using(crate::proofs::TextLemmas::searches))]
fn text_matches(op: Op, text: &str, needle: &str) -> Result<bool, Fault>
    ensures { result ≡ text_matches fault.NullReference op text.now needle.now }
{
    match op {
        Op::StartsWith => Ok(text.starts_with(needle)),
        Op::EndsWith => Ok(text.ends_with(needle)),
        Op::Contains => Ok(text.contains(needle)),
        _ => Err(Fault::NullReference),
    }
}
