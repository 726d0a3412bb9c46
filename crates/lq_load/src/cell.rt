//! One cell, by the type of its column.
ghost use Rattle.std.specs.Prelude.{◌≡◌, ◌||◌, [], IfOk, codes, Option, Some, None};
ghost use Rattle.std.specs.Str.{bytes_eq};
ghost use Rattle.lq_load.specs.Cells.{bool_cell, cell_of, int_cell, is_null, nullable_int_cell, spells_false, spells_true, text_cell};

use crate::number::int_of;
use lq_store::{Column, ColumnType};
use lq_value::{Scalar, Txt};
use std::alloc::{AllocError, Global};

/// The cell that `text` means in `column`, or none where it is not of the column's type, not
/// within its range or no text.
pub(crate) fn cell_of(
    alloc: Global,
    column: &Column,
    text: &[u8],
) -> Result<Option<Scalar>, AllocError>
    ensures { IfOk result (λ cell. cell ≡ cell_of column.now text.now) }
{
    match column.ty {
        ColumnType::Int => Ok(int_cell(column.range, text)),
        ColumnType::IntN => Ok(nullable_int_cell(text)),
        ColumnType::Bool => Ok(bool_cell(text)),
        ColumnType::Str => text_cell(alloc, text),
    }
}

// A cell of an `int` column with this range, or with none.
fn int_cell(range: Option<(i32, i32)>, text: &[u8]) -> Option<Scalar>
    ensures { result ≡ int_cell range text.now }
{
    let number = int_of(text)?;
    match range {
        Some((low, high)) if number < low || high < number => None,
        _ => Some(Scalar::Int(number)),
    }
}

// A cell of an `int?` column.
fn nullable_int_cell(text: &[u8]) -> Option<Scalar>
    ensures { result ≡ nullable_int_cell text.now }
{
    if text.is_empty() || is_null(text) {
        Some(Scalar::Null)
    } else {
        int_cell(None, text)
    }
}

// A cell of a `bool` column.
fn bool_cell(text: &[u8]) -> Option<Scalar>
    ensures { result ≡ bool_cell text.now }
{
    if is_true_word(text) {
        Some(Scalar::Bool(true))
    } else if is_false_word(text) {
        Some(Scalar::Bool(false))
    } else {
        None
    }
}

// A cell of a `string` column.
#[tactic(auto, using(crate::proofs::NameFacts::no_text, crate::proofs::NameFacts::some_text))]
fn text_cell(alloc: Global, text: &[u8]) -> Result<Option<Scalar>, AllocError>
    ensures { IfOk result (λ cell. cell ≡ text_cell text.now) }
{
    if is_null(text) {
        return Ok(Some(Scalar::Null));
    }
    match std::str::from_utf8(text) {
        Ok(text) => Ok(Some(Scalar::Text(Txt::from_str(alloc, text)?))),
        Err(_) => Ok(None),
    }
}

// Whether a text means null.
fn is_null(text: &[u8]) -> bool
    ensures { result ≡ is_null text.now }
{
    text == b"\\N".as_slice()
}

// Whether a text spells true.
fn is_true_word(text: &[u8]) -> bool
    ensures { result ≡ spells_true text.now }
{
    text == b"true".as_slice()
        || text == b"True".as_slice()
        || text == b"TRUE".as_slice()
        || text == b"t".as_slice()
}

// Whether a text spells false.
fn is_false_word(text: &[u8]) -> bool
    ensures { result ≡ spells_false text.now }
{
    text == b"false".as_slice()
        || text == b"False".as_slice()
        || text == b"FALSE".as_slice()
        || text == b"f".as_slice()
}
