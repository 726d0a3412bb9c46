//! The types that a header names.
ghost use Rattle.std.specs.Prelude.{◌≡◌, ◌==◌, ◌<◌, length, IfSome};
ghost use Rattle.std.specs.List.{position};
ghost use Rattle.lq_load.specs.Headers.{kind_of, range_at, range_behind, range_of};

use crate::number::int_of;
use lq_store::ColumnType;

/// The type that `text` spells, and the range of its numbers where it has one: `int`,
/// `int[lo..hi]`, `int?`, `bool` or `string`.
pub(crate) fn kind_of(text: &[u8]) -> Option<(ColumnType, Option<(i32, i32)>)>
    ensures { result ≡ kind_of text.now }
{
    if text == b"int".as_slice() {
        Some((ColumnType::Int, None))
    } else if text == b"int?".as_slice() {
        Some((ColumnType::IntN, None))
    } else if text == b"bool".as_slice() {
        Some((ColumnType::Bool, None))
    } else if text == b"string".as_slice() {
        Some((ColumnType::Str, None))
    } else if text.starts_with(b"int[") {
        let range = range_behind(&text[4..])?;
        Some((ColumnType::Int, Some(range)))
    } else {
        None
    }
}

// The range of a type `int[lo..hi]` of which `text` is what follows the bracket.
fn range_behind(text: &[u8]) -> Option<(i32, i32)>
    ensures { result ≡ range_behind text.now }
{
    if text.ends_with(b"]") {
        range_of(&text[..text.len() - 1])
    } else {
        None
    }
}

// The range that `lo..hi` spells.
fn range_of(text: &[u8]) -> Option<(i32, i32)>
    ensures { result ≡ range_of text.now }
{
    let dot = dot_of(text)?;
    if !text[dot..].starts_with(b"..") {
        return None;
    }
    let low = int_of(&text[..dot])?;
    let high = int_of(&text[dot + 2..])?;
    if low <= high { Some((low, high)) } else { None }
}

// The place of the first dot.
fn dot_of(text: &[u8]) -> Option<usize>
    ensures value { result ≡ position (λ c. c == 46) text.now }
    ensures within { IfSome result (λ dot. dot < length text.now) }
{
    text.iter().position(|byte| *byte == b'.')
}
