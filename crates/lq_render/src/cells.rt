//! The texts of values and cells: control characters are escaped, and what is too wide for a table is cut.
ghost use Rattle.std.specs.Prelude.{◌≡◌, ◌++◌, ◌<◌, OnOk, IfOk, chars, flat_map, string_bytes, ◌-◌};
ghost use Rattle.serde_json.specs.View.{view};
ghost use Rattle.lq_render.specs.Cells.{cell_of, short_text, ellipsis, escape, escaped_text, front, hex_digit, is_control, most_width, own_width, plain_text, shown_character, text_of};

use crate::floats::has_float;
use crate::grid::{Cell, width_of};
use lq_value::Txt;
use serde_json::Value;
use std::alloc::{AllocError, Global};
use unicode_width::UnicodeWidthChar;

/// The most columns of a terminal that a text takes in a table.
const MOST_WIDTH: usize = 40;

/// Whether a character is a control character.
fn is_control(c: char) -> bool
    ensures { result ≡ is_control c }
{
    let code = c as u32;
    code < 32 || (code >= 127 && code <= 159)
}

/// A hexadecimal digit.
fn hex_digit(digit: u32) -> char
    requires { digit < 16 }
    ensures { result ≡ hex_digit digit }
{
    let code = if digit < 10 { 48 + digit } else { 87 + digit };
    code as u8 as char
}

/// Puts a control character at the end, as JSON escapes it.
fn push_escape(out: &mut String, c: char) -> Result<(), AllocError>
    requires { c < 256 }
    ensures { OnOk result (string_bytes out.new ≡ string_bytes out.old ++ escape c) }
{
    match c {
        '\t' => out.push_str("\\t"),
        '\n' => out.push_str("\\n"),
        '\r' => out.push_str("\\r"),
        _ => {
            out.push_str("\\u00")?;
            out.push(hex_digit(c as u32 / 16))?;
            out.push(hex_digit(c as u32 % 16))
        }
    }
}

/// Puts a character at the end, escaped if it is a control character.
fn push_character(out: &mut String, c: char) -> Result<(), AllocError>
    ensures { OnOk result (string_bytes out.new ≡ string_bytes out.old ++ shown_character c) }
{
    if is_control(c) {
        return push_escape(out, c);
    }
    out.push(c)
}

/// Puts characters at the end, the control characters among them escaped.
fn push_characters(out: &mut String, characters: &[char]) -> Result<(), AllocError>
    ensures { OnOk result (string_bytes out.new
        ≡ string_bytes out.old ++ flat_map shown_character characters.now) }
{
    for c in characters {
        push_character(out, *c)?;
    }
    Ok(())
}

/// The characters of a text.
pub(crate) fn characters(alloc: Global, text: &str) -> Result<Vec<char>, AllocError>
    ensures { IfOk result (λ found. found.items ≡ chars text.now) }
{
    text.chars().collect(alloc)
}

/// Puts a text at the end, its control characters escaped.
pub(crate) fn push_escaped(alloc: Global, out: &mut String, text: &str) -> Result<(), AllocError>
    ensures { OnOk result (string_bytes out.new ≡ string_bytes out.old ++ escaped_text text.now) }
{
    let characters = characters(alloc, text)?;
    push_characters(out, characters.as_slice())
}

/// A text with its control characters escaped as JSON escapes them, so that it stays on one line and no terminal obeys it.
/// Refuses for want of memory alone.
pub fn escaped_text(alloc: Global, text: &str) -> Result<Txt, AllocError>
    ensures { IfOk result (λ t. t ≡ escaped_text text.now) }
{
    let mut out = String::new(alloc);
    push_escaped(alloc, &mut out, text)?;
    Ok(Txt::from_string(out))
}

/// A value as text: texts without quotes, compact JSON elsewhere. Empty for a value with a float in it.
fn plain_text(alloc: Global, value: &Value) -> Result<String, AllocError>
    ensures { IfOk result (λ text. string_bytes text ≡ plain_text (view value.now)) }
{
    match value {
        Value::Null => String::from_str(alloc, "∅"),
        Value::String(text) => String::from_str(alloc, text.as_str()),
        Value::Bool(_) | Value::Number(_) | Value::Array(_) | Value::Object(_) => {
            if has_float(value) {
                return Ok(String::new(alloc));
            }
            value.to_string(alloc)
        }
    }
}

/// A value as it is read.
pub(crate) fn text_of(alloc: Global, value: &Value) -> Result<Txt, AllocError>
    ensures { IfOk result (λ text. text ≡ text_of (view value.now)) }
{
    let text = plain_text(alloc, value)?;
    escaped_text(alloc, text.as_str())
}

/// The columns that a character takes.
fn own_width(c: char) -> usize
    ensures { result ≡ own_width c }
{
    c.width().unwrap_or(0)
}

/// Puts as many of the first characters at the end as have room in so many columns.
fn push_front(out: &mut String, characters: &[char], room: usize) -> Result<(), AllocError>
    ensures { OnOk result (string_bytes out.new
        ≡ string_bytes out.old ++ front room characters.now) }
{
    let mut room_left = room;
    let mut left = characters;
    while let [c, others @ ..] = left {
        let width = own_width(*c);
        if width > room_left {
            return Ok(());
        }
        out.push(*c)?;
        room_left -= width;
        left = others;
    }
    Ok(())
}

/// The start of a text, with an ellipsis.
fn start_of(alloc: Global, text: &str) -> Result<Txt, AllocError>
    ensures { IfOk result (λ start. start ≡ front (most_width - 1) (chars text.now) ++ ellipsis) }
{
    let characters = characters(alloc, text)?;
    let mut start = String::new(alloc);
    push_front(&mut start, characters.as_slice(), MOST_WIDTH - 1)?;
    start.push_str("…")?;
    Ok(Txt::from_string(start))
}

/// A text, cut where it is too wide for a table.
pub(crate) fn short_text(alloc: Global, text: Txt) -> Result<Txt, AllocError>
    ensures { IfOk result (λ t. t ≡ short_text text) }
{
    if width_of(text.as_str()) <= MOST_WIDTH {
        return Ok(text);
    }
    start_of(alloc, text.as_str())
}

/// The cell of a value.
pub(crate) fn cell_of(alloc: Global, value: &Value) -> Result<Cell, AllocError>
    ensures { IfOk result (λ cell. cell ≡ cell_of (view value.now)) }
{
    let text = text_of(alloc, value)?;
    Ok(Cell {
        text: short_text(alloc, text)?,
        is_number: value.is_number(),
    })
}
