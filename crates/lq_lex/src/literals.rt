//! Literals: how far they go, and their values.
ghost use Rattle.std.specs.Prelude.{◌≡◌, ◌≤◌, ◌+◌, ◌*◌, pos, nat_le, nat_lt, if◌then◌else◌, option_map, option_and_then, IfOk};
ghost use Rattle.lq_grammar.specs.TextLiterals as literal;
ghost use Rattle.lq_grammar.specs.TextLiterals.{text_value};
ghost use Rattle.lq_grammar.specs.Tokens.{decimal_value};
ghost use Rattle.lq_lex.specs.Literals as spec;

use lq_value::Txt;
use std::alloc::{AllocError, Global};

/// The greatest value that the digits of an integer may have: after a minus sign they spell the least `int`.
pub const LARGEST_INTEGER: u32 = 2147483648;

/// Whether the value of decimal digits is at most 2147483648.
pub fn is_small(digits: &[char]) -> bool
    ensures { result ≡ nat_le (decimal_value digits.now) 2147483648 }
{
    let mut value: u64 = 0;
    for digit in digits {
        value = value * 10 + u64::from(u32::from(*digit).saturating_sub(48));
        if value > u64::from(LARGEST_INTEGER) {
            return false;
        }
    }
    true
}

/// The `int` that decimal digits spell, `None` where there is none so great.
pub fn int_value(digits: &[u8]) -> Option<i32>
    ensures { result ≡ (if nat_lt (decimal_value digits.now) 2147483648
        then Some (pos (decimal_value digits.now)) else None) }
{
    let mut value: u64 = 0;
    for digit in digits {
        value = value * 10 + u64::from((*digit).saturating_sub(48));
        if value >= u64::from(LARGEST_INTEGER) {
            return None;
        }
    }
    i32::try_from(value).ok()
}

/// The state of a reader of a text literal after its opening quote.
#[derive(Clone, Copy)]
enum Place {
    /// Between two characters.
    Plain,
    /// After a backslash.
    Backslash,
    /// Before the first digit after `\u`.
    First,
    /// Before its second, with the value of the first.
    Second(u8),
    /// Before its third, with the values of those before it.
    Third(u8, u8),
    /// Before its fourth, with the values of those before it.
    Fourth(u8, u8, u8),
}

/// The value of a hexadecimal digit.
fn hexadecimal(c: char) -> Option<u8>
    ensures { result ≡ literal.hexadecimal c }
{
    u8::try_from(c.to_digit(16)?).ok()
}

/// The character of a number, `None` for a surrogate.
fn unit(value: u32) -> Option<char>
    requires { value ≤ 1114111 }
    ensures { result ≡ literal.unit value }
{
    char::from_u32(value)
}

/// The character whose number four hexadecimal digits spell: the values of three, and the last.
fn unit_of(a: u8, b: u8, c: u8, last: char) -> Option<char>
    ensures { result ≡ option_and_then (λ d. literal.unit (a * 4096 + b * 256 + c * 16 + d))
        (literal.hexadecimal last) }
{
    let d = hexadecimal(last)?;
    unit(u32::from(a) * 4096 + u32::from(b) * 256 + u32::from(c) * 16 + u32::from(d))
}

/// The character that a backslash with `c` after it spells.
fn simple_escape(c: char) -> Option<char>
    ensures { result ≡ literal.simple_escape c }
{
    match c {
        '\'' => Some('\''),
        '"' => Some('"'),
        '\\' => Some('\\'),
        '0' => Some('\0'),
        'a' => Some('\u{7}'),
        'b' => Some('\u{8}'),
        'f' => Some('\u{c}'),
        'n' => Some('\n'),
        'r' => Some('\r'),
        't' => Some('\t'),
        'v' => Some('\u{b}'),
        _ => None,
    }
}

/// The state of the reader after `c`, which no backslash precedes, and the character that it
/// represents.
fn step_plain(c: char) -> Option<(Place, Option<char>)>
    ensures { option_map spec.step_of result ≡ literal.step_plain c }
{
    match c {
        '\\' => Some((Place::Backslash, None)),
        '\n' => None,
        _ => Some((Place::Plain, Some(c))),
    }
}

/// The state of the reader after a backslash and `c`, and the character that they spell.
fn step_escape(c: char) -> Option<(Place, Option<char>)>
    ensures { option_map spec.step_of result ≡ literal.step_escape c }
{
    if c == 'u' {
        Some((Place::First, None))
    } else {
        Some((Place::Plain, Some(simple_escape(c)?)))
    }
}

/// The state of the reader after `c`, and the character whose spelling ends there. `None` is a fault.
fn step(place: Place, c: char) -> Option<(Place, Option<char>)>
    ensures { option_map spec.step_of result ≡ literal.step (spec.place_of place) c }
{
    match place {
        Place::Plain => step_plain(c),
        Place::Backslash => step_escape(c),
        Place::First => Some((Place::Second(hexadecimal(c)?), None)),
        Place::Second(a) => Some((Place::Third(a, hexadecimal(c)?), None)),
        Place::Third(a, b) => Some((Place::Fourth(a, b, hexadecimal(c)?), None)),
        Place::Fourth(a, b, d) => Some((Place::Plain, Some(unit_of(a, b, d, c)?))),
    }
}

/// Whether `c` is the quote that closes the literal.
fn is_closing_quote(place: Place, c: char) -> bool
    ensures { result ≡ literal.closes (spec.place_of place) c }
{
    matches!(place, Place::Plain) && c == '"'
}

/// How many characters the text literal has after its opening quote, its closing quote among them:
/// `None` where it has a fault or no end.
pub fn length_of_text(behind: &[char]) -> Option<usize>
    ensures { result ≡ literal.length_from literal.plain behind.now }
{
    let mut place = Place::Plain;
    let mut length = 0;
    let mut rest = behind;
    while let [c, others @ ..] = rest {
        length += 1;
        if is_closing_quote(place, *c) {
            return Some(length);
        }
        let (next, _) = step(place, *c)?;
        place = next;
        rest = others;
    }
    None
}

/// The same as `step`, and `None` too at the quote that closes the literal.
fn step_inside(place: Place, c: char) -> Option<(Place, Option<char>)>
    ensures { option_map spec.step_of result ≡ literal.step_inside (spec.place_of place) c }
{
    if is_closing_quote(place, c) {
        None
    } else {
        step(place, c)
    }
}

/// The text that a text literal spells, of which `literal` are the characters with both quotes.
pub fn text_value(alloc: Global, literal: &str) -> Result<Txt, AllocError>
    ensures { IfOk result (λ text. text ≡ text_value literal.now) }
{
    let mut text = String::new(alloc);
    let mut place = Place::Plain;
    for c in literal.chars().skip(1) {
        let Some((next, spelled)) = step_inside(place, c) else {
            return Ok(Txt::from_string(text));
        };
        if let Some(character) = spelled {
            text.push(character)?;
        }
        place = next;
    }
    Ok(Txt::from_string(text))
}
