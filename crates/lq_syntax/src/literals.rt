//! The texts of tokens, and the values that literals spell.
ghost use Rattle.std.specs.Prelude.{◌≡◌, ◌==◌, IfOk, None, Some, if◌then◌else◌, nat_le, nat_lt, neg_ℤ, pos};
ghost use Rattle.lq_grammar.specs.TextLiterals as literal;
ghost use Rattle.lq_grammar.specs.Parsing as parsing;
ghost use Rattle.lq_grammar.specs.Tokens.{decimal_value, text_of};
ghost use Rattle.lq_syntax.specs.Outcome.{Reads};
ghost use Rattle.lq_syntax.specs.declared.error.ParseError.TheVariants as parse;
ghost use Rattle.std.specs.Prelude.{IfErr};

use crate::cursor::Tokens;
use crate::error::ParseError;
use lq_grammar::{Kind, Token};
use lq_lex::{LARGEST_INTEGER, int_value, text_value};
use lq_value::Txt;
use std::alloc::Global;

/// The bytes of the line that a token takes.
pub fn bytes_of<'a>(line: &'a [u8], token: Token) -> &'a [u8]
    ensures { result.now ≡ text_of line.now token }
{
    let behind = &line[token.start.min(line.len())..];
    let length = token.end.saturating_sub(token.start).min(behind.len());
    &behind[..length]
}

/// The characters of the line that a token takes. A token of the line takes whole characters; another
/// one says as little of the line as memory that is refused.
fn characters_of<'a>(line: &'a [u8], token: Token) -> Result<&'a str, ParseError>
    ensures text { IfOk result (λ text. text.now ≡ text_of line.now token) }
    ensures other { IfErr result (λ e. e ≡ parse.Memory) }
{
    std::str::from_utf8(bytes_of(line, token)).map_err(|_| ParseError::Memory)
}

/// The text that a token takes.
pub fn spelling_of(alloc: Global, line: &[u8], token: Token) -> Result<Txt, ParseError>
    ensures text { IfOk result (λ text. text ≡ text_of line.now token) }
    ensures other { IfErr result (λ e. e ≡ parse.Memory) }
{
    Ok(Txt::from_str(alloc, characters_of(line, token)?)?)
}

/// The content of a text literal.
pub fn content_of(alloc: Global, line: &[u8], token: Token) -> Result<Txt, ParseError>
    ensures text { IfOk result (λ text. text ≡ literal.text_value (text_of line.now token)) }
    ensures other { IfErr result (λ e. e ≡ parse.Memory) }
{
    Ok(text_value(alloc, characters_of(line, token)?)?)
}

/// A name.
#[tactic(auto, unfolding(lq_grammar::specs::Parsing::name))]
pub fn name(alloc: Global, line: &[u8], tokens: &mut Tokens<'_>) -> Result<Txt, ParseError>
    ensures { Reads (parsing.name line.now tokens.old) result tokens.new }
{
    let token = tokens.expect(Kind::Name)?;
    spelling_of(alloc, line, token)
}

/// The value of decimal digits, `None` where it is above 2147483648.
fn value_of(digits: &[u8]) -> Option<u32>
    ensures { result ≡ (if nat_le (decimal_value digits.now) 2147483648
        then Some (decimal_value digits.now) else None) }
{
    let mut value: u64 = 0;
    for digit in digits {
        value = value * 10 + u64::from((*digit).saturating_sub(48));
        if value > u64::from(LARGEST_INTEGER) {
            return None;
        }
    }
    u32::try_from(value).ok()
}

/// The `int` that digits spell, `None` where there is none so great.
pub fn int_of(digits: &[u8]) -> Option<i32>
    ensures { result ≡ (if nat_lt (decimal_value digits.now) 2147483648
        then Some (pos (decimal_value digits.now)) else None) }
{
    int_value(digits)
}

/// The `int` that a minus sign and digits spell, `None` where there is none so little.
pub fn negative_of(digits: &[u8]) -> Option<i32>
    ensures { result ≡ (if nat_le (decimal_value digits.now) 2147483648
        then Some (neg_ℤ (pos (decimal_value digits.now))) else None) }
{
    let value = value_of(digits)?;
    i32::try_from(-i64::from(value)).ok()
}

/// Whether digits spell 2147483648, which is an `int` after a minus sign alone.
pub fn is_largest(digits: &[u8]) -> bool
    ensures { result ≡ (decimal_value digits.now == 2147483648) }
{
    value_of(digits) == Some(LARGEST_INTEGER)
}
