//! The cells of an inserted row.
ghost use Rattle.std.specs.Prelude.{◌≡◌};
ghost use Rattle.lq_grammar.specs.Parsing as parsing;
ghost use Rattle.lq_syntax.specs.Outcome.{Reads};
ghost use Rattle.lq_syntax.specs.Parts as part;

use crate::cursor::Tokens;
use crate::error::ParseError;
use crate::literals;
use lq_grammar::{Kind, Token};
use lq_value::{List, Scalar};
use std::alloc::Global;

/// The number that a cell spells.
fn number(value: Option<i32>) -> Result<Scalar, ParseError>
    ensures { result ≡ part.number_or_refusal value }
{
    match value {
        Some(value) => Ok(Scalar::Int(value)),
        None => Err(ParseError::Syntax),
    }
}

/// After a minus sign: the digits of a number.
fn below_zero(line: &[u8], tokens: &mut Tokens<'_>) -> Result<Scalar, ParseError>
    ensures { Reads (part.cell_behind_minus line.now tokens.old) result tokens.new }
{
    let digits = tokens.expect(Kind::Integer)?;
    number(literals::negative_of(literals::bytes_of(line, digits)))
}

/// A cell, after its first token.
fn cell_by(
    alloc: Global,
    line: &[u8],
    token: Token,
    tokens: &mut Tokens<'_>,
) -> Result<Scalar, ParseError>
    ensures { Reads (parsing.cell_by line.now token.kind token tokens.old) result tokens.new }
{
    match token.kind {
        Kind::Integer => number(literals::int_of(literals::bytes_of(line, token))),
        Kind::Minus => below_zero(line, tokens),
        Kind::Text => Ok(Scalar::Text(literals::content_of(alloc, line, token)?)),
        Kind::True => Ok(Scalar::Bool(true)),
        Kind::False => Ok(Scalar::Bool(false)),
        Kind::Null => Ok(Scalar::Null),
        _ => Err(ParseError::Syntax),
    }
}

/// `["-"] integer | text | "true" | "false" | "null"`
#[tactic(auto, using(crate::proofs::Readers::cell_none, crate::proofs::Readers::cell_some))]
fn cell(alloc: Global, line: &[u8], tokens: &mut Tokens<'_>) -> Result<Scalar, ParseError>
    ensures { Reads (parsing.cell line.now tokens.old) result tokens.new }
{
    let token = tokens.take()?;
    cell_by(alloc, line, token, tokens)
}

/// `cell {"," cell}`
#[tactic(auto, unfolding(lq_grammar::specs::Parsing::cells))]
pub fn cells(
    alloc: Global,
    line: &[u8],
    tokens: &mut Tokens<'_>,
) -> Result<List<Scalar>, ParseError>
    ensures { Reads (parsing.cells line.now tokens.old) result tokens.new }
{
    let mut cells = List::new(alloc);
    cells.push(cell(alloc, line, tokens)?)?;
    for _turn in 0..tokens.left() {
        if !tokens.eat(Kind::Comma) {
            return Ok(cells);
        }
        let next = cell(alloc, line, tokens)?;
        cells.push(next)?;
    }
    Ok(cells)
}
