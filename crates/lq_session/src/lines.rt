//! What a line says: its tokens, the statement that they spell, and what this opens.
ghost use Rattle.std.specs.Prelude.{◌≡◌, Some, IfOk};
ghost use Rattle.lq_grammar.specs.Tokens.{tokens_of};
ghost use Rattle.lq_machine.specs.Opening.{opening_of};
ghost use Rattle.lq_session.specs.Lines.{HasTokens, OpensWithin, SaysStatement};

use crate::opening::opening_of_tokens;
use lq_grammar::{Statement, Token};
use lq_lex::{LexError, tokens};
use lq_machine::Opened;
use lq_run::{State, Stop, refusal};
use lq_syntax::{SyntaxError, parse_tokens};
use lq_value::Held;
use std::alloc::{AllocError, Global};

/// The tokens of a line; refused as `syntax` where it is too long, or something in it begins no token.
#[tactic(auto, using(crate::proofs::LineLemmas::cut_lines))]
pub(crate) fn tokens_of(alloc: Global, line: &str) -> Result<Vec<Token>, Stop>
    ensures { HasTokens line.now result }
{
    match tokens(alloc, line) {
        Ok(tokens) => Ok(tokens),
        Err(LexError::Lexical | LexError::TooLong) => Err(refusal(alloc, "syntax")),
        Err(LexError::Memory) => Err(Stop::Memory),
    }
}

/// A value that may be there, in a box of its own.
fn box_of<T: Drop>(alloc: Global, value: Option<T>) -> Result<Option<Held<T>>, AllocError>
    ensures { IfOk result (λ holder. holder ≡ value) }
{
    match value {
        Some(value) => Ok(Some(Held::new(alloc, value)?)),
        None => Ok(None),
    }
}

/// The statement that the tokens of a line spell; none where there are none. Refused as `syntax` where they spell no statement, and before
/// that as `too-deep` where they are past the limits of depth. It is in a box, which each path of a caller drops by one call.
pub(crate) fn statement_of(
    alloc: Global,
    line: &str,
    tokens: &[Token],
) -> Result<Option<Held<Statement>>, Stop>
    requires { tokens_of line.now ≡ Some tokens.now }
    ensures { SaysStatement line.now result }
{
    match parse_tokens(alloc, line, tokens) {
        Ok(statement) => Ok(box_of(alloc, statement)?),
        Err(SyntaxError::Syntax) => Err(refusal(alloc, "syntax")),
        Err(SyntaxError::TooDeep) => Err(refusal(alloc, "too-deep")),
        Err(SyntaxError::Memory) => Err(Stop::Memory),
    }
}

/// What the statement of a line with these tokens opens; refused as `too-deep` where that is past a limit.
pub(crate) fn opening_of(
    alloc: Global,
    line: &str,
    tokens: &[Token],
    state: &State,
) -> Result<Opened, Stop>
    requires { tokens_of line.now ≡ Some tokens.now }
    ensures { OpensWithin (opening_of state.now.definitions line.now) result }
{
    match opening_of_tokens(line.as_bytes(), state.definitions(), tokens) {
        Some(opened) => Ok(opened),
        None => Err(refusal(alloc, "too-deep")),
    }
}
