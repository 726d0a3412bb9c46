//! The statement on a line that was typed.
ghost use Rattle.std.specs.Prelude.{◌≡◌, IfOk, string_bytes};
ghost use Rattle.lq_command.specs.Typing.{closed, is_command, is_open, lacks_semicolon};
ghost use Rattle.lq_grammar.specs.Tokens.{tokens_of};

use lq_grammar::{Kind, Token};
use lq_lex::{LexError, tokens};
use std::alloc::{AllocError, Global};

/// Whether a line without the white space round it is a command: it begins with a dot, as no statement does.
pub fn is_command(line: &str) -> bool
    ensures { result ≡ is_command line.now }
{
    matches!(line.as_bytes(), [b'.', ..])
}

/// Whether a statement of these tokens lacks the `;` at its end. One of no tokens lacks nothing.
fn is_open(tokens: &[Token]) -> bool
    ensures { result ≡ is_open tokens.now }
{
    match tokens.last() {
        Some(last) => !matches!(last.kind, Kind::Semicolon),
        None => false,
    }
}

/// Whether the statement on a line lacks the `;` at its end. A line that has no tokens, since it is too long or has a lexical fault,
/// lacks nothing.
#[tactic(auto, unfolding(lq_grammar::specs::Tokens::tokens_of))]
fn is_unterminated(alloc: Global, line: &str) -> Result<bool, AllocError>
    ensures { IfOk result (λ lacks. lacks ≡ lacks_semicolon (tokens_of line.now)) }
{
    match tokens(alloc, line) {
        Ok(tokens) => Ok(is_open(&tokens)),
        Err(LexError::Lexical | LexError::TooLong) => Ok(false),
        Err(LexError::Memory) => Err(AllocError),
    }
}

/// The statement on a line, with the `;` that its end lacks. The `;` goes after a line feed, where a comment has ended.
#[tactic(auto, unfolding(crate::specs::Typing::closed))]
pub fn closed(alloc: Global, line: &str) -> Result<String, AllocError>
    ensures { IfOk result (λ statement. string_bytes statement ≡ closed line.now) }
{
    if !is_unterminated(alloc, line)? {
        return String::from_str(alloc, line);
    }
    let mut statement = String::from_str(alloc, line)?;
    statement.push_str("\n;")?;
    Ok(statement)
}
