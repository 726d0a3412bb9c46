//! Reads the text of a line, and the text of a rule.
ghost use Rattle.std.specs.Prelude.{◌≡◌, ◌↔◌, [], IfOk, IfSome, IsNone};
ghost use Rattle.lq_grammar.specs.Grammar as part;
ghost use Rattle.lq_grammar.specs.Reading.{IsPastDepth, IsSpelled, reading_of, reading_of_tokens, rule_in_tokens, rule_reading_of};
ghost use Rattle.lq_grammar.specs.Tokens.{tokens_of};
ghost use Rattle.lq_syntax.specs.Texts.{ReadsLine, ReadsRule};

use crate::depth::is_deep;
use crate::error::SyntaxError;
use crate::parse::{rule, statement};
use lq_grammar::{Expr, Statement, Token};
use lq_lex::{LexError, tokens};
use std::alloc::Global;

/// What the tokens of a line say.
fn read_tokens(
    alloc: Global,
    line: &str,
    tokens: &[Token],
) -> Result<Option<Statement>, SyntaxError>
    ensures { ReadsLine (reading_of_tokens line.now (Some tokens.now)) result }
{
    if tokens.is_empty() {
        return Ok(None);
    }
    if is_deep(tokens) {
        return Err(SyntaxError::TooDeep);
    }
    Ok(Some(statement(alloc, line, tokens)?))
}

/// What the tokens of a rule say.
fn read_rule_tokens(alloc: Global, text: &str, tokens: &[Token]) -> Result<Expr, SyntaxError>
    ensures { ReadsRule (rule_in_tokens text.now (Some tokens.now)) result }
{
    if is_deep(tokens) {
        return Err(SyntaxError::TooDeep);
    }
    rule(alloc, text, tokens)
}

/// What the text of a rule says.
#[tactic(auto, unfolding(lq_grammar::specs::Reading::rule_reading_of, lq_grammar::specs::Tokens::tokens_of))]
fn read_rule(alloc: Global, text: &str) -> Result<Expr, SyntaxError>
    ensures { ReadsRule (rule_reading_of text.now) result }
{
    match tokens(alloc, text) {
        Ok(tokens) => read_rule_tokens(alloc, text, &tokens),
        Err(LexError::Memory) => Err(SyntaxError::Memory),
        Err(LexError::Lexical | LexError::TooLong) => Err(SyntaxError::Syntax),
    }
}

/// Reads one line of a script from its tokens: `None` where it has none, else the statement that they spell.
///
/// Refuses as `parse_statement` does, which cuts the line first.
pub fn parse_tokens(
    alloc: Global,
    line: &str,
    tokens: &[Token],
) -> Result<Option<Statement>, SyntaxError>
    requires { tokens_of line.now ≡ Some tokens.now }
    ensures read { ReadsLine (reading_of line.now) result }
    // The tokens of the line spell the tree that is given, within the limits of depth.
    ensures tree { IfOk result (λ statement. IfSome statement
        (λ tree. IsSpelled line.now (part.Line tree))) }
    ensures none { IfOk result (λ statement. IsNone statement ↔ (tokens_of line.now ≡ Some [])) }
    ensures too_deep { result ≡ Err SyntaxError.TooDeep → IsPastDepth line.now }
    // Where the line is refused for its syntax, its tokens spell none.
    ensures no_tree { result ≡ Err SyntaxError.Syntax → (tree : Statement)
        → ¬ (IsSpelled line.now (part.Line tree)) }
{
    read_tokens(alloc, line, tokens)
}

/// What a line says.
#[tactic(auto, unfolding(lq_grammar::specs::Reading::reading_of, lq_grammar::specs::Tokens::tokens_of))]
fn read_line(alloc: Global, line: &str) -> Result<Option<Statement>, SyntaxError>
    ensures { ReadsLine (reading_of line.now) result }
{
    match tokens(alloc, line) {
        Ok(tokens) => parse_tokens(alloc, line, &tokens),
        Err(LexError::Memory) => Err(SyntaxError::Memory),
        Err(LexError::Lexical | LexError::TooLong) => Err(SyntaxError::Syntax),
    }
}

/// Reads one line of a script: `None` where it has no token, else the statement that it spells.
///
/// A line is refused as `TooDeep` where more than 64 brackets are open at a place of it, or a place weighs
/// more than 256, whatever its tokens spell; and as `Syntax` where it has a lexical fault, is over 65,536
/// bytes, or its tokens spell no statement. `Memory` says nothing of the line.
pub fn parse_statement(alloc: Global, line: &str) -> Result<Option<Statement>, SyntaxError>
    ensures read { ReadsLine (reading_of line.now) result }
    // The tokens of the line spell the tree that is given, within the limits of depth.
    ensures tree { IfOk result (λ statement. IfSome statement
        (λ tree. IsSpelled line.now (part.Line tree))) }
    ensures none { IfOk result (λ statement. IsNone statement ↔ (tokens_of line.now ≡ Some [])) }
    ensures too_deep { result ≡ Err SyntaxError.TooDeep → IsPastDepth line.now }
    // Where the line is refused for its syntax, its tokens spell none.
    ensures no_tree { result ≡ Err SyntaxError.Syntax → (tree : Statement)
        → ¬ (IsSpelled line.now (part.Line tree)) }
{
    read_line(alloc, line)
}

/// Reads the rule of a row policy, a conditional expression. White space, line feeds too, and comments may
/// be between its tokens.
///
/// A text is refused as `TooDeep` and `Syntax` as a line is, also where it has no token. `Memory` says nothing
/// of the text.
pub fn parse_rule(alloc: Global, text: &str) -> Result<Expr, SyntaxError>
    ensures read { ReadsRule (rule_reading_of text.now) result }
    // The tokens of the text spell the tree that is given, within the limits of depth.
    ensures tree { IfOk result (λ tree. IsSpelled text.now (part.Conditional tree)) }
    ensures too_deep { result ≡ Err SyntaxError.TooDeep → IsPastDepth text.now }
    // Where the text is refused for its syntax, its tokens spell none.
    ensures no_tree { result ≡ Err SyntaxError.Syntax → (tree : Expr)
        → ¬ (IsSpelled text.now (part.Conditional tree)) }
{
    read_rule(alloc, text)
}
