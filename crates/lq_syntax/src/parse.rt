//! Reads the tokens of a line or of a rule.
ghost use Rattle.std.specs.Prelude.{Some};
ghost use Rattle.lq_grammar.specs.Parsing as parsing;
ghost use Rattle.lq_syntax.specs.Outcome.{Gives, Reads};

use crate::cursor::Tokens;
use crate::error::{ParseError, SyntaxError};
use crate::grammar::{Grammar, expression};
use lq_grammar::{Expr, Level, Statement, Token};
use std::alloc::Global;

/// What was read, where no token is left behind it.
#[tactic(auto, unfolding(lq_grammar::specs::Parsing::to_the_end))]
fn whole<T: Drop>(x: T, rest: &Tokens<'_>) -> Result<T, SyntaxError>
    ensures { Gives (parsing.to_the_end (Some (x, rest.now))) result }
{
    if rest.is_empty() {
        Ok(x)
    } else {
        Err(SyntaxError::Syntax)
    }
}

/// The statement at the front of the tokens.
fn first_statement(
    alloc: Global,
    line: &[u8],
    tokens: &mut Tokens<'_>,
    depth: usize,
) -> Result<Statement, ParseError>
    ensures { Reads (parsing.statement_line line.now (parsing.expression line.now depth)
        tokens.old) result tokens.new }
{
    let grammar = Grammar {
        alloc,
        line,
        depth,
        inner: expression,
    };
    grammar.statement(tokens)
}

/// The statement that all of the tokens of a line spell.
#[tactic(auto, unfolding(lq_grammar::specs::Parsing::statement_of, lq_grammar::specs::Parsing::to_the_end))]
pub fn statement(alloc: Global, line: &str, tokens: &[Token]) -> Result<Statement, SyntaxError>
    ensures { Gives (parsing.statement_of line.now tokens.now) result }
{
    let mut rest = Tokens::new(tokens);
    let statement = first_statement(alloc, line.as_bytes(), &mut rest, tokens.len() + 1)?;
    whole(statement, &rest)
}

/// The condition that all of the tokens of a rule spell.
#[tactic(auto, unfolding(lq_grammar::specs::Parsing::rule_of, lq_grammar::specs::Parsing::to_the_end))]
pub fn rule(alloc: Global, text: &str, tokens: &[Token]) -> Result<Expr, SyntaxError>
    ensures { Gives (parsing.rule_of text.now tokens.now) result }
{
    let mut rest = Tokens::new(tokens);
    let condition = expression(
        alloc,
        text.as_bytes(),
        &mut rest,
        tokens.len() + 1,
        Level::Conditional,
    )?;
    whole(condition, &rest)
}
