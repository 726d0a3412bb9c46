//! The rules of the grammar as methods. What leads back to an expression takes the parser of those as
//! a parameter, so that no rule reaches itself.
ghost use Rattle.std.specs.Prelude.{◌≡◌};
ghost use Rattle.lq_grammar.specs.Parsing as parsing;
ghost use Rattle.lq_syntax.specs.Nests.{Nests};
ghost use Rattle.lq_syntax.specs.Outcome.{Reads};

use crate::cursor::Tokens;
use crate::error::ParseError;
use lq_grammar::{Expr, Level};
use lq_value::Held;
use std::alloc::Global;

/// The rules over a line, with what reads the expressions in them.
#[derive(Drop)]
pub struct Grammar<'a, F> {
    /// Where trees are allocated.
    pub alloc: Global,
    /// The line.
    pub line: &'a [u8],
    /// How often the rules may still lead back.
    pub depth: usize,
    /// The parser of the lines that are led back to.
    pub inner: F,
}

impl<'a, F: Fn(Global, &[u8], &mut Tokens<'_>, usize, Level) -> Result<Expr, ParseError>> Grammar<
    'a,
    F,
> {
    /// A line of the grammar that is led back to.
    pub fn inner(&self, tokens: &mut Tokens<'_>, level: Level) -> Result<Expr, ParseError>
        requires { Nests self.now.depth (F.pre self.now.inner) (F.post self.now.inner) }
        ensures { Reads (parsing.expression self.now.line.now self.now.depth level tokens.old)
            result tokens.new }
    {
        (self.inner)(self.alloc, self.line, tokens, self.depth, level)
    }

    /// A line of the grammar that is led back to, in a box of its own, as which it waits while more is read.
    pub fn held(&self, tokens: &mut Tokens<'_>, level: Level) -> Result<Held<Expr>, ParseError>
        requires { Nests self.now.depth (F.pre self.now.inner) (F.post self.now.inner) }
        ensures { Reads (parsing.expression self.now.line.now self.now.depth level tokens.old)
            result tokens.new }
    {
        Ok(Held::new(self.alloc, self.inner(tokens, level)?)?)
    }
}

/// A line of the grammar, where its rules lead back at most `depth` times. For want of depth it
/// refuses as for want of a tree; as many as there are tokens are always enough.
pub fn expression(
    alloc: Global,
    line: &[u8],
    tokens: &mut Tokens<'_>,
    depth: usize,
    level: Level,
) -> Result<Expr, ParseError>
    ensures { Reads (parsing.expression line.now depth level tokens.old) result tokens.new }
{
    if depth == 0 {
        return Err(ParseError::Syntax);
    }
    Grammar {
        alloc,
        line,
        depth: depth - 1,
        inner: expression,
    }
    .rule(tokens, level)
}
