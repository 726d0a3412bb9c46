//! The statements of a script.
ghost use Rattle.std.specs.Prelude.{◌≡◌};
ghost use Rattle.lq_grammar.specs.Parsing as parsing;
ghost use Rattle.lq_grammar.specs.Parsing.{expression};
ghost use Rattle.lq_syntax.specs.Nests.{Nests};
ghost use Rattle.lq_syntax.specs.Outcome.{Reads};
ghost use Rattle.lq_syntax.specs.Parts as part;

use crate::cursor::Tokens;
use crate::error::ParseError;
use crate::grammar::Grammar;
use crate::{cells, literals};
use lq_grammar::{Expr, Kind, Level, Statement, Token};
use std::alloc::Global;

impl<'a, F: Fn(Global, &[u8], &mut Tokens<'_>, usize, Level) -> Result<Expr, ParseError>> Grammar<
    'a,
    F,
> {
    /// `top ";"`
    #[tactic(auto, unfolding(lq_grammar::specs::Parsing::value_and_end))]
    fn value_and_end(&self, tokens: &mut Tokens<'_>) -> Result<Expr, ParseError>
        requires { Nests self.now.depth (F.pre self.now.inner) (F.post self.now.inner) }
        ensures { Reads (parsing.value_and_end self.now.line.now
            (expression self.now.line.now self.now.depth) tokens.old) result tokens.new }
    {
        let x = self.inner(tokens, Level::Top)?;
        tokens.close(Kind::Semicolon, x)
    }

    /// After `var`: `name "=" top ";"`
    fn definition(&self, tokens: &mut Tokens<'_>) -> Result<Statement, ParseError>
        requires { Nests self.now.depth (F.pre self.now.inner) (F.post self.now.inner) }
        ensures { Reads (part.definition self.now.line.now
            (expression self.now.line.now self.now.depth) tokens.old) result tokens.new }
    {
        let name = literals::name(self.alloc, self.line, tokens)?;
        tokens.expect(Kind::Assign)?;
        Ok(Statement::Define(name, self.value_and_end(tokens)?))
    }

    /// After a name: `"=" top ";"`
    fn assignment(&self, name: Token, tokens: &mut Tokens<'_>) -> Result<Statement, ParseError>
        requires { Nests self.now.depth (F.pre self.now.inner) (F.post self.now.inner) }
        ensures { Reads (part.assignment self.now.line.now
            (expression self.now.line.now self.now.depth) name tokens.old) result tokens.new }
    {
        tokens.expect(Kind::Assign)?;
        let name = literals::spelling_of(self.alloc, self.line, name)?;
        Ok(Statement::Assign(name, self.value_and_end(tokens)?))
    }

    /// After `as`: `name ";"`
    fn role(&self, tokens: &mut Tokens<'_>) -> Result<Statement, ParseError>
        requires { Nests self.now.depth (F.pre self.now.inner) (F.post self.now.inner) }
        ensures { Reads (part.role self.now.line.now (expression self.now.line.now self.now.depth)
            tokens.old) result tokens.new }
    {
        let role = literals::name(self.alloc, self.line, tokens)?;
        tokens.close(Kind::Semicolon, Statement::As(role))
    }

    /// After `insert`: `name "(" cells ")" ";"`
    fn insertion(&self, tokens: &mut Tokens<'_>) -> Result<Statement, ParseError>
        requires { Nests self.now.depth (F.pre self.now.inner) (F.post self.now.inner) }
        ensures { Reads (part.insertion self.now.line.now
            (expression self.now.line.now self.now.depth) tokens.old) result tokens.new }
    {
        let table = literals::name(self.alloc, self.line, tokens)?;
        tokens.expect(Kind::LeftParenthesis)?;
        let cells = cells::cells(self.alloc, self.line, tokens)?;
        tokens.expect(Kind::RightParenthesis)?;
        tokens.close(Kind::Semicolon, Statement::Insert(table, cells))
    }

    /// After `delete`: `name name "=>" cond ";"`
    fn deletion(&self, tokens: &mut Tokens<'_>) -> Result<Statement, ParseError>
        requires { Nests self.now.depth (F.pre self.now.inner) (F.post self.now.inner) }
        ensures { Reads (part.deletion self.now.line.now
            (expression self.now.line.now self.now.depth) tokens.old) result tokens.new }
    {
        let table = literals::name(self.alloc, self.line, tokens)?;
        let row = literals::name(self.alloc, self.line, tokens)?;
        tokens.expect(Kind::Arrow)?;
        let condition = self.inner(tokens, Level::Conditional)?;
        tokens.close(Kind::Semicolon, Statement::Delete(table, row, condition))
    }

    /// A statement after its first token.
    fn statement_by(&self, token: Token, tokens: &mut Tokens<'_>) -> Result<Statement, ParseError>
        requires { Nests self.now.depth (F.pre self.now.inner) (F.post self.now.inner) }
        ensures { Reads (parsing.statement_by self.now.line.now
            (expression self.now.line.now self.now.depth) token.kind token tokens.old) result
            tokens.new }
    {
        match token.kind {
            Kind::Run => Ok(Statement::Run(self.value_and_end(tokens)?)),
            Kind::Var => self.definition(tokens),
            Kind::Name => self.assignment(token, tokens),
            Kind::As => self.role(tokens),
            Kind::Insert => self.insertion(tokens),
            Kind::Delete => self.deletion(tokens),
            _ => Err(ParseError::Syntax),
        }
    }

    /// A statement, up to its semicolon.
    #[tactic(auto, using(crate::proofs::Readers::statement_none, crate::proofs::Readers::statement_some))]
    pub fn statement(&self, tokens: &mut Tokens<'_>) -> Result<Statement, ParseError>
        requires { Nests self.now.depth (F.pre self.now.inner) (F.post self.now.inner) }
        ensures { Reads (parsing.statement_line self.now.line.now
            (expression self.now.line.now self.now.depth) tokens.old) result tokens.new }
    {
        let token = tokens.take()?;
        self.statement_by(token, tokens)
    }
}
