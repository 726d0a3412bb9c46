//! Query expressions (ECMA-334, query expressions).
ghost use Rattle.std.specs.Prelude.{◌≡◌};
ghost use Rattle.lq_grammar.specs.Parsing as parsing;
ghost use Rattle.lq_grammar.specs.Parsing.{expression};
ghost use Rattle.lq_syntax.specs.Nests.{Nests};
ghost use Rattle.lq_syntax.specs.Outcome.{Reads};
ghost use Rattle.lq_syntax.specs.Parts as part;

use crate::cursor::Tokens;
use crate::error::ParseError;
use crate::grammar::Grammar;
use crate::literals;
use lq_grammar::{Body, Continuation, Expr, Kind, Last, Level, Query};
use lq_value::{Held, List};
use std::alloc::Global;

impl<'a, F: Fn(Global, &[u8], &mut Tokens<'_>, usize, Level) -> Result<Expr, ParseError>> Grammar<
    'a,
    F,
> {
    /// `"select" cond | "group" cond "by" cond`
    #[tactic(auto, unfolding(lq_grammar::specs::Parsing::ending, lq_grammar::specs::Parsing::after))]
    fn ending(&self, tokens: &mut Tokens<'_>) -> Result<Last<Expr>, ParseError>
        requires { Nests self.now.depth (F.pre self.now.inner) (F.post self.now.inner) }
        ensures { Reads (parsing.ending self.now.line.now
            (expression self.now.line.now self.now.depth) tokens.old) result tokens.new }
    {
        if tokens.eat(Kind::Select) {
            return Ok(Last::Select(self.inner(tokens, Level::Conditional)?));
        }
        tokens.expect(Kind::Group)?;
        let element = self.held(tokens, Level::Conditional)?;
        tokens.expect(Kind::By)?;
        let key = self.inner(tokens, Level::Conditional)?;
        Ok(Last::Group(element.into_inner(), key))
    }

    /// The clauses of a body, and what ends it.
    #[tactic(auto, unfolding(lq_grammar::specs::Parsing::body))]
    fn body(&self, tokens: &mut Tokens<'_>) -> Result<Body<Expr>, ParseError>
        requires { Nests self.now.depth (F.pre self.now.inner) (F.post self.now.inner) }
        ensures { Reads (parsing.body self.now.line.now
            (expression self.now.line.now self.now.depth) tokens.old) result tokens.new }
    {
        let clauses = self.clauses(tokens)?;
        let last = self.ending(tokens)?;
        Ok(Body { clauses, last })
    }

    /// `{"into" name body}`
    fn continuations(&self, tokens: &mut Tokens<'_>) -> Result<List<Continuation<Expr>>, ParseError>
        requires { Nests self.now.depth (F.pre self.now.inner) (F.post self.now.inner) }
        ensures { Reads (part.all_continuations self.now.line.now
            (expression self.now.line.now self.now.depth) tokens.old) result tokens.new }
    {
        let mut rest = List::new(self.alloc);
        for _turn in 0..tokens.left() {
            if !tokens.eat(Kind::Into) {
                return Ok(rest);
            }
            let name = literals::name(self.alloc, self.line, tokens)?;
            let body = self.body(tokens)?;
            rest.push(Continuation { name, body })?;
        }
        Ok(rest)
    }

    /// `"from" name "in" cond body {"into" name body}`
    #[tactic(auto, unfolding(lq_grammar::specs::Parsing::query))]
    pub fn query(&self, tokens: &mut Tokens<'_>) -> Result<Query<Expr>, ParseError>
        requires { Nests self.now.depth (F.pre self.now.inner) (F.post self.now.inner) }
        ensures { Reads (parsing.query self.now.line.now
            (expression self.now.line.now self.now.depth) tokens.old) result tokens.new }
    {
        tokens.expect(Kind::From)?;
        let name = literals::name(self.alloc, self.line, tokens)?;
        let source = Held::new(self.alloc, self.source(tokens)?)?;
        let body = Held::new(self.alloc, self.body(tokens)?)?;
        let rest = self.continuations(tokens)?;
        Ok(Query {
            name,
            source: source.into_inner(),
            body: body.into_inner(),
            rest,
        })
    }
}
