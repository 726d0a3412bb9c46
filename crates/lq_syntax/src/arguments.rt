//! The arguments of methods.
ghost use Rattle.std.specs.Prelude.{◌≡◌};
ghost use Rattle.lq_grammar.specs.Parsing as parsing;
ghost use Rattle.lq_grammar.specs.Parsing.{expression};
ghost use Rattle.lq_syntax.specs.Nests.{Nests};
ghost use Rattle.lq_syntax.specs.Outcome.{Reads};

use crate::cursor::Tokens;
use crate::error::ParseError;
use crate::grammar::Grammar;
use crate::literals;
use lq_grammar::{Argument, Expr, Kind, Level};
use lq_value::List;
use std::alloc::Global;

impl<'a, F: Fn(Global, &[u8], &mut Tokens<'_>, usize, Level) -> Result<Expr, ParseError>> Grammar<
    'a,
    F,
> {
    /// `cond | name "=>" cond`
    #[tactic(auto, unfolding(lq_grammar::specs::Parsing::argument_at))]
    fn argument(&self, tokens: &mut Tokens<'_>) -> Result<Argument<Expr>, ParseError>
        requires { Nests self.now.depth (F.pre self.now.inner) (F.post self.now.inner) }
        ensures { Reads (parsing.argument_at self.now.line.now
            (expression self.now.line.now self.now.depth) tokens.old) result tokens.new }
    {
        if tokens.are_next(Kind::Name, Kind::Arrow) {
            let parameter = literals::name(self.alloc, self.line, tokens)?;
            tokens.expect(Kind::Arrow)?;
            let body = self.inner(tokens, Level::Conditional)?;
            return Ok(Argument::Lambda(parameter, body));
        }
        Ok(Argument::Value(self.inner(tokens, Level::Conditional)?))
    }

    /// `arg {"," arg}`
    #[tactic(auto, unfolding(lq_grammar::specs::Parsing::some_arguments))]
    fn some_arguments(&self, tokens: &mut Tokens<'_>) -> Result<List<Argument<Expr>>, ParseError>
        requires { Nests self.now.depth (F.pre self.now.inner) (F.post self.now.inner) }
        ensures { Reads (parsing.some_arguments self.now.line.now
            (expression self.now.line.now self.now.depth) tokens.old) result tokens.new }
    {
        let mut arguments = List::new(self.alloc);
        arguments.push(self.argument(tokens)?)?;
        for _turn in 0..tokens.left() {
            if !tokens.eat(Kind::Comma) {
                return Ok(arguments);
            }
            let next = self.argument(tokens)?;
            arguments.push(next)?;
        }
        Ok(arguments)
    }

    /// After `(`: `[arg {"," arg}] ")"`
    #[tactic(auto, unfolding(lq_grammar::specs::Parsing::arguments, lq_grammar::specs::Parsing::after))]
    pub fn arguments(&self, tokens: &mut Tokens<'_>) -> Result<List<Argument<Expr>>, ParseError>
        requires { Nests self.now.depth (F.pre self.now.inner) (F.post self.now.inner) }
        ensures { Reads (parsing.arguments self.now.line.now
            (expression self.now.line.now self.now.depth) tokens.old) result tokens.new }
    {
        if tokens.eat(Kind::RightParenthesis) {
            return Ok(List::new(self.alloc));
        }
        let arguments = self.some_arguments(tokens)?;
        tokens.close(Kind::RightParenthesis, arguments)
    }
}
