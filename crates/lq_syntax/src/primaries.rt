//! Primary expressions (ECMA-334, primary expressions).
ghost use Rattle.std.specs.Prelude.{◌≡◌};
ghost use Rattle.std.specs.Prelude.{List as Listed};
ghost use Rattle.lq_grammar.specs.Parsing as parsing;
ghost use Rattle.lq_grammar.specs.Parsing.{expression};
ghost use Rattle.lq_grammar.specs.Tokens.{decimal_value, text_of};
ghost use Rattle.lq_syntax.specs.Nests.{Nests};
ghost use Rattle.lq_syntax.specs.Outcome.{Reads};
ghost use Rattle.lq_syntax.specs.Parts as part;

use crate::cursor::Tokens;
use crate::error::ParseError;
use crate::grammar::Grammar;
use crate::{hosts, literals};
use lq_grammar::{Expr, Kind, Level, Node, Token};
use lq_value::Held;
use std::alloc::Global;

impl<'a, F: Fn(Global, &[u8], &mut Tokens<'_>, usize, Level) -> Result<Expr, ParseError>> Grammar<
    'a,
    F,
> {
    /// After `(`: `top ")"`
    fn parenthesized(&self, tokens: &mut Tokens<'_>) -> Result<Expr, ParseError>
        requires { Nests self.now.depth (F.pre self.now.inner) (F.post self.now.inner) }
        ensures { Reads (part.parenthesized self.now.line.now
            (expression self.now.line.now self.now.depth) tokens.old) result tokens.new }
    {
        let x = self.inner(tokens, Level::Top)?;
        tokens.close(Kind::RightParenthesis, x)
    }

    /// `cond ["," cond]`
    #[tactic(auto, unfolding(lq_grammar::specs::Parsing::host_arguments, lq_grammar::specs::Parsing::after))]
    fn host_arguments(&self, tokens: &mut Tokens<'_>) -> Result<(Expr, Option<Expr>), ParseError>
        requires { Nests self.now.depth (F.pre self.now.inner) (F.post self.now.inner) }
        ensures { Reads (parsing.host_arguments self.now.line.now
            (expression self.now.line.now self.now.depth) tokens.old) result tokens.new }
    {
        let first = self.inner(tokens, Level::Conditional)?;
        if !tokens.eat(Kind::Comma) {
            return Ok((first, None));
        }
        let first = Held::new(self.alloc, first)?;
        let second = self.inner(tokens, Level::Conditional)?;
        Ok((first.into_inner(), Some(second)))
    }

    /// After `Host`: `"." name "(" cond ["," cond] ")"`
    fn host(&self, tokens: &mut Tokens<'_>) -> Result<Expr, ParseError>
        requires { Nests self.now.depth (F.pre self.now.inner) (F.post self.now.inner) }
        ensures { Reads (part.host self.now.line.now (expression self.now.line.now self.now.depth)
            tokens.old) result tokens.new }
    {
        tokens.expect(Kind::Dot)?;
        let predicate = literals::name(self.alloc, self.line, tokens)?;
        tokens.expect(Kind::LeftParenthesis)?;
        let (first, second) = self.host_arguments(tokens)?;
        let call = hosts::host_call(self.alloc, predicate, first, second)?;
        tokens.close(Kind::RightParenthesis, call)
    }

    /// After `new`: `"{" [member {"," member} [","]] "}"`
    fn record(&self, tokens: &mut Tokens<'_>) -> Result<Expr, ParseError>
        requires { Nests self.now.depth (F.pre self.now.inner) (F.post self.now.inner) }
        ensures { Reads (part.record_of self.now.line.now
            (expression self.now.line.now self.now.depth) tokens.old) result tokens.new }
    {
        tokens.expect(Kind::LeftBrace)?;
        Ok(Expr::Node(Node::New(self.fields(tokens)?)))
    }

    /// An integer literal.
    fn integer(&self, token: Token) -> Result<Expr, ParseError>
        ensures { (left : Listed Token) → Reads
            (parsing.literal self.now.line.now (decimal_value (text_of self.now.line.now token))
            left) result left }
    {
        match literals::int_of(literals::bytes_of(self.line, token)) {
            Some(value) => Ok(Expr::Node(Node::Integer(value))),
            None => Err(ParseError::Syntax),
        }
    }

    /// A primary expression up to its first dot, after its first token.
    fn start_by(&self, token: Token, tokens: &mut Tokens<'_>) -> Result<Expr, ParseError>
        requires { Nests self.now.depth (F.pre self.now.inner) (F.post self.now.inner) }
        ensures { Reads (parsing.start_by self.now.line.now
            (expression self.now.line.now self.now.depth) token.kind token tokens.old) result
            tokens.new }
    {
        match token.kind {
            Kind::Integer => self.integer(token),
            Kind::Text => {
                let content = literals::content_of(self.alloc, self.line, token)?;
                Ok(Expr::Node(Node::Text(content)))
            }
            Kind::True => Ok(Expr::Node(Node::Bool(true))),
            Kind::False => Ok(Expr::Node(Node::Bool(false))),
            Kind::Null => Ok(Expr::Node(Node::Null)),
            Kind::Name => {
                let name = literals::spelling_of(self.alloc, self.line, token)?;
                Ok(Expr::Node(Node::Name(name)))
            }
            Kind::LeftParenthesis => self.parenthesized(tokens),
            Kind::Host => self.host(tokens),
            Kind::New => self.record(tokens),
            _ => Err(ParseError::Syntax),
        }
    }

    /// A primary expression up to its first dot.
    #[tactic(auto, using(crate::proofs::Readers::start_none, crate::proofs::Readers::start_some))]
    fn start(&self, tokens: &mut Tokens<'_>) -> Result<Expr, ParseError>
        requires { Nests self.now.depth (F.pre self.now.inner) (F.post self.now.inner) }
        ensures { Reads (parsing.start self.now.line.now
            (expression self.now.line.now self.now.depth) tokens.old) result tokens.new }
    {
        let token = tokens.take()?;
        self.start_by(token, tokens)
    }

    /// `primary {"." name ["(" [arg {"," arg}] ")"]}`
    #[tactic(auto, unfolding(lq_grammar::specs::Parsing::primary))]
    pub fn primary(&self, tokens: &mut Tokens<'_>) -> Result<Expr, ParseError>
        requires { Nests self.now.depth (F.pre self.now.inner) (F.post self.now.inner) }
        ensures { Reads (parsing.primary self.now.line.now
            (expression self.now.line.now self.now.depth) tokens.old) result tokens.new }
    {
        let mut x = self.start(tokens)?;
        for _turn in 0..tokens.left() {
            if !tokens.eat(Kind::Dot) {
                return Ok(x);
            }
            let whole = Held::new(self.alloc, x)?;
            let name = literals::name(self.alloc, self.line, tokens)?;
            x = if tokens.eat(Kind::LeftParenthesis) {
                Expr::Node(Node::Method(whole, name, self.arguments(tokens)?))
            } else {
                Expr::Node(Node::Member(whole, name))
            };
        }
        Ok(x)
    }
}
