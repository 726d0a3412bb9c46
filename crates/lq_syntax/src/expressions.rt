//! The lines of the grammar that hold expressions, above the primary ones (ECMA-334, expressions).
ghost use Rattle.std.specs.Prelude.{◌≡◌};
ghost use Rattle.lq_grammar.specs.Parsing as parsing;
ghost use Rattle.lq_grammar.specs.Parsing.{expression};
ghost use Rattle.lq_syntax.specs.Nests.{Nests};
ghost use Rattle.lq_syntax.specs.Outcome.{Reads};

use crate::cursor::Tokens;
use crate::error::ParseError;
use crate::grammar::Grammar;
use crate::{literals, operators};
use lq_grammar::{Expr, Kind, Level, Node, Unary};
use lq_value::Held;
use std::alloc::Global;

impl<'a, F: Fn(Global, &[u8], &mut Tokens<'_>, usize, Level) -> Result<Expr, ParseError>> Grammar<
    'a,
    F,
> {
    /// Whether 2147483648 comes next, which after a minus sign is the least `int`.
    #[tactic(auto, using(crate::proofs::Readers::least_none, crate::proofs::Readers::least_some, crate::proofs::Readers::least_other))]
    fn is_least(&self, tokens: &Tokens<'_>) -> bool
        ensures { result ≡ parsing.is_least self.now.line.now
            (expression self.now.line.now self.now.depth) tokens.now }
    {
        match tokens.next() {
            Some((token, _)) => {
                token.kind == Kind::Integer
                    && literals::is_largest(literals::bytes_of(self.line, token))
            }
            None => false,
        }
    }

    /// After a minus sign: 2147483648 or a unary expression.
    #[tactic(auto, unfolding(lq_grammar::specs::Parsing::below_zero))]
    fn below_zero(&self, tokens: &mut Tokens<'_>) -> Result<Expr, ParseError>
        requires { Nests self.now.depth (F.pre self.now.inner) (F.post self.now.inner) }
        ensures { Reads (parsing.below_zero self.now.line.now
            (expression self.now.line.now self.now.depth) tokens.old) result tokens.new }
    {
        if self.is_least(tokens) {
            tokens.expect(Kind::Integer)?;
            return Ok(Expr::Node(Node::Integer(i32::MIN)));
        }
        let x = self.held(tokens, Level::Unary)?;
        Ok(Expr::Node(Node::Unary(Unary::Minus, x)))
    }

    /// `primary | ("!" | "-") unary`
    #[tactic(auto, unfolding(lq_grammar::specs::Parsing::prefix, lq_grammar::specs::Parsing::after))]
    fn prefix(&self, tokens: &mut Tokens<'_>) -> Result<Expr, ParseError>
        requires { Nests self.now.depth (F.pre self.now.inner) (F.post self.now.inner) }
        ensures { Reads (parsing.prefix self.now.line.now
            (expression self.now.line.now self.now.depth) tokens.old) result tokens.new }
    {
        if tokens.eat(Kind::Not) {
            let x = self.held(tokens, Level::Unary)?;
            return Ok(Expr::Node(Node::Unary(Unary::Not, x)));
        }
        if tokens.eat(Kind::Minus) {
            return self.below_zero(tokens);
        }
        self.primary(tokens)
    }

    /// Operands of the levels below `level`, joined by operators of those levels from the left.
    fn chain(&self, tokens: &mut Tokens<'_>, level: usize) -> Result<Expr, ParseError>
        requires { Nests self.now.depth (F.pre self.now.inner) (F.post self.now.inner) }
        ensures { Reads (parsing.chain self.now.line.now
            (expression self.now.line.now self.now.depth) level tokens.old) result tokens.new }
    {
        if level == 0 {
            return self.prefix(tokens);
        }
        let mut x = self.chain(tokens, level - 1)?;
        for _turn in 0..tokens.left() {
            let Some(between) = operators::operator(level - 1, tokens.peek()) else {
                return Ok(x);
            };
            tokens.skip();
            let left = Held::new(self.alloc, x)?;
            let right = Held::new(self.alloc, self.chain(tokens, level - 1)?)?;
            x = operators::operation_of(between, left, right);
        }
        Ok(x)
    }

    /// `or ["??" coal]`
    #[tactic(auto, unfolding(lq_grammar::specs::Parsing::coalescing, lq_grammar::specs::Parsing::after))]
    fn coalescing(&self, tokens: &mut Tokens<'_>) -> Result<Expr, ParseError>
        requires { Nests self.now.depth (F.pre self.now.inner) (F.post self.now.inner) }
        ensures { Reads (parsing.coalescing self.now.line.now
            (expression self.now.line.now self.now.depth) tokens.old) result tokens.new }
    {
        let x = self.chain(tokens, operators::LEVELS)?;
        if !tokens.eat(Kind::Coalesce) {
            return Ok(x);
        }
        let x = Held::new(self.alloc, x)?;
        let y = self.held(tokens, Level::Coalescing)?;
        Ok(Expr::Node(Node::Coalesce(x, y)))
    }

    /// `coal ["?" cond ":" cond]`
    #[tactic(auto, unfolding(lq_grammar::specs::Parsing::conditional, lq_grammar::specs::Parsing::after))]
    fn conditional(&self, tokens: &mut Tokens<'_>) -> Result<Expr, ParseError>
        requires { Nests self.now.depth (F.pre self.now.inner) (F.post self.now.inner) }
        ensures { Reads (parsing.conditional self.now.line.now
            (expression self.now.line.now self.now.depth) tokens.old) result tokens.new }
    {
        let x = self.coalescing(tokens)?;
        if !tokens.eat(Kind::Question) {
            return Ok(x);
        }
        let x = Held::new(self.alloc, x)?;
        let y = self.held(tokens, Level::Conditional)?;
        tokens.expect(Kind::Colon)?;
        let z = self.held(tokens, Level::Conditional)?;
        Ok(Expr::Node(Node::Conditional(x, y, z)))
    }

    /// A query or a conditional expression.
    #[tactic(auto, unfolding(lq_grammar::specs::Parsing::top))]
    fn top(&self, tokens: &mut Tokens<'_>) -> Result<Expr, ParseError>
        requires { Nests self.now.depth (F.pre self.now.inner) (F.post self.now.inner) }
        ensures { Reads (parsing.top self.now.line.now
            (expression self.now.line.now self.now.depth) tokens.old) result tokens.new }
    {
        if tokens.is_next(Kind::From) {
            let query = self.query(tokens)?;
            return Ok(Expr::Query(Held::new(self.alloc, query)?));
        }
        self.conditional(tokens)
    }

    /// A line of the grammar that is led back to, from its first rule on.
    #[tactic(auto, unfolding(lq_grammar::specs::Parsing::rule))]
    pub fn rule(&self, tokens: &mut Tokens<'_>, level: Level) -> Result<Expr, ParseError>
        requires { Nests self.now.depth (F.pre self.now.inner) (F.post self.now.inner) }
        ensures { Reads (parsing.rule self.now.line.now
            (expression self.now.line.now self.now.depth) level tokens.old) result tokens.new }
    {
        match level {
            Level::Top => self.top(tokens),
            Level::Conditional => self.conditional(tokens),
            Level::Coalescing => self.coalescing(tokens),
            Level::Unary => self.prefix(tokens),
            Level::Primary => self.primary(tokens),
        }
    }
}
