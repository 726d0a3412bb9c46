//! The members of anonymous objects.
ghost use Rattle.std.specs.Prelude.{◌≡◌, ◌-◌, length, slice_get};
ghost use Rattle.std.specs.Prelude.{List as Listed};
ghost use Rattle.lq_grammar.specs.Parsing as parsing;
ghost use Rattle.lq_grammar.specs.Parsing.{expression};
ghost use Rattle.lq_syntax.specs.Nests.{Nests};
ghost use Rattle.lq_syntax.specs.Outcome.{Reads};
ghost use Rattle.lq_syntax.specs.Parts as part;

use crate::cursor::Tokens;
use crate::error::ParseError;
use crate::grammar::Grammar;
use crate::literals;
use lq_grammar::{Expr, Field, Kind, Level, Token};
use lq_value::{List, Txt};
use std::alloc::Global;

/// The member `value`, whose name was read or not.
fn named_as<T: Drop>(name: Result<Txt, ParseError>, value: T) -> Result<Field<T>, ParseError>
    ensures { result ≡ part.field_as name value }
{
    match name {
        Ok(name) => Ok(Field { name, value }),
        Err(stopped) => Err(stopped),
    }
}

/// The last of the tokens `all` in front of those that are left, which are so many.
fn last_before(all: &[Token], left: usize) -> Option<Token>
    ensures { result ≡ slice_get all.now (length all.now - left - 1) }
{
    all.get(all.len().saturating_sub(left).saturating_sub(1))
        .copied()
}

impl<'a, F: Fn(Global, &[u8], &mut Tokens<'_>, usize, Level) -> Result<Expr, ParseError>> Grammar<
    'a,
    F,
> {
    /// `name "=" cond`
    fn assigned(&self, tokens: &mut Tokens<'_>) -> Result<Field<Expr>, ParseError>
        requires { Nests self.now.depth (F.pre self.now.inner) (F.post self.now.inner) }
        ensures { Reads (part.assigned self.now.line.now
            (expression self.now.line.now self.now.depth) tokens.old) result tokens.new }
    {
        let name = literals::name(self.alloc, self.line, tokens)?;
        tokens.expect(Kind::Assign)?;
        let value = self.inner(tokens, Level::Conditional)?;
        Ok(Field { name, value })
    }

    /// The name that a token is.
    #[tactic(auto, unfolding(lq_grammar::specs::Parsing::same_kind))]
    fn named_by(&self, token: Option<Token>) -> Result<Txt, ParseError>
        ensures { (left : Listed Token) → Reads (part.named_by self.now.line.now token left) result
            left }
    {
        let Some(token) = token else {
            return Err(ParseError::Syntax);
        };
        if token.kind == Kind::Name {
            literals::spelling_of(self.alloc, self.line, token)
        } else {
            Err(ParseError::Syntax)
        }
    }

    /// `name | primary "." name`: a member that is called as its last token, which is a name.
    fn named_last(&self, tokens: &mut Tokens<'_>) -> Result<Field<Expr>, ParseError>
        requires { Nests self.now.depth (F.pre self.now.inner) (F.post self.now.inner) }
        ensures { Reads (part.named_last self.now.line.now
            (expression self.now.line.now self.now.depth) tokens.old) result tokens.new }
    {
        let all = tokens.rest();
        let value = self.inner(tokens, Level::Primary)?;
        named_as(self.named_by(last_before(all, tokens.left())), value)
    }

    /// `name "=" cond | name | primary "." name`
    #[tactic(auto, unfolding(lq_grammar::specs::Parsing::field))]
    fn field(&self, tokens: &mut Tokens<'_>) -> Result<Field<Expr>, ParseError>
        requires { Nests self.now.depth (F.pre self.now.inner) (F.post self.now.inner) }
        ensures { Reads (parsing.field self.now.line.now
            (expression self.now.line.now self.now.depth) tokens.old) result tokens.new }
    {
        if tokens.are_next(Kind::Name, Kind::Assign) {
            return self.assigned(tokens);
        }
        self.named_last(tokens)
    }

    /// `[member {"," member} [","]] "}"`
    #[tactic(auto, unfolding(lq_grammar::specs::Parsing::fields, lq_grammar::specs::Parsing::after))]
    pub fn fields(&self, tokens: &mut Tokens<'_>) -> Result<List<Field<Expr>>, ParseError>
        requires { Nests self.now.depth (F.pre self.now.inner) (F.post self.now.inner) }
        ensures { Reads (parsing.fields self.now.line.now
            (expression self.now.line.now self.now.depth) tokens.old) result tokens.new }
    {
        let mut fields = List::new(self.alloc);
        if tokens.eat(Kind::RightBrace) {
            return Ok(fields);
        }
        fields.push(self.field(tokens)?)?;
        for _turn in 0..tokens.left() {
            if tokens.eat(Kind::RightBrace) {
                return Ok(fields);
            }
            tokens.expect(Kind::Comma)?;
            if tokens.eat(Kind::RightBrace) {
                return Ok(fields);
            }
            let next = self.field(tokens)?;
            fields.push(next)?;
        }
        Err(ParseError::Syntax)
    }
}
