//! The clauses of queries (ECMA-334, query expressions).
ghost use Rattle.std.specs.Prelude.{◌≡◌};
ghost use Rattle.lq_grammar.specs.Parsing as parsing;
ghost use Rattle.lq_grammar.specs.Parsing.{expression};
ghost use Rattle.lq_syntax.specs.Nests.{Nests};
ghost use Rattle.lq_syntax.specs.Outcome.{Reads};
ghost use Rattle.std.specs.Prelude.{is_some};
ghost use Rattle.lq_syntax.specs.Parts as part;

use crate::cursor::Tokens;
use crate::error::ParseError;
use crate::grammar::Grammar;
use crate::literals;
use lq_grammar::{Clause, Expr, Join, Kind, Level, SortKey};
use lq_value::{Held, List, Txt};
use std::alloc::Global;

impl<'a, F: Fn(Global, &[u8], &mut Tokens<'_>, usize, Level) -> Result<Expr, ParseError>> Grammar<
    'a,
    F,
> {
    /// `"in" cond`
    #[tactic(auto, unfolding(lq_grammar::specs::Parsing::source))]
    pub fn source(&self, tokens: &mut Tokens<'_>) -> Result<Expr, ParseError>
        requires { Nests self.now.depth (F.pre self.now.inner) (F.post self.now.inner) }
        ensures { Reads (parsing.source self.now.line.now
            (expression self.now.line.now self.now.depth) tokens.old) result tokens.new }
    {
        tokens.expect(Kind::In)?;
        self.inner(tokens, Level::Conditional)
    }

    /// `cond ["ascending" | "descending"]`
    #[tactic(auto, unfolding(lq_grammar::specs::Parsing::key, lq_grammar::specs::Parsing::after))]
    fn key(&self, tokens: &mut Tokens<'_>) -> Result<SortKey<Expr>, ParseError>
        requires { Nests self.now.depth (F.pre self.now.inner) (F.post self.now.inner) }
        ensures { Reads (parsing.key self.now.line.now
            (expression self.now.line.now self.now.depth) tokens.old) result tokens.new }
    {
        let value = self.inner(tokens, Level::Conditional)?;
        if tokens.eat(Kind::Ascending) {
            return Ok(SortKey {
                value,
                descending: false,
            });
        }
        let descending = tokens.eat(Kind::Descending);
        Ok(SortKey { value, descending })
    }

    /// `key {"," key}`
    #[tactic(auto, unfolding(lq_grammar::specs::Parsing::keys))]
    fn keys(&self, tokens: &mut Tokens<'_>) -> Result<List<SortKey<Expr>>, ParseError>
        requires { Nests self.now.depth (F.pre self.now.inner) (F.post self.now.inner) }
        ensures { Reads (parsing.keys self.now.line.now
            (expression self.now.line.now self.now.depth) tokens.old) result tokens.new }
    {
        let mut keys = List::new(self.alloc);
        keys.push(self.key(tokens)?)?;
        for _turn in 0..tokens.left() {
            if !tokens.eat(Kind::Comma) {
                return Ok(keys);
            }
            let next = self.key(tokens)?;
            keys.push(next)?;
        }
        Ok(keys)
    }

    /// `["into" name]`
    #[tactic(auto, unfolding(lq_grammar::specs::Parsing::group_name, lq_grammar::specs::Parsing::after))]
    fn group_name(&self, tokens: &mut Tokens<'_>) -> Result<Option<Txt>, ParseError>
        requires { Nests self.now.depth (F.pre self.now.inner) (F.post self.now.inner) }
        ensures { Reads (parsing.group_name self.now.line.now
            (expression self.now.line.now self.now.depth) tokens.old) result tokens.new }
    {
        if !tokens.eat(Kind::Into) {
            return Ok(None);
        }
        Ok(Some(literals::name(self.alloc, self.line, tokens)?))
    }

    /// After `join name "in" cond`: `"on" cond "equals" cond ["into" name]`
    fn join_behind(
        &self,
        name: Txt,
        source: Held<Expr>,
        tokens: &mut Tokens<'_>,
    ) -> Result<Clause<Expr>, ParseError>
        requires { Nests self.now.depth (F.pre self.now.inner) (F.post self.now.inner) }
        ensures { Reads (part.join_behind self.now.line.now
            (expression self.now.line.now self.now.depth) name source tokens.old) result
            tokens.new }
    {
        tokens.expect(Kind::On)?;
        let outer_key = self.held(tokens, Level::Conditional)?;
        tokens.expect(Kind::Equals)?;
        let inner_key = self.held(tokens, Level::Conditional)?;
        let into = self.group_name(tokens)?;
        Ok(Clause::Join(Join {
            name,
            source: source.into_inner(),
            outer_key: outer_key.into_inner(),
            inner_key: inner_key.into_inner(),
            into,
        }))
    }

    /// After `join`: `name "in" cond "on" cond "equals" cond ["into" name]`
    #[tactic(auto, unfolding(lq_grammar::specs::Parsing::join))]
    fn join(&self, tokens: &mut Tokens<'_>) -> Result<Clause<Expr>, ParseError>
        requires { Nests self.now.depth (F.pre self.now.inner) (F.post self.now.inner) }
        ensures { Reads (parsing.join self.now.line.now
            (expression self.now.line.now self.now.depth) tokens.old) result tokens.new }
    {
        let name = literals::name(self.alloc, self.line, tokens)?;
        let source = Held::new(self.alloc, self.source(tokens)?)?;
        self.join_behind(name, source, tokens)
    }

    /// After `from`: `name "in" cond`
    fn from_clause(&self, tokens: &mut Tokens<'_>) -> Result<Clause<Expr>, ParseError>
        requires { Nests self.now.depth (F.pre self.now.inner) (F.post self.now.inner) }
        ensures { Reads (part.from_clause self.now.line.now
            (expression self.now.line.now self.now.depth) tokens.old) result tokens.new }
    {
        let name = literals::name(self.alloc, self.line, tokens)?;
        Ok(Clause::From(name, self.source(tokens)?))
    }

    /// After `let`: `name "=" cond`
    fn let_clause(&self, tokens: &mut Tokens<'_>) -> Result<Clause<Expr>, ParseError>
        requires { Nests self.now.depth (F.pre self.now.inner) (F.post self.now.inner) }
        ensures { Reads (part.let_clause self.now.line.now
            (expression self.now.line.now self.now.depth) tokens.old) result tokens.new }
    {
        let name = literals::name(self.alloc, self.line, tokens)?;
        tokens.expect(Kind::Assign)?;
        Ok(Clause::Let(name, self.inner(tokens, Level::Conditional)?))
    }

    /// A clause after its first word, which is of the kind `word`.
    fn clause(&self, word: Kind, tokens: &mut Tokens<'_>) -> Result<Clause<Expr>, ParseError>
        requires { Nests self.now.depth (F.pre self.now.inner) (F.post self.now.inner) }
        ensures { Reads (part.clause_behind self.now.line.now
            (expression self.now.line.now self.now.depth) word tokens.old) result tokens.new }
    {
        match word {
            Kind::From => self.from_clause(tokens),
            Kind::Let => self.let_clause(tokens),
            Kind::Where => Ok(Clause::Where(self.inner(tokens, Level::Conditional)?)),
            Kind::Join => self.join(tokens),
            Kind::OrderBy => Ok(Clause::OrderBy(self.keys(tokens)?)),
            _ => Err(ParseError::Syntax),
        }
    }

    /// Whether a clause begins with a word of this kind.
    fn is_clause_start(&self, word: Kind) -> bool
        ensures { result
            ≡ is_some (parsing.clause_by self.now.line.now
            (expression self.now.line.now self.now.depth) word) }
    {
        matches!(
            word,
            Kind::From | Kind::Let | Kind::Where | Kind::Join | Kind::OrderBy
        )
    }

    /// The clauses that come next.
    pub fn clauses(&self, tokens: &mut Tokens<'_>) -> Result<List<Clause<Expr>>, ParseError>
        requires { Nests self.now.depth (F.pre self.now.inner) (F.post self.now.inner) }
        ensures { Reads (part.all_clauses self.now.line.now
            (expression self.now.line.now self.now.depth) tokens.old) result tokens.new }
    {
        let mut clauses = List::new(self.alloc);
        for _turn in 0..tokens.left() {
            let word = tokens.peek();
            if !self.is_clause_start(word) {
                return Ok(clauses);
            }
            tokens.skip();
            clauses.push(self.clause(word, tokens)?)?;
        }
        Ok(clauses)
    }
}
