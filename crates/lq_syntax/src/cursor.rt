//! A cursor over the tokens of a text.
ghost use Rattle.std.specs.Prelude.{◌≡◌, ◌==◌, ◌∷◌, [], Some, length, IsTrue, IsFalse, MatchOption};
ghost use Rattle.lq_grammar.specs.Parsing as parsing;
ghost use Rattle.lq_syntax.specs.Outcome.{Reads, next_token};
ghost use Rattle.lq_syntax.specs.Parts.{any_token, closed_by};

use crate::error::ParseError;
use lq_grammar::{Kind, Token};
use std::marker::Model;

/// The tokens that are still to be read.
#[derive(Drop)]
pub struct Tokens<'a> {
    rest: &'a [Token],
}

impl<'a> Model for Tokens<'a> {
    ghost use Rattle.std.specs.Prelude.{List};
    ghost use Rattle.lq_grammar.specs.declared.token.Token.{Token};

    ghost Value = { List Token };

    ghost view = { λ t. t.rest.now };
}

impl<'a> Tokens<'a> {
    /// All of `tokens`, to be read from the first on.
    pub fn new(tokens: &'a [Token]) -> Tokens<'a>
        ensures { result ≡ tokens.now }
    {
        Tokens { rest: tokens }
    }

    /// Whether no token is left.
    pub fn is_empty(&self) -> bool
        ensures { result ≡ (length self.now == 0) }
    {
        self.rest.is_empty()
    }

    /// How many tokens are left.
    pub fn left(&self) -> usize
        ensures { result ≡ length self.now }
    {
        self.rest.len()
    }

    /// The tokens that are left.
    pub fn rest(&self) -> &'a [Token]
        ensures { result.now ≡ self.now }
    {
        self.rest
    }

    /// The next token, and those after it.
    #[tactic(auto, using(lq_lex::proofs::FrontLaws::head_tail))]
    pub fn next(&self) -> Option<(Token, &'a [Token])>
        ensures { MatchOption result (self.now ≡ []) (λ front. self.now ≡ front.0 ∷ front.1.now) }
    {
        match self.rest {
            [token, behind @ ..] => Some((*token, behind)),
            [] => None,
        }
    }

    /// The kind of the next token, that of a semicolon where none is left.
    #[tactic(auto, using(crate::proofs::Fronts::peek_none, crate::proofs::Fronts::peek_some))]
    pub fn peek(&self) -> Kind
        ensures { result ≡ parsing.peek self.now }
    {
        match self.next() {
            Some((token, _)) => token.kind,
            None => Kind::Semicolon,
        }
    }

    /// Passes over the next token, if one is left.
    #[tactic(auto, using(crate::proofs::Fronts::behind_none, crate::proofs::Fronts::behind_some))]
    pub fn skip(&mut self)
        ensures { self.new ≡ parsing.behind self.old }
    {
        if let Some((_, behind)) = self.next() {
            self.rest = behind;
        }
    }

    /// Whether a token of this kind comes next.
    #[tactic(auto, using(crate::proofs::Fronts::begins_none))]
    pub fn is_next(&self, kind: Kind) -> bool
        ensures { result ≡ parsing.begins_with kind self.now }
    {
        match self.next() {
            Some((token, _)) => token.kind == kind,
            None => false,
        }
    }

    /// Whether a token of the kind `first` comes next, and after it one of the kind `second`.
    #[tactic(auto, using(crate::proofs::Fronts::two_none))]
    pub fn are_next(&self, first: Kind, second: Kind) -> bool
        ensures { result ≡ parsing.begins_with_two first second self.now }
    {
        match self.next() {
            Some((token, behind)) => token.kind == first && Tokens::new(behind).is_next(second),
            None => false,
        }
    }

    /// Takes the next token.
    #[tactic(auto, using(crate::proofs::Fronts::any_none, crate::proofs::Fronts::any_some))]
    pub fn take(&mut self) -> Result<Token, ParseError>
        ensures { Reads (any_token self.old) result self.new }
    {
        let Some((token, behind)) = self.next() else {
            return Err(ParseError::Syntax);
        };
        self.rest = behind;
        Ok(token)
    }

    /// Takes the next token, which has to be of this kind.
    #[tactic(auto, using(crate::proofs::Fronts::expect_none))]
    pub fn expect(&mut self, kind: Kind) -> Result<Token, ParseError>
        ensures { Reads (parsing.expect kind self.old) result self.new }
    {
        let Some((token, behind)) = self.next() else {
            return Err(ParseError::Syntax);
        };
        if token.kind == kind {
            self.rest = behind;
            Ok(token)
        } else {
            Err(ParseError::Syntax)
        }
    }

    /// Gives back `x`, which was read, where the next token is of this kind, and takes that token. It takes
    /// `x` over, so that a caller has no tree to drop where the token is missing.
    pub fn close<T: Drop>(&mut self, kind: Kind, x: T) -> Result<T, ParseError>
        ensures { Reads (closed_by kind x self.old) result self.new }
    {
        self.expect(kind)?;
        Ok(x)
    }

    /// Passes over the next token if it is of this kind, and says whether it was.
    #[tactic(auto, using(crate::proofs::Fronts::eaten))]
    pub fn eat(&mut self, kind: Kind) -> bool
        ensures is { result ≡ parsing.begins_with kind self.old }
        ensures taken { IsTrue result → parsing.expect kind self.old
            ≡ Some (next_token self.old, self.new) }
        ensures left { IsFalse result → self.new ≡ self.old }
    {
        if !self.is_next(kind) {
            return false;
        }
        self.skip();
        true
    }
}
