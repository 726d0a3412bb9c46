//! What reading a text may end in.
ghost use Rattle.std.specs.Prelude.{◌≡◌};

use std::alloc::AllocError;

/// Why a text has no tree.
#[derive(Debug, Drop, thiserror::Error)]
pub enum SyntaxError {
    /// Memory was refused, so that nothing is known of the text.
    #[error("memory")]
    Memory,
    /// The text is not of the grammar.
    #[error("syntax")]
    Syntax,
    /// The text is deeper than a tree may be.
    #[error("too deep")]
    TooDeep,
}

/// Why the parser stops.
#[derive(Drop)]
pub enum ParseError {
    /// Memory was refused, so that nothing is known of the tokens.
    Memory,
    /// The tokens spell nothing.
    Syntax,
}

impl From<ParseError> for SyntaxError {
    ghost use Rattle.lq_syntax.specs.Outcome.{syntax_error};

    ghost from_gives = { λ stopped e. e ≡ syntax_error stopped };

    fn from(error: ParseError) -> SyntaxError {
        match error {
            ParseError::Memory => SyntaxError::Memory,
            ParseError::Syntax => SyntaxError::Syntax,
        }
    }
}

impl From<AllocError> for ParseError {
    ghost use Rattle.lq_syntax.specs.declared.error.ParseError.TheVariants.{Memory};

    ghost from_gives = { λ _ e. e ≡ Memory };

    fn from(_: AllocError) -> ParseError {
        ParseError::Memory
    }
}
