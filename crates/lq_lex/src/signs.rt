//! Signs, the longest first.
ghost use Rattle.std.specs.Prelude.{◌≡◌};
ghost use Rattle.lq_grammar.specs.Tokens as token;

use crate::lexer::Piece;
use lq_grammar::Kind;

/// The sign of `first` alone, which no longer sign begins with.
fn short_sign(first: char) -> Option<Piece>
    ensures { result ≡ token.short_sign first }
{
    let kind = match first {
        '(' => Kind::LeftParenthesis,
        ')' => Kind::RightParenthesis,
        '{' => Kind::LeftBrace,
        '}' => Kind::RightBrace,
        '.' => Kind::Dot,
        ',' => Kind::Comma,
        ';' => Kind::Semicolon,
        ':' => Kind::Colon,
        '-' => Kind::Minus,
        '+' => Kind::Plus,
        '*' => Kind::Star,
        '/' => Kind::Slash,
        '%' => Kind::Percent,
        _ => return None,
    };
    Some((Some(kind), 0))
}

/// The longest sign that begins with `first`, where `next` follows.
pub fn sign(first: char, next: char) -> Option<Piece>
    ensures { result ≡ token.sign first next }
{
    let (kind, more) = match (first, next) {
        ('=', '>') => (Kind::Arrow, 1),
        ('=', '=') => (Kind::Equal, 1),
        ('=', _) => (Kind::Assign, 0),
        ('?', '?') => (Kind::Coalesce, 1),
        ('?', _) => (Kind::Question, 0),
        ('!', '=') => (Kind::NotEqual, 1),
        ('!', _) => (Kind::Not, 0),
        ('<', '=') => (Kind::LessOrEqual, 1),
        ('<', _) => (Kind::Less, 0),
        ('>', '=') => (Kind::GreaterOrEqual, 1),
        ('>', _) => (Kind::Greater, 0),
        ('&', '&') => (Kind::And, 1),
        ('&', _) => return None,
        ('|', '|') => (Kind::Or, 1),
        ('|', _) => return None,
        _ => return short_sign(first),
    };
    Some((Some(kind), more))
}
