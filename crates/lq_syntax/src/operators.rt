//! Signs between two operands.
ghost use Rattle.std.specs.Prelude.{◌≡◌};
ghost use Rattle.lq_grammar.specs.Grammar as grammar;

use lq_grammar::{Binary, Expr, Infix, Kind, Node};
use lq_value::Held;

/// How many levels of them there are.
pub const LEVELS: usize = 6;

/// The level of a sign and its operator. Level 0 is the tightest, that of `*`.
fn infix_of(kind: Kind) -> Option<(usize, Infix)>
    ensures { result ≡ grammar.infix_of kind }
{
    match kind {
        Kind::Star => Some((0, Infix::Binary(Binary::Multiply))),
        Kind::Slash => Some((0, Infix::Binary(Binary::Divide))),
        Kind::Percent => Some((0, Infix::Binary(Binary::Remainder))),
        Kind::Plus => Some((1, Infix::Binary(Binary::Add))),
        Kind::Minus => Some((1, Infix::Binary(Binary::Subtract))),
        Kind::Less => Some((2, Infix::Binary(Binary::Less))),
        Kind::Greater => Some((2, Infix::Binary(Binary::Greater))),
        Kind::LessOrEqual => Some((2, Infix::Binary(Binary::LessOrEqual))),
        Kind::GreaterOrEqual => Some((2, Infix::Binary(Binary::GreaterOrEqual))),
        Kind::Equal => Some((3, Infix::Binary(Binary::Equal))),
        Kind::NotEqual => Some((3, Infix::Binary(Binary::NotEqual))),
        Kind::And => Some((4, Infix::And)),
        Kind::Or => Some((5, Infix::Or)),
        _ => None,
    }
}

/// The operator of a level that a sign represents.
pub fn operator(level: usize, kind: Kind) -> Option<Infix>
    ensures { result ≡ grammar.operator level kind }
{
    let (found, between) = infix_of(kind)?;
    if found == level { Some(between) } else { None }
}

/// Two operands under an operator.
pub fn operation_of(between: Infix, x: Held<Expr>, y: Held<Expr>) -> Expr
    ensures { result ≡ grammar.operation_of between x y }
{
    Expr::Node(match between {
        Infix::Binary(binary) => Node::Binary(binary, x, y),
        Infix::And => Node::And(x, y),
        Infix::Or => Node::Or(x, y),
    })
}
