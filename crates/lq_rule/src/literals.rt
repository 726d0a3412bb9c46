//! The literals of total rules, prepared: numbers with their signs, and texts.
ghost use Rattle.std.specs.Prelude.{◌≡◌, IfOk, List, ℕ};
ghost use Rattle.lq_value.specs.declared.scalar.Scalar.TheVariants as scalar;
ghost use Rattle.lq_value.specs.declared.value.Fault.TheVariants as fault;
ghost use Rattle.lq_language.specs.Operations.{negated};
ghost use Rattle.lq_grammar.specs.declared.syntax.Expr.{out-Expr};
ghost use Rattle.lq_grammar.specs.declared.syntax.Expr.TheVariants as expr;
ghost use Rattle.lq_grammar.specs.declared.syntax.Node.TheVariants as node;
ghost use Rattle.lq_grammar.specs.declared.syntax.Unary.TheVariants as unary;
ghost use Rattle.lq_scalar.specs.Operands.{int_or_overflow};
ghost use Rattle.lq_rule.specs.Standing.{StandsFor, integer_in, known};

use crate::prepared::Prepared;
use lq_grammar::{Expr, Node};
use lq_value::{Fault, Scalar, Txt};
use std::alloc::{AllocError, Global};

/// The text as a scalar of its own.
pub(crate) fn copied(alloc: Global, text: &Txt) -> Result<Scalar, AllocError>
    ensures { IfOk result (λ copy. copy ≡ scalar.Text text.now) }
{
    Ok(Scalar::Text(Txt::from_str(alloc, text.as_str())?))
}

/// The number with the other sign. A total rule has a minus sign before literals alone.
#[tactic(auto, using(crate::proofs::FormLemmas::stands_negative, crate::proofs::FormLemmas::stands_no_negative))]
pub(crate) fn negative(operand: &Expr) -> Prepared
    ensures { (columns : List (List ℕ))
        → StandsFor columns (expr.Node (node.Unary unary.Minus operand.now)) result }
{
    match integer_in(operand) {
        Some(number) => negative_of(number),
        None => Prepared::Fault(Fault::NullReference),
    }
}

/// A number with the other sign.
#[tactic(auto, using(lq_scalar::proofs::NumberLaws::checked_is))]
fn negative_of(number: i32) -> Prepared
    ensures { result ≡ known (negated fault.NullReference (scalar.Int number)) }
{
    int_or_overflow(number.checked_neg())
}

/// An int; None is one that no int holds.
fn int_or_overflow(number: Option<i32>) -> Prepared
    ensures { result ≡ known (int_or_overflow number) }
{
    match number {
        Some(number) => Prepared::Literal(Scalar::Int(number)),
        None => Prepared::Fault(Fault::Overflow),
    }
}

/// The number of an integer literal.
#[tactic(auto, using(crate::proofs::FormLemmas::layers))]
fn integer_in(expression: &Expr) -> Option<i32>
    ensures { result ≡ integer_in (out-Expr expression.now) }
{
    match expression {
        Expr::Node(Node::Integer(number)) => Some(*number),
        _ => None,
    }
}
