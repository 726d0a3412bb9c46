//! The scalar and the truth value that an expression means (ECMA-334, expressions).
ghost use Rattle.std.specs.Prelude.{◌≡◌};
ghost use Rattle.lq_scalar.specs.Operands.{IsAnswer};
ghost use Rattle.lq_scalar.specs.Sums.{sums_in};
ghost use Rattle.lq_scalar.specs.Shapes.{IsEvaluatedScalar, IsSparing, IsTruth, scalar_of_expression, truth_of_expression};

use crate::error::ScalarError;
use crate::evaluation::Evaluation;
use crate::names::Names;
use crate::operand::Operand;
use crate::scalar_ref::ScalarRef;
use lq_grammar::Expr;
use lq_value::{Fault, Scalar, Txt};
use std::alloc::Global;

/// A scalar as it was evaluated.
#[derive(Drop)]
pub enum EvaluatedScalar<'a> {
    /// One that is in a literal, a name or a cell, or is small.
    Borrowed(ScalarRef<'a>),
    /// A text that was built.
    Text(Txt),
}

impl EvaluatedScalar<'_> {
    ghost use Rattle.std.specs.Prelude.{◌≡◌};
    ghost use Rattle.lq_scalar.specs.Operands.{shown_scalar};
    ghost use Rattle.lq_scalar.specs.Shapes.{evaluated_scalar};

    /// The scalar, borrowed.
    pub fn scalar(&self) -> ScalarRef<'_>
        ensures { shown_scalar result ≡ evaluated_scalar self.now }
    {
        match self {
            EvaluatedScalar::Borrowed(scalar) => *scalar,
            EvaluatedScalar::Text(text) => ScalarRef::Text(text.as_str()),
        }
    }
}

/// The scalar that an expression means under these names, or its first fault. Copies no text
/// that is there, and takes memory for texts that `+` makes and for nothing else.
///
/// An expression that is a row or a sequence gives NullReference, as does a host predicate, of which
/// none is known here.
pub fn evaluate<'a, N: Names>(
    alloc: Global,
    names: &'a N,
    expression: &'a Expr,
) -> Result<EvaluatedScalar<'a>, ScalarError>
    ensures meant { IsEvaluatedScalar
        (scalar_of_expression (N.world names.now) (N.scope names.now) expression.now) result }
    ensures sparing { IsSparing (sums_in expression.now) result }
{
    let evaluation = Evaluation {
        names,
        texts: alloc,
    };
    match evaluation.operand(expression)? {
        Operand::Row(_) => Err(ScalarError::Fault(Fault::NullReference)),
        Operand::Scalar(scalar) => Ok(EvaluatedScalar::Borrowed(scalar)),
        Operand::Text(text) => Ok(EvaluatedScalar::Text(text)),
    }
}

/// The truth value that a condition means under these names, or its first fault. Takes memory
/// for texts that `+` makes and for nothing else.
pub fn truth<N: Names>(alloc: Global, names: &N, condition: &Expr) -> Result<bool, ScalarError>
    ensures meant { IsTruth
        (truth_of_expression (N.world names.now) (N.scope names.now) condition.now) result }
    ensures sparing { IsSparing (sums_in condition.now) result }
{
    let evaluation = Evaluation {
        names,
        texts: alloc,
    };
    evaluation.truth(condition)
}

/// The scalar that an expression means under these names, as a value of its own, or its first
/// fault. Takes memory for a text.
pub fn eval<N: Names>(alloc: Global, expression: &Expr, names: &N) -> Result<Scalar, ScalarError>
    ensures { IsAnswer (scalar_of_expression (N.world names.now) (N.scope names.now)
        expression.now) result }
{
    let evaluation = Evaluation {
        names,
        texts: alloc,
    };
    match evaluation.operand(expression)? {
        Operand::Row(_) => Err(ScalarError::Fault(Fault::NullReference)),
        Operand::Scalar(scalar) => Ok(scalar.to_scalar(alloc)?),
        Operand::Text(text) => Ok(Scalar::Text(text)),
    }
}
