//! Operands as they are evaluated: rows by their names, and scalars, borrowed where they are.
use crate::scalar_ref::ScalarRef;
use lq_value::{Fault, Txt};

/// What an expression is where it is evaluated.
#[derive(Drop)]
pub(crate) enum Operand<'a> {
    /// The row that a local name refers to.
    Row(&'a str),
    /// A scalar, borrowed from a literal, a name or a cell, or small.
    Scalar(ScalarRef<'a>),
    /// A text that was built.
    Text(Txt),
}

impl Operand<'_> {
    ghost use Rattle.std.specs.Prelude.{◌≡◌, option_map, Ok};
    ghost use Rattle.lq_language.specs.OperandMeaning.{is_null};
    ghost use Rattle.lq_language.specs.Operations.{on_ok, truth_of};
    ghost use Rattle.lq_value.specs.declared.value.Fault.TheVariants as fault;
    ghost use Rattle.lq_scalar.specs.Operands.{shown_scalar, shown_scalars};
    ghost use Rattle.lq_scalar.specs.Shapes.{operand_part, operand_scalar};

    /// The scalar that it is, if it isn't a row.
    pub(crate) fn part(&self) -> Option<ScalarRef<'_>>
        ensures { option_map shown_scalar result ≡ operand_part self.now }
    {
        match self {
            Operand::Row(_) => None,
            Operand::Scalar(scalar) => Some(*scalar),
            Operand::Text(text) => Some(ScalarRef::Text(text.as_str())),
        }
    }

    /// The scalar that it is. A row isn't one, and no typed expression has one where a scalar is asked
    /// for.
    pub(crate) fn scalar(&self) -> Result<ScalarRef<'_>, Fault>
        ensures { shown_scalars result ≡ operand_scalar self.now }
    {
        self.part().ok_or(Fault::NullReference)
    }

    /// The truth value that it is.
    pub(crate) fn truth(self) -> Result<bool, Fault>
        ensures { result ≡ on_ok (operand_scalar self.entry) (truth_of fault.NullReference) }
    {
        match self {
            Operand::Scalar(ScalarRef::Bool(truth)) => Ok(truth),
            _ => Err(Fault::NullReference),
        }
    }

    /// Whether it is null. A row isn't.
    pub(crate) fn is_null(&self) -> Result<bool, Fault>
        ensures { result ≡ on_ok (operand_scalar self.now) (λ s. Ok (is_null s)) }
    {
        Ok(matches!(self.scalar()?, ScalarRef::Null))
    }
}
