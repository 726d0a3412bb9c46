//! Scalars as operands, borrowed so that no text is copied to be looked at.
ghost use Rattle.std.specs.Prelude.{◌≡◌};

use lq_value::{Scalar, Txt};
use std::alloc::{AllocError, Global};

/// A scalar as an operand, borrowed from the cell or value that it is in.
#[derive(Clone, Copy, Drop)]
pub enum ScalarRef<'a> {
    /// Null.
    Null,
    /// An int.
    Int(i32),
    /// A truth value.
    Bool(bool),
    /// A text.
    Text(&'a str),
}

impl<'a> ScalarRef<'a> {
    ghost use Rattle.std.specs.Prelude.{◌≡◌, IfOk};
    ghost use Rattle.lq_scalar.specs.Operands.{shown_scalar};

    /// A scalar, borrowed.
    pub fn of(scalar: &'a Scalar) -> ScalarRef<'a>
        ensures { shown_scalar result ≡ scalar.now }
    {
        match scalar {
            Scalar::Null => ScalarRef::Null,
            Scalar::Int(number) => ScalarRef::Int(*number),
            Scalar::Bool(truth) => ScalarRef::Bool(*truth),
            Scalar::Text(text) => ScalarRef::Text(text.as_str()),
        }
    }

    /// The scalar as a value of its own. Takes memory for a text.
    pub fn to_scalar(self, alloc: Global) -> Result<Scalar, AllocError>
        ensures { IfOk result (λ copy. copy ≡ shown_scalar self.entry) }
    {
        match self {
            ScalarRef::Null => Ok(Scalar::Null),
            ScalarRef::Int(number) => Ok(Scalar::Int(number)),
            ScalarRef::Bool(truth) => Ok(Scalar::Bool(truth)),
            ScalarRef::Text(text) => Ok(Scalar::Text(Txt::from_str(alloc, text)?)),
        }
    }
}
