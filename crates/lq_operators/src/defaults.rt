//! What is given where there is no item.
ghost use Rattle.std.specs.Prelude.{◌≡◌};
ghost use Rattle.lq_language.specs.Meaning.{default_of, no_number};

use lq_value::{Fault, RowRef, Scalar, Ty, Value};

// The default of a type: 0, false, or null.
#[tactic(auto, using(crate::proofs::Opens::types))]
pub(crate) fn default_of<R: RowRef>(ty: &Ty) -> Value<R>
    ensures { result ≡ default_of ty.now }
{
    match ty {
        Ty::Int => Value::Scalar(Scalar::Int(0)),
        Ty::Bool => Value::Scalar(Scalar::Bool(false)),
        Ty::IntN => Value::Scalar(Scalar::Null),
        Ty::Str => Value::Scalar(Scalar::Null),
        Ty::Null => Value::Scalar(Scalar::Null),
        Ty::Row(_) => Value::Scalar(Scalar::Null),
        Ty::Rec(_) => Value::Scalar(Scalar::Null),
        Ty::Seq(_) => Value::Scalar(Scalar::Null),
        Ty::Group(_, _) => Value::Scalar(Scalar::Null),
    }
}

// What the least and the greatest of no number are: null of `int?`, and a fault of `int`.
#[tactic(auto, using(crate::proofs::Opens::types))]
pub(crate) fn no_number(ty: &Ty) -> Result<Scalar, Fault>
    ensures { result ≡ no_number ty.now }
{
    match ty {
        Ty::Int => Err(Fault::InvalidOperation),
        Ty::Bool => Ok(Scalar::Null),
        Ty::IntN => Ok(Scalar::Null),
        Ty::Str => Ok(Scalar::Null),
        Ty::Null => Ok(Scalar::Null),
        Ty::Row(_) => Ok(Scalar::Null),
        Ty::Rec(_) => Ok(Scalar::Null),
        Ty::Seq(_) => Ok(Scalar::Null),
        Ty::Group(_, _) => Ok(Scalar::Null),
    }
}
