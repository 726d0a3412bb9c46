//! Which values are one key.
ghost use Rattle.std.specs.Prelude.{◌≡◌};
ghost use Rattle.std.specs.Cmp.Lexicographic.{pointwise};
ghost use Rattle.lq_value.specs.SameAndOrder.{same_scalars, same_values, same_member};

use crate::scalar::Scalar;
use crate::txt::Txt;
use crate::value::{RowRef, Value};

/// Whether two values are the same, as .NET's default equality has it for ints, truth values, texts
/// and anonymous objects: two scalars where both are null or both hold one content, two records
/// where all members are, names and values, in their order. A row, a group and a sequence aren't
/// keys: such a value is the same as none, not even as itself. Takes no memory.
#[cycle(sameness)]
#[tactic(auto, using(crate::proofs::SamenessLaws::sameness))]
pub fn same<R: RowRef>(left: &Value<R>, right: &Value<R>) -> bool
    ensures { result ≡ same_values left.now right.now }
{
    match (left, right) {
        (Value::Scalar(left), Value::Scalar(right)) => are_same_contents(left, right),
        (Value::Rec(left), Value::Rec(right)) => are_same_members(
            left.as_slice(),
            right.as_slice(),
        ),
        _ => false,
    }
}

pub(crate) fn are_same_contents(left: &Scalar, right: &Scalar) -> bool
    ensures { result ≡ same_scalars left.now right.now }
{
    match (left, right) {
        (Scalar::Null, Scalar::Null) => true,
        (Scalar::Int(left), Scalar::Int(right)) => left == right,
        (Scalar::Bool(left), Scalar::Bool(right)) => left == right,
        (Scalar::Text(left), Scalar::Text(right)) => left.as_str() == right.as_str(),
        _ => false,
    }
}

#[cycle(sameness)]
#[tactic(auto, using(crate::proofs::SamenessLaws::sameness))]
fn are_same_members<R: RowRef>(left: &[(Txt, Value<R>)], right: &[(Txt, Value<R>)]) -> bool
    ensures { result ≡ pointwise same_member left.now right.now }
{
    let mut rest = right;
    for (name, value) in left {
        match rest.split_first() {
            Some(((other, member), others)) => {
                if name.as_str() != other.as_str() || !same(value, member) {
                    return false;
                }
                rest = others;
            }
            None => return false,
        }
    }
    rest.is_empty()
}
