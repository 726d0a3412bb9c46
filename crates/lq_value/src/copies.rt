//! Copies of values.
ghost use Rattle.std.specs.Prelude.{◌≡◌, IfOk};

use crate::held::Held;
use crate::list::List;
use crate::scalar::Scalar;
use crate::txt::Txt;
use crate::value::{RowRef, Value};
use std::alloc::{AllocError, Global};

/// A scalar equal to `scalar`.
pub fn copy_scalar(alloc: Global, scalar: &Scalar) -> Result<Scalar, AllocError>
    ensures { IfOk result (λ copy. copy ≡ scalar.now) }
{
    match scalar {
        Scalar::Null => Ok(Scalar::Null),
        Scalar::Int(number) => Ok(Scalar::Int(*number)),
        Scalar::Bool(truth) => Ok(Scalar::Bool(*truth)),
        Scalar::Text(text) => Ok(Scalar::Text(Txt::from_str(alloc, text.as_str())?)),
    }
}

/// A value equal to `value`, of the same rows.
#[cycle(copying)]
pub fn copy<R: RowRef>(alloc: Global, value: &Value<R>) -> Result<Value<R>, AllocError>
    ensures { IfOk result (λ copy. copy ≡ value.now) }
{
    match value {
        Value::Scalar(scalar) => Ok(Value::Scalar(copy_scalar(alloc, scalar)?)),
        Value::Row(row) => Ok(Value::Row(row.again())),
        Value::Rec(members) => Ok(Value::Rec(copy_members(alloc, members)?)),
        Value::Group(key, elements) => {
            let key = Held::new(alloc, copy(alloc, key.get())?)?;
            Ok(Value::Group(key, copy_values(alloc, elements)?))
        }
        Value::Seq(items, end) => Ok(Value::Seq(copy_values(alloc, items)?, *end)),
    }
}

#[cycle(copying)]
fn copy_values<R: RowRef>(
    alloc: Global,
    values: &List<Value<R>>,
) -> Result<List<Value<R>>, AllocError>
    ensures { IfOk result (λ copy. copy ≡ values.now) }
{
    let mut copies = List::new(alloc);
    for value in values.as_slice() {
        copies.push(copy(alloc, value)?)?;
    }
    Ok(copies)
}

#[cycle(copying)]
fn copy_members<R: RowRef>(
    alloc: Global,
    members: &List<(Txt, Value<R>)>,
) -> Result<List<(Txt, Value<R>)>, AllocError>
    ensures { IfOk result (λ copy. copy ≡ members.now) }
{
    let mut copies = List::new(alloc);
    for (name, value) in members.as_slice() {
        let name = Txt::from_str(alloc, name.as_str())?;
        copies.push((name, copy(alloc, value)?))?;
    }
    Ok(copies)
}
