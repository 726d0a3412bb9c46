//! Sequences built from the items of one: turned round, or with a default in the place of none.
ghost use Rattle.std.specs.Prelude.{◌≡◌, IfOk};
ghost use Rattle.lq_language.specs.Enumerable.{default_if_empty, reversed};
ghost use Rattle.lq_language.specs.OperandMeaning.{sequence};

use lq_value::{End, List, RowRef, Value};
use std::alloc::{AllocError, Global};

/// Items, and how they end.
pub(crate) type Stream<T> = (List<T>, End);

// The stream as a value.
pub(crate) fn sequence<R: RowRef>(stream: Stream<Value<R>>) -> Value<R>
    ensures { result ≡ sequence stream }
{
    let (items, end) = stream;
    Value::Seq(items, end)
}

// The items from the last to the first. The source is read whole: of one that faults comes nothing but its fault.
pub(crate) fn reversed<T: Drop>(alloc: Global, items: List<T>, end: End) -> Stream<T>
    ensures { result ≡ reversed items end }
{
    match end {
        End::Done => {
            let mut items = items.into_vec();
            items.reverse();
            (List::from_vec(items), end)
        }
        End::Fault(_) => (List::new(alloc), end),
    }
}

// The items, and where the source comes to its end without one the default.
pub(crate) fn default_if_empty<T: Drop>(
    default: T,
    items: List<T>,
    end: End,
) -> Result<Stream<T>, AllocError>
    ensures { IfOk result (λ stream. stream ≡ default_if_empty default items end) }
{
    let mut items = items;
    match end {
        End::Done if items.is_empty() => {
            items.push(default)?;
            Ok((items, end))
        }
        _ => Ok((items, end)),
    }
}
