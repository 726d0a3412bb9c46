//! Values, written by their shapes as JSON.
ghost use Rattle.std.specs.Prelude.{◌≡◌, ◌++◌, map, slice_get, OnOk};
ghost use Rattle.serde_json.specs.Data.{array, object};
ghost use Rattle.serde_json.specs.View.{items_of};
ghost use Rattle.serde_json.specs.Written.{compact_text};
ghost use Rattle.lq_json.specs.Shapes.{data_by, fields_by, member_data};

use crate::name::Name;
use crate::row::write_row;
use crate::scalar::write_scalar;
use crate::shape::Shape;
use crate::text::Text;
use lq_value::{RowRef, Txt, Value};
use std::alloc::AllocError;

/// A value of this shape; one of another shape is written as null.
#[cycle(writing)]
#[tactic(auto, using(crate::proofs::Opens::writing))]
pub(crate) fn write<R: RowRef>(
    shape: &Shape,
    value: &Value<R>,
    out: &mut Text,
) -> Result<(), AllocError>
    ensures { OnOk result (out.new
        ≡ out.old ++ compact_text (data_by R.shown shape.now value.now)) }
{
    match (shape, value) {
        (_, Value::Scalar(scalar)) => write_scalar(scalar, out),
        (Shape::Row(columns), Value::Row(row)) => write_row(columns.as_slice(), row.cells(), out),
        (Shape::Rec(fields), Value::Rec(members)) => {
            write_record(fields.as_slice(), members.as_slice(), out)
        }
        (Shape::Group(key_shape, item_shape), Value::Group(key, items)) => {
            out.put(b"{\"Key\":")?;
            write(key_shape.get(), key.get(), out)?;
            out.put(b",\"items\":")?;
            write_items(item_shape.get(), items.as_slice(), out)?;
            out.put_byte(b'}')
        }
        (Shape::Seq(item_shape), Value::Seq(items, _)) => {
            write_items(item_shape.get(), items.as_slice(), out)
        }
        _ => out.put(b"null"),
    }
}

/// Values of this shape, as an array.
#[cycle(writing)]
#[tactic(auto, using(crate::proofs::Opens::writing))]
fn write_items<R: RowRef>(
    shape: &Shape,
    items: &[Value<R>],
    out: &mut Text,
) -> Result<(), AllocError>
    ensures { OnOk result (out.new
        ≡ out.old
        ++ compact_text (array (items_of (map (data_by R.shown shape.now) items.now)))) }
{
    out.put_byte(b'[')?;
    let mut later = false;
    for item in items {
        out.put_comma(later)?;
        write(shape, item, out)?;
        later = true;
    }
    out.put_byte(b']')
}

/// A member of this shape; null where the record has none there.
#[cycle(writing)]
#[tactic(auto, using(crate::proofs::Opens::writing))]
fn write_member<R: RowRef>(
    shape: &Shape,
    members: &[(Txt, Value<R>)],
    place: usize,
    out: &mut Text,
) -> Result<(), AllocError>
    ensures { OnOk result (out.new
        ≡ out.old
        ++ compact_text
        (member_data (data_by R.shown shape.now) (slice_get members.now place))) }
{
    match members.get(place) {
        Some((_, value)) => write(shape, value, out),
        None => out.put(b"null"),
    }
}

/// A record with these members.
#[cycle(writing)]
#[tactic(auto, using(crate::proofs::Opens::writing))]
fn write_record<R: RowRef>(
    fields: &[(Name, (usize, Shape))],
    members: &[(Txt, Value<R>)],
    out: &mut Text,
) -> Result<(), AllocError>
    ensures { OnOk result (out.new
        ≡ out.old
        ++ compact_text (object (fields_by (data_by R.shown) fields.now members.now))) }
{
    out.put_byte(b'{')?;
    let mut later = false;
    for (name, (place, shape)) in fields {
        name.write_front(later, out)?;
        write_member(shape, members, *place, out)?;
        later = true;
    }
    out.put_byte(b'}')
}
