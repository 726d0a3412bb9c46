//! Replies and their lines.
ghost use Rattle.std.specs.Prelude.{◌≡◌, ◌++◌, codes, IfOk, Ok, OnOk};
ghost use Rattle.serde_json.specs.Data.{no_members, object, put};
ghost use Rattle.serde_json.specs.Written.{compact_text};
ghost use Rattle.lq_machine.specs.States.{schemas_of};
ghost use Rattle.lq_machine.specs.Served.{line_of, stream_data, value_data};
ghost use Rattle.lq_json.specs.Shapes.{data_by};
ghost use Rattle.lq_json.specs.Replies.{ServesAll, reply_data, served_by, stream_reply};

use crate::fault::{fault_name, nested_fault};
use crate::items::ItemsLine;
use crate::line::Line;
use crate::shape::{Shape, shape_of};
use crate::sole::{count_line, word_line};
use crate::text::Text;
use crate::{denial, write};
use lq_language::{HostName, Use};
use lq_store::Store;
use lq_value::{End, Fault, RowRef, Ty, Value};
use std::alloc::{AllocError, Global};

/// What a statement is answered. A value is in it with its type, and with the store whose
/// tables name the columns of rows; a denial with the store and the host predicates that name what
/// is used.
#[derive(Clone, Copy, Drop)]
pub enum Reply<'a, R> {
    /// The items of a sequence, each of this type, and how it ends. A sequence inside of an item
    /// that ends in a fault ends the reply before that item, with that fault.
    Items {
        store: &'a Store,
        ty: &'a Ty,
        items: &'a [Value<R>],
        end: End,
    },
    /// A value of this type. A sequence inside of it that ends in a fault takes its place.
    Value {
        store: &'a Store,
        ty: &'a Ty,
        value: &'a Value<R>,
    },
    /// The fault in place of a value.
    Fault(Fault),
    /// The word of a refusal.
    Error(&'a str),
    /// The name of the rule that denies a use, and that use.
    Denied {
        store: &'a Store,
        hosts: &'a [HostName],
        rule: &'a str,
        used: Use,
    },
    /// The name that a statement defined: a variable's or a named query's.
    Defined(&'a str),
    /// The variable that was assigned to.
    Assigned(&'a str),
    /// The role that the session has from now on.
    Role(&'a str),
    /// One row was put into a table.
    Inserted,
    /// So many rows were removed from a table.
    Deleted(u64),
}

/// The line of a reply: its JSON, with the members of each object in the order of their names'
/// bytes, and a line feed. Refused where memory is.
pub fn reply_line<R: RowRef>(alloc: Global, reply: &Reply<'_, R>) -> Result<Line, AllocError>
    ensures { IfOk result (λ line. line ≡ line_of (reply_data R.shown reply.now)) }
{
    match reply {
        Reply::Items {
            store,
            ty,
            items,
            end,
        } => items_line(alloc, store, ty, items, *end),
        Reply::Value { store, ty, value } => value_line(alloc, store, ty, value),
        Reply::Fault(fault) => word_line(alloc, "fault", fault_name(*fault)),
        Reply::Error(word) => word_line(alloc, "error", word),
        Reply::Denied {
            store,
            hosts,
            rule,
            used,
        } => denial::denied_line(alloc, store, hosts, rule, *used),
        Reply::Defined(name) => word_line(alloc, "defined", name),
        Reply::Assigned(name) => word_line(alloc, "assigned", name),
        Reply::Role(name) => word_line(alloc, "role", name),
        Reply::Inserted => count_line(alloc, "inserted", 1),
        Reply::Deleted(count) => count_line(alloc, "deleted", *count),
    }
}

/// Writes items of a shape after others, up to the first that holds a fault, and returns how they end.
fn push_all<R: RowRef>(
    shape: &Shape,
    items: &[Value<R>],
    end: End,
    line: &mut ItemsLine,
) -> Result<End, AllocError>
    ensures { IfOk result
        (λ ending. ServesAll R.shown shape.now items.now end line.old line.new ending) }
{
    for item in items {
        if let Some(fault) = nested_fault(item) {
            return Ok(End::Fault(fault));
        }
        line.push(shape, item)?;
    }
    Ok(end)
}

/// The line of a reply of items of a shape.
fn shaped_items_line<R: RowRef>(
    alloc: Global,
    shape: &Shape,
    items: &[Value<R>],
    end: End,
) -> Result<Line, AllocError>
    ensures { IfOk result (λ line. line
        ≡ line_of (stream_reply (served_by R.shown shape.now (items.now, end)))) }
{
    let mut line = ItemsLine::new(alloc)?;
    let end = push_all(shape, items, end, &mut line)?;
    line.finish(end)
}

/// The line of a reply of items.
fn items_line<R: RowRef>(
    alloc: Global,
    store: &Store,
    ty: &Ty,
    items: &[Value<R>],
    end: End,
) -> Result<Line, AllocError>
    ensures { IfOk result (λ line. line
        ≡ line_of (stream_data (schemas_of store.now) R.shown ty.now (items.now, end))) }
{
    let shape = shape_of(alloc, store, ty)?;
    shaped_items_line(alloc, &shape, items, end)
}

/// The text of a reply with a value of a shape.
#[tactic(auto, using(crate::proofs::Written::value_text))]
fn value_text<R: RowRef>(
    alloc: Global,
    shape: &Shape,
    value: &Value<R>,
) -> Result<Vec<u8>, AllocError>
    ensures { IfOk result (λ text. text.items
        ≡ compact_text
        (object (put (codes "value") (data_by R.shown shape.now value.now) no_members))) }
{
    let mut out = Text::new(alloc);
    out.put(b"{\"value\":")?;
    write::write(shape, value, &mut out)?;
    out.put_byte(b'}')?;
    Ok(out.into_bytes())
}

/// The line of a reply with a value of a shape.
fn shaped_value_line<R: RowRef>(
    alloc: Global,
    shape: &Shape,
    value: &Value<R>,
) -> Result<Line, AllocError>
    ensures { IfOk result (λ line. line
        ≡ line_of (object (put (codes "value") (data_by R.shown shape.now value.now) no_members))) }
{
    let mut line = value_text(alloc, shape, value)?;
    line.push(b'\n')?;
    Ok(Line::from_bytes(line))
}

/// The line of a reply of a value.
fn value_line<R: RowRef>(
    alloc: Global,
    store: &Store,
    ty: &Ty,
    value: &Value<R>,
) -> Result<Line, AllocError>
    ensures { IfOk result (λ line. line
        ≡ line_of (value_data (schemas_of store.now) R.shown ty.now (Ok value.now))) }
{
    if let Some(fault) = nested_fault(value) {
        return word_line(alloc, "fault", fault_name(fault));
    }
    let shape = shape_of(alloc, store, ty)?;
    shaped_value_line(alloc, &shape, value)
}
