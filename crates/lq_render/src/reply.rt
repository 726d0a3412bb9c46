//! Replies as people read them.
ghost use Rattle.std.specs.Prelude.{◌≡◌, IfOk, IsUtf8, option_and_then, option_map, string_bytes};
ghost use Rattle.serde_json.specs.Find.{as_str};
ghost use Rattle.serde_json.specs.Read.{read};
ghost use Rattle.serde_json.specs.View.{members_view, view};
ghost use Rattle.lq_render.specs.Parts.{items_in};
ghost use Rattle.lq_render.specs.Replies.{bytes_text, count_reply, denial, done_reply, front_of, items_and_fault, line_text, members_reply, pair_reply, plain_reply, sole_reply, text_of_reply, without_floats, word_reply};
ghost use Rattle.lq_machine.specs.States.{schemas_of};
ghost use Rattle.lq_render.specs.Layouts.{shape_by, shape_of};

use crate::floats::has_float;
use crate::items::items_in;
use crate::layout::Layout;
use crate::sentences::{
    assigned_text, defined_text, deleted_text, denied_text, ending_text, error_text, fault_text,
    inserted_text, role_text,
};
use crate::served::{push_served_items, push_served_value};
use serde_json::{Map, Value};
use std::alloc::{AllocError, Global};

/// The text of a reply whose member is a text; none of what is no such reply.
fn word_reply(alloc: Global, name: &str, text: &str) -> Result<Option<String>, AllocError>
    ensures { IfOk result (λ reply. option_map string_bytes reply
        ≡ word_reply name.now text.now) }
{
    if name == "fault" {
        return Ok(Some(fault_text(alloc, text)?));
    }
    if name == "error" {
        return Ok(Some(error_text(alloc, text)?));
    }
    done_reply(alloc, name, text)
}

/// The text of a reply that names what was defined, assigned or taken; none of what is no such reply.
fn done_reply(alloc: Global, name: &str, text: &str) -> Result<Option<String>, AllocError>
    ensures { IfOk result (λ reply. option_map string_bytes reply
        ≡ done_reply name.now text.now) }
{
    if name == "defined" {
        return Ok(Some(defined_text(alloc, text)?));
    }
    if name == "assigned" {
        return Ok(Some(assigned_text(alloc, text)?));
    }
    if name == "role" {
        return Ok(Some(role_text(alloc, text)?));
    }
    Ok(None)
}

/// The text of a reply whose member is a count; none of what is no such reply.
fn count_reply(alloc: Global, name: &str, count: u64) -> Result<Option<String>, AllocError>
    ensures { IfOk result (λ reply. option_map string_bytes reply ≡ count_reply name.now count) }
{
    let reply = if name == "inserted" {
        inserted_text(alloc, count)?
    } else if name == "deleted" {
        deleted_text(alloc, count)?
    } else {
        return Ok(None);
    };
    Ok(Some(reply))
}

/// The text of a reply whose member is a text or a count; none of what is no such reply.
fn plain_reply(alloc: Global, name: &str, member: &Value) -> Result<Option<String>, AllocError>
    ensures { IfOk result (λ reply. option_map string_bytes reply
        ≡ plain_reply name.now (view member.now)) }
{
    match member {
        Value::String(text) => word_reply(alloc, name, text.as_str()),
        Value::Number(number) => match number.as_u64() {
            Some(count) => count_reply(alloc, name, count),
            None => Ok(None),
        },
        Value::Null | Value::Bool(_) | Value::Array(_) | Value::Object(_) => Ok(None),
    }
}

/// The text of the items of a reply; none of a value that is no array.
fn items_reply(
    alloc: Global,
    layout: &Layout<'_>,
    member: &Value,
) -> Result<Option<String>, AllocError>
    ensures { IfOk result (λ reply. option_map string_bytes reply
        ≡ option_map (shape_by layout.now).items (items_in (view member.now))) }
{
    match items_in(member) {
        Some(items) => {
            let mut text = String::new(alloc);
            push_served_items(alloc, &mut text, layout, items)?;
            Ok(Some(text))
        }
        None => Ok(None),
    }
}

/// The text of a reply of one member; none of what is no such reply.
fn sole_reply(
    alloc: Global,
    layout: &Layout<'_>,
    name: &str,
    member: &Value,
) -> Result<Option<String>, AllocError>
    ensures { IfOk result (λ reply. option_map string_bytes reply
        ≡ sole_reply (shape_by layout.now) name.now (view member.now)) }
{
    if name == "items" {
        return items_reply(alloc, layout, member);
    }
    if name == "value" {
        let mut text = String::new(alloc);
        push_served_value(alloc, &mut text, layout, member)?;
        return Ok(Some(text));
    }
    plain_reply(alloc, name, member)
}

/// The text of a denial; none where the rule or the use is no text.
fn denial(alloc: Global, rule: &Value, used: &Value) -> Result<Option<String>, AllocError>
    ensures { IfOk result (λ reply. option_map string_bytes reply
        ≡ denial (as_str (view rule.now)) (as_str (view used.now))) }
{
    match (rule.as_str(), used.as_str()) {
        (Some(rule), Some(used)) => Ok(Some(denied_text(alloc, rule, used)?)),
        _ => Ok(None),
    }
}

/// The text of items before a fault; none where these are no items, or the fault has no name.
fn items_and_fault(
    alloc: Global,
    layout: &Layout<'_>,
    fault: &Value,
    items: &Value,
) -> Result<Option<String>, AllocError>
    ensures { IfOk result (λ reply. option_map string_bytes reply
        ≡ items_and_fault (shape_by layout.now) (as_str (view fault.now))
        (items_in (view items.now))) }
{
    match (fault.as_str(), items_in(items)) {
        (Some(fault), Some(items)) => {
            let mut text = String::new(alloc);
            push_served_items(alloc, &mut text, layout, items)?;
            let ending = ending_text(alloc, fault)?;
            text.push_str(ending.as_str())?;
            Ok(Some(text))
        }
        _ => Ok(None),
    }
}

/// The text of a reply of two members; none of what is no such reply.
fn pair_reply(
    alloc: Global,
    layout: &Layout<'_>,
    first: (&str, &Value),
    second: (&str, &Value),
) -> Result<Option<String>, AllocError>
    ensures { IfOk result (λ reply. option_map string_bytes reply
        ≡ pair_reply (shape_by layout.now) (first.entry.0.now, view first.entry.1.now)
        (second.entry.0.now, view second.entry.1.now)) }
{
    if first.0 == "denied" && second.0 == "use" {
        return denial(alloc, first.1, second.1);
    }
    if first.0 == "fault" && second.0 == "items" {
        return items_and_fault(alloc, layout, first.1, second.1);
    }
    Ok(None)
}

/// The text of a reply of these members; none of what is no reply.
fn members_reply(
    alloc: Global,
    layout: &Layout<'_>,
    members: &Map<String, Value>,
) -> Result<Option<String>, AllocError>
    ensures { IfOk result (λ reply. option_map string_bytes reply
        ≡ members_reply (shape_by layout.now) (members_view members.now.entries)) }
{
    let mut left = members.iter();
    let Some((name, member)) = left.next() else {
        return Ok(None);
    };
    let Some((other_name, other)) = left.next() else {
        return sole_reply(alloc, layout, name.as_str(), member);
    };
    if left.next().is_some() {
        return Ok(None);
    }
    pair_reply(
        alloc,
        layout,
        (name.as_str(), member),
        (other_name.as_str(), other),
    )
}

/// The text of a reply; none of what is no reply.
fn text_of_reply(
    alloc: Global,
    layout: &Layout<'_>,
    reply: &Value,
) -> Result<Option<String>, AllocError>
    ensures { IfOk result (λ text. option_map string_bytes text
        ≡ text_of_reply (shape_by layout.now) (view reply.now)) }
{
    match reply {
        Value::Object(members) => members_reply(alloc, layout, members),
        Value::Null | Value::Bool(_) | Value::Number(_) | Value::String(_) | Value::Array(_) => Ok(
            None,
        ),
    }
}

/// The value of a reply's line; none of what is no JSON, and of what has a float in it.
fn read_reply(alloc: Global, line: &str) -> Result<Option<Value>, AllocError>
    ensures { IfOk result (λ reply. option_map view reply
        ≡ option_and_then without_floats (read line.now)) }
{
    match Value::from_str(alloc, line) {
        Ok(reply) => {
            if has_float(&reply) {
                return Ok(None);
            }
            Ok(Some(reply))
        }
        Err(error) => {
            if error.is_memory() {
                return Err(AllocError);
            }
            Ok(None)
        }
    }
}

/// The text of a reply's line, if it is one.
fn shown_reply(alloc: Global, layout: &Layout<'_>, line: &str) -> Result<Option<String>, AllocError>
    ensures { IfOk result (λ reply. option_map string_bytes reply
        ≡ option_and_then (text_of_reply (shape_by layout.now))
        (option_and_then without_floats (read line.now))) }
{
    match read_reply(alloc, line)? {
        Some(reply) => text_of_reply(alloc, layout, &reply),
        None => Ok(None),
    }
}

/// The text of a line, given without its line feed, by a layout.
fn line_text(alloc: Global, layout: &Layout<'_>, line: &str) -> Result<String, AllocError>
    ensures { IfOk result (λ text. string_bytes text ≡ line_text (shape_by layout.now) line.now) }
{
    match shown_reply(alloc, layout, line)? {
        Some(text) => Ok(text),
        None => format!(in alloc; "{line}\n"),
    }
}

/// A line without the line feed at its end.
fn front_of(line: &[u8]) -> &[u8]
    ensures { result.now ≡ front_of line.now }
{
    match line {
        [front @ .., b'\n'] => front,
        _ => line,
    }
}

/// What a person reads of a reply's line, whose line feed may be there or not: a table, a list or a sentence,
/// with a line feed at the end of each line. A line that is no reply is shown as it is, and bytes that are no
/// UTF-8 as a sentence that says so; a session gives neither. Refuses for want of memory alone.
pub fn reply_text(alloc: Global, line: &[u8], layout: &Layout<'_>) -> Result<String, AllocError>
    ensures text { IfOk result (λ text. IsUtf8 (front_of line.now) → string_bytes text
        ≡ line_text (shape_of (schemas_of layout.now.store.now) layout.now.most_rows
        (option_map (λ ty. ty.now) layout.now.ty)) (front_of line.now)) }
    ensures other { IfOk result (λ text. ¬ IsUtf8 (front_of line.now) → string_bytes text
        ≡ bytes_text) }
{
    match str::from_utf8(front_of(line)) {
        Ok(line) => line_text(alloc, layout, line),
        Err(_) => String::from_str(alloc, "the reply is no text in UTF-8\n"),
    }
}
