//! Whether a value has a float in it, of whose text no clause tells.
ghost use Rattle.std.specs.Prelude.{◌≡◌};
ghost use Rattle.serde_json.specs.View.{items_view, members_view, view};
ghost use Rattle.serde_json.specs.Written.{has_float, items_have_float, members_have_float};

use serde_json::{Map, Value};

/// Whether a value is a float, or has one in it.
#[cycle(floats)]
pub(crate) fn has_float(value: &Value) -> bool
    ensures { result ≡ has_float (view value.now) }
{
    match value {
        Value::Number(number) => number.is_f64(),
        Value::Array(items) => has_float_item(items),
        Value::Object(members) => has_float_member(members),
        Value::Null | Value::Bool(_) | Value::String(_) => false,
    }
}

/// Whether one of the items has a float in it.
#[cycle(floats)]
fn has_float_item(items: &Vec<Value>) -> bool
    ensures { result ≡ items_have_float (items_view items.now.items) }
{
    for item in items {
        if has_float(item) {
            return true;
        }
    }
    false
}

/// Whether one of the members has a float in it.
#[cycle(floats)]
fn has_float_member(members: &Map<String, Value>) -> bool
    ensures { result ≡ members_have_float (members_view members.now.entries) }
{
    for (_, member) in members.iter() {
        if has_float(member) {
            return true;
        }
    }
    false
}
