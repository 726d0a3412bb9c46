//! The lines of replies of one member.
ghost use Rattle.std.specs.Prelude.{◌≡◌, false, pos, IfOk};
ghost use Rattle.serde_json.specs.Data.{number, string};
ghost use Rattle.serde_json.specs.Find.{of_integer};
ghost use Rattle.serde_json.specs.Written.{has_float};
ghost use Rattle.serde_json.specs.View.{view};
ghost use Rattle.lq_machine.specs.Served.{line_of, sole_member};

use crate::line::Line;
use serde_json::{Map, Value};
use std::alloc::{AllocError, Global};

/// The line of a reply with one member, which holds no number with a fraction.
fn sole_line(alloc: Global, name: &str, value: Value) -> Result<Line, AllocError>
    requires { has_float (view value) ≡ false }
    ensures { IfOk result (λ line. line ≡ line_of (sole_member name.now (view value))) }
{
    let mut members = Map::new(alloc);
    serde_json::put(&mut members, alloc, name, value)?;
    let mut line = Value::Object(members).to_vec(alloc)?;
    line.push(b'\n')?;
    Ok(Line::from_bytes(line))
}

/// The line of a reply with one member, a text.
pub(crate) fn word_line(alloc: Global, name: &str, word: &str) -> Result<Line, AllocError>
    ensures { IfOk result (λ line. line ≡ line_of (sole_member name.now (string word.now))) }
{
    sole_line(alloc, name, Value::try_from_str(alloc, word)?)
}

/// The line of a reply with one member, a number of rows.
pub(crate) fn count_line(alloc: Global, name: &str, count: u64) -> Result<Line, AllocError>
    ensures { IfOk result (λ line. line
        ≡ line_of (sole_member name.now (number (of_integer (pos count))))) }
{
    sole_line(alloc, name, Value::from(count))
}
