//! Lines whose bytes are there.
ghost use Rattle.std.specs.Prelude.{◌≡◌, ◌≤◌, false, length};
ghost use Rattle.lq_grammar.specs.Script.{line_limit};
ghost use Rattle.lq_command.specs.Inputs.{IsInput, is_refused};

use crate::input::Input;

/// The line of these bytes, which are in size. Takes no memory.
pub(crate) fn text_line(bytes: Vec<u8>) -> Input
    requires { length bytes.items ≤ line_limit }
    ensures input { IsInput bytes.items result }
    ensures memory { is_refused result ≡ false }
{
    match String::from_utf8(bytes) {
        Ok(line) => Input::Line(line),
        Err(_) => Input::NoText,
    }
}
