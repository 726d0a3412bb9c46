//! Reply lines.
ghost use Rattle.std.specs.Prelude.{◌≡◌};
ghost use Rattle.lq_machine.specs.Machine.{memory_line};

use std::marker::Model;

/// A reply's line, its line feed included.
#[derive(Drop)]
pub struct Line {
    built: Option<Vec<u8>>,
}

impl Model for Line {
    ghost use Rattle.std.specs.Prelude.{List, ℕ};

    ghost Value = { List ℕ };

    ghost use Rattle.lq_json.specs.Lines.{line_bytes};

    ghost view = { λ l. line_bytes l.built };
}

const MEMORY_LINE: &[u8] = b"{\"error\":\"memory\"}\n";

impl Line {
    /// The line in place of a reply where memory was refused. Takes no memory.
    pub fn memory() -> Line
        ensures { result ≡ memory_line }
    {
        Line { built: None }
    }

    /// The line of these bytes.
    pub(crate) fn from_bytes(bytes: Vec<u8>) -> Line
        ensures { result ≡ bytes.items }
    {
        Line { built: Some(bytes) }
    }

    /// The line's bytes, its line feed included.
    pub fn bytes(&self) -> &[u8]
        ensures { result.now ≡ self.now }
    {
        match &self.built {
            Some(bytes) => bytes.as_slice(),
            None => MEMORY_LINE,
        }
    }
}
