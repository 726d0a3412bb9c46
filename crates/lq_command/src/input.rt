//! A line while its bytes come.
ghost use Rattle.std.specs.Prelude.{◌≤◌, length};
ghost use Rattle.lq_grammar.specs.Script.{line_limit};

use crate::text_line::text_line;
use lq_lex::LINE_LIMIT;
use std::alloc::Global;

/// What a line is, or why there is none.
#[derive(Drop)]
pub enum Input {
    /// A line of at most 65,536 bytes, without its line feed.
    Line(String),
    /// A line of more bytes.
    TooLong,
    /// A line that is not UTF-8.
    NoText,
    /// A line for which there was no memory.
    NoMemory,
    /// There is no further line.
    End,
}

/// Why the bytes of a line are not gathered any more.
#[derive(Clone, Copy, Drop)]
enum Fault {
    TooLong,
    Memory,
}

/// The bytes of a line that have come, as long as they are in size and there is memory for them.
#[derive(Drop)]
pub(crate) struct Draft {
    bytes: Vec<u8>,
    fault: Option<Fault>,
    ghost in_size: { length bytes.items ≤ line_limit },
}

impl Draft {
    ghost use Rattle.std.specs.Prelude.{◌≡◌, ◌∷◌, ◌++◌, ◌==◌, [], List, ℕ};
    ghost use Rattle.lq_command.specs.Inputs.{IsDraft, IsInput, is_refused, lacks_memory};

    /// A line of which no byte has come.
    pub(crate) fn new(alloc: Global) -> Draft
        ensures { IsDraft [] result }
    {
        Draft {
            bytes: Vec::new(alloc),
            fault: None,
        }
    }

    /// Whether no byte has come.
    pub(crate) fn is_empty(&self) -> bool
        ensures { (line : List ℕ) → IsDraft line self.now → result ≡ (length line == 0) }
    {
        self.fault.is_none() && self.bytes.is_empty()
    }

    /// One byte more has come.
    pub(crate) fn add(&mut self, byte: u8)
        ensures { (line : List ℕ) → IsDraft line self.old → IsDraft (line ++ byte ∷ []) self.new }
    {
        if self.fault.is_some() {
            return;
        }
        if self.bytes.len() >= LINE_LIMIT {
            self.fault = Some(Fault::TooLong);
        } else if self.bytes.push(byte).is_err() {
            self.fault = Some(Fault::Memory);
        }
    }

    /// The line of the bytes that have come.
    pub(crate) fn finish(self) -> Input
        ensures input { (line : List ℕ) → IsDraft line self → IsInput line result }
        ensures memory { is_refused result ≡ lacks_memory self }
    {
        match self.fault {
            Some(Fault::TooLong) => Input::TooLong,
            Some(Fault::Memory) => Input::NoMemory,
            None => text_line(self.bytes),
        }
    }
}
