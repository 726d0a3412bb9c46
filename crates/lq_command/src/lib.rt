//! What people type at a prompt: lines as they come, the statements on them, whose `;` may be left out, and the commands that begin
//! with a dot.
//!
//! `LineReader` gives exactly the lines that its reader has, or says what is wrong with one, as `input_of` does of a line that is
//! there; `command_of` gives exactly the command that words spell; `closed` gives the statement on a line with the `;` that its end
//! lacks.
#![tactic(auto)]

mod command;
mod input;
mod line_reader;
mod script_lines;
mod statement;
mod text_line;
mod verb;
mod words;

pub use command::{Command, Misuse, command_of};
pub use input::Input;
pub use line_reader::LineReader;
pub use script_lines::{first_line, input_of};
pub use statement::{closed, is_command};
pub use verb::Verb;
pub use words::words_of;
