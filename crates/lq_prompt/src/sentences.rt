//! Sentences about commands.
ghost use Rattle.std.specs.Prelude.{◌≡◌, IfOk, string_bytes};
ghost use Rattle.lq_prompt.specs.Sentences.{json_text, misuse_text, rows_text, time_text, usage};

use crate::grids::{joined, number_text};
use lq_command::{Misuse, Verb};
use std::alloc::{AllocError, Global};

/// The sentence about a line that begins with a dot and is no command.
pub(crate) fn misuse_text(misuse: Misuse) -> &'static str
    ensures { result.now ≡ misuse_text misuse }
{
    match misuse {
        Misuse::Unknown => {
            "There is no such command. There are .tables, .roles, .names, .rights, .why, .rows, .json, .time, .run, .help and .quit.\n"
        }
        Misuse::Arguments(verb) => usage(verb),
    }
}

/// The sentence about the arguments that a command takes.
fn usage(verb: Verb) -> &'static str
    ensures { result.now ≡ usage verb }
{
    match verb {
        Verb::Tables => "Write .tables alone.\n",
        Verb::Roles => "Write .roles alone.\n",
        Verb::Names => "Write .names alone.\n",
        Verb::Rights => "Write .rights alone.\n",
        Verb::Why => {
            "Write .why T NUMBER, where T is a table and NUMBER the number of a row, or .why T NUMBER delete, or .why T NUMBER insert.\n"
        }
        Verb::Rows => "Write .rows N, where N is a number.\n",
        Verb::Json => "Write .json on or .json off.\n",
        Verb::Time => "Write .time on or .time off.\n",
        Verb::Run => "Write .run FILE, where FILE has no space in its name.\n",
        Verb::Help => "Write .help alone.\n",
        Verb::Quit => "Write .quit alone.\n",
    }
}

/// The sentence about how many rows are shown.
pub(crate) fn rows_text(alloc: Global, most_rows: usize) -> Result<String, AllocError>
    ensures { IfOk result (λ text. string_bytes text ≡ rows_text most_rows) }
{
    let most = number_text(alloc, most_rows as u64)?;
    joined(alloc, &["Rows shown per reply: at most ", &most, ".\n"])
}

/// The sentence about how replies are shown.
pub(crate) fn json_text(is_json: bool) -> &'static str
    ensures { result.now ≡ json_text is_json }
{
    if is_json {
        "Replies are shown as lines of JSON.\n"
    } else {
        "Replies are shown as tables.\n"
    }
}

/// The sentence about what is timed.
pub(crate) fn time_text(is_timed: bool) -> &'static str
    ensures { result.now ≡ time_text is_timed }
{
    if is_timed {
        "The time of each statement is reported on standard error.\n"
    } else {
        "No times are reported.\n"
    }
}
