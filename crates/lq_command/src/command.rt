//! The commands that begin with a dot.
ghost use Rattle.std.specs.Prelude.{◌≡◌, Some, map};
ghost use Rattle.lq_command.specs.Commands.{action_of, bare, command_by, command_of, command_with, is_number, number_of, switch_of, value_of, with_one, with_three, with_two};
ghost use Rattle.std.specs.List.{list_all};
ghost use Rattle.lq_grammar.specs.Tokens.{is_digit};

use crate::verb::{Verb, verb_of};
use lq_security::Action;

/// A number that is written in a command is below this.
const NUMBER_LIMIT: u64 = 1_000_000_000_000_000_000;

/// A command, without the name of the table or the file that it is about.
#[derive(Clone, Copy, Drop)]
pub enum Command {
    /// The tables.
    Tables,
    /// The roles.
    Roles,
    /// What is defined.
    Names,
    /// What the present role may use.
    Rights,
    /// Why the present role may or may not do this with the row of this number.
    Why(u64, Action),
    /// At most so many rows of a reply are shown.
    Rows(usize),
    /// Whether replies are shown as JSON.
    Json(bool),
    /// Whether the times of statements are reported.
    Time(bool),
    /// The lines of a file are answered.
    Run,
    /// The list of commands.
    Help,
    /// The desk ends.
    Quit,
}

/// What is wrong with a line that begins with a dot.
#[derive(Clone, Copy, Drop)]
pub enum Misuse {
    /// No command has this name.
    Unknown,
    /// The command of this verb has no such arguments.
    Arguments(Verb),
}

/// The command that words spell, of which the first is its name.
pub fn command_of(words: &[&str]) -> Result<Command, Misuse>
    ensures { result ≡ command_of (map (λ word. word.now) words.now) }
{
    let [name, arguments @ ..] = words else {
        return Err(Misuse::Unknown);
    };
    match verb_of(name) {
        Some(verb) => command_by(verb, arguments),
        None => Err(Misuse::Unknown),
    }
}

/// The command of a verb with these arguments.
fn command_by(verb: Verb, arguments: &[&str]) -> Result<Command, Misuse>
    ensures { result ≡ command_by (Some verb) (map (λ word. word.now) arguments.now) }
{
    match command_with(verb, arguments) {
        Some(command) => Ok(command),
        None => Err(Misuse::Arguments(verb)),
    }
}

/// The command of a verb with these arguments, if there is one.
fn command_with(verb: Verb, arguments: &[&str]) -> Option<Command>
    ensures { result ≡ command_with verb (map (λ word. word.now) arguments.now) }
{
    match arguments {
        [] => bare(verb),
        [one] => with_one(verb, one),
        [_, two] => with_two(verb, two),
        [_, two, three] => with_three(verb, two, three),
        _ => None,
    }
}

/// The command of a verb alone.
fn bare(verb: Verb) -> Option<Command>
    ensures { result ≡ bare verb }
{
    match verb {
        Verb::Tables => Some(Command::Tables),
        Verb::Roles => Some(Command::Roles),
        Verb::Names => Some(Command::Names),
        Verb::Rights => Some(Command::Rights),
        Verb::Help => Some(Command::Help),
        Verb::Quit => Some(Command::Quit),
        Verb::Why | Verb::Rows | Verb::Json | Verb::Time | Verb::Run => None,
    }
}

/// The command of a verb with one argument.
fn with_one(verb: Verb, one: &str) -> Option<Command>
    ensures { result ≡ with_one verb one.now }
{
    match verb {
        Verb::Rows => Some(Command::Rows(number_of(one)? as usize)),
        Verb::Json => Some(Command::Json(switch_of(one)?)),
        Verb::Time => Some(Command::Time(switch_of(one)?)),
        Verb::Run => Some(Command::Run),
        _ => None,
    }
}

/// The command of a verb with two arguments, the first of which names a table.
fn with_two(verb: Verb, number: &str) -> Option<Command>
    ensures { result ≡ with_two verb number.now }
{
    match verb {
        Verb::Why => Some(Command::Why(number_of(number)?, Action::Select)),
        _ => None,
    }
}

/// The command of a verb with three arguments, the first of which names a table.
fn with_three(verb: Verb, number: &str, action: &str) -> Option<Command>
    ensures { result ≡ with_three verb number.now action.now }
{
    match verb {
        Verb::Why => Some(Command::Why(number_of(number)?, action_of(action)?)),
        _ => None,
    }
}

/// Whether something is switched on or off.
fn switch_of(word: &str) -> Option<bool>
    ensures { result ≡ switch_of word.now }
{
    if word == "on" {
        Some(true)
    } else if word == "off" {
        Some(false)
    } else {
        None
    }
}

/// What may be asked of a row besides its being read.
fn action_of(word: &str) -> Option<Action>
    ensures { result ≡ action_of word.now }
{
    if word == "delete" {
        Some(Action::Delete)
    } else if word == "insert" {
        Some(Action::Insert)
    } else {
        None
    }
}

/// The number below 10^18 that a word of decimal digits spells.
fn number_of(word: &str) -> Option<u64>
    ensures { result ≡ number_of word.now }
{
    let digits = word.as_bytes();
    if is_number(digits) {
        value_of(digits)
    } else {
        None
    }
}

/// Whether a word is of decimal digits.
fn is_number(word: &[u8]) -> bool
    ensures { result ≡ is_number word.now }
{
    !word.is_empty() && are_digits(word)
}

/// Whether each of these bytes is a decimal digit.
fn are_digits(word: &[u8]) -> bool
    ensures { result ≡ list_all is_digit word.now }
{
    word.iter().all(|byte| is_digit(*byte))
}

/// Whether a byte is a decimal digit.
fn is_digit(byte: u8) -> bool
    ensures { result ≡ is_digit byte }
{
    byte >= 48 && byte <= 57
}

/// The number that these digits spell, if it is below the limit.
fn value_of(digits: &[u8]) -> Option<u64>
    ensures { result ≡ value_of digits.now }
{
    let mut value: u64 = 0;
    for digit in digits {
        value = value * 10 + u64::from((*digit).saturating_sub(48));
        if value >= NUMBER_LIMIT {
            return None;
        }
    }
    Some(value)
}
