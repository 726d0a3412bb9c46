//! The names of the commands.
ghost use Rattle.std.specs.Prelude.{◌≡◌};
ghost use Rattle.lq_command.specs.Commands.{session_verb_of, setting_verb_of, verb_of};

/// What a command is about.
#[derive(Clone, Copy, Drop)]
pub enum Verb {
    /// `.tables`
    Tables,
    /// `.roles`
    Roles,
    /// `.names`
    Names,
    /// `.rights`
    Rights,
    /// `.why`
    Why,
    /// `.rows`
    Rows,
    /// `.json`
    Json,
    /// `.time`
    Time,
    /// `.run`
    Run,
    /// `.help`
    Help,
    /// `.quit`
    Quit,
}

/// The verb of this name: of what asks about the session, and else of the other commands.
pub(crate) fn verb_of(name: &str) -> Option<Verb>
    ensures { result ≡ verb_of name.now }
{
    if name == ".tables" {
        Some(Verb::Tables)
    } else if name == ".roles" {
        Some(Verb::Roles)
    } else if name == ".names" {
        Some(Verb::Names)
    } else if name == ".rights" {
        Some(Verb::Rights)
    } else if name == ".why" {
        Some(Verb::Why)
    } else {
        setting_verb_of(name)
    }
}

/// The verb of this name: of what sets how the desk answers, and else of what runs or ends it.
fn setting_verb_of(name: &str) -> Option<Verb>
    ensures { result ≡ setting_verb_of name.now }
{
    if name == ".rows" {
        Some(Verb::Rows)
    } else if name == ".json" {
        Some(Verb::Json)
    } else if name == ".time" {
        Some(Verb::Time)
    } else {
        session_verb_of(name)
    }
}

/// The verb of this name: of what runs the desk, explains it or ends it.
fn session_verb_of(name: &str) -> Option<Verb>
    ensures { result ≡ session_verb_of name.now }
{
    if name == ".run" {
        Some(Verb::Run)
    } else if name == ".help" {
        Some(Verb::Help)
    } else if name == ".quit" {
        Some(Verb::Quit)
    } else {
        None
    }
}
