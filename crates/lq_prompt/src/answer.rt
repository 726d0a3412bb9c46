//! What a line is answered.
use lq_json::Line;

/// What a line is answered.
#[derive(Drop)]
pub enum Answer {
    /// Nothing: there is no statement on the line.
    Nothing,
    /// The reply to a statement as people read it, with a line feed at the end of each of its lines.
    Shown(String),
    /// The reply to a statement as its line of JSON: asked for by `.json on`, or there was no memory to show it otherwise.
    Reply(Line),
    /// What a command is answered, with a line feed at the end of each of its lines.
    Text(String),
    /// The lines of the file of this name are to be answered, each as if it were typed.
    Script(String),
    /// The desk ends.
    End,
}
