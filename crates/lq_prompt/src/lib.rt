//! The reporting desk: a session that is asked line by line, and what people read in return.
//!
//! `Desk::answer` steps the session exactly once for a statement, and shows its reply; it answers a command from the session's
//! state, and leaves that as it was.
#![tactic(auto)]

mod answer;
mod desk;
mod grids;
mod help;
mod names;
mod question;
mod reasons;
mod rights;
mod roles;
mod sentences;
mod settings;
mod shown;
mod tables;

pub use answer::Answer;
pub use desk::Desk;
