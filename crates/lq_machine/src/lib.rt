//! Chapter four of what every answer means: the session machine, its replies, and what is written of them.
//!
//! `session_laws` and `definition_laws` promise what a line may change, what two states that look alike
//! to a role answer, and that each name of a session has a value of its type; `reply_laws` which fault
//! is named in place of a value, and by which type a value is served.
#![tactic(auto)]

pub mod definition_laws;
pub mod reply_laws;
mod session;
pub mod session_laws;

pub use session::{Defined, Definition, Opened};
