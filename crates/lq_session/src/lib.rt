//! Sessions: a step for each line of a script, over tables under row policies.
//!
//! `Session::step` is the session machine's step, reply and new state, for every line and statement; or,
//! where memory was refused, the memory line with the state unchanged.
#![tactic(auto)]

mod lines;
pub mod meaning_laws;
mod opening;
mod replies;
mod rows;
mod serving;
mod session;
mod statements;
mod variables;
mod work;

pub use lq_json::Line;
pub use session::Session;
