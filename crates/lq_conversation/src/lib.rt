//! The conversation at a desk: inputs are read one after another, each is answered once, and its answer is written; `.run FILE` answers the
//! lines of a file.
//!
//! `answer_input` writes exactly what one input is answered, and says what is left to do; `converse` does so for each input that a reader
//! gives, in order, and for the lines of the scripts that they name.
#![tactic(auto)]

mod conversation;
mod inputs;
mod next;
mod output;
mod script;
mod surroundings;

pub use conversation::converse;
pub use inputs::answer_input;
pub use next::Next;
pub use surroundings::Surroundings;
