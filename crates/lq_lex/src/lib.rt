//! Cuts the lines of a script and the rules of policies into tokens, and reads the values of their
//! literals. What a line's tokens are and what they spell is defined by `lq_grammar`.
//!
//! `tokens` gives exactly the line's tokens, or refuses it, as too long or for a lexical fault,
//! exactly where it is so; literals have exactly their values (`int_value`, `text_value`). The byte
//! order marks at the head of a text are dropped by `without_marks`, and nothing else is.
#![tactic(auto)]

mod blank;
mod error;
mod letters;
mod lexer;
mod literals;
mod marks;
mod signs;
mod words;

pub use blank::is_blank;
pub use error::LexError;
pub use lexer::{LINE_LIMIT, tokens};
pub use literals::{LARGEST_INTEGER, int_value, text_value};
pub use marks::without_marks;
pub use words::is_name;
