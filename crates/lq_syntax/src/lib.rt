//! Reads the lines of a script and the rules of policies: the parser that makes their syntax trees.
//! Which tree tokens spell is defined by `lq_grammar`.
//!
//! `parse_statement` and `parse_rule` give a tree exactly where the tokens spell one within the limits
//! of depth, and it is that tree; a line is too deep exactly where its tokens are past these limits.
#![tactic(auto)]

mod arguments;
mod cells;
mod clauses;
mod cursor;
mod depth;
mod error;
mod expressions;
mod fields;
mod grammar;
mod hosts;
mod literals;
mod operators;
mod parse;
mod primaries;
mod queries;
mod statements;
mod texts;

pub use error::SyntaxError;
pub use literals::bytes_of;
pub use texts::{parse_rule, parse_statement, parse_tokens};
