//! Reply lines: replies in JSON, with values of every type, as `serde_json` writes them.
//!
//! `reply_line` gives exactly the compact text of the reply's data and a line feed: items up to the
//! first one with a fault inside, a value, a fault, the word of a refusal, or a denial with its rule.
#![tactic(auto)]

mod denial;
mod fault;
mod items;
mod line;
mod name;
mod order;
mod pushing;
mod reply;
mod row;
mod scalar;
mod shape;
mod sole;
mod string;
mod text;
mod write;

pub use items::ItemsLine;
pub use line::Line;
pub use pushing::Items;
pub use reply::{Reply, reply_line};
