//! What people read of a reply at a prompt: the JSON line of a session's reply as a table or a sentence.
//!
//! The text is exactly that of the reply as `specs/Replies.antt` defines it. Each item has its line or lines, in the
//! items' order, with a cell a column, and where there are more items than are shown, their number is said.
#![tactic(auto)]

mod cells;
mod columns;
mod counts;
mod floats;
mod grid;
mod items;
mod layout;
mod nested;
pub mod reading_laws;
mod reply;
mod sentences;
mod served;
pub mod table_laws;
mod types;
mod value;

pub use cells::escaped_text;
pub use grid::{Cell, grid_text};
pub use layout::Layout;
pub use reply::reply_text;
pub use types::type_text;
