//! Lists of keys: lookups, groups, distinct keys, and the arrangement by keys.
//!
//! `Lookup::find` gives exactly the places of the equal keys, in order; `Groups` the keys by their
//! first appearance with their places; `distinct` the first place of each key; `Numbering` the
//! number of one key after another by first appearance; and `stable_order` and `order_of_columns` the
//! one arrangement that is sorted and keeps the order of level keys.
#![tactic(auto)]

mod blocks;
mod chains;
mod columns;
mod firsts;
mod groups;
mod lookup;
mod nulls;
mod numbering;
mod numbers;
mod order;
mod packed;
mod passes;
mod rows;

pub use firsts::distinct;
pub use groups::Groups;
pub use lookup::Lookup;
pub use nulls::Nulls;
pub use numbering::Numbering;
pub use order::{arranged_once, order_of_columns, stable_order};
