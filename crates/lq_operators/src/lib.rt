//! Operators of sequences over items that are there: what each makes of them.
//!
//! `simple`, `given`, `Distinct`, `Matches`, `Grouping`, `group_pairs` and `sort_by_columns` give what a
//! method, a join, a group or an arrangement means on the items and their ending, or its fault; `Tally`
//! counts, sums and compares item by item, `GroupTallies` does so for each key, which by the laws of
//! `tally_laws` answers as the methods do, and `Leading` keeps the first items of an arrangement.
#![tactic(auto)]

mod arguments;
mod defaults;
mod ending;
mod error;
mod firsts;
mod given_methods;
mod group_tallies;
mod groups;
mod hints;
mod items;
mod key_order;
mod keys;
mod leading;
mod matches;
mod numbers;
mod order;
mod pairs;
mod sequences;
mod sets;
mod simple_methods;
mod slices;
pub mod tally_laws;
mod tally_rows;

pub use error::RunError;
pub use firsts::Distinct;
pub use given_methods::given;
pub use group_tallies::GroupTallies;
pub use groups::{Grouping, group_pairs};
pub use leading::Leading;
pub use matches::Matches;
pub use numbers::{Extreme, Tally};
pub use order::sort_by_columns;
pub use simple_methods::simple;
