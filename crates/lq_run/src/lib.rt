//! What statements read of a session: its state, the trees of their expressions, rights, what is served of a tree, scalars, and the rows that
//! a `delete` removes.
//!
//! `run_line` gives exactly the session machine's reply to a `run`: the refusal, the denial, or what
//! the expression means over the tables as the role sees them. The other calls give, just as exactly,
//! what `var`, an assignment, `insert` and `delete` need of it. Where a statement comes to its end before it has done anything,
//! they say why by a `Stop`, whose line is the machine's answer.
#![tactic(auto)]

mod definitions;
mod denials;
mod removals;
mod reply;
mod run;
mod scalars;
mod state;
mod stop;
mod trees;

pub use denials::check_rights;
pub use removals::chosen_rows;
pub use run::run_line;
pub use scalars::evaluate_scalar;
pub use state::State;
pub use stop::{Stop, denial, fault, refusal};
pub use trees::{condition_of, tree_of};
