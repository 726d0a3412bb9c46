//! Explanations of rows, for those who may know of them.
//!
//! `why` explains a row to exactly those from whom it is not secret: where the session's starting
//! role bypasses row security, or the present role sees the row. It answers a hidden row as one that
//! is not there.
#![tactic(auto)]

mod answers;
mod disclosure;
pub mod disclosure_laws;

pub use answers::Why;
pub use disclosure::why;
