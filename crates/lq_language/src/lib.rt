//! Chapter two of what every answer means: types, meanings and uses of expressions, clauses and methods of
//! sequences (ECMA-334, expressions and query expressions; .NET, Enumerable).
//!
//! `typing_laws`, `meaning_laws`, `clause_laws`, `enumerable_laws` and `operation_laws` promise that an
//! expression has at most one type, that what is typed means a value of its type or a fault, and what
//! clauses, methods and operators do in the standards' words.
#![tactic(auto)]

mod calls;
pub mod clause_laws;
pub mod enumerable_laws;
mod host_name;
pub mod meaning_laws;
mod methods;
mod operation;
pub mod operation_laws;
mod rights;
pub mod typing_laws;

pub use calls::{Call, Operator, Paired, Part, Term};
pub use host_name::{HostName, host_names, predicate_number};
pub use methods::{Given, Simple, Through};
pub use operation::Op;
pub use rights::{RightRule, Use};
