//! Scalars: what operators and members give to the values of their operands, the types of
//! expressions and their evaluation, and rules read on a row.
//!
//! `apply` and `operate` give what an operator means, or its fault. `is_total` says exactly which rules
//! cannot fault, and `holds` whether such a rule is true on a row, without taking memory.
#![tactic(auto)]

mod arithmetic;
mod cell;
mod comparison;
mod error;
mod evaluated;
mod evaluation;
mod members;
mod names;
mod operand;
mod operations;
mod rules;
mod scalar_ref;
mod signs;
mod texts;
mod totality;
mod types;

pub use cell::{ColumnName, cell_named};
pub use error::ScalarError;
pub use evaluated::{EvaluatedScalar, eval, evaluate, truth};
pub use lq_language::Op;
pub use members::has_value;
pub use names::{ExprType, Names, Referent};
pub use operations::apply;
pub use rules::{Cells, holds};
pub use scalar_ref::ScalarRef;
pub use signs::operate;
pub use texts::search_text;
pub use totality::is_total;
pub use types::type_of;
