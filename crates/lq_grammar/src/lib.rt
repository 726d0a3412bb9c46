//! Chapter one of what every answer means: the lines of a script, their tokens, and the trees that these
//! spell (ECMA-334, lexical structure and grammar), with the limits of depth.
//!
//! `lexing_laws` and `grammar_laws` promise that the tokens of a line cut it as the lexical grammar
//! says, and that tokens spell at most one tree, which the functions of `Parsing` read.
#![tactic(auto)]

pub mod grammar_laws;
pub mod lexing_laws;
mod syntax;
mod token;

pub use syntax::{
    Argument, Binary, Body, Clause, Continuation, Expr, Field, Infix, Join, Last, Level, Node,
    Picked, Query, SortKey, Statement, Unary,
};
pub use token::{Kind, Token};
