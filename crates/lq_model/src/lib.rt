//! What every answer of the server means, under one name: the chapters `lq_grammar` (tokens, trees, depth),
//! `lq_language` (types, meanings, uses), `lq_security` (policies and rights) and `lq_machine` (the session
//! machine, its replies and its output), each of which depends on those before it.
//!
//! It gives out their plain types, their laws, each of which is the contract of a function in a module
//! `.._laws`, and in `specs/` their definitions.
#![tactic(auto)]

pub use lq_grammar::{
    Argument, Binary, Body, Clause, Continuation, Expr, Field, Infix, Join, Kind, Last, Level,
    Node, Picked, Query, SortKey, Statement, Token, Unary, grammar_laws, lexing_laws,
};
pub use lq_language::{
    Call, Given, HostName, Op, Operator, Paired, Part, RightRule, Simple, Term, Through, Use,
    clause_laws, enumerable_laws, host_names, meaning_laws, operation_laws, predicate_number,
    typing_laws,
};
pub use lq_machine::{Defined, Definition, Opened, definition_laws, reply_laws, session_laws};
pub use lq_security::{
    Action, Policy, PolicyParts, Role, TablePart, policy_laws, right_laws, totality_laws,
};
