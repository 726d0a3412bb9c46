//! Queries, as trees that are guarded for the reading of a role.
ghost use Rattle.std.specs.Prelude.{◌≡◌, IfSome};
ghost use Rattle.lq_security.specs.declared.policy.Action.TheVariants as action;

use lq_bind::{Scope, bind_term};
use lq_grammar::{Expr, Statement};
use lq_guard::{GuardedTree, guard};
use lq_language::{HostName, Term};
use lq_machine::{Defined, Definition, Opened};
use lq_policy::{Action, Policies, RoleId};
use lq_store::Store;
use lq_syntax::parse_statement;
use lq_translate::translate_expression;
use lq_tree::Tree;
use lq_value::Txt;
use std::alloc::Global;
use std::mem;

/// What a query is run over, and what it may name: the tables, the host predicates and named queries.
#[derive(Clone, Copy)]
pub(crate) struct Place<'a> {
    pub(crate) alloc: Global,
    pub(crate) store: &'a Store,
    pub(crate) policies: &'a Policies,
    pub(crate) role: RoleId,
    pub(crate) predicates: &'a [HostName],
    pub(crate) definitions: &'a [Definition],
}

/// What a statement runs. One that runs nothing isn't taken apart: no line here has any, and to drop it would make the proof a few times as long.
fn run_by(statement: Statement) -> Option<Expr> {
    match statement {
        Statement::Run(expression) => Some(expression),
        other => {
            mem::forget(other);
            None
        }
    }
}

/// A query as its statement spells it; none where it isn't one, or memory was refused.
fn expression(alloc: Global, text: &str) -> Option<Expr> {
    let line = format!(in alloc; "run {text};").ok()?;
    run_by(parse_statement(alloc, line.as_str()).ok()??)
}

fn term(alloc: Global, text: &str) -> Option<Term> {
    let expression = expression(alloc, text)?;
    translate_expression(alloc, &expression).ok()
}

/// The query `some`, which stands for this one.
pub(crate) fn some_query(alloc: Global, text: &str) -> Option<Definition> {
    let name = Txt::from_str(alloc, "some").ok()?;
    let defined = Defined::Query(expression(alloc, text)?, Opened { size: 1, rank: 0 });
    Some(Definition { name, defined })
}

fn bound_in(place: Place<'_>, term: &Term) -> Option<Tree> {
    let scope = Scope {
        store: place.store,
        hosts: place.predicates,
        definitions: place.definitions,
        size: 2,
        rank: 1,
    };
    bind_term(place.alloc, term, &scope).ok()
}

fn tree(place: Place<'_>, text: &str) -> Option<Tree> {
    let term = term(place.alloc, text)?;
    bound_in(place, &term)
}

/// A query, as a tree that is guarded for the reading of the role.
pub(crate) fn guarded(place: Place<'_>, text: &str) -> Option<GuardedTree>
    ensures { IfSome result (λ g. g.action ≡ action.Select) }
{
    let tree = tree(place, text)?;
    Some(guard(tree, place.role, Action::Select))
}
