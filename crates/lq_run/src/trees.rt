//! The trees of expressions, in the state in which a statement is served.
ghost use Rattle.std.specs.Prelude.{◌≡◌, false};
ghost use Rattle.lq_machine.specs.Opening.{is_past_opening};
ghost use Rattle.lq_run.specs.States.{HoldsOf};
ghost use Rattle.lq_run.specs.Statements.{FindsTree, IsTyped, condition_in, tree_in};

use crate::state::State;
use crate::stop::{Stop, refusal};
use lq_bind::{BindError, Scope, bind_condition, bind_term};
use lq_grammar::Expr;
use lq_machine::Opened;
use lq_translate::translate_expression;
use lq_tree::Tree;
use lq_value::{TableNumber, Txt};
use std::alloc::Global;

/// What a statement is bound in: the tables of a state, the host predicates that it knows, and its definitions.
fn scope_in(state: &State, opened: Opened) -> Scope<'_>
    ensures store { result.store.now ≡ state.now.tables }
    ensures hosts { result.hosts.now ≡ state.now.policies.predicates }
    ensures definitions { result.definitions.now ≡ state.now.definitions }
    ensures opened { (result.size ≡ opened.size) × (result.rank ≡ opened.rank) }
{
    Scope {
        store: state.store(),
        hosts: state.hosts(),
        definitions: state.definitions(),
        size: opened.size,
        rank: opened.rank,
    }
}

/// The tree that was bound, or the refusal of what has no type. Within the limits of opening nothing is too deep.
fn typed(alloc: Global, bound: Result<Tree, BindError>) -> Result<Tree, Stop>
    ensures { IsTyped bound result }
{
    match bound {
        Ok(tree) => Ok(tree),
        Err(BindError::IllTyped | BindError::TooDeep) => Err(refusal(alloc, "type")),
        Err(BindError::Memory) => Err(Stop::Memory),
    }
}

/// The tree of an expression; refused as `type` where it has no type. The statement is within the limits of opening.
pub fn tree_of(alloc: Global, expr: &Expr, opened: Opened, state: &State) -> Result<Tree, Stop>
    requires { is_past_opening opened ≡ false }
    ensures { HoldsOf state.now (λ s. FindsTree (tree_in s expr.now) result) }
{
    let term = translate_expression(alloc, expr)?;
    typed(alloc, bind_term(alloc, &term, &scope_in(state, opened)))
}

/// The tree of a condition on a row of this table, under the row's name; refused as `type` where it has no type.
pub fn condition_of(
    alloc: Global,
    expr: &Expr,
    row: &Txt,
    table: TableNumber,
    opened: Opened,
    state: &State,
) -> Result<Tree, Stop>
    requires { is_past_opening opened ≡ false }
    ensures { HoldsOf state.now
        (λ s. FindsTree (condition_in s row.now table expr.now) result) }
{
    let term = translate_expression(alloc, expr)?;
    let scope = scope_in(state, opened);
    typed(alloc, bind_condition(alloc, &term, row, table, &scope))
}
