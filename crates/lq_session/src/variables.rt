//! Names that statements define, and variables that they assign to.
ghost use Rattle.std.specs.Prelude.{◌≡◌, Some, IfSome, false, true};
ghost use Rattle.std.specs.Option.{option_copied};
ghost use Rattle.lq_value.specs.declared.ty.Ty.{out-Ty};
ghost use Rattle.lq_grammar.specs.declared.syntax.Statement.TheVariants.{Assign, Define};
ghost use Rattle.lq_language.specs.ClauseTyping.{expression_type};
ghost use Rattle.lq_machine.specs.HostCalls.{definition_named};
ghost use Rattle.lq_machine.specs.Opening.{is_past_opening};
ghost use Rattle.lq_machine.specs.States.{names_in};
ghost use Rattle.lq_machine.specs.Statements.{assigned, defined, is_taken};
ghost use Rattle.lq_language.specs.OperandTypes.{is_scalar};
ghost use Rattle.lq_run.specs.Calls.{AddsCalls};
ghost use Rattle.lq_run.specs.States.{AreKnown, state_with, without_hosts};
ghost use Rattle.lq_run.specs.Statements.{tree_in};
ghost use Rattle.lq_session.specs.Calls.{CallsWith};
ghost use Rattle.lq_session.specs.Performed.{PerformsWith};
ghost use Rattle.lq_session.specs.Variables.{DefinesBy, variable_type};

use crate::{opening, replies};
use lq_grammar::Expr;
use lq_host::{Asks, Log};
use lq_json::{Line, Reply};
use lq_machine::{Defined, Opened};
use lq_run::{State, Stop, evaluate_scalar, refusal, tree_of};
use lq_tree::{Tree, ty};
use lq_value::{Held, Txt, Ty};
use std::alloc::Global;

/// Whether a name is taken by a table, a variable or a named query.
fn is_taken(name: &str, state: &State) -> bool
    ensures { result ≡ is_taken (without_hosts state.now) name.now }
{
    state.store().find(name).is_some()
        || opening::definition_of(state.definitions(), name.as_bytes()).is_some()
}

/// What a name is defined as by an expression that has this tree: a named query where its type is a sequence's, and a variable with the
/// value that it has now where it is a scalar's; refused as `type` where it is another one. A denial or a fault stops the statement.
fn definition_by<H: Asks>(
    alloc: Global,
    expr: Held<Expr>,
    tree: Held<Tree>,
    opened: Opened,
    state: &State,
    hosts: &H,
    log: &mut Log<H>,
) -> Result<Defined, Stop>
    requires bound { tree_in (state_with (H.known hosts.now) state.now) expr ≡ Some tree }
    requires known { AreKnown (H.known hosts.now) state.now }
    ensures defines { DefinesBy (state_with (H.known hosts.now) state.now) opened expr tree result }
    ensures calls { AddsCalls (state_with (H.known hosts.now) state.now)
        (definition_named (state_with (H.known hosts.now) state.now) expr
        (expression_type expr (names_in (state_with (H.known hosts.now) state.now))))
        log.old log.new }
{
    let inner = tree.get();
    match ty(inner) {
        Ty::Seq(_) => Ok(Defined::Query(expr.into_inner(), opened)),
        Ty::Int | Ty::IntN | Ty::Bool | Ty::Str => {
            let value = evaluate_scalar(alloc, inner, state, hosts, log)?;
            let tree = tree.into_inner();
            Ok(Defined::Variable(tree.ty, value))
        }
        Ty::Null | Ty::Row(_) | Ty::Rec(_) | Ty::Group(_, _) => Err(refusal(alloc, "type")),
    }
}

/// Defines a name: as a variable, with the value that the expression has now, where it is of a scalar's
/// type, and as a named query where it is of a sequence's. It is refused as `type` where the name is
/// taken, or the expression has no type or another one.
pub(crate) fn define<H: Asks>(
    alloc: Global,
    name: Txt,
    expr: Held<Expr>,
    opened: Opened,
    state: &mut State,
    hosts: &H,
    log: &mut Log<H>,
) -> Result<Line, Stop>
    requires within { is_past_opening opened ≡ false }
    requires known { AreKnown (H.known hosts.now) state.old }
    ensures performs { PerformsWith (H.known hosts.now)
        (defined (state_with (H.known hosts.now) state.old) name opened expr)
        state.old result state.new }
    ensures hosts { state.new.policies.predicates ≡ state.old.policies.predicates }
    ensures calls { CallsWith (H.known hosts.now) (Define name expr) state.old log.old log.new }
{
    if is_taken(name.as_str(), state) {
        return Err(refusal(alloc, "type"));
    }
    let line = replies::reply(alloc, Reply::Defined(name.as_str()))?;
    let tree = tree_of(alloc, expr.get(), opened, state)?;
    let holder = Held::new(alloc, tree)?;
    let defined = definition_by(alloc, expr, holder, opened, state, hosts, log)?;
    state.define(name, defined)?;
    Ok(line)
}

/// The type of the variable of this name, which is that of a scalar; none where no variable has the name.
fn variable_type<'a>(name: &str, state: &'a State) -> Option<&'a Ty>
    ensures value { option_copied result ≡ variable_type state.now.definitions name.now }
    ensures scalar { IfSome result (λ ty. is_scalar (out-Ty ty.now) ≡ true) }
{
    match &opening::definition_of(state.definitions(), name.as_bytes())?.defined {
        Defined::Variable(ty, _) => Some(ty),
        Defined::Query(_, _) => None,
    }
}

/// Gives a variable the value that an expression has now. It is refused as `type` where no variable has
/// the name, or the expression has no type, or none that converts to the variable's. A denial or a fault stops the statement.
pub(crate) fn assign<H: Asks>(
    alloc: Global,
    name: &str,
    expr: &Expr,
    opened: Opened,
    state: &mut State,
    hosts: &H,
    log: &mut Log<H>,
) -> Result<Line, Stop>
    requires within { is_past_opening opened ≡ false }
    requires known { AreKnown (H.known hosts.now) state.old }
    ensures performs { PerformsWith (H.known hosts.now)
        (assigned (state_with (H.known hosts.now) state.old) name.now expr.now)
        state.old result state.new }
    ensures hosts { state.new.policies.predicates ≡ state.old.policies.predicates }
    ensures calls { CallsWith (H.known hosts.now) (Assign name.now expr.now) state.old
        log.old log.new }
{
    let Some(place) = variable_type(name, state) else {
        return Err(refusal(alloc, "type"));
    };
    let tree = tree_of(alloc, expr, opened, state)?;
    // In its box, each path below drops the tree by one call.
    let holder = Held::new(alloc, tree)?;
    let tree = holder.get();
    if !lq_typing::is_convertible(ty(tree), place) {
        return Err(refusal(alloc, "type"));
    }
    let value = evaluate_scalar(alloc, tree, state, hosts, log)?;
    let line = replies::reply(alloc, Reply::Assigned(name))?;
    state.assign(name, value);
    Ok(line)
}
