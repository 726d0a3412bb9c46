//! Scalars that a statement evaluates at once: those of `var` and of assignments.
ghost use Rattle.std.specs.Prelude.{◌≡◌, Some, true};
ghost use Rattle.lq_value.specs.declared.ty.Ty.{out-Ty};
ghost use Rattle.lq_value.specs.declared.value.Value.{out-Value};
ghost use Rattle.lq_grammar.specs.declared.syntax.Expr.{Expr};
ghost use Rattle.lq_machine.specs.HostCalls.{named_now};
ghost use Rattle.lq_tree.specs.UsesOfForms.{form_uses};
ghost use Rattle.lq_run.specs.Calls.{AddsCalls};
ghost use Rattle.lq_run.specs.States.{AreKnown, state_with};
ghost use Rattle.lq_run.specs.Statements.{EvaluatesTree, YieldsTree, is_of_scalars, scalar_in, tree_in};

use crate::denials::check_rights;
use crate::state::State;
use crate::stop::{Stop, fault, refusal};
use lq_host::{Asks, Log};
use lq_pull::value_seen;
use lq_tree::Tree;
use lq_use::{Use, uses};
use lq_value::{RowRef, Scalar, Value};
use std::alloc::Global;

/// The scalar that a value is.
fn scalar_of<R: RowRef>(value: Value<R>) -> Option<Scalar>
    ensures { result ≡ scalar_in (out-Value R value) }
{
    match value {
        Value::Scalar(scalar) => Some(scalar),
        _ => None,
    }
}

/// The value of a tree whose type is a scalar's, or null's, over the rows that the session's role sees; or stops with its fault.
fn evaluate_seen<H: Asks>(
    alloc: Global,
    tree: &Tree,
    used: &[Use],
    state: &State,
    hosts: &H,
    log: &mut Log<H>,
) -> Result<Scalar, Stop>
    requires scalar { is_of_scalars (out-Ty tree.now.ty) ≡ true }
    requires known { AreKnown (H.known hosts.now) state.now }
    ensures yields { YieldsTree (state_with (H.known hosts.now) state.now) tree.now result }
    ensures calls { AddsCalls (state_with (H.known hosts.now) state.now)
        (form_uses tree.now.form) log.old log.new }
{
    match value_seen(alloc, tree, used, &state.view(), hosts, log)? {
        Ok(found) => match scalar_of(found) {
            Some(scalar) => Ok(scalar),
            None => Err(refusal(alloc, "type")),
        },
        Err(met) => Err(fault(alloc, met)),
    }
}

/// The value of an expression of a scalar's type, or of null's, which has this tree, by what these host predicates answer. Stops with the
/// line of the first use to which the role has no right, and else with that of the fault that the expression meets.
pub fn evaluate_scalar<H: Asks>(
    alloc: Global,
    tree: &Tree,
    state: &State,
    hosts: &H,
    log: &mut Log<H>,
) -> Result<Scalar, Stop>
    requires scalar { is_of_scalars (out-Ty tree.now.ty) ≡ true }
    requires known { AreKnown (H.known hosts.now) state.now }
    ensures evaluates { EvaluatesTree (state_with (H.known hosts.now) state.now) tree.now result }
    ensures calls { (e : Expr) → tree_in (state_with (H.known hosts.now) state.now) e
        ≡ Some tree.now
        → AddsCalls (state_with (H.known hosts.now) state.now)
        (named_now (state_with (H.known hosts.now) state.now) e) log.old log.new }
{
    let used = uses(alloc, tree, state.store(), false)?;
    check_rights(alloc, used.as_slice(), state)?;
    evaluate_seen(alloc, tree, used.as_slice(), state, hosts, log)
}
