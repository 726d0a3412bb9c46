//! The answer to `run`.
ghost use Rattle.std.specs.Prelude.{◌≡◌, false, true, IfOk};
ghost use Rattle.lq_value.specs.declared.ty.Ty.{out-Ty};
ghost use Rattle.lq_language.specs.Types.{has_place};
ghost use Rattle.lq_machine.specs.Opening.{is_past_opening};
ghost use Rattle.lq_machine.specs.HostCalls.{run_named};
ghost use Rattle.lq_machine.specs.Serving.{run_in, served_type};
ghost use Rattle.lq_machine.specs.States.{names_in};
ghost use Rattle.lq_tree.specs.UsesOfForms.{form_uses};
ghost use Rattle.lq_run.specs.Calls.{AddsCalls};
ghost use Rattle.lq_run.specs.Replies.{ServesTree};
ghost use Rattle.lq_run.specs.States.{AreKnown, state_with};
ghost use Rattle.lq_run.specs.Stops.{IsAnswered};

use crate::state::State;
use crate::stop::{Stop, refusal};
use crate::{denials, reply, trees};
use lq_grammar::Expr;
use lq_host::{Asks, Log};
use lq_json::Line;
use lq_machine::Opened;
use lq_tree::{Tree, ty};
use lq_typing::has_place;
use lq_use::{Use, uses};
use std::alloc::{AllocError, Global};

/// The line of the reply of a tree that uses this and that isn't null by its type, over the rows that the session's role sees.
fn seen_line<H: Asks>(
    alloc: Global,
    tree: &Tree,
    used: &[Use],
    state: &State,
    hosts: &H,
    log: &mut Log<H>,
) -> Result<Line, AllocError>
    requires placed { has_place (out-Ty tree.now.ty) ≡ true }
    requires known { AreKnown (H.known hosts.now) state.now }
    ensures served { IfOk result
        (ServesTree (state_with (H.known hosts.now) state.now) tree.now) }
    ensures calls { AddsCalls (state_with (H.known hosts.now) state.now)
        (form_uses tree.now.form) log.old log.new }
{
    reply::tree_line(alloc, tree, used, &state.view(), hosts, log)
}

/// The line that `run` of an expression is answered, where what the statement opens is within the limits of opening: the
/// expression's value over the rows that the role sees, by what these host predicates answer, or its first fault. Stops with a refusal
/// where it has no type, or that of null alone; else with the denial of the first table, column or host predicate that it uses and to
/// which the role has no right.
pub fn run_line<H: Asks>(
    alloc: Global,
    expr: &Expr,
    opened: Opened,
    state: &State,
    hosts: &H,
    log: &mut Log<H>,
) -> Result<Line, Stop>
    requires within { is_past_opening opened ≡ false }
    requires known { AreKnown (H.known hosts.now) state.now }
    ensures answered { IsAnswered
        (run_in (state_with (H.known hosts.now) state.now) expr.now) result }
    ensures calls { AddsCalls (state_with (H.known hosts.now) state.now)
        (run_named (state_with (H.known hosts.now) state.now) expr.now
        (served_type (names_in (state_with (H.known hosts.now) state.now)) expr.now))
        log.old log.new }
{
    let tree = trees::tree_of(alloc, expr, opened, state)?;
    if !has_place(ty(&tree)) {
        return Err(refusal(alloc, "type"));
    }
    let used = uses(alloc, &tree, state.store(), true)?;
    denials::check_rights(alloc, used.as_slice(), state)?;
    Ok(seen_line(alloc, &tree, used.as_slice(), state, hosts, log)?)
}
