//! What statements do: dispatch, and the change of roles.
ghost use Rattle.std.specs.Prelude.{◌≡◌, false};
ghost use Rattle.lq_run.specs.States.{AreKnown, state_with};
ghost use Rattle.lq_machine.specs.Machine.{perform};
ghost use Rattle.lq_machine.specs.Opening.{is_past_opening};
ghost use Rattle.lq_machine.specs.Statements.{taking_role};
ghost use Rattle.lq_session.specs.Calls.{CallsWith};
ghost use Rattle.lq_session.specs.Performed.{PerformsWith, PerformsWithAny};

use crate::replies::reply;
use crate::rows::{delete, insert};
use crate::variables::{assign, define};
use lq_grammar::Statement;
use lq_host::{Asks, Log};
use lq_json::{Line, Reply};
use lq_machine::Opened;
use lq_run::{State, Stop, refusal, run_line};
use lq_value::Held;
use std::alloc::Global;

/// Performs a statement that opens no more than it may, by what these host predicates answer, and answers its line. Where it
/// stops before its end, the state is as it was, and the calls that were made stay in the log. An expression is dropped by a call, or
/// handed on in a box: at the end of a block, each of its parts would be dropped there by itself.
pub(crate) fn perform<H: Asks>(
    alloc: Global,
    statement: Statement,
    opened: Opened,
    state: &mut State,
    hosts: &H,
    log: &mut Log<H>,
) -> Result<Line, Stop>
    requires within { is_past_opening opened ≡ false }
    requires known { AreKnown (H.known hosts.now) state.old }
    ensures performs { PerformsWith (H.known hosts.now)
        (perform (state_with (H.known hosts.now) state.old) opened statement)
        state.old result state.new }
    ensures hosts { state.new.policies.predicates ≡ state.old.policies.predicates }
    ensures calls { CallsWith (H.known hosts.now) statement state.old log.old log.new }
{
    match statement {
        Statement::Run(expr) => {
            let answer = run_line(alloc, &expr, opened, state, hosts, log);
            drop(expr);
            answer
        }
        Statement::Define(name, expr) => {
            let holder = Held::new(alloc, expr)?;
            define(alloc, name, holder, opened, state, hosts, log)
        }
        Statement::Assign(name, value) => {
            let answer = assign(alloc, name.as_str(), &value, opened, state, hosts, log);
            drop(value);
            answer
        }
        Statement::As(name) => take_role(alloc, name.as_str(), state),
        Statement::Insert(table, cells) => insert(alloc, table.as_str(), cells.into_vec(), state),
        Statement::Delete(table, row, condition) => {
            let name = table.as_str();
            let answer = delete(alloc, name, &row, &condition, opened, state, hosts, log);
            drop(condition);
            answer
        }
    }
}

/// The session has the role of this name from now on; refused as `role` where there is none.
fn take_role(alloc: Global, name: &str, state: &mut State) -> Result<Line, Stop>
    ensures performs { PerformsWithAny (λ s. taking_role s name.now) state.old result
        state.new }
    ensures hosts { state.new.policies.predicates ≡ state.old.policies.predicates }
{
    let Some(role) = state.policies().role(name) else {
        return Err(refusal(alloc, "role"));
    };
    let line = reply(alloc, Reply::Role(name))?;
    state.take_role(alloc, role)?;
    Ok(line)
}
