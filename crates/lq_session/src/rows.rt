//! Rows that statements put into tables, and those that they remove.
ghost use Rattle.std.specs.Prelude.{◌≡◌, false};
ghost use Rattle.lq_grammar.specs.declared.syntax.Statement.TheVariants.{Delete};
ghost use Rattle.lq_machine.specs.Opening.{is_past_opening};
ghost use Rattle.lq_machine.specs.Statements.{deleted, inserted};
ghost use Rattle.lq_run.specs.States.{AreKnown, HoldsOf, state_with};
ghost use Rattle.lq_session.specs.Calls.{CallsWith};
ghost use Rattle.lq_session.specs.Performed.{PerformsWith, PerformsWithAny};
ghost use Rattle.lq_session.specs.Rows.{ChecksRow, is_full, is_typed, is_within};

use crate::replies::reply;
use lq_grammar::Expr;
use lq_host::{Asks, Log};
use lq_json::{Line, Reply};
use lq_machine::Opened;
use lq_policy::Use;
use lq_run::{State, Stop, check_rights, chosen_rows, condition_of, denial, fault, refusal};
use lq_store::StoreError;
use lq_tree::ty;
use lq_typing::is_bool;
use lq_use::uses;
use lq_value::{End, Held, Scalar, TableNumber, Txt};
use std::alloc::Global;

/// `Ok` exactly where no policy keeps a new row from the session's role; else stops with the denial by the rule that does.
fn check_row(alloc: Global, table: TableNumber, cells: &[Scalar], state: &State) -> Result<(), Stop>
    ensures { HoldsOf state.now (λ s. ChecksRow s table cells.now result) }
{
    match state.policies().check(state.role(), table, cells) {
        Ok(()) => Ok(()),
        Err(rule) => {
            let used = Use::Insert(table);
            Err(denial(alloc, state.store(), state.hosts(), rule, used))
        }
    }
}

/// Whether there is one cell a column, of its type, where a table says this of a row.
fn is_typed(verdict: Option<StoreError>) -> bool
    ensures { result ≡ is_typed verdict }
{
    !matches!(
        verdict,
        Some(StoreError::Arity) | Some(StoreError::CellType)
    )
}

/// Whether each number is in the range of its column, where a table says this of a row.
fn is_within(verdict: Option<StoreError>) -> bool
    ensures { result ≡ is_within verdict }
{
    !matches!(verdict, Some(StoreError::CellRange))
}

/// Whether the table has given its last number, where it says this of a row.
fn is_full(verdict: Option<StoreError>) -> bool
    ensures { result ≡ is_full verdict }
{
    matches!(verdict, Some(StoreError::Full))
}

/// Puts a row of these cells into the table of this name. It is refused as `type` where there is no such table, or there isn't one cell
/// a column, of its type; then it is denied where the role has no right to put rows there; it is refused as `cell` where a
/// number is out of its column's range, denied by the rule of a policy that keeps the row out, and refused as `full` where
/// the table has given its last number.
pub(crate) fn insert(
    alloc: Global,
    name: &str,
    cells: Vec<Scalar>,
    state: &mut State,
) -> Result<Line, Stop>
    ensures performs { PerformsWithAny (λ s. inserted s name.now cells.items) state.old result
        state.new }
    ensures hosts { state.new.policies.predicates ≡ state.old.policies.predicates }
{
    let Some(table) = state.store().find(name) else {
        return Err(refusal(alloc, "type"));
    };
    let verdict = state.store().refusal(table, cells.as_slice());
    if !is_typed(verdict) {
        return Err(refusal(alloc, "type"));
    }
    check_rights(alloc, &[Use::Insert(table)], state)?;
    if !is_within(verdict) {
        return Err(refusal(alloc, "cell"));
    }
    check_row(alloc, table, cells.as_slice(), state)?;
    if is_full(verdict) {
        return Err(refusal(alloc, "full"));
    }
    let line = reply(alloc, Reply::Inserted)?;
    match state.insert(table, cells) {
        Ok(_) => Ok(line),
        Err(_) => Err(Stop::Memory),
    }
}

/// Removes the rows of the table of this name on which a condition is true, of those that the role may remove. It is
/// refused as `type` where there is no such table, or the condition isn't a truth value; then it is denied
/// where the role has no right to remove rows there, or to what the condition uses. A fault removes none.
pub(crate) fn delete<H: Asks>(
    alloc: Global,
    name: &str,
    row: &Txt,
    condition: &Expr,
    opened: Opened,
    state: &mut State,
    hosts: &H,
    log: &mut Log<H>,
) -> Result<Line, Stop>
    requires within { is_past_opening opened ≡ false }
    requires known { AreKnown (H.known hosts.now) state.old }
    ensures performs { PerformsWith (H.known hosts.now)
        (deleted (state_with (H.known hosts.now) state.old) name.now row.now condition.now)
        state.old result state.new }
    ensures hosts { state.new.policies.predicates ≡ state.old.policies.predicates }
    ensures calls { CallsWith (H.known hosts.now) (Delete name.now row.now condition.now) state.old
        log.old log.new }
{
    let Some(table) = state.store().find(name) else {
        return Err(refusal(alloc, "type"));
    };
    let tree = condition_of(alloc, condition, row, table, opened, state)?;
    // In its box, each path below drops the tree by one call.
    let holder = Held::new(alloc, tree)?;
    let tree = holder.get();
    if !is_bool(ty(tree)) {
        return Err(refusal(alloc, "type"));
    }
    let mut used = uses(alloc, tree, state.store(), false)?;
    used.insert(0, Use::Delete(table))?;
    check_rights(alloc, used.as_slice(), state)?;
    let (numbers, end) = chosen_rows(alloc, table, tree, state, hosts, log)?;
    match end {
        End::Fault(met) => Err(fault(alloc, met)),
        End::Done => {
            let line = reply(alloc, Reply::Deleted(numbers.len() as u64))?;
            state.delete_rows(table, &numbers);
            Ok(line)
        }
    }
}
