//! What is prepared of tables before a run, by what the run reads of each.
ghost use Rattle.std.specs.Prelude.{◌≡◌, ◌<◌, IfOk, length};
ghost use Rattle.lq_guard.specs.SeenRows as seen;
ghost use Rattle.lq_security.specs.declared.policy.Action.TheVariants as action;
ghost use Rattle.lq_pull.specs.Readers.{ArePrepared, IsPrepared, rows_left};
ghost use Rattle.lq_pull.specs.Views.{AreRowsFor, sight_of};

use crate::readers::Reader;
use crate::views::View;
use lq_guard::{Scan, VisibleRow, scan};
use lq_pipe::Gathered;
use lq_policy::{Action, RowRules, Use};
use lq_tree::{Form, Tree};
use lq_value::TableNumber;
use std::alloc::{AllocError, Global};

/// What is prepared of a table before a run.
#[derive(Drop)]
pub(crate) enum Prepared<'a> {
    /// Nothing: the run reads no row of it.
    Nothing,
    /// The rules for the role's reading of it, by which its rows are scanned.
    Rules(RowRules<'a>),
    /// Its rows that the role sees.
    Rows(Vec<VisibleRow<'a>>),
}

/// How often a run reads the rows of a table.
#[derive(Clone, Copy)]
enum Reading {
    Never,
    Once,
    Often,
}

/// The table at the head of a form's chain of sources: unless the form names it elsewhere too, its rows are
/// read once, up to the last that is needed. No answer is wrong: rows that are gathered are the same rows.
fn head(form: &Form) -> Option<TableNumber> {
    match form {
        Form::Table(number) => Some(*number),
        Form::Column(row, _, _) => head(row.get()),
        Form::Member(value, _) => head(value.get()),
        Form::Key(group) => head(group.get()),
        Form::Unary(_, operand) => head(operand.get()),
        Form::IsNull(_, operand) => head(operand.get()),
        Form::Sequence(source) => head(source.get()),
        Form::Simple(_, _, source) => head(source.get()),
        Form::Given(_, source, _) => head(source.get()),
        Form::Where(source, _) => head(source.get()),
        Form::Select(source, _) => head(source.get()),
        Form::All(source, _) => head(source.get()),
        Form::SelectMany(source, _, _) => head(source.get()),
        Form::Join(source, _) => head(source.get()),
        Form::OrderBy(source, _) => head(source.get()),
        Form::GroupBy(source, _, _) => head(source.get()),
        _ => None,
    }
}

/// How often the rows of a table are read where this is used, and that table is at the head.
fn reading_of(used: &[Use], head: Option<TableNumber>, table: TableNumber) -> Reading {
    let mut reading = Reading::Never;
    for one in used {
        if *one == Use::Table(table) {
            match reading {
                Reading::Never if head == Some(table) => reading = Reading::Once,
                _ => return Reading::Often,
            }
        }
    }
    reading
}

/// The rows that a scan has left.
fn gather<'a>(alloc: Global, scan: &mut Scan<'a, '_>) -> Result<Vec<VisibleRow<'a>>, AllocError>
    ensures { IfOk result (λ rows. rows.items ≡ seen.rows_left scan.old) }
{
    let mut rows = Vec::new(alloc);
    while let Some(row) = scan.next() {
        rows.push(row)?;
    }
    Ok(rows)
}

/// What is prepared of a table whose rows are read so often.
fn prepare<'a>(
    alloc: Global,
    view: &View<'a>,
    table: TableNumber,
    reading: Reading,
) -> Result<Prepared<'a>, AllocError>
    requires { table < length view.now.store.now }
    ensures { IfOk result (IsPrepared (sight_of view.now) table) }
{
    match reading {
        Reading::Never => Ok(Prepared::Nothing),
        Reading::Once => {
            let rules = view
                .policies
                .rules_for(alloc, view.role, Action::Select, table)?;
            Ok(Prepared::Rules(rules))
        }
        Reading::Often => {
            let rules = view
                .policies
                .rules_for(alloc, view.role, Action::Select, table)?;
            let mut scan = view.scan(table, Action::Select, &rules);
            let rows = gather(alloc, &mut scan)?;
            Ok(Prepared::Rows(rows))
        }
    }
}

/// What is prepared of each table, by number, for the run of a tree that uses this: a table that
/// it doesn't name costs nothing, the one at its head is scanned, and all others are gathered. So the policies
/// are asked once at most for each row and run, however often a lambda reads the row.
#[tactic(auto, using(crate::proofs::PreparingLemmas::prepares))]
pub(crate) fn prepare_tables<'a>(
    alloc: Global,
    view: &View<'a>,
    used: &[Use],
    head: Option<TableNumber>,
) -> Result<Vec<Prepared<'a>>, AllocError>
    ensures all { IfOk result (λ all. ArePrepared (sight_of view.now) all.items) }
    ensures many { IfOk result (λ all. length all.items ≡ length view.now.store.now) }
{
    let mut all = Vec::with_capacity(alloc, view.store.len())?;
    let mut table = 0u16;
    while (table as usize) < view.store.len() {
        let reading = reading_of(used, head, table);
        all.push(prepare(alloc, view, table, reading)?)?;
        table += 1;
    }
    Ok(all)
}

/// The same for the run of a whole tree.
pub(crate) fn prepare_for<'a>(
    alloc: Global,
    view: &View<'a>,
    tree: &Tree,
    used: &[Use],
) -> Result<Vec<Prepared<'a>>, AllocError>
    ensures all { IfOk result (λ all. ArePrepared (sight_of view.now) all.items) }
    ensures many { IfOk result (λ all. length all.items ≡ length view.now.store.now) }
{
    prepare_tables(alloc, view, used, head(tree.form.get()))
}

/// What hands out the rows of a table that the role sees, by what was prepared of it.
pub(crate) fn reader_of<'a, 'b>(
    view: &View<'a>,
    table: TableNumber,
    prepared: &'b Prepared<'a>,
) -> Reader<'a, 'b>
    requires within { table < length view.now.store.now }
    requires prepared { IsPrepared (sight_of view.now) table prepared.now }
    ensures { AreRowsFor (sight_of view.now) action.Select table (rows_left result) }
{
    match prepared {
        Prepared::Nothing => Reader::Scan(scan(
            view.store,
            view.policies,
            table,
            view.role,
            Action::Select,
        )),
        Prepared::Rules(rules) => Reader::Scan(view.scan(table, Action::Select, rules)),
        Prepared::Rows(rows) => Reader::Gathered(Gathered::new(rows.as_slice())),
    }
}

/// What hands out the rows of a table that the role sees, where nothing was prepared of it.
pub(crate) fn unprepared<'a>(view: &View<'a>, table: TableNumber) -> Reader<'a, 'a>
    requires { table < length view.now.store.now }
    ensures { AreRowsFor (sight_of view.now) action.Select table (rows_left result) }
{
    Reader::Scan(scan(view.store, view.policies, table, view.role, Action::Select))
}
