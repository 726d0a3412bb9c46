//! Bases: the rows of a table or the items of a sequence, which are taken one by one.
ghost use Rattle.std.specs.Prelude.{◌≡◌, map};
ghost use Rattle.lq_value.specs.declared.value.Value.TheVariants as value;

use crate::plans::Plan;
use crate::rows::Reads;
use crate::tables::TableRow;
use lq_value::{End, List, RowRef, Value};
use std::alloc::Global;
use std::marker::{Model, PhantomData};

/// A reader of rows, if there is one. Contracts see the rows that it has left.
#[derive(Drop)]
pub struct Left<R: TableRow, S: Reads<R>> {
    reader: Option<S>,
    rows: PhantomData<R>,
}

impl<R: TableRow, S: Reads<R>> Model for Left<R, S> {
    ghost use Rattle.std.specs.Prelude.{List};
    ghost use Rattle.std.specs.Coded.{coded_list};
    ghost use Rattle.lq_plan.specs.Bases.{rows_by};

    ghost Value = { List R };

    ghost coded = { coded_list R.code };

    ghost view = { λ l. rows_by S.left l.reader };
}

impl<R: TableRow, S: Reads<R>> Left<R, S> {
    ghost use Rattle.std.specs.Prelude.{◌≡◌};
    ghost use Rattle.lq_plan.specs.Bases.{rows_by};
    ghost use Rattle.lq_guard.specs.Handing.{Finds};
    ghost use Rattle.lq_plan.specs.PlannedRows.{row_verdict};

    /// What this reader has left; nothing where there is none.
    fn new(reader: Option<S>) -> Left<R, S>
        ensures { result ≡ rows_by S.left reader }
    {
        Left {
            reader,
            rows: PhantomData,
        }
    }

    /// The next row of which a plan doesn't say that it doesn't pass, and whether the plan says that it passes; counted with those before it.
    #[inline(always)]
    fn next_passing(&mut self, plan: &Plan, handed: &mut u64) -> Option<(R, bool)>
        ensures { Finds (row_verdict R.table_of R.shown plan.now) self.old handed.old result
            self.new handed.new }
    {
        match &mut self.reader {
            Some(reader) => reader.next_passing(plan, handed),
            None => None,
        }
    }
}

/// Where items come from: rows of a table, where they stand, or items that were made. The next of
/// these stands last.
#[derive(Drop)]
pub struct Base<R: TableRow, S: Reads<R>> {
    rows: Left<R, S>,
    items: Vec<Value<R>>,
    end: End,
    // How many rows were handed out, up to the largest number.
    handed: u64,
}

/// What is taken from a base by a plan.
#[derive(Drop)]
pub enum Pulled<R> {
    /// A row of the plan's table that passes the conditions above it.
    Row(R),
    /// An item of which the plan says nothing.
    Item(Value<R>),
}

impl<R: TableRow, S: Reads<R>> Base<R, S> {
    ghost use Rattle.std.specs.Prelude.{◌≡◌, []};
    ghost use Rattle.lq_plan.specs.Bases.{rows_by};
    ghost use Rattle.lq_plan.specs.Handing.{handed_out, items_to_come, rows_to_come};
    ghost use Rattle.lq_plan.specs.Pulling.{base_stream};

    /// The rows that a reader hands out, behind which they end so; none where there is no reader.
    #[tactic(auto, using(crate::proofs::BaseLemmas::rows_alone))]
    pub(crate) fn of_rows(alloc: Global, rows: Option<S>, end: End) -> Base<R, S>
        ensures items { base_stream result ≡ (map value.Row (rows_by S.left rows), end) }
        ensures rows { rows_to_come result ≡ rows_by S.left rows }
        ensures alone { items_to_come result ≡ [] }
        ensures none { handed_out result ≡ 0 }
    {
        let rows = Left::new(rows);
        let items = Vec::new(alloc);
        Base {
            rows,
            items,
            end,
            handed: 0,
        }
    }

    /// Items that were made, and how they end. Takes no memory.
    #[tactic(auto, using(crate::proofs::BaseLemmas::turned))]
    pub fn of_items(items: List<Value<R>>, end: End) -> Base<R, S>
        ensures items { base_stream result ≡ (items, end) }
        ensures none { handed_out result ≡ 0 }
    {
        let mut items = items.into_vec();
        items.reverse();
        Base {
            rows: Left::new(None),
            items,
            end,
            handed: 0,
        }
    }

    /// How many rows were handed out so far; it stays at the largest number of 64 bits.
    pub fn handed(&self) -> u64
        ensures { result ≡ handed_out self.now }
    {
        self.handed
    }
}

impl<R: TableRow, S: Reads<R>> Base<R, S> {
    ghost use Rattle.std.specs.Prelude.{◌≡◌, [], IfOk, IfErr};
    ghost use Rattle.lq_language.specs.Enumerable.{in_front};
    ghost use Rattle.lq_plan.specs.Handing.{HandsOut, StaysOfRows, handed_out, rows_to_come};
    ghost use Rattle.lq_plan.specs.PlannedRows.{IsPulled, kept_stream, pulled_value};

    /// The next item that was made, or how they end, where no row is left.
    #[inline]
    #[tactic(auto, using(crate::proofs::BaseLemmas::items_pulled))]
    fn pull_item(&mut self, plan: &Plan) -> Result<Pulled<R>, End>
        requires { rows_to_come self.old ≡ [] }
        ensures item { IfOk result (λ pulled. kept_stream R.table_of R.shown plan.now self.old
            ≡ in_front (pulled_value pulled) (kept_stream R.table_of R.shown plan.now self.new)) }
        ensures planned { IfOk result (IsPulled R.table_of R.shown plan.now) }
        ensures end { IfErr result (λ e. kept_stream R.table_of R.shown plan.now self.old
            ≡ ([], e)) }
        ensures over { IfErr result (λ e. (kept_stream R.table_of R.shown plan.now self.new).0
            ≡ []) }
        ensures hands { HandsOut R.table_of R.shown plan.now (rows_to_come self.old)
            (handed_out self.old) result (rows_to_come self.new) (handed_out self.new) }
        ensures alone { StaysOfRows self.old self.new }
    {
        match self.items.pop() {
            Some(item) => Ok(Pulled::Item(item)),
            None => Err(self.end),
        }
    }

    /// The next row that passes by a plan, or the next item of which the plan says nothing, or how the
    /// items end. Rows of which the plan says that they don't pass are left out. Takes no memory.
    #[inline(always)]
    #[tactic(auto, using(crate::proofs::BaseLemmas::pulls))]
    pub fn pull(&mut self, plan: &Plan) -> Result<Pulled<R>, End>
        ensures item { IfOk result (λ pulled. kept_stream R.table_of R.shown plan.now self.old
            ≡ in_front (pulled_value pulled) (kept_stream R.table_of R.shown plan.now self.new)) }
        ensures planned { IfOk result (IsPulled R.table_of R.shown plan.now) }
        ensures end { IfErr result (λ e. kept_stream R.table_of R.shown plan.now self.old
            ≡ ([], e)) }
        ensures over { IfErr result (λ e. (kept_stream R.table_of R.shown plan.now self.new).0
            ≡ []) }
        ensures hands { HandsOut R.table_of R.shown plan.now (rows_to_come self.old)
            (handed_out self.old) result (rows_to_come self.new) (handed_out self.new) }
        ensures alone { StaysOfRows self.old self.new }
    {
        match self.rows.next_passing(plan, &mut self.handed) {
            Some((row, true)) => Ok(Pulled::Row(row)),
            Some((row, false)) => Ok(Pulled::Item(Value::Row(row))),
            None => self.pull_item(plan),
        }
    }
}
