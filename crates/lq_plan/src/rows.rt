//! Rows that are handed out one by one.
use crate::plans::Plan;
use crate::tables::TableRow;
use lq_guard::{Scan, VisibleRow};
use lq_host::SeenRow;
use lq_value::{RowRef, TableNumber};

/// What hands out rows one by one and in order, and may be asked for the same rows again by another of its kind.
pub trait Rows<R>: Drop {
    ghost use Rattle.std.specs.Prelude.{◌≡◌, List};
    ghost use Rattle.std.specs.Iterator.{YieldsFirst};

    ghost left: { Self → List R };

    /// The next of the rows that are left, or none where none is.
    fn next_row(&mut self) -> Option<R>
        ensures { YieldsFirst left self.old result self.new };

    /// Another that has the same rows left.
    fn reopened(&self) -> Self
        ensures { result ≡ self.now };
}

/// What hands out rows, and looks for those that pass by a plan.
pub trait Reads<R: TableRow>: Rows<R> {
    ghost use Rattle.lq_guard.specs.Handing.{Finds};
    ghost use Rattle.lq_plan.specs.PlannedRows.{row_verdict};

    /// The next of the rows that are left of which a plan doesn't say that it doesn't pass, and whether the plan says that it passes. It is counted
    /// with those that are passed over. None where none is left.
    fn next_passing(&mut self, plan: &Plan, handed: &mut u64) -> Option<(R, bool)>
        ensures { Finds (row_verdict R.table_of R.shown plan.now) (Self.left self.old) handed.old
            result (Self.left self.new) handed.new };
}

impl TableRow for VisibleRow<'_> {
    ghost use Rattle.lq_guard.specs.SeenRows as seen;

    ghost table_of = { seen.table_of };

    ghost number_of = { seen.number_of_row };

    fn table(&self) -> TableNumber {
        VisibleRow::table(self)
    }

    fn number(&self) -> u64 {
        SeenRow::number(self)
    }
}

/// The rows of a table with which a role may do something: the policies are asked as each is handed out.
impl<'a> Rows<VisibleRow<'a>> for Scan<'a, '_> {
    ghost use Rattle.lq_guard.specs.SeenRows.{rows_left};

    ghost left = { rows_left };

    fn next_row(&mut self) -> Option<VisibleRow<'a>> {
        self.next()
    }

    fn reopened(&self) -> Self {
        *self
    }
}

impl<'a> Reads<VisibleRow<'a>> for Scan<'a, '_> {
    #[inline(always)]
    #[tactic(auto, using(crate::proofs::FindingLemmas::found))]
    fn next_passing(&mut self, plan: &Plan, handed: &mut u64) -> Option<(VisibleRow<'a>, bool)> {
        if self.table() == plan.table {
            return self.find_passing(plan, handed);
        }
        let row = self.next()?;
        *handed = (*handed).saturating_add(1);
        Some((row, false))
    }
}

/// Rows that were gathered before, those that are left.
#[derive(Drop)]
pub struct Gathered<'a, R> {
    rows: &'a [R],
}

impl<'a, R> Gathered<'a, R> {
    ghost use Rattle.std.specs.Prelude.{◌≡◌, ◌∷◌, [], MatchOption};
    ghost use Rattle.lq_plan.specs.Gathering.{gathered};

    /// All of these rows.
    pub fn new(rows: &'a [R]) -> Gathered<'a, R>
        ensures { gathered result ≡ rows.now }
    {
        Gathered { rows }
    }

    /// The next of these rows, where it stands.
    #[inline(always)]
    fn next_in_place(&mut self) -> Option<&'a R>
        ensures { MatchOption result ((gathered self.old ≡ []) × (gathered self.new ≡ []))
            (λ row. gathered self.old ≡ row.now ∷ gathered self.new) }
    {
        match self.rows {
            [row, further @ ..] => {
                self.rows = further;
                Some(row)
            }
            [] => None,
        }
    }
}

impl<'a, R: RowRef> Rows<R> for Gathered<'a, R> {
    ghost use Rattle.lq_plan.specs.Gathering.{gathered};

    ghost left = { gathered };

    fn next_row(&mut self) -> Option<R> {
        Some(self.next_in_place()?.again())
    }

    fn reopened(&self) -> Self {
        Gathered { rows: self.rows }
    }
}

impl<'a, R: TableRow> Reads<R> for Gathered<'a, R> {
    #[inline]
    #[tactic(auto, using(crate::proofs::BaseLemmas::finds))]
    fn next_passing(&mut self, plan: &Plan, handed: &mut u64) -> Option<(R, bool)> {
        // a row is taken again only where it is found
        while let Some(row) = self.next_in_place() {
            *handed = (*handed).saturating_add(1);
            match plan.verdict(row) {
                Some(true) => return Some((row.again(), true)),
                Some(false) => {}
                None => return Some((row.again(), false)),
            }
        }
        None
    }
}
