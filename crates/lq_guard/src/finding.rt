//! Looking for a row among those that are visible.
use crate::row_tests::RowTest;
use crate::scans::Scan;
use crate::visible_rows::VisibleRow;
use lq_value::TableNumber;

impl<'a> Scan<'a, '_> {
    ghost use Rattle.std.specs.Prelude.{◌≡◌};
    ghost use Rattle.lq_language.specs.ValuesOfTypes.{Every};
    ghost use Rattle.lq_guard.specs.Handing.{Finds};
    ghost use Rattle.lq_guard.specs.SeenRows.{cells_of, rows_left, scanned_table, table_of};

    /// The number of the table that is scanned.
    #[inline]
    pub fn table(&self) -> TableNumber
        ensures table { result ≡ scanned_table self.now }
        ensures rows { Every (λ row. table_of row ≡ result) (rows_left self.now) }
    {
        self.access.table
    }

    /// The next of the rows that are left of which a test doesn't say no, and whether the test says yes. It is counted with those before it, which
    /// are visible too; the count ends at the largest number. None where no such row is left. Takes no memory.
    // A row is put together only where it is found, since that takes longer than most tests.
    #[inline(always)]
    #[tactic(auto, using(crate::proofs::HandingLaws::finds))]
    pub fn find_passing<T: RowTest>(
        &mut self,
        test: &T,
        handed: &mut u64,
    ) -> Option<(VisibleRow<'a>, bool)>
        ensures { Finds (λ row. T.verdict_of test.now (cells_of row)) (rows_left self.old)
            handed.old result (rows_left self.new) handed.new }
    {
        while let Some(row) = self.next_visible() {
            *handed = (*handed).saturating_add(1);
            match test.verdict(row.cells.as_slice()) {
                Some(true) => return Some((VisibleRow::new(self.access, row), true)),
                Some(false) => {}
                None => return Some((VisibleRow::new(self.access, row), false)),
            }
        }
        None
    }
}
