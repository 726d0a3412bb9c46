//! Plans: what is found out once about the rows of a table, for the conditions and the lambda above it.
use crate::tables::TableRow;
use lq_condition::Condition;
use lq_guard::RowTest;
use lq_value::{Scalar, TableNumber, Value};

/// What is found out once about the rows of a table. Where a plan says nothing of a row, the row
/// goes the general way.
#[derive(Drop)]
pub struct Plan {
    /// The number of the table.
    pub(crate) table: TableNumber,
    /// Whether a row passes the conditions above the table.
    pub(crate) condition: Condition,
    /// The place of the cell that the last lambda gives of a row, where it gives a cell.
    pub(crate) place: Option<usize>,
    /// Whether the last lambda gives the row itself.
    pub(crate) gives_row: bool,
}

impl Plan {
    ghost use Rattle.std.specs.Prelude.{◌≡◌, List, IfSome};
    ghost use Rattle.std.specs.Option.{option_copied};
    ghost use Rattle.lq_value.specs.declared.value.Value.{Value};
    ghost use Rattle.lq_language.specs.Worlds.{World};
    ghost use Rattle.lq_tree.specs.declared.tree.Form.{Form};
    ghost use Rattle.lq_plan.specs.PlannedRows.{row_cell, row_verdict};
    ghost use Rattle.lq_plan.specs.Prepared.{IsPlanned, SelectsScalar};
    ghost use Rattle.lq_plan.specs.declared.stages.Stage.{Stage};

    /// Whether a row passes, where the plan says so: it says nothing of rows of other tables, and of
    /// a row whose cells meet a fault. Takes no memory.
    #[inline]
    pub fn verdict<R: TableRow>(&self, row: &R) -> Option<bool>
        ensures { result ≡ row_verdict R.table_of R.shown self.now row.now }
    {
        if row.table() == self.table {
            return self.condition.verdict(row.cells());
        }
        None
    }

    /// The cell that the last lambda gives of a row of the plan's table, where it gives one.
    #[inline]
    pub fn cell<'r, R: TableRow>(&self, row: &'r R) -> Option<&'r Scalar>
        ensures { option_copied result ≡ row_cell R.table_of R.shown self.now row.now }
    {
        row.cells().get(self.place?)
    }

    /// The cell that the last lambda gives of an item, where it is known to give one: of a row of the
    /// plan's table.
    #[inline]
    #[tactic(auto, using(crate::proofs::PlanLaws::item_planned))]
    pub fn item_cell<'v, R: TableRow>(&self, item: &'v Value<R>) -> Option<&'v Scalar>
        ensures { (world : World R) (slots : List (Value R)) (st : Stage) (source : Form)
            → IsPlanned R.table_of R.shown world slots st source self.now
            → IfSome result (λ s. SelectsScalar world slots st item.now s.now) }
    {
        let Value::Row(row) = item else {
            return None;
        };
        if row.table() != self.table {
            return None;
        }
        self.cell(row)
    }

    /// Whether the stage after the source is a lambda that gives the row itself, and each other item too.
    #[inline]
    pub fn gives_row(&self) -> bool
        ensures { result ≡ self.now.gives_row }
    {
        self.gives_row
    }
}

/// A plan asks a row's cells as the cells of its table.
impl RowTest for Plan {
    ghost use Rattle.lq_condition.specs.Verdicts.{verdict};

    ghost verdict_of = { λ plan cells. verdict plan.condition cells };

    #[inline]
    fn verdict(&self, cells: &[Scalar]) -> Option<bool> {
        self.condition.verdict(cells)
    }
}
