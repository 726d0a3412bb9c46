//! What hands out the rows of tables in a run.
ghost use Rattle.std.specs.Prelude.{◌≡◌};

use lq_guard::{Scan, VisibleRow};
use lq_pipe::{Gathered, Plan, Reads, Rows};

/// What hands out the rows of a table with which a role may do something.
#[derive(Drop)]
pub enum Reader<'a, 'b> {
    /// A scan, which asks about each row as it comes to it.
    Scan(Scan<'a, 'b>),
    /// Rows that were gathered before.
    Gathered(Gathered<'b, VisibleRow<'a>>),
}

impl<'a> Rows<VisibleRow<'a>> for Reader<'a, '_> {
    ghost use Rattle.lq_pull.specs.Readers.{rows_left};

    ghost left = { rows_left };

    fn next_row(&mut self) -> Option<VisibleRow<'a>> {
        match self {
            Reader::Scan(scan) => scan.next_row(),
            Reader::Gathered(rows) => rows.next_row(),
        }
    }

    fn reopened(&self) -> Self {
        match self {
            Reader::Scan(scan) => Reader::Scan(scan.reopened()),
            Reader::Gathered(rows) => Reader::Gathered(rows.reopened()),
        }
    }
}

impl<'a> Reads<VisibleRow<'a>> for Reader<'a, '_> {
    #[inline(always)]
    fn next_passing(&mut self, plan: &Plan, handed: &mut u64) -> Option<(VisibleRow<'a>, bool)> {
        match self {
            Reader::Scan(scan) => scan.next_passing(plan, handed),
            Reader::Gathered(rows) => rows.next_passing(plan, handed),
        }
    }
}
