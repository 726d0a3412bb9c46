//! Scans of tables for the rows that are visible.
ghost use Rattle.std.specs.Prelude.{◌≡◌, List};
ghost use Rattle.std.specs.Option.{ForSome};
ghost use Rattle.lq_value.specs.declared.scalar.Scalar.{Scalar};
ghost use Rattle.lq_policy.specs.RowRules.{admits};
ghost use Rattle.lq_guard.specs.Accesses.{is_visible_to};

use crate::access::Access;
use crate::visible_rows::VisibleRow;
use lq_policy::RowRules;
use lq_value::{Row, Scalar};

/// What is left of a table: the rows with which a role may do something, where they stand, one by one and in order. It takes no memory.
#[derive(Clone, Copy, Drop)]
pub struct Scan<'a, 'r> {
    pub(crate) access: Access<'a>,
    rows: &'a [Row],
    // What was worked out once, if it was: it is asked in place of the policies.
    rules: Option<&'r RowRules<'a>>,
    ghost rules_agree: { ForSome rules (λ given. (cells : List Scalar)
        → admits given.now cells ≡ is_visible_to access cells) },
}

impl<'a, 'r> Scan<'a, 'r> {
    ghost use Rattle.std.specs.Prelude.{◌≡◌, ◌∷◌, List, [], IfSome, MatchOption, true};
    ghost use Rattle.std.specs.Option.{ForSome};
    ghost use Rattle.lq_value.specs.declared.scalar.Scalar.{Scalar};
    ghost use Rattle.lq_policy.specs.RowRules.{admits};
    ghost use Rattle.lq_guard.specs.Accesses.{is_visible_to};
    ghost use Rattle.lq_guard.specs.SeenRows.{visible_by, rows_left};

    /// A scan of these rows, by rules that were worked out once or by the policies.
    pub(crate) fn new(
        access: Access<'a>,
        rows: &'a [Row],
        rules: Option<&'r RowRules<'a>>,
    ) -> Scan<'a, 'r>
        requires { ForSome rules (λ given. (cells : List Scalar)
            → admits given.now cells ≡ is_visible_to access cells) }
        ensures { rows_left result ≡ visible_by access.entry rows.now }
    {
        Scan {
            access,
            rows,
            rules,
        }
    }

    /// Whether the row that has these cells is handed out.
    #[inline(always)]
    fn is_admitted(&self, cells: &[Scalar]) -> bool
        ensures { result ≡ is_visible_to self.now.access cells.now }
    {
        match self.rules {
            Some(rules) => rules.is_admitted(cells),
            None => self.access.is_admitted(cells),
        }
    }

    /// The next row that is handed out, where it stands in the store.
    #[inline(always)]
    pub(crate) fn next_visible(&mut self) -> Option<&'a Row>
        ensures rows { MatchOption result ((rows_left self.old ≡ []) × (rows_left self.new ≡ []))
            (λ row. rows_left self.old
            ≡ record { table = self.new.access.table; row = row.now } ∷ rows_left self.new) }
        ensures visible { IfSome result (λ row. is_visible_to self.new.access row.now.cells
            ≡ true) }
    {
        while let [row, further @ ..] = self.rows {
            self.rows = further;
            if self.is_admitted(row.cells.as_slice()) {
                return Some(row);
            }
        }
        None
    }
}

impl<'a> Iterator for Scan<'a, '_> {
    ghost use Rattle.std.specs.Iterator.{YieldsFirst, item_count};
    ghost use Rattle.lq_guard.specs.SeenRows.{rows_left};

    type Item = VisibleRow<'a>;

    ghost next_gives = { YieldsFirst rows_left };

    ghost remaining = { item_count rows_left };

    #[inline]
    fn next(&mut self) -> Option<VisibleRow<'a>> {
        let row = self.next_visible()?;
        Some(VisibleRow::new(self.access, row))
    }
}
