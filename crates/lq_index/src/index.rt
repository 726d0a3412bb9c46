//! The index of a column.
use crate::slot_table::SlotTable;
use lq_value::{Row, Scalar};
use std::alloc::{AllocError, Global};
use std::marker::Model;

/// For each scalar of a column the places of the rows that have it. The rows are those of a table, and
/// a place is a row's number among them, from 0.
#[derive(Drop)]
pub struct Index {
    table: SlotTable,
}

impl Model for Index {
    ghost use Rattle.lq_index.specs.Slots.{Contents};

    ghost Value = { Contents };

    ghost view = { λ i. record {
      width = i.table.width;
      slots = i.table.slots.items;
      groups = i.table.groups;
    } };
}

impl Index {
    ghost use Rattle.std.specs.Prelude.{◌≡◌, ◌++◌, [], ◌∷◌, length, IfOk, OnOk, OnErr};
    ghost use Rattle.lq_value.specs.SameAndOrder.{same_scalars};
    ghost use Rattle.lq_value.specs.Lookups.{places};
    ghost use Rattle.lq_index.specs.Entries.{AreNumbers, cells_of};
    ghost use Rattle.lq_index.specs.Slots.{Indexes};
    ghost use Rattle.lq_index.specs.Keys.{Cells};
    ghost use Rattle.lq_index.specs.Removals.{Leaves};

    /// The index of a column of no rows. Takes no memory.
    pub fn new(alloc: Global) -> Index
        ensures { Indexes result [] }
    {
        Index {
            table: SlotTable::new(alloc, 0),
        }
    }

    /// The index of a column of these rows. A row that is shorter has null there. It is
    /// refused for want of memory alone, and past 2^32 rows.
    pub fn build(alloc: Global, rows: &[Row], column: usize) -> Result<Index, AllocError>
        ensures { IfOk result (λ index. Indexes index (cells_of column rows.now)) }
    {
        Ok(Index {
            table: SlotTable::build(alloc, rows, column)?,
        })
    }

    /// The places, in order, of the rows whose cell is the same as `key`: null for null, and else the
    /// same int, truth value or text. `rows` are those that the index is of, and `identity` the numbers
    /// 0, 1, 2 and so on, as many as there are rows. Takes no memory.
    pub fn find<'a>(
        &'a self,
        rows: &[Row],
        column: usize,
        identity: &'a [usize],
        key: &Scalar,
    ) -> &'a [usize]
        requires index { Indexes self.now (cells_of column rows.now) }
        requires identity { AreNumbers identity.now (length rows.now) }
        ensures { result.now ≡ places (same_scalars key.now) (cells_of column rows.now) }
    {
        self.table.find(rows, column, identity, key)
    }

    /// Puts one more row into the index, whose cell is `key`. `rows` are those before it. Where memory
    /// is refused, and past 2^32 rows, this is still the index of `rows`.
    pub fn add(
        &mut self,
        alloc: Global,
        rows: &[Row],
        column: usize,
        key: &Scalar,
    ) -> Result<(), AllocError>
        requires { Indexes self.old (cells_of column rows.now) }
        ensures ok { OnOk result (Indexes self.new (cells_of column rows.now ++ key.now ∷ [])) }
        ensures err { OnErr result (Indexes self.new (cells_of column rows.now)) }
    {
        self.table.add(alloc, rows, column, key)
    }

    /// Lets go of the rows that have no rank, and gives the others their new places. `ranks` has for
    /// each place the new one, and `usize::MAX` where the row is removed. Rows that stay move up and
    /// keep their order, so that no rank is above its place. Takes no memory.
    ///
    /// One list serves all indexes of a table: the numbers that `find` lends from may be overwritten by
    /// the ranks, and set back to 0, 1, 2 and so on behind the last index. Numbers that stay as they
    /// are but for the last take back the row that was added last, as where a later column's index has
    /// no memory for it.
    pub fn remove(&mut self, ranks: &[usize])
        ensures { (cells left : Cells) → Indexes self.old cells
            → Leaves ranks.now cells left → Indexes self.new left }
    {
        self.table.remove(ranks);
    }
}
