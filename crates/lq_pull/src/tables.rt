//! Tables, each with what hands out the rows that a role sees of it.
ghost use Rattle.std.specs.Prelude.{◌≡◌, IfOk, List, length};
ghost use Rattle.lq_guard.specs.SeenRows.{cells_of, table_of};
ghost use Rattle.lq_host.specs.Predicates.{Predicate};
ghost use Rattle.lq_plan.specs.Worlds.{HaveDistinctColumns, schemas_in, world_of};
ghost use Rattle.lq_pull.specs.Readers.{ArePrepared, AreSeen, rows_left};
ghost use Rattle.lq_pull.specs.Views.{sight_of, world_seen};

use crate::preparing::{Prepared, reader_of, unprepared};
use crate::readers::Reader;
use crate::views::View;
use lq_pipe::TableRows;
use std::alloc::{AllocError, Global};

/// The tables of a view, each with what hands out the rows that the role sees of it, by what was prepared of them.
pub(crate) fn with_rows<'a, 'b>(
    alloc: Global,
    view: &View<'a>,
    prepared: &'b [Prepared<'a>],
) -> Result<Vec<TableRows<'b, Reader<'a, 'b>>>, AllocError>
    requires all { ArePrepared (sight_of view.now) prepared.now }
    requires many { length prepared.now ≡ length view.now.store.now }
    ensures seen { IfOk result (λ tables. AreSeen (sight_of view.now) tables.items) }
    ensures columns { IfOk result (λ tables. HaveDistinctColumns (schemas_in tables.items)) }
{
    let mut tables = Vec::with_capacity(alloc, prepared.len())?;
    let mut table = 0u16;
    while (table as usize) < view.store.len() {
        let schema = view.store.schema(table);
        let rows = reader_of(view, table, &prepared[table as usize]);
        tables.push(TableRows { schema, rows })?;
        table += 1;
    }
    Ok(tables)
}

/// The tables of a view, each with a scan that asks the policies themselves, and so borrows nothing that was prepared.
pub fn with_scans<'a>(
    alloc: Global,
    view: &View<'a>,
) -> Result<Vec<TableRows<'a, Reader<'a, 'a>>>, AllocError>
    ensures seen { IfOk result (λ tables. AreSeen (sight_of view.now) tables.items) }
    ensures world { IfOk result (λ tables. (predicates : List Predicate)
        → world_of table_of cells_of rows_left predicates tables.items
        ≡ world_seen (sight_of view.now) predicates) }
    ensures columns { IfOk result (λ tables. HaveDistinctColumns (schemas_in tables.items)) }
{
    let mut tables = Vec::with_capacity(alloc, view.store.len())?;
    let mut table = 0u16;
    while (table as usize) < view.store.len() {
        let schema = view.store.schema(table);
        let rows = unprepared(view, table);
        tables.push(TableRows { schema, rows })?;
        table += 1;
    }
    Ok(tables)
}
