//! The columns that values of a type show.
ghost use Rattle.std.specs.Prelude.{◌≡◌, ◌≤◌, ◌++◌, flat_map, length, slice_get, OnOk};
ghost use Rattle.lq_machine.specs.States.{schemas_of};
ghost use Rattle.lq_language.specs.Uses.{all_columns, columns_from, shown_columns};

use lq_policy::Use;
use lq_store::Store;
use lq_value::{Column, ColumnNumber, TableNumber, Txt, Ty};
use std::alloc::AllocError;

/// These columns of a table, after other uses.
fn add_each(table: TableNumber, columns: &[Column], uses: &mut Vec<Use>) -> Result<(), AllocError>
    requires { length columns.now ≤ 100 }
    ensures { OnOk result (uses.new.items ≡ uses.old.items ++ columns_from table 0 columns.now) }
{
    for (number, _) in columns.iter().enumerate() {
        uses.push(Use::Column(table, number as ColumnNumber))?;
    }
    Ok(())
}

/// All columns of a table, after other uses; none where there is no such table.
#[tactic(auto, using(crate::proofs::UseLemmas::types))]
fn add_table(store: &Store, table: TableNumber, uses: &mut Vec<Use>) -> Result<(), AllocError>
    ensures { OnOk result (uses.new.items
        ≡ uses.old.items ++ all_columns table (slice_get (schemas_of store.now) table)) }
{
    if table as usize >= store.len() {
        return Ok(());
    }
    add_each(table, store.schema(table).columns.as_slice(), uses)
}

/// The columns of each row in values of this type, after other uses: a record's members as written, and a group's key before its
/// items.
#[cycle(showing)]
#[tactic(auto, using(crate::proofs::UseLemmas::types))]
pub(crate) fn add_columns(store: &Store, ty: &Ty, uses: &mut Vec<Use>) -> Result<(), AllocError>
    ensures { OnOk result (uses.new.items
        ≡ uses.old.items ++ shown_columns (schemas_of store.now) ty.now) }
{
    match ty {
        Ty::Row(table) => add_table(store, *table, uses),
        Ty::Rec(members) => add_members(store, members.as_slice(), uses),
        Ty::Group(key, item) => add_both(store, key.get(), item.get(), uses),
        Ty::Seq(item) => add_columns(store, item.get(), uses),
        Ty::Int | Ty::IntN | Ty::Bool | Ty::Str | Ty::Null => Ok(()),
    }
}

/// The same of two types, one after the other.
#[cycle(showing)]
fn add_both(store: &Store, key: &Ty, item: &Ty, uses: &mut Vec<Use>) -> Result<(), AllocError>
    ensures { OnOk result (uses.new.items
        ≡ uses.old.items ++ (shown_columns (schemas_of store.now) key.now
        ++ shown_columns (schemas_of store.now) item.now)) }
{
    add_columns(store, key, uses)?;
    add_columns(store, item, uses)
}

/// The same of these members, in order.
#[cycle(showing)]
fn add_members(store: &Store, members: &[(Txt, Ty)], uses: &mut Vec<Use>) -> Result<(), AllocError>
    ensures { OnOk result (uses.new.items
        ≡ uses.old.items ++ flat_map (λ member. shown_columns (schemas_of store.now) member.1)
        members.now) }
{
    for (_, ty) in members {
        add_columns(store, ty, uses)?;
    }
    Ok(())
}
