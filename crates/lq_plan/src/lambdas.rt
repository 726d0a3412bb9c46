//! Lambdas, and what is found out about them once for all items.
ghost use Rattle.std.specs.Prelude.{◌≡◌, IfSome, Ok};
ghost use Rattle.lq_value.specs.declared.value.Value.{Value};
ghost use Rattle.lq_value.specs.declared.value.Value.TheVariants as value;

use crate::rows::Reads;
use crate::slots::Slots;
use crate::sources::Sources;
use crate::tables::TableRow;
use lq_host::Asks;
use lq_tree::Form;
use lq_value::{Scalar, TableNumber, Value};

/// A lambda, and what is known of it: which cell it gives of the rows of a table, or that it gives each
/// item itself.
#[derive(Clone, Copy, Drop)]
pub struct Lambda<'f> {
    /// What the lambda gives of the item in its slot.
    pub body: &'f Form,
    /// The number of the table.
    pub(crate) table: TableNumber,
    /// The place of the cell.
    pub(crate) place: Option<usize>,
    /// Whether the lambda is known to give the item itself.
    pub(crate) is_item: bool,
}

impl Lambda<'_> {
    ghost use Rattle.std.specs.Prelude.{List, true};
    ghost use Rattle.lq_language.specs.Worlds.{World};
    ghost use Rattle.lq_tree.specs.FormMeaning.{form_meaning, with_item};
    ghost use Rattle.lq_plan.specs.Prepared.{GivesCell};

    /// The cell that the lambda gives of a row, where it stands.
    #[inline]
    pub fn cell_of_row<'r, R: TableRow>(&self, row: &'r R) -> Option<&'r Scalar>
        ensures { (world : World R) (slots : List (Value R))
            → GivesCell R.table_of R.shown world slots self.now
            → IfSome result (λ s. form_meaning world self.now.body.now
            (with_item world slots (value.Row row.now)) ≡ Ok (value.Scalar s.now)) }
    {
        if row.table() == self.table {
            return row.cells().get(self.place?);
        }
        None
    }

    /// The same of an item. None means nothing: what the lambda gives of it, which may still be a scalar, is
    /// found by evaluating it.
    #[inline]
    pub fn cell<'v, R: TableRow>(&self, item: &'v Value<R>) -> Option<&'v Scalar>
        ensures { (world : World R) (slots : List (Value R))
            → GivesCell R.table_of R.shown world slots self.now
            → IfSome result (λ s. form_meaning world self.now.body.now
            (with_item world slots item.now) ≡ Ok (value.Scalar s.now)) }
    {
        match item {
            Value::Row(row) => self.cell_of_row(row),
            Value::Scalar(_) | Value::Rec(_) | Value::Group(_, _) | Value::Seq(_, _) => None,
        }
    }

    /// Whether the lambda is known to give the item itself.
    #[inline]
    pub fn gives_item<R: TableRow>(&self, item: &Value<R>) -> bool
        ensures { (world : World R) (slots : List (Value R))
            → GivesCell R.table_of R.shown world slots self.now → result ≡ true
            → form_meaning world self.now.body.now (with_item world slots item.now) ≡ Ok item.now }
    {
        self.is_item
    }
}

/// The number of the table whose cell a form is, where it is one. Any answer is right: each row is asked for its table.
pub(crate) fn table_of_cell(body: &Form) -> TableNumber {
    match body {
        Form::Column(_, table, _) => *table,
        _ => 0,
    }
}

impl<'a, R: TableRow, S: Reads<R>, H: Asks> Sources<'a, R, S, H> {
    ghost use Rattle.std.specs.Prelude.{◌≡◌, ◌+◌, List, length};
    ghost use Rattle.lq_plan.specs.Plans.{GivesCell, GivesCellBehind, world};
    ghost use Rattle.lq_plan.specs.Prepared as prepared;
    ghost use Rattle.lq_plan.specs.Slots.{values_in};

    /// A lambda, whose item stands in the slot after these. Takes no memory.
    pub fn lambda<'f>(&self, body: &'f Form, slots: &Slots<'_, R>) -> Lambda<'f>
        ensures body { result.body.now ≡ body.now }
        ensures cell { GivesCell self.now slots.now result }
    {
        self.lambda_past(body, slots, 0)
    }

    /// A lambda, whose item stands in the slot after one more item than these slots hold, whichever that
    /// item is. Takes no memory.
    pub fn lambda_behind<'f>(&self, body: &'f Form, slots: &Slots<'_, R>) -> Lambda<'f>
        ensures body { result.body.now ≡ body.now }
        ensures cell { GivesCellBehind self.now slots.now result }
    {
        self.lambda_past(body, slots, 1)
    }

    /// A lambda, whose item stands in the slot so many behind the next one, whatever stands in those
    /// between.
    fn lambda_past<'f>(&self, body: &'f Form, slots: &Slots<'_, R>, past: usize) -> Lambda<'f>
        ensures body { result.body.now ≡ body.now }
        ensures cell { (values : List (Value R))
            → length values ≡ length (values_in slots.now) + past
            → prepared.GivesCell R.table_of R.shown (world self.now) values result }
    {
        let table = table_of_cell(body);
        let place = self.cell_place_behind(body, table, slots, past);
        let is_item = self.is_item_behind(body, slots, past);
        Lambda {
            body,
            table,
            place,
            is_item,
        }
    }
}
