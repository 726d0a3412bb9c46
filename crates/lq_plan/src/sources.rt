//! What forms are run over, and what is read of it where no form has to be evaluated.
ghost use Rattle.std.specs.Prelude.{◌≡◌, IfSome, Ok};
ghost use Rattle.lq_language.specs.Worlds.{World};
ghost use Rattle.lq_value.specs.declared.value.Value.TheVariants as value;
ghost use Rattle.lq_plan.specs.Meanings.{meant};
ghost use Rattle.lq_plan.specs.Worlds.{HaveDistinctColumns, world_of};

use crate::bases::Base;
use crate::parts::{self, Part};
use crate::rows::Reads;
use crate::scalars;
use crate::slots::Slots;
use crate::tables::{TableRow, TableRows, cell};
use lq_host::{Asks, Log};
use lq_language::Op;
use lq_operators::RunError;
use lq_tree::Form;
use lq_value::{
    ColumnNumber, End, Fault, List, RowRef, Scalar, TableNumber, Value, copy, copy_scalar,
};
use std::alloc::{AllocError, Global};
use std::marker::PhantomData;

/// What a form means, where it is a slot or the first or second part of what another such form
/// means: the value stays where it is. None for every other form, which has to be evaluated, and where
/// there is no such slot.
#[tactic(auto, using(crate::proofs::FormLaws::form_slot, crate::proofs::FormLaws::form_first, crate::proofs::FormLaws::form_second))]
pub fn part_ref<'s, R: RowRef>(form: &Form, slots: &'s Slots<'_, R>) -> Option<&'s Value<R>>
    ensures { (world : World R) → IfSome result (λ value. meant world form.now slots.now
        ≡ Ok value.now) }
{
    match form {
        Form::Slot(number) => slots.get(*number),
        Form::First(pair) => Some(parts::first(part_ref(pair.get(), slots)?)),
        Form::Second(pair) => Some(parts::second(part_ref(pair.get(), slots)?)),
        _ => None,
    }
}

/// The scalar that a value is, if it is one.
fn scalar_in_value<R: RowRef>(operand: &Value<R>) -> Option<&Scalar>
    ensures { IfSome result (λ scalar. operand.now ≡ value.Scalar scalar.now) }
{
    match operand {
        Value::Scalar(scalar) => Some(scalar),
        Value::Row(_) | Value::Rec(_) | Value::Group(_, _) | Value::Seq(_, _) => None,
    }
}

/// What forms are run over: the tables that they may read, no two columns of one of which have the
/// same name, the host predicates that they may ask, and what gives memory.
#[derive(Drop)]
pub struct Sources<'a, R: TableRow, S: Reads<R>, H: Asks> {
    /// What gives memory.
    pub alloc: Global,
    /// The tables, by their numbers.
    pub tables: &'a [TableRows<'a, S>],
    /// The host predicates, by their numbers.
    pub hosts: &'a H,
    rows: PhantomData<R>,
    ghost distinct: { HaveDistinctColumns
        (world_of R.table_of R.shown S.left (H.known hosts.now) tables.now).schemas },
}

impl<'a, R: TableRow, S: Reads<R>, H: Asks> Sources<'a, R, S, H> {
    ghost use Rattle.std.specs.Prelude.{◌≡◌, [], IfOk, List, Ok, map, slice_get, true};
    ghost use Rattle.lq_value.specs.declared.value.Value.{out-Value};
    ghost use Rattle.lq_language.specs.OperandMeaning.{stream_of, table_value};
    ghost use Rattle.lq_operators.specs.Answers.{IsAnswer};
    ghost use Rattle.lq_tree.specs.FormMeaning.{cell_in, if_there, key_in, member_at};
    ghost use Rattle.lq_tree.specs.declared.tree.Form.TheVariants as form;
    ghost use Rattle.lq_plan.specs.Meanings.{Answers, meant, truth_in};
    ghost use Rattle.lq_plan.specs.Parts.{part_of};
    ghost use Rattle.lq_host.specs.declared.call.Call.{Call};
    ghost use Rattle.lq_tree.specs.Watches.{Watch, has_watched_rows};
    ghost use Rattle.lq_plan.specs.Bases.{rows_by};
    ghost use Rattle.lq_plan.specs.Handing.{handed_out, items_to_come, rows_to_come};
    ghost use Rattle.lq_plan.specs.Plans.{world};
    ghost use Rattle.lq_plan.specs.Watching.{Grown, covers_part};
    ghost use Rattle.lq_plan.specs.Pulling.{base_stream, end_of, rows_or_none};
    ghost use Rattle.lq_plan.specs.Slots.{values_in};
    ghost use Rattle.lq_plan.specs.Worlds.{HaveDistinctColumns, rows_in, schemas_in, world_of};

    /// These tables, these host predicates, and memory from here.
    pub fn new(alloc: Global, tables: &'a [TableRows<'a, S>], hosts: &'a H) -> Sources<'a, R, S, H>
        requires { HaveDistinctColumns (schemas_in tables.now) }
        ensures { world result ≡ world_of R.table_of R.shown S.left (H.known hosts.now) tables.now }
    {
        Sources {
            alloc,
            tables,
            hosts,
            rows: PhantomData,
        }
    }

    /// A literal, as a value. `Memory` where none was left for a text.
    #[inline(never)]
    pub fn literal(&self, scalar: &Scalar) -> Result<Value<R>, RunError>
        ensures { IsAnswer (Ok (value.Scalar scalar.now)) result }
    {
        Ok(Value::Scalar(copy_scalar(self.alloc, scalar)?))
    }

    /// A copy of what a slot holds, or the fault of a form without meaning where there is no such slot:
    /// no typed tree has one. `Memory` where none was left.
    #[inline(never)]
    pub fn slot(&self, number: usize, slots: &Slots<'_, R>) -> Result<Value<R>, RunError>
        ensures { IsAnswer
            (if_there (world self.now) (slice_get (values_in slots.now) number)) result }
    {
        match slots.get(number) {
            Some(value) => Ok(copy(self.alloc, value)?),
            None => Err(RunError::Fault(Fault::NullReference)),
        }
    }

    /// The rows that a reader has left, as values. Refused where no memory was left.
    fn values_left(&self, reader: &mut S) -> Result<List<Value<R>>, AllocError>
        ensures { IfOk result (λ values. values ≡ map value.Row (S.left reader.old)) }
    {
        let mut values = List::new(self.alloc);
        while let Some(row) = reader.next_row() {
            values.push(Value::Row(row))?;
        }
        Ok(values)
    }

    /// The rows of a table as a sequence, or the fault of a form without meaning where there is no such
    /// table: no typed tree has one. `Memory` where none was left.
    #[inline(never)]
    #[tactic(auto, using(crate::proofs::PartLemmas::places))]
    pub fn table(&self, number: TableNumber) -> Result<Value<R>, RunError>
        ensures { IsAnswer
            (table_value (world self.now) (slice_get (world self.now).rows number)) result }
    {
        let Some(table) = self.tables.get(number as usize) else {
            return Err(RunError::Fault(Fault::NullReference));
        };
        let values = self.values_left(&mut table.rows.reopened())?;
        Ok(Value::Seq(values, End::Done))
    }

    /// What hands out the rows of a table; none of a table that isn't there.
    #[tactic(auto, using(crate::proofs::PartLemmas::places))]
    fn reader_at(&self, number: TableNumber) -> Option<S>
        ensures { rows_by S.left result ≡ rows_or_none
            (slice_get (rows_in S.left self.now.tables.now) number) }
    {
        match self.tables.get(number as usize) {
            Some(table) => Some(table.rows.reopened()),
            None => None,
        }
    }

    /// How the rows of a table end: with a fault where it isn't there.
    #[tactic(auto, using(crate::proofs::PartLemmas::places))]
    fn end_at(&self, number: TableNumber) -> End
        ensures { result ≡ end_of (slice_get (rows_in S.left self.now.tables.now) number) }
    {
        match self.tables.get(number as usize) {
            Some(_) => End::Done,
            None => End::Fault(Fault::NullReference),
        }
    }

    /// The rows of a table where they stand, as a base whose items are taken one by one; or no row and
    /// the fault of a form without meaning where there is no such table: no typed tree has one.
    #[tactic(auto, using(crate::proofs::PullLaws::rows_found))]
    pub fn rows_of(&self, number: TableNumber) -> Base<R, S>
        ensures items { base_stream result ≡ stream_of (world self.now)
            (table_value (world self.now) (slice_get (world self.now).rows number)) }
        ensures rows { rows_to_come result
            ≡ rows_or_none (slice_get (world self.now).rows number) }
        ensures alone { items_to_come result ≡ [] }
        ensures none { handed_out result ≡ 0 }
    {
        let reader = self.reader_at(number);
        Base::of_rows(self.alloc, reader, self.end_at(number))
    }

    /// The cell of a row, by the number of its column.
    #[tactic(auto, using(crate::proofs::PartLemmas::layers))]
    fn cell_in(
        &self,
        row: &Value<R>,
        table: TableNumber,
        column: ColumnNumber,
    ) -> Result<Value<R>, RunError>
        ensures { IsAnswer (cell_in (world self.now) table column (out-Value R row.now)) result }
    {
        match row {
            Value::Row(row) => match cell(self.tables, row, table, column) {
                Some(cell) => Ok(self.cell_value(cell)?),
                None => Err(RunError::Fault(Fault::NullReference)),
            },
            Value::Scalar(_) | Value::Rec(_) | Value::Group(_, _) | Value::Seq(_, _) => {
                Err(RunError::Fault(Fault::NullReference))
            }
        }
    }

    /// The cell of what is a row, by the number of its column.
    pub(crate) fn cell_ref<'s>(
        &'s self,
        row: &'s Value<R>,
        table: TableNumber,
        column: ColumnNumber,
    ) -> Option<&'s Scalar>
        ensures { IfSome result (λ scalar. cell_in (world self.now) table column
            (out-Value R row.now)
            ≡ Ok (value.Scalar scalar.now)) }
    {
        match row {
            Value::Row(row) => cell(self.tables, row, table, column),
            Value::Scalar(_) | Value::Rec(_) | Value::Group(_, _) | Value::Seq(_, _) => None,
        }
    }

    /// The scalar that a form means, where it is a literal, a cell of a row in a slot, or a scalar
    /// that stands in one: it stays there. None means nothing: such a form, and every other one, may
    /// still mean a scalar, which is found by evaluating it.
    #[inline(never)]
    #[tactic(auto, using(crate::proofs::FormLaws::form_literal))]
    pub fn scalar_ref<'s>(&'s self, form: &'s Form, slots: &'s Slots<'_, R>) -> Option<&'s Scalar>
        ensures { IfSome result (λ scalar.
            meant (world self.now) form.now slots.now ≡ Ok (value.Scalar scalar.now)) }
    {
        match form {
            Form::Literal(scalar) => Some(scalar),
            Form::Column(_, _, _) => self.column_ref(form, slots),
            _ => scalar_in_value(part_ref(form, slots)?),
        }
    }

    /// The cell that a form means, where it is a column of a row in a slot: it stays there. None means
    /// nothing: such a form, and every other one, may still mean a scalar.
    #[inline]
    #[tactic(auto, using(crate::proofs::FormLaws::form_column))]
    pub(crate) fn column_ref<'s>(
        &'s self,
        form: &'s Form,
        slots: &'s Slots<'_, R>,
    ) -> Option<&'s Scalar>
        ensures { IfSome result (λ scalar.
            meant (world self.now) form.now slots.now ≡ Ok (value.Scalar scalar.now)) }
    {
        match form {
            Form::Column(row, table, column) => {
                self.cell_ref(part_ref(row.get(), slots)?, *table, *column)
            }
            _ => None,
        }
    }

    /// A cell, as a value of its own. Refused where no memory was left.
    fn cell_value(&self, cell: &Scalar) -> Result<Value<R>, AllocError>
        ensures { IfOk result (λ v. v ≡ value.Scalar cell.now) }
    {
        Ok(Value::Scalar(copy_scalar(self.alloc, cell)?))
    }

    /// A copy of what a form means, where it is a slot, or a column of a row in one: nothing is
    /// evaluated. None means nothing: such a form, and every other one, may still mean a value. Refused
    /// where no memory was left.
    #[inline]
    #[tactic(auto, using(crate::proofs::FormLaws::form_slot))]
    pub fn value_in_place(
        &self,
        form: &Form,
        slots: &Slots<'_, R>,
    ) -> Option<Result<Value<R>, AllocError>>
        ensures { IfSome result (λ copy. IfOk copy (λ v.
            meant (world self.now) form.now slots.now ≡ Ok v)) }
    {
        match form {
            Form::Slot(number) => Some(copy(self.alloc, slots.get(*number)?)),
            _ => Some(self.cell_value(self.column_ref(form, slots)?)),
        }
    }

    /// A member of a record, by its place.
    #[tactic(auto, using(crate::proofs::PartLemmas::layers))]
    fn member_at(&self, value: &Value<R>, place: usize) -> Result<Value<R>, RunError>
        ensures { IsAnswer (member_at (world self.now) place (out-Value R value.now)) result }
    {
        match value {
            Value::Rec(members) => match parts::member(members.as_slice(), place) {
                Some(value) => Ok(copy(self.alloc, value)?),
                None => Err(RunError::Fault(Fault::NullReference)),
            },
            Value::Scalar(_) | Value::Row(_) | Value::Group(_, _) | Value::Seq(_, _) => {
                Err(RunError::Fault(Fault::NullReference))
            }
        }
    }

    /// The key of a group.
    #[tactic(auto, using(crate::proofs::PartLemmas::layers))]
    fn key_in(&self, group: &Value<R>) -> Result<Value<R>, RunError>
        ensures { IsAnswer (key_in (world self.now) (out-Value R group.now)) result }
    {
        match group {
            Value::Group(key, _) => Ok(copy(self.alloc, key.get())?),
            Value::Scalar(_) | Value::Row(_) | Value::Rec(_) | Value::Seq(_, _) => {
                Err(RunError::Fault(Fault::NullReference))
            }
        }
    }

    /// A copy of what is read of a value, or what is answered about it; the fault of a form without meaning
    /// where the value has nothing of the kind: no typed tree asks for it there. `Memory` where none was left.
    #[inline(never)]
    pub fn part(&self, part: Part, value: &Value<R>, log: &mut Log<H>) -> Result<Value<R>, RunError>
        ensures meant { IsAnswer (part_of (world self.now) part value.now) result }
        ensures grows { (w : Watch R) (start : List Call) → covers_part w part ≡ true
            → has_watched_rows w value.now ≡ true
            → Grown self.now w start log.old → Grown self.now w start log.new }
    {
        match part {
            Part::First => Ok(copy(self.alloc, parts::first(value))?),
            Part::Second => Ok(copy(self.alloc, parts::second(value))?),
            Part::Cell(table, column) => self.cell_in(value, table, column),
            Part::Host(predicate, table, columns) => self.host(
                predicate, value, table, columns, log,
            ),
            Part::Member(place) => self.member_at(value, place),
            Part::Key => self.key_in(value),
            Part::IsNull(wanted) => Ok(parts::truth(parts::is_null_as(value, wanted))),
        }
    }

    /// What an operator gives to two operands, where both can be read in place (`scalar_ref`): no copy
    /// is made of them. None means nothing: the operands have to be evaluated.
    #[inline(never)]
    #[tactic(auto, using(crate::proofs::FormLaws::binary_of))]
    pub fn binary_of_refs(
        &self,
        op: Op,
        left: &Form,
        right: &Form,
        slots: &Slots<'_, R>,
    ) -> Option<Result<Value<R>, RunError>>
        ensures { IfSome result (λ value. IsAnswer (meant (world self.now)
            (form.Binary op left.now right.now) slots.now) value) }
    {
        let left = self.scalar_ref(left, slots)?;
        let right = self.scalar_ref(right, slots)?;
        Some(scalars::of_two(self.alloc, op, left, right))
    }

    /// The truth value that a sign gives to two operands, where both can be read in place
    /// (`scalar_ref`): no value is made. None means nothing: the operator has to be evaluated.
    #[tactic(auto, using(crate::proofs::TruthLaws::truth_binary))]
    pub fn truth_of_refs(
        &self,
        op: Op,
        left: &Form,
        right: &Form,
        slots: &Slots<'_, R>,
    ) -> Option<Result<bool, RunError>>
        ensures { IfSome result (λ truth. Answers (truth_in (world self.now)
            (meant (world self.now) (form.Binary op left.now right.now) slots.now)) truth) }
    {
        let sign = scalars::sign_of(op)?;
        let left = self.scalar_ref(left, slots)?;
        let right = self.scalar_ref(right, slots)?;
        Some(scalars::truth_of_sign(sign, left, right))
    }
}
