//! What is prepared of forms once, for all rows of a table.
ghost use Rattle.std.specs.Prelude.{◌≡◌, IfSome};
ghost use Rattle.lq_value.specs.declared.scalar.Scalar.{Scalar};
ghost use Rattle.lq_value.specs.declared.value.Fault.TheVariants as fault;
ghost use Rattle.lq_language.specs.Operations.{of_two, on_ok, searched, truth_of};

use crate::lambdas::table_of_cell;
use crate::pipes::Pipe;
use crate::plans::Plan;
use crate::rows::Reads;
use crate::scalars;
use crate::slots::Slots;
use crate::sources::Sources;
use crate::stages::Stage;
use crate::tables::{TableRow, column_name};
use lq_condition::{Condition, turned_sign};
use lq_grammar::Binary;
use lq_host::Asks;
use lq_language::Op;
use lq_tree::Form;
use lq_value::{ColumnNumber, Scalar, TableNumber};
use std::alloc::AllocError;

/// The number of the table below conditions and what makes a sequence. Any answer is right: a plan
/// asks each row for its table.
fn table_below(form: &Form) -> Option<TableNumber> {
    match form {
        Form::Table(number) => Some(*number),
        Form::Sequence(source) => table_below(source.get()),
        Form::Where(source, _) => table_below(source.get()),
        _ => None,
    }
}

/// The number of the table whose cell a stage gives, where it gives one. Any answer is right: a plan asks
/// each row for its table.
fn table_of_stage(stage: &Stage<'_>) -> TableNumber {
    match stage {
        Stage::Plain => 0,
        Stage::Where(_) => 0,
        Stage::Select(body) => table_of_cell(body),
    }
}

/// The operator, where it looks for a text.
#[tactic(auto, using(crate::proofs::PreparedLemmas::search_truth))]
fn search_of(op: Op) -> Option<Op>
    ensures { IfSome result (λ o. (o ≡ op) × ((x s : Scalar)
        → on_ok (of_two fault.NullReference o x s) (truth_of fault.NullReference)
        ≡ searched fault.NullReference o x s)) }
{
    match op {
        Op::StartsWith => Some(Op::StartsWith),
        Op::EndsWith => Some(Op::EndsWith),
        Op::Contains => Some(Op::Contains),
        _ => None,
    }
}

impl<'a, R: TableRow, S: Reads<R>, H: Asks> Sources<'a, R, S, H> {
    ghost use Rattle.std.specs.Prelude.{◌≡◌, ◌+◌, IfOk, IfSome, List, length, true};
    ghost use Rattle.lq_value.specs.declared.value.Value.{Value};
    ghost use Rattle.lq_language.specs.Operations.{operation_of};
    ghost use Rattle.lq_language.specs.declared.operation.Op.TheVariants as op;
    ghost use Rattle.lq_tree.specs.declared.tree.Form.TheVariants as form;
    ghost use Rattle.lq_plan.specs.Meanings.{items_meant};
    ghost use Rattle.lq_plan.specs.Pipes.{all_items};
    ghost use Rattle.lq_plan.specs.Prepared as prepared;
    ghost use Rattle.lq_plan.specs.Pulling.{stream_behind};
    ghost use Rattle.lq_plan.specs.Slots.{values_in};
    ghost use Rattle.lq_plan.specs.declared.stages.Stage.TheVariants as of_stage;
    ghost use Rattle.lq_plan.specs.Plans.{world, Decides, DecidesPassing, DecidesStage, IsCell, IsConstant, IsItem, IsPlan, IsPlanned, PlansRows, SelectsCell, SelectsItem};

    /// The place of the cell that a form is of a row in the next slot, where it is one.
    pub(crate) fn cell_place(
        &self,
        of: &Form,
        table: TableNumber,
        slots: &Slots<'_, R>,
    ) -> Option<usize>
        ensures { IfSome result (λ place.
            IsCell self.now slots.now table of.now place) }
    {
        self.cell_place_behind(of, table, slots, 0)
    }

    /// The place of the cell that a form is of a row in the slot so many behind the next one, whatever
    /// stands in those between, where it is one.
    pub(crate) fn cell_place_behind(
        &self,
        of: &Form,
        table: TableNumber,
        slots: &Slots<'_, R>,
        past: usize,
    ) -> Option<usize>
        ensures { (values : List (Value R)) → length values ≡ length (values_in slots.now) + past
            → IfSome result (λ place. prepared.IsCell R.table_of R.shown (world self.now) values
            table of.now place) }
    {
        let Form::Column(row, number, column) = of else {
            return None;
        };
        let Form::Slot(slot) = row.get() else {
            return None;
        };
        if !slots.is_behind(*slot, past) {
            return None;
        }
        if *number != table {
            return None;
        }
        let _name = column_name(self.tables, *number, *column)?;
        Some(*column as usize)
    }

    /// Whether a form is known to be what stands in the next slot, whatever that is.
    pub(crate) fn is_item(&self, of: &Form, slots: &Slots<'_, R>) -> bool
        ensures { result ≡ true → IsItem self.now slots.now of.now }
    {
        self.is_item_behind(of, slots, 0)
    }

    /// The same of the slot so many behind the next one, whatever stands in those between.
    pub(crate) fn is_item_behind(&self, of: &Form, slots: &Slots<'_, R>, past: usize) -> bool
        ensures { (values : List (Value R)) → length values ≡ length (values_in slots.now) + past
            → result ≡ true → prepared.IsItem (world self.now) values of.now }
    {
        match of {
            Form::Slot(slot) => slots.is_behind(*slot, past),
            _ => false,
        }
    }

    /// The cell of a row that stands in a slot before the next one, where it is there.
    #[tactic(auto, using(crate::proofs::PreparedLemmas::constant_cell))]
    fn outer_cell<'s>(
        &'s self,
        row: &Form,
        table: TableNumber,
        column: ColumnNumber,
        slots: &'s Slots<'_, R>,
    ) -> Option<&'s Scalar>
        ensures { IfSome result (λ s.
            IsConstant self.now slots.now (form.Column row.now table column) s.now) }
    {
        let Form::Slot(slot) = row else {
            return None;
        };
        let value = slots.get(*slot)?;
        self.cell_ref(value, table, column)
    }

    /// The scalar that a form is whatever stands in the next slot, where it is one: a literal, or a
    /// cell of a row in a slot before it.
    #[tactic(auto, using(crate::proofs::PreparedLemmas::constant_literal))]
    fn constant<'s>(&'s self, of: &'s Form, slots: &'s Slots<'_, R>) -> Option<&'s Scalar>
        ensures { IfSome result (λ s.
            IsConstant self.now slots.now of.now s.now) }
    {
        match of {
            Form::Literal(scalar) => Some(scalar),
            Form::Column(row, table, column) => {
                self.outer_cell(row.get(), *table, *column, slots)
            }
            _ => None,
        }
    }

    /// A sign between a scalar that is the same for all rows and a cell of the row.
    #[tactic(auto, using(crate::proofs::PreparedLemmas::decides_turned, crate::proofs::PreparedLemmas::decides_silent))]
    fn turned_condition(
        &self,
        sign: Binary,
        left: &Form,
        right: &Form,
        table: TableNumber,
        slots: &Slots<'_, R>,
    ) -> Result<Condition, AllocError>
        ensures { IfOk result (λ c. Decides self.now slots.now table
            (form.Binary (operation_of sign) left.now right.now) c) }
    {
        let Some(place) = self.cell_place(right, table, slots) else {
            return Ok(Condition::Silent);
        };
        let Some(scalar) = self.constant(left, slots) else {
            return Ok(Condition::Silent);
        };
        match turned_sign(sign) {
            Some(turned) => Condition::sign(self.alloc, turned, place, scalar),
            None => Ok(Condition::Silent),
        }
    }

    /// A sign between two operands, one of which is a cell of the row, and the other one too, or a
    /// scalar that is the same for all rows.
    #[tactic(auto, using(crate::proofs::PreparedLemmas::decides_signs))]
    fn sign_condition(
        &self,
        sign: Binary,
        left: &Form,
        right: &Form,
        table: TableNumber,
        slots: &Slots<'_, R>,
    ) -> Result<Condition, AllocError>
        ensures { IfOk result (λ c. Decides self.now slots.now table
            (form.Binary (operation_of sign) left.now right.now) c) }
    {
        let Some(place) = self.cell_place(left, table, slots) else {
            return self.turned_condition(sign, left, right, table, slots);
        };
        if let Some(other) = self.cell_place(right, table, slots) {
            return Ok(Condition::cells(sign, place, other));
        }
        match self.constant(right, slots) {
            Some(scalar) => Condition::sign(self.alloc, sign, place, scalar),
            None => Ok(Condition::Silent),
        }
    }

    /// A method that looks for a text, which is the same for all rows, in a cell of the row.
    #[tactic(auto, using(crate::proofs::PreparedLemmas::decides_search, crate::proofs::PreparedLemmas::decides_silent))]
    fn search_condition(
        &self,
        op: Op,
        left: &Form,
        right: &Form,
        table: TableNumber,
        slots: &Slots<'_, R>,
    ) -> Result<Condition, AllocError>
        ensures { IfOk result (λ c.
            Decides self.now slots.now table (form.Binary op left.now right.now) c) }
    {
        let Some(place) = self.cell_place(left, table, slots) else {
            return Ok(Condition::Silent);
        };
        let Some(scalar) = self.constant(right, slots) else {
            return Ok(Condition::Silent);
        };
        match search_of(op) {
            Some(op) => Condition::search(self.alloc, op, place, scalar),
            None => Ok(Condition::Silent),
        }
    }

    /// An operator between two operands.
    #[inline(never)]
    #[tactic(auto, using(crate::proofs::PreparedLemmas::decides_operator))]
    fn operator_condition(
        &self,
        op: Op,
        left: &Form,
        right: &Form,
        table: TableNumber,
        slots: &Slots<'_, R>,
    ) -> Result<Condition, AllocError>
        ensures { IfOk result (λ c.
            Decides self.now slots.now table (form.Binary op left.now right.now) c) }
    {
        match scalars::sign_of(op) {
            Some(sign) => self.sign_condition(sign, left, right, table, slots),
            None => self.search_condition(op, left, right, table, slots),
        }
    }

    /// Whether a cell of the row has a value.
    #[tactic(auto, using(crate::proofs::PreparedLemmas::decides_value, crate::proofs::PreparedLemmas::decides_silent))]
    fn value_condition(&self, of: &Form, table: TableNumber, slots: &Slots<'_, R>) -> Condition
        ensures { Decides self.now slots.now table (form.Unary op.HasValue of.now) result }
    {
        match self.cell_place(of, table, slots) {
            Some(place) => Condition::has_value(place),
            None => Condition::Silent,
        }
    }

    /// The truth value that a form is: a cell of the row, or the same for all rows.
    #[tactic(auto, using(crate::proofs::PreparedLemmas::decides_truths))]
    fn truth_condition(&self, of: &Form, table: TableNumber, slots: &Slots<'_, R>) -> Condition
        ensures { Decides self.now slots.now table of.now result }
    {
        if let Some(place) = self.cell_place(of, table, slots) {
            return Condition::truth(place);
        }
        match self.constant(of, slots) {
            Some(Scalar::Bool(truth)) => Condition::Constant(*truth),
            _ => Condition::Silent,
        }
    }

    /// The condition that a form is on the rows of a table, which stand in the next slot.
    #[cycle(preparing)]
    #[inline(never)]
    #[tactic(auto, using(crate::proofs::PreparedLemmas::decides_silent))]
    fn condition(
        &self,
        form: &Form,
        table: TableNumber,
        slots: &Slots<'_, R>,
    ) -> Result<Condition, AllocError>
        ensures { IfOk result (λ c.
            Decides self.now slots.now table form.now c) }
    {
        match form {
            Form::Binary(op, left, right) => {
                self.operator_condition(*op, left.get(), right.get(), table, slots)
            }
            Form::Unary(op, operand) => self.unary_condition(*op, operand.get(), table, slots),
            Form::And(left, right) => self.both_condition(left.get(), right.get(), table, slots),
            Form::Or(left, right) => self.either_condition(left.get(), right.get(), table, slots),
            _ => Ok(self.truth_condition(form, table, slots)),
        }
    }

    /// An operator or member with one operand.
    #[cycle(preparing)]
    #[inline(never)]
    #[tactic(auto, using(crate::proofs::PreparedLemmas::decides_unary))]
    fn unary_condition(
        &self,
        op: Op,
        operand: &Form,
        table: TableNumber,
        slots: &Slots<'_, R>,
    ) -> Result<Condition, AllocError>
        ensures { IfOk result (λ c.
            Decides self.now slots.now table (form.Unary op operand.now) c) }
    {
        match op {
            Op::Not => {
                let condition = self.condition(operand, table, slots)?;
                Condition::not(self.alloc, condition)
            }
            Op::HasValue => Ok(self.value_condition(operand, table, slots)),
            _ => Ok(Condition::Silent),
        }
    }

    /// The condition that both of two forms are.
    #[cycle(preparing)]
    #[inline(never)]
    #[tactic(auto, using(crate::proofs::PreparedLemmas::decides_both))]
    fn both_condition(
        &self,
        left: &Form,
        right: &Form,
        table: TableNumber,
        slots: &Slots<'_, R>,
    ) -> Result<Condition, AllocError>
        ensures { IfOk result (λ c.
            Decides self.now slots.now table (form.And left.now right.now) c) }
    {
        let left = self.condition(left, table, slots)?;
        Condition::both(self.alloc, left, self.condition(right, table, slots)?)
    }

    /// The condition that one of two forms is.
    #[cycle(preparing)]
    #[inline(never)]
    #[tactic(auto, using(crate::proofs::PreparedLemmas::decides_either))]
    fn either_condition(
        &self,
        left: &Form,
        right: &Form,
        table: TableNumber,
        slots: &Slots<'_, R>,
    ) -> Result<Condition, AllocError>
        ensures { IfOk result (λ c.
            Decides self.now slots.now table (form.Or left.now right.now) c) }
    {
        let left = self.condition(left, table, slots)?;
        Condition::either(self.alloc, left, self.condition(right, table, slots)?)
    }

    /// Whether rows of a table pass the conditions that a form has above it.
    #[tactic(auto, using(crate::proofs::PassingLemmas::passings))]
    fn passing_condition(
        &self,
        source: &Form,
        table: TableNumber,
        slots: &Slots<'_, R>,
    ) -> Result<Condition, AllocError>
        ensures { IfOk result (λ c.
            DecidesPassing self.now slots.now table source.now c) }
    {
        match source {
            Form::Table(_) => Ok(Condition::Constant(true)),
            Form::Sequence(source) => self.passing_condition(source.get(), table, slots),
            Form::Where(source, condition) => {
                let passing = self.passing_condition(source.get(), table, slots)?;
                let condition = self.condition(condition.get(), table, slots)?;
                Condition::both(self.alloc, passing, condition)
            }
            _ => Ok(Condition::Silent),
        }
    }

    /// The same of a source and the stage after it.
    #[tactic(auto, using(crate::proofs::PassingLemmas::stages))]
    fn stage_condition(
        &self,
        stage: &Stage<'_>,
        source: &Form,
        table: TableNumber,
        slots: &Slots<'_, R>,
    ) -> Result<Condition, AllocError>
        ensures { IfOk result (λ c. DecidesStage self.now slots.now stage.now source.now table c) }
    {
        let passing = self.passing_condition(source, table, slots)?;
        match stage {
            Stage::Plain => Ok(passing),
            Stage::Where(condition) => {
                let condition = self.condition(condition, table, slots)?;
                Condition::both(self.alloc, passing, condition)
            }
            Stage::Select(_) => Ok(passing),
        }
    }

    /// The place of the cell that a stage gives of a row in the next slot, where it is a lambda that
    /// gives one.
    fn stage_cell(
        &self,
        stage: &Stage<'_>,
        table: TableNumber,
        slots: &Slots<'_, R>,
    ) -> Option<usize>
        ensures { IfSome result (λ place. SelectsCell self.now slots.now stage.now table place) }
    {
        match stage {
            Stage::Plain => None,
            Stage::Where(_) => None,
            Stage::Select(body) => self.cell_place(body, table, slots),
        }
    }

    /// Whether a stage is a lambda that is known to give the item itself.
    fn stage_item(&self, stage: &Stage<'_>, slots: &Slots<'_, R>) -> bool
        ensures { result ≡ true → SelectsItem self.now slots.now stage.now }
    {
        match stage {
            Stage::Plain => false,
            Stage::Where(_) => false,
            Stage::Select(body) => self.is_item(body, slots),
        }
    }

    /// What can be found out once about the rows of the table below a source, for the conditions above
    /// the table and the stage after the source. Where no table is below it, the conditions decide nothing
    /// beforehand, and only the stage is planned, for rows that stand among the items.
    #[tactic(auto, using(crate::proofs::PassingLemmas::plans))]
    fn plan(
        &self,
        stage: &Stage<'_>,
        source: &Form,
        slots: &Slots<'_, R>,
    ) -> Result<Plan, AllocError>
        ensures { IfOk result (IsPlan self.now slots.now stage.now source.now) }
    {
        let Some(table) = table_below(source) else {
            let table = table_of_stage(stage);
            return Ok(Plan {
                table,
                condition: Condition::Silent,
                place: self.stage_cell(stage, table, slots),
                gives_row: self.stage_item(stage, slots),
            });
        };
        let condition = self.stage_condition(stage, source, table, slots)?;
        let place = self.stage_cell(stage, table, slots);
        let gives_row = self.stage_item(stage, slots);
        Ok(Plan {
            table,
            condition,
            place,
            gives_row,
        })
    }

    /// A pipe over a source and the stage after it, in these slots: what its plan says of a row is so. The
    /// plan may say nothing of any row, since each row of which it says nothing goes the general way.
    /// Refused where no memory was left.
    pub fn pipe<'f>(
        &self,
        stage: Stage<'f>,
        source: &'f Form,
        slots: &Slots<'_, R>,
    ) -> Result<Pipe<'f>, AllocError>
        ensures stage { IfOk result (λ pipe. pipe.stage ≡ stage.entry) }
        ensures source { IfOk result (λ pipe. pipe.source.now ≡ source.now) }
        ensures planned { IfOk result (IsPlanned self.now slots.now) }
        ensures items { IfOk result (λ pipe. all_items (world self.now) (values_in slots.now) pipe
            ≡ stream_behind (world self.now) (values_in slots.now) stage.entry source.now) }
    {
        let plan = self.plan(&stage, source, slots)?;
        Ok(Pipe {
            stage,
            source,
            plan,
        })
    }

    /// A pipe that has the items of a source as they come, in these slots. Refused where no memory was
    /// left.
    #[tactic(auto, using(crate::proofs::PullLaws::plain_items))]
    pub fn pipe_of<'f>(
        &self,
        source: &'f Form,
        slots: &Slots<'_, R>,
    ) -> Result<Pipe<'f>, AllocError>
        ensures stage { IfOk result (λ pipe. pipe.stage ≡ of_stage.Plain) }
        ensures source { IfOk result (λ pipe. pipe.source.now ≡ source.now) }
        ensures planned { IfOk result (IsPlanned self.now slots.now) }
        ensures items { IfOk result (λ pipe. all_items (world self.now) (values_in slots.now) pipe
            ≡ items_meant (world self.now) source.now slots.now) }
    {
        Ok(self.pipe(Stage::Plain, source, slots)?)
    }

    /// What can be found out once about a condition on the rows of a table, which stand in its first slot.
    /// Refused where no memory was left.
    pub fn plan_rows(&self, condition: &Form, table: TableNumber) -> Result<Plan, AllocError>
        ensures { IfOk result (PlansRows self.now condition.now) }
    {
        let condition = self.condition(condition, table, &Slots::Empty)?;
        Ok(Plan {
            table,
            condition,
            place: None,
            gives_row: false,
        })
    }
}
