//! The pulling of items: one by one from a base, each through the conditions and lambdas above it.
use crate::cells::copy_cell;
use crate::leading::limit_below;
use crate::running::Running;
use crate::steps::{outcome_of, step_of};
use lq_host::{Asks, Log};
use lq_plan::{
    Base, Outcome, Pipe, Pulled, Reads, Slots, Stage, TableRow, counts, has_no_stage, sequences,
    stage_of,
};
use lq_tree::Form;
use lq_value::{End, List, Value};
use std::alloc::AllocError;

impl<'a, R: TableRow, S: Reads<R>, H: Asks> Running<'a, R, S, H> {
    ghost use Rattle.std.specs.Prelude.{◌≡◌, ◌∷◌, [], Some, true, IfOk, List};
    ghost use Rattle.lq_value.specs.declared.value.Value.TheVariants as value;
    ghost use Rattle.lq_value.specs.declared.value.End.TheVariants as end;
    ghost use Rattle.lq_plan.specs.Counts.{read_first};
    ghost use Rattle.lq_plan.specs.Meanings.{items_meant};
    ghost use Rattle.lq_plan.specs.Pipes.{all_items, items_left};
    ghost use Rattle.lq_plan.specs.PlannedRows.{row_verdict};
    ghost use Rattle.lq_plan.specs.Pulling.{base_stream, item_at, items_at, last, outcome_stream, through_stage};
    ghost use Rattle.lq_plan.specs.Slots.{values_in};
    ghost use Rattle.lq_host.specs.declared.call.Call.{Call};
    ghost use Rattle.lq_tree.specs.Watches.{Watch, has_watched_rows, have_watched_rows};
    ghost use Rattle.lq_plan.specs.Watching.{watches};
    ghost use Rattle.lq_pipe.specs.Runs.{IsPlanned, world, Grown, HasTaken, covers, covers_above, covers_stage};
    ghost use Rattle.lq_plan.specs.Handing.{StaysOfRows, handed_out, rows_to_come};
    ghost use Rattle.lq_pipe.specs.Handing.{HandsAtMost, HandsUpTo};
    ghost use Rattle.lq_pipe.specs.Steps.{GivesStep, Steps};

    /// The items of a form, as a base of their own.
    #[cycle(running)]
    #[inline(never)]
    #[tactic(auto, using(lq_plan::proofs::PullLaws::table_opened))]
    pub(crate) fn base_of(
        &self,
        form: &Form,
        slots: &Slots<'_, R>,
        log: &mut Log<H>,
    ) -> Result<Base<R, S>, AllocError>
        ensures meant { IfOk result (λ base.
            base_stream base ≡ items_meant (world self.now) form.now slots.now) }
        ensures from { IfOk result (λ base. (w : Watch R) → covers self.now w form.now ≡ true → watches w slots.now ≡ true
            → have_watched_rows w (base_stream base).0 ≡ true) }
        ensures grows { (w : Watch R) (start : List Call) → covers self.now w form.now ≡ true
            → watches w slots.now ≡ true
            → Grown self.now w start log.old → Grown self.now w start log.new }
    {
        match form {
            Form::Table(number) => Ok(self.sources.rows_of(*number)),
            _ => {
                let value = self.evaluate(form, slots, log);
                let (items, end) = sequences::stream(self.sources.alloc, value)?;
                Ok(Base::of_items(items, end))
            }
        }
    }

    /// What an item of the base becomes at a form.
    #[cycle(running)]
    #[tactic(auto, using(lq_plan::proofs::PullLaws::passes))]
    fn pass(
        &self,
        form: &Form,
        item: Value<R>,
        slots: &Slots<'_, R>,
        log: &mut Log<H>,
    ) -> Result<Outcome<R>, AllocError>
        ensures meant { IfOk result (λ outcome. outcome_stream outcome
            ≡ item_at (world self.now) (values_in slots.now) form.now item) }
        ensures grows { (w : Watch R) (start : List Call) → covers_above self.now w form.now ≡ true
            → watches w slots.now ≡ true
            → has_watched_rows w item ≡ true
            → Grown self.now w start log.old → Grown self.now w start log.new }
    {
        match stage_of(form) {
            Some((Stage::Plain, source)) => Ok(self.pass(source, item, slots, log)?),
            Some((stage, source)) => Ok(self.pass_through(&stage, source, item, slots, log)?),
            None => Ok(Outcome::Item(item)),
        }
    }

    /// What an item of the base becomes at a source and the stage after it.
    #[cycle(running)]
    #[tactic(auto, using(lq_plan::proofs::PullLaws::bare_item))]
    pub(crate) fn pass_through(
        &self,
        stage: &Stage<'_>,
        source: &Form,
        item: Value<R>,
        slots: &Slots<'_, R>,
        log: &mut Log<H>,
    ) -> Result<Outcome<R>, AllocError>
        ensures meant { IfOk result (λ outcome. outcome_stream outcome
            ≡ through_stage (world self.now) (values_in slots.now) stage.now
            (item_at (world self.now) (values_in slots.now) source.now item)) }
        ensures grows { (w : Watch R) (start : List Call) → covers_stage self.now w stage.now ≡ true
            → covers_above self.now w source.now ≡ true
            → watches w slots.now ≡ true
            → has_watched_rows w item ≡ true
            → Grown self.now w start log.old → Grown self.now w start log.new }
    {
        if has_no_stage(source) {
            return Ok(self.pass_stage(stage, item, slots, log)?);
        }
        match self.pass(source, item, slots, log)? {
            Outcome::Item(item) => self.pass_stage(stage, item, slots, log),
            Outcome::Dropped => Ok(Outcome::Dropped),
            Outcome::Fault(fault) => Ok(Outcome::Fault(fault)),
        }
    }

    /// What an item becomes at a stage: it is kept where a condition is true of it.
    #[cycle(running)]
    fn pass_stage(
        &self,
        stage: &Stage<'_>,
        item: Value<R>,
        slots: &Slots<'_, R>,
        log: &mut Log<H>,
    ) -> Result<Outcome<R>, AllocError>
        ensures meant { IfOk result (λ outcome. outcome_stream outcome
            ≡ through_stage (world self.now) (values_in slots.now) stage.now
            (item ∷ [], end.Done)) }
        ensures grows { (w : Watch R) (start : List Call) → covers_stage self.now w stage.now ≡ true
            → watches w slots.now ≡ true
            → has_watched_rows w item ≡ true
            → Grown self.now w start log.old → Grown self.now w start log.new }
    {
        match stage {
            Stage::Plain => Ok(Outcome::Item(item)),
            Stage::Where(condition) => match self.holds(condition, &item, slots, log)? {
                Ok(true) => Ok(Outcome::Item(item)),
                Ok(false) => Ok(Outcome::Dropped),
                Err(fault) => Ok(Outcome::Fault(fault)),
            },
            Stage::Select(body) => Ok(outcome_of(self.value_of_item(body, &item, slots, log)?)),
        }
    }

    /// What an item of the base becomes at the stage of a pipe: the cell that was planned, where the item goes
    /// through no other stage.
    #[cycle(running)]
    #[inline(always)]
    pub(crate) fn pass_item(
        &self,
        pipe: &Pipe<'_>,
        item: Value<R>,
        slots: &Slots<'_, R>,
        log: &mut Log<H>,
    ) -> Result<Outcome<R>, AllocError>
        requires { IsPlanned self.now slots.now pipe.now }
        ensures meant { IfOk result (λ outcome. outcome_stream outcome
            ≡ through_stage (world self.now) (values_in slots.now) pipe.now.stage
            (item_at (world self.now) (values_in slots.now) pipe.now.source.now item)) }
        ensures grows { (w : Watch R) (start : List Call) → covers_stage self.now w pipe.now.stage ≡ true
            → covers_above self.now w pipe.now.source.now ≡ true
            → watches w slots.now ≡ true
            → has_watched_rows w item ≡ true
            → Grown self.now w start log.old → Grown self.now w start log.new }
    {
        if has_no_stage(pipe.source) {
            if let Some(cell) = pipe.plan.item_cell(&item) {
                let copy = copy_cell(self.sources.alloc, cell)?;
                return Ok(Outcome::Item(Value::Scalar(copy)));
            }
        }
        self.pass_through(&pipe.stage, pipe.source, item, slots, log)
    }

    /// What comes of a row that passes the conditions above its table, at the stage of a pipe: a lambda
    /// gives the row itself, or the cell that was planned, if there is one.
    #[cycle(running)]
    #[inline(always)]
    #[tactic(auto, using(crate::proofs::PullLaws::row_gives))]
    pub(crate) fn pass_row(
        &self,
        pipe: &Pipe<'_>,
        row: R,
        slots: &Slots<'_, R>,
        log: &mut Log<H>,
    ) -> Result<Result<Value<R>, End>, AllocError>
        requires planned { IsPlanned self.now slots.now pipe.now }
        requires passes { row_verdict R.table_of R.shown pipe.now.plan row ≡ Some true }
        ensures meant { IfOk result (λ step. GivesStep
            (last (world self.now) (values_in slots.now) pipe.now.stage (value.Row row)) step) }
        ensures grows { (w : Watch R) (start : List Call) → covers_stage self.now w pipe.now.stage ≡ true
            → watches w slots.now ≡ true
            → w.row row ≡ true
            → Grown self.now w start log.old → Grown self.now w start log.new }
    {
        match pipe.stage {
            Stage::Plain => Ok(Ok(Value::Row(row))),
            Stage::Where(_) => Ok(Ok(Value::Row(row))),
            Stage::Select(body) => {
                if pipe.plan.gives_row() {
                    return Ok(Ok(Value::Row(row)));
                }
                match pipe.plan.cell(&row) {
                    Some(cell) => Ok(Ok(Value::Scalar(copy_cell(self.sources.alloc, cell)?))),
                    None => Ok(step_of(self.value_of_item(body, &Value::Row(row), slots, log)?)),
                }
            }
        }
    }

    /// The next item of a pipe, or how they end.
    #[cycle(running)]
    #[inline(never)]
    #[tactic(auto, using(crate::proofs::PullLaws::next_steps))]
    pub(crate) fn next(
        &self,
        pipe: &Pipe<'_>,
        base: &mut Base<R, S>,
        slots: &Slots<'_, R>,
        log: &mut Log<H>,
    ) -> Result<Result<Value<R>, End>, AllocError>
        requires { IsPlanned self.now slots.now pipe.now }
        ensures meant { IfOk result (λ step. Steps
            (items_left (world self.now) (values_in slots.now) pipe.now base.old) step
            (items_left (world self.now) (values_in slots.now) pipe.now base.new)) }
        ensures pulled { HasTaken self.now slots.now pipe.now base.old log.old base.new log.new }
        ensures hands { IfOk result (λ step. HandsUpTo (world self.now) (values_in slots.now)
            pipe.now (rows_to_come base.old) (handed_out base.old) step
            (rows_to_come base.new) (handed_out base.new)) }
        ensures within { HandsAtMost (world self.now) (values_in slots.now) pipe.now
            (rows_to_come base.old) (handed_out base.old)
            (rows_to_come base.new) (handed_out base.new) }
        ensures alone { StaysOfRows base.old base.new }
    {
        loop {
            match base.pull(&pipe.plan) {
                Ok(Pulled::Row(row)) => return self.pass_row(pipe, row, slots, log),
                Ok(Pulled::Item(item)) => {
                    match self.pass_item(pipe, item, slots, log)? {
                        Outcome::Item(item) => return Ok(Ok(item)),
                        Outcome::Dropped => {}
                        Outcome::Fault(fault) => return Ok(Err(End::Fault(fault))),
                    }
                }
                Err(end) => return Ok(Err(end)),
            }
        }
    }

    /// The items of a pipe up to a limit, where there is one, and how they end as far as they are read:
    /// nothing is pulled after the last of them, and where the limit is 0 the source isn't opened.
    #[cycle(running)]
    #[inline(never)]
    #[tactic(auto, using(crate::proofs::PullLaws::reads))]
    pub(crate) fn read(
        &self,
        limit: Option<usize>,
        pipe: &Pipe<'_>,
        slots: &Slots<'_, R>,
        log: &mut Log<H>,
    ) -> Result<(List<Value<R>>, End), AllocError>
        requires { IsPlanned self.now slots.now pipe.now }
        ensures meant { IfOk result (λ items. items ≡ read_first limit
            (all_items (world self.now) (values_in slots.now) pipe.now)) }
        ensures grows { (w : Watch R) (start : List Call) → covers self.now w pipe.now.source.now ≡ true
            → covers_stage self.now w pipe.now.stage ≡ true
            → watches w slots.now ≡ true
            → Grown self.now w start log.old → Grown self.now w start log.new }
    {
        let mut items = List::new(self.sources.alloc);
        if counts::is_zero(limit) {
            return Ok((items, End::Done));
        }
        let below = limit_below(&pipe.stage, limit);
        let mut base = self.open(below, pipe.source, slots, log)?;
        let mut left = limit;
        while let Some(less) = counts::one_less(left) {
            match self.next(pipe, &mut base, slots, log)? {
                Ok(item) => items.push(item)?,
                Err(end) => return Ok((items, end)),
            }
            left = less;
        }
        Ok((items, End::Done))
    }
}
