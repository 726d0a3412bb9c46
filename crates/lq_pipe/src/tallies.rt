//! The running of methods that make a number of their items: how many, the sum, the least and the
//! greatest.
ghost use Rattle.lq_language.specs.OperandMeaning.{as_value};
ghost use Rattle.lq_operators.specs.Answers.{IsAnswer};
ghost use Rattle.lq_operators.specs.Tallies.{tally_result};

use crate::running::Running;
use crate::steps::{with_given, with_outcome};
use lq_host::{Asks, Log};
use lq_operators::{RunError, Tally};
use lq_plan::{Lambda, Pipe, Pulled, Reads, Slots, Stage, TableRow};
use lq_tree::Form;
use lq_value::{End, Fault, Ty, Value};
use std::alloc::AllocError;

impl<'a, R: TableRow, S: Reads<R>, H: Asks> Running<'a, R, S, H> {
    ghost use Rattle.std.specs.Prelude.{◌≡◌, ◌∷◌, [], IfOk, List, Some, true};
    ghost use Rattle.lq_value.specs.declared.ty.Ty.{Ty};
    ghost use Rattle.lq_value.specs.declared.value.End.TheVariants as end;
    ghost use Rattle.lq_value.specs.declared.value.Value.{Value};
    ghost use Rattle.lq_value.specs.declared.value.Value.TheVariants as value;
    ghost use Rattle.lq_language.specs.OperandMeaning.{as_value};
    ghost use Rattle.lq_language.specs.Stream.{Stream, then_stream};
    ghost use Rattle.lq_operators.specs.Answers.{IsAnswer};
    ghost use Rattle.lq_operators.specs.Tallies.{goes_on, tallied};
    ghost use Rattle.lq_plan.specs.Pipes.{all_items};
    ghost use Rattle.lq_plan.specs.PlannedRows.{IsPulled, pulled_value, row_verdict};
    ghost use Rattle.lq_plan.specs.Pulling.{item_at, last, through_select, through_stage};
    ghost use Rattle.lq_plan.specs.Slots.{values_in};
    ghost use Rattle.lq_host.specs.declared.call.Call.{Call};
    ghost use Rattle.lq_tree.specs.Watches.{Watch, has_watched_rows, have_watched_rows};
    ghost use Rattle.lq_plan.specs.Watching.{is_covered_pipe, watches};
    ghost use Rattle.lq_pipe.specs.Runs.{GivesCell, IsPlanned, world, Grown, covers, covers_above, covers_stage};

    /// The number that a tally comes to over items that stand in a slot, at the stage after them. They stay
    /// where they are.
    #[cycle(running)]
    #[inline(never)]
    pub(crate) fn tally_items(
        &self,
        tally: Tally,
        of: &Ty,
        stage: &Stage<'_>,
        items: &[Value<R>],
        end: End,
        slots: &Slots<'_, R>,
        log: &mut Log<H>,
    ) -> Result<Value<R>, RunError>
        ensures meant { IsAnswer (as_value (tallied of.now tally
            (through_stage (world self.now) (values_in slots.now) stage.now (items.now, end))))
            result }
        ensures grows { (w : Watch R) (start : List Call) → covers_stage self.now w stage.now ≡ true
            → watches w slots.now ≡ true
            → have_watched_rows w items.now ≡ true
            → Grown self.now w start log.old → Grown self.now w start log.new }
    {
        if let Stage::Select(body) = stage {
            let lambda = self.sources.lambda(body, slots);
            return self.tally_lambda(tally, of, &lambda, items, end, slots, log);
        }
        let mut tally = tally;
        for item in items {
            match self.tally_item(tally, stage, item, slots, log)? {
                Ok(next) => tally = next,
                Err(fault) => return Err(RunError::Fault(fault)),
            }
        }
        answer(tally, of, end)
    }

    /// The same of what a lambda gives of each item: a cell stays where it is.
    #[cycle(running)]
    #[inline(never)]
    fn tally_lambda(
        &self,
        tally: Tally,
        of: &Ty,
        lambda: &Lambda<'_>,
        items: &[Value<R>],
        end: End,
        slots: &Slots<'_, R>,
        log: &mut Log<H>,
    ) -> Result<Value<R>, RunError>
        requires { GivesCell self.now slots.now lambda.now }
        ensures meant { IsAnswer (as_value (tallied of.now tally
            (through_select (world self.now) (values_in slots.now) lambda.now.body.now
            (items.now, end)))) result }
        ensures grows { (w : Watch R) (start : List Call)
            → covers self.now w lambda.now.body.now ≡ true
            → watches w slots.now ≡ true
            → have_watched_rows w items.now ≡ true
            → Grown self.now w start log.old → Grown self.now w start log.new }
    {
        let mut tally = tally;
        for item in items {
            match self.tally_by(tally, lambda, item, slots, log)? {
                Ok(next) => tally = next,
                Err(fault) => return Err(RunError::Fault(fault)),
            }
        }
        answer(tally, of, end)
    }

    /// The tally with what a lambda gives of one item more, or the fault that is met there.
    #[cycle(running)]
    fn tally_by(
        &self,
        tally: Tally,
        lambda: &Lambda<'_>,
        item: &Value<R>,
        slots: &Slots<'_, R>,
        log: &mut Log<H>,
    ) -> Result<Result<Tally, Fault>, AllocError>
        requires { GivesCell self.now slots.now lambda.now }
        ensures meant { IfOk result (λ next. (t : Ty) (rest : Stream (Value R))
            → tallied t tally (then_stream
            (through_select (world self.now) (values_in slots.now) lambda.now.body.now
            (item.now ∷ [], end.Done)) rest)
            ≡ goes_on t next rest) }
        ensures grows { (w : Watch R) (start : List Call)
            → covers self.now w lambda.now.body.now ≡ true
            → watches w slots.now ≡ true
            → has_watched_rows w item.now ≡ true
            → Grown self.now w start log.old → Grown self.now w start log.new }
    {
        match lambda.cell(item) {
            Some(cell) => Ok(tally.with_scalar(cell)),
            None => Ok(with_given(tally, self.value_of_item(lambda.body, item, slots, log)?)),
        }
    }

    /// The tally with what comes of one item more at a stage, or the fault that is met there.
    #[cycle(running)]
    fn tally_item(
        &self,
        tally: Tally,
        stage: &Stage<'_>,
        item: &Value<R>,
        slots: &Slots<'_, R>,
        log: &mut Log<H>,
    ) -> Result<Result<Tally, Fault>, AllocError>
        ensures meant { IfOk result (λ next. (t : Ty) (rest : Stream (Value R))
            → tallied t tally (then_stream
            (through_stage (world self.now) (values_in slots.now) stage.now (item.now ∷ [], end.Done)) rest)
            ≡ goes_on t next rest) }
        ensures grows { (w : Watch R) (start : List Call) → covers_stage self.now w stage.now ≡ true
            → watches w slots.now ≡ true
            → has_watched_rows w item.now ≡ true
            → Grown self.now w start log.old → Grown self.now w start log.new }
    {
        match stage {
            Stage::Plain => Ok(tally.with(item)),
            Stage::Where(condition) => match self.holds(condition, item, slots, log)? {
                Ok(true) => Ok(tally.with(item)),
                Ok(false) => Ok(Ok(tally)),
                Err(fault) => Ok(Err(fault)),
            },
            Stage::Select(body) => {
                let given = self.value_of_item(body, item, slots, log)?;
                Ok(with_given(tally, given))
            }
        }
    }

    /// The tally with what comes of a row that passes the conditions above its table, at the stage of a
    /// pipe: the cell that was planned, if there is one, stays where it is.
    #[cycle(running)]
    #[tactic(auto, using(crate::proofs::CountLaws::tally_rows))]
    fn tally_row(
        &self,
        tally: Tally,
        pipe: &Pipe<'_>,
        row: &R,
        slots: &Slots<'_, R>,
        log: &mut Log<H>,
    ) -> Result<Result<Tally, Fault>, AllocError>
        requires planned { IsPlanned self.now slots.now pipe.now }
        requires passes { row_verdict R.table_of R.shown pipe.now.plan row.now ≡ Some true }
        ensures meant { IfOk result (λ next. (t : Ty) (rest : Stream (Value R))
            → tallied t tally (then_stream
            (last (world self.now) (values_in slots.now) pipe.now.stage (value.Row row.now)) rest)
            ≡ goes_on t next rest) }
        ensures grows { (w : Watch R) (start : List Call) → covers_stage self.now w pipe.now.stage ≡ true
            → watches w slots.now ≡ true
            → w.row row.now ≡ true
            → Grown self.now w start log.old → Grown self.now w start log.new }
    {
        match pipe.stage {
            Stage::Plain => Ok(tally.with_number(None)),
            Stage::Where(_) => Ok(tally.with_number(None)),
            Stage::Select(body) => match pipe.plan.cell(row) {
                Some(cell) => Ok(tally.with_scalar(cell)),
                None => {
                    let item = Value::Row(row.again());
                    Ok(with_given(tally, self.value_of_item(body, &item, slots, log)?))
                }
            },
        }
    }

    /// The tally with what comes of what was pulled by the plan of a pipe.
    #[cycle(running)]
    fn tally_next(
        &self,
        tally: Tally,
        pipe: &Pipe<'_>,
        pulled: Pulled<R>,
        slots: &Slots<'_, R>,
        log: &mut Log<H>,
    ) -> Result<Result<Tally, Fault>, AllocError>
        requires planned { IsPlanned self.now slots.now pipe.now }
        requires pulled { IsPulled R.table_of R.shown pipe.now.plan pulled }
        ensures meant { IfOk result (λ next. (t : Ty) (rest : Stream (Value R))
            → tallied t tally (then_stream
            (through_stage (world self.now) (values_in slots.now) pipe.now.stage
            (item_at (world self.now) (values_in slots.now) pipe.now.source.now
            (pulled_value pulled))) rest)
            ≡ goes_on t next rest) }
        ensures grows { (w : Watch R) (start : List Call)
            → is_covered_pipe (world self.now) w (values_in slots.now) pipe.now ≡ true
            → has_watched_rows w (pulled_value pulled) ≡ true
            → Grown self.now w start log.old → Grown self.now w start log.new }
    {
        match pulled {
            Pulled::Row(row) => self.tally_row(tally, pipe, &row, slots, log),
            Pulled::Item(item) => {
                let outcome = self.pass_through(&pipe.stage, pipe.source, item, slots, log)?;
                Ok(with_outcome(tally, outcome))
            }
        }
    }

    /// The number that a tally comes to over the items of a pipe as they are pulled: of a row that goes
    /// through it no value is made.
    #[cycle(running)]
    #[inline(never)]
    #[tactic(auto, using(crate::proofs::CountLaws::tallies))]
    pub(crate) fn tally_pulled(
        &self,
        tally: Tally,
        of: &Ty,
        pipe: &Pipe<'_>,
        slots: &Slots<'_, R>,
        log: &mut Log<H>,
    ) -> Result<Value<R>, RunError>
        requires { IsPlanned self.now slots.now pipe.now }
        ensures meant { IsAnswer (as_value (tallied of.now tally
            (all_items (world self.now) (values_in slots.now) pipe.now))) result }
        ensures grows { (w : Watch R) (start : List Call) → covers self.now w pipe.now.source.now ≡ true
            → covers_stage self.now w pipe.now.stage ≡ true
            → watches w slots.now ≡ true
            → Grown self.now w start log.old → Grown self.now w start log.new }
    {
        let mut base = self.open(None, pipe.source, slots, log)?;
        let mut tally = tally;
        loop {
            match base.pull(&pipe.plan) {
                Ok(pulled) => match self.tally_next(tally, pipe, pulled, slots, log)? {
                    Ok(next) => tally = next,
                    Err(fault) => return Err(RunError::Fault(fault)),
                },
                Err(end) => return answer(tally, of, end),
            }
        }
    }
}

/// What a tally answers where the items end so.
fn answer<R: TableRow>(tally: Tally, of: &Ty, end: End) -> Result<Value<R>, RunError>
    ensures { IsAnswer (as_value (tally_result of.now tally end)) result }
{
    Ok(Value::Scalar(tally.result(of, end)?))
}
