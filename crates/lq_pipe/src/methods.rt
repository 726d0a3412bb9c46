//! The running of methods of sequences.
use crate::cells::copy_cell;
use crate::running::Running;
use lq_host::{Asks, Log};
use lq_language::{Given, Simple};
use lq_operators::{RunError, Tally, given, simple};
use lq_plan::counts::{given_limit, simple_limit};
use lq_plan::{
    Lambda, Pipe, Reads, Slots, Stage, TableRow, items_ref, parts, scalars, sequences, stage_of,
};
use lq_tree::Form;
use lq_value::{Fault, Ty, Value, same};
use std::alloc::AllocError;

impl<'a, R: TableRow, S: Reads<R>, H: Asks> Running<'a, R, S, H> {
    ghost use Rattle.std.specs.Prelude.{◌≡◌, IfOk, Ok, List, true};
    ghost use Rattle.lq_value.specs.SameAndOrder.{same_values};
    ghost use Rattle.lq_value.specs.declared.ty.Ty.{Ty};
    ghost use Rattle.lq_value.specs.declared.value.Value.{Value};
    ghost use Rattle.lq_value.specs.declared.value.Value.TheVariants as value;
    ghost use Rattle.lq_language.specs.OperandMeaning.{sequence};
    ghost use Rattle.lq_language.specs.Enumerable.{all, contains};
    ghost use Rattle.lq_language.specs.Stream.{select_by};
    ghost use Rattle.lq_operators.specs.Answers.{IsAnswer};
    ghost use Rattle.lq_language.specs.Meaning.{as_truth, given_meaning, simple_meaning};
    ghost use Rattle.lq_tree.specs.declared.tree.Form.TheVariants as form;
    ghost use Rattle.lq_plan.specs.Meanings.{holds_of, items_meant, meant, value_of_item};
    ghost use Rattle.lq_plan.specs.Pipes.{all_items};
    ghost use Rattle.lq_plan.specs.Pulling.{stream_behind};
    ghost use Rattle.lq_plan.specs.Slots.{values_in};
    ghost use Rattle.lq_host.specs.declared.call.Call.{Call};
    ghost use Rattle.lq_tree.specs.Watches.{Watch, has_watched_rows};
    ghost use Rattle.lq_plan.specs.Watching.{watches};
    ghost use Rattle.lq_pipe.specs.Runs.{GivesCell, IsPlanned, world, Grown, covers, covers_stage};

    /// The sequence of what comes of a source's items at the stage after it.
    #[cycle(running)]
    #[inline(never)]
    pub(crate) fn sequence(
        &self,
        stage: Stage<'_>,
        source: &Form,
        slots: &Slots<'_, R>,
        log: &mut Log<H>,
    ) -> Result<Value<R>, RunError>
        ensures meant { IsAnswer (Ok (sequence (stream_behind (world self.now) (values_in slots.now)
            stage.entry source.now))) result }
        ensures grows { (w : Watch R) (start : List Call) → covers_stage self.now w stage.entry ≡ true
            → covers self.now w source.now ≡ true
            → watches w slots.now ≡ true
            → Grown self.now w start log.old → Grown self.now w start log.new }
    {
        if let Stage::Select(body) = stage {
            if let Some(selected) = self.sources.selected_groups(source, body, slots)? {
                let grouped = self.sources.pipe_of(selected.items, slots)?;
                if let Some((records, ending)) = self.group_items(
                    &selected, &grouped, slots, log,
                )? {
                    return Ok(Value::Seq(records, ending));
                }
            }
        }
        let pipe = self.sources.pipe(stage, source, slots)?;
        let (items, end) = self.read(None, &pipe, slots, log)?;
        Ok(Value::Seq(items, end))
    }

    /// A method without an argument. Where its source is a stage, the items go through it as they are
    /// pulled.
    #[cycle(running)]
    #[inline(never)]
    pub(crate) fn simple(
        &self,
        method: Simple,
        of: &Ty,
        source: &Form,
        slots: &Slots<'_, R>,
        log: &mut Log<H>,
    ) -> Result<Value<R>, RunError>
        ensures meant { IsAnswer (simple_meaning method of.now
            (items_meant (world self.now) source.now slots.now)) result }
        ensures grows { (w : Watch R) (start : List Call) → covers self.now w source.now ≡ true
            → watches w slots.now ≡ true
            → Grown self.now w start log.old → Grown self.now w start log.new }
    {
        match stage_of(source) {
            Some((stage, source)) => {
                let pipe = self.sources.pipe(stage, source, slots)?;
                self.simple_items(method, of, &pipe, slots, log)
            }
            None => {
                let pipe = self.sources.pipe_of(source, slots)?;
                self.simple_items(method, of, &pipe, slots, log)
            }
        }
    }

    /// The same on the items of a pipe, of which only those that the method reads are pulled. What makes a
    /// number of them keeps no list.
    #[cycle(running)]
    #[tactic(auto, using(crate::proofs::CountLaws::tally_answers))]
    fn simple_items(
        &self,
        method: Simple,
        of: &Ty,
        pipe: &Pipe<'_>,
        slots: &Slots<'_, R>,
        log: &mut Log<H>,
    ) -> Result<Value<R>, RunError>
        requires { IsPlanned self.now slots.now pipe.now }
        ensures meant { IsAnswer (simple_meaning method of.now
            (all_items (world self.now) (values_in slots.now) pipe.now)) result }
        ensures grows { (w : Watch R) (start : List Call) → covers self.now w pipe.now.source.now ≡ true
            → covers_stage self.now w pipe.now.stage ≡ true
            → watches w slots.now ≡ true
            → Grown self.now w start log.old → Grown self.now w start log.new }
    {
        if let Simple::Distinct = method {
            return self.distinct(pipe, slots, log);
        }
        match Tally::of(method) {
            Some(tally) => match items_ref(pipe.source, slots) {
                Some((items, end)) => {
                    self.tally_items(tally, of, &pipe.stage, items, end, slots, log)
                }
                None => self.tally_pulled(tally, of, pipe, slots, log),
            },
            None => {
                let (items, end) = self.read(simple_limit(method), pipe, slots, log)?;
                simple(self.sources.alloc, method, of, items, end)
            }
        }
    }

    /// A method with an argument, which is evaluated first. Only the items that the method reads are pulled: none where a
    /// value that is looked for is a fault.
    #[cycle(running)]
    #[inline(never)]
    #[tactic(auto, using(lq_plan::proofs::FormLaws::form_given))]
    pub(crate) fn given(
        &self,
        method: Given,
        source: &Form,
        argument: &Form,
        slots: &Slots<'_, R>,
        log: &mut Log<H>,
    ) -> Result<Value<R>, RunError>
        ensures meant { IsAnswer
            (meant (world self.now) (form.Given method source.now argument.now) slots.now) result }
        ensures grows { (w : Watch R) (start : List Call) → covers self.now w source.now ≡ true
            → covers self.now w argument.now ≡ true
            → watches w slots.now ≡ true
            → Grown self.now w start log.old → Grown self.now w start log.new }
    {
        let argument = sequences::value_or_fault(self.evaluate(argument, slots, log))?;
        let pipe = self.sources.pipe_of(source, slots)?;
        match method {
            Given::Contains => match argument {
                Ok(value) => self.has_item(&value, &pipe, slots, log),
                Err(fault) => Err(RunError::Fault(fault)),
            },
            _ => {
                let (items, end) = self.read(given_limit(method, &argument), &pipe, slots, log)?;
                given(self.sources.alloc, method, argument, items, end)
            }
        }
    }

    /// Whether an item is the same as a value. Nothing is pulled after the first that is.
    #[cycle(running)]
    #[inline(never)]
    #[tactic(auto, using(crate::proofs::CountLaws::contains_steps))]
    fn has_item(
        &self,
        value: &Value<R>,
        pipe: &Pipe<'_>,
        slots: &Slots<'_, R>,
        log: &mut Log<H>,
    ) -> Result<Value<R>, RunError>
        requires { IsPlanned self.now slots.now pipe.now }
        ensures meant { IsAnswer (as_truth (contains same_values value.now
            (all_items (world self.now) (values_in slots.now) pipe.now).0
            (all_items (world self.now) (values_in slots.now) pipe.now).1)) result }
        ensures grows { (w : Watch R) (start : List Call) → covers self.now w pipe.now.source.now ≡ true
            → covers_stage self.now w pipe.now.stage ≡ true
            → watches w slots.now ≡ true
            → Grown self.now w start log.old → Grown self.now w start log.new }
    {
        let mut base = self.open(None, pipe.source, slots, log)?;
        loop {
            match self.next(pipe, &mut base, slots, log)? {
                Ok(item) => {
                    if same(value, &item) {
                        return Ok(parts::truth(true));
                    }
                }
                Err(end) => return parts::false_at_end(end),
            }
        }
    }

    /// Whether a condition is true of all items, up to the first of which it isn't.
    #[cycle(running)]
    #[inline(never)]
    pub(crate) fn all(
        &self,
        source: &Form,
        condition: &Form,
        slots: &Slots<'_, R>,
        log: &mut Log<H>,
    ) -> Result<Value<R>, RunError>
        ensures meant { IsAnswer
            (meant (world self.now) (form.All source.now condition.now) slots.now) result }
        ensures grows { (w : Watch R) (start : List Call) → covers self.now w source.now ≡ true
            → covers self.now w condition.now ≡ true
            → watches w slots.now ≡ true
            → Grown self.now w start log.old → Grown self.now w start log.new }
    {
        let pipe = self.sources.pipe_of(source, slots)?;
        self.all_hold(condition, &pipe, slots, log)
    }

    /// The same of the items of a pipe.
    #[cycle(running)]
    #[tactic(auto, using(crate::proofs::CountLaws::all_steps))]
    fn all_hold(
        &self,
        condition: &Form,
        pipe: &Pipe<'_>,
        slots: &Slots<'_, R>,
        log: &mut Log<H>,
    ) -> Result<Value<R>, RunError>
        requires { IsPlanned self.now slots.now pipe.now }
        ensures meant { IsAnswer (as_truth (all (holds_of (world self.now) condition.now slots.now)
            (all_items (world self.now) (values_in slots.now) pipe.now).0
            (all_items (world self.now) (values_in slots.now) pipe.now).1)) result }
        ensures grows { (w : Watch R) (start : List Call) → covers self.now w condition.now ≡ true
            → covers self.now w pipe.now.source.now ≡ true
            → covers_stage self.now w pipe.now.stage ≡ true
            → watches w slots.now ≡ true
            → Grown self.now w start log.old → Grown self.now w start log.new }
    {
        let mut base = self.open(None, pipe.source, slots, log)?;
        loop {
            match self.next(pipe, &mut base, slots, log)? {
                Ok(item) => match self.holds(condition, &item, slots, log)? {
                    Ok(true) => {}
                    Ok(false) => return Ok(parts::truth(false)),
                    Err(fault) => return Err(RunError::Fault(fault)),
                },
                Err(end) => return parts::true_at_end(end),
            }
        }
    }

    /// Whether a condition is true of an item.
    #[cycle(running)]
    pub(crate) fn holds(
        &self,
        condition: &Form,
        item: &Value<R>,
        slots: &Slots<'_, R>,
        log: &mut Log<H>,
    ) -> Result<Result<bool, Fault>, AllocError>
        ensures meant { IfOk result (λ truth.
            truth ≡ holds_of (world self.now) condition.now slots.now item.now) }
        ensures grows { (w : Watch R) (start : List Call) → covers self.now w condition.now ≡ true
            → watches w slots.now ≡ true
            → has_watched_rows w item.now ≡ true
            → Grown self.now w start log.old → Grown self.now w start log.new }
    {
        scalars::truth_or_fault(self.truth(condition, &(&*slots).with(&*item), log))
    }

    /// What a form gives of an item. The item itself, or a cell of it, is copied from where it stands.
    #[cycle(running)]
    pub(crate) fn value_of_item(
        &self,
        body: &Form,
        item: &Value<R>,
        slots: &Slots<'_, R>,
        log: &mut Log<H>,
    ) -> Result<Result<Value<R>, Fault>, AllocError>
        ensures meant { IfOk result (λ value.
            value ≡ value_of_item (world self.now) body.now slots.now item.now) }
        ensures grows { (w : Watch R) (start : List Call) → covers self.now w body.now ≡ true
            → watches w slots.now ≡ true
            → has_watched_rows w item.now ≡ true
            → Grown self.now w start log.old → Grown self.now w start log.new }
    {
        let deeper = (&*slots).with(&*item);
        match self.sources.value_in_place(&*body, &deeper) {
            Some(copy) => Ok(Ok(copy?)),
            None => sequences::value_or_fault(self.evaluate(body, &deeper, log)),
        }
    }

    /// The same of a lambda: the cell that it is known to give is copied from where it stands.
    #[cycle(running)]
    #[inline(always)]
    pub(crate) fn value_by(
        &self,
        lambda: &Lambda<'_>,
        item: &Value<R>,
        slots: &Slots<'_, R>,
        log: &mut Log<H>,
    ) -> Result<Result<Value<R>, Fault>, AllocError>
        requires { GivesCell self.now slots.now lambda.now }
        ensures meant { IfOk result (λ value.
            value ≡ value_of_item (world self.now) lambda.now.body.now slots.now item.now) }
        ensures grows { (w : Watch R) (start : List Call)
            → covers self.now w lambda.now.body.now ≡ true
            → watches w slots.now ≡ true
            → has_watched_rows w item.now ≡ true
            → Grown self.now w start log.old → Grown self.now w start log.new }
    {
        match lambda.cell(item) {
            Some(cell) => Ok(Ok(Value::Scalar(copy_cell(self.sources.alloc, cell)?))),
            None => self.value_of_item(lambda.body, item, slots, log),
        }
    }
}
