//! The gathering of distinct items, and of items in groups by their keys, as they are pulled from a pipe.
use crate::adding::{add_cell, add_outcome, add_step, group_in_place, group_pair};
use crate::running::Running;
use lq_host::{Asks, Log};
use lq_operators::{Distinct, Grouping, RunError};
use lq_plan::{Lambda, Outcome, Pipe, Pulled, Reads, Slots, TableRow};
use lq_value::{End, Fault, Value};
use std::alloc::AllocError;

impl<'a, R: TableRow, S: Reads<R>, H: Asks> Running<'a, R, S, H> {
    ghost use Rattle.std.specs.Prelude.{◌≡◌, ◌∷◌, [], IfOk, List, Ok, Some, true};
    ghost use Rattle.lq_value.specs.SameAndOrder.{same_values};
    ghost use Rattle.lq_value.specs.declared.value.End.TheVariants as end;
    ghost use Rattle.lq_language.specs.Enumerable.{distinct};
    ghost use Rattle.lq_language.specs.OperandMeaning.{sequence};
    ghost use Rattle.lq_operators.specs.Answers.{IsAnswer};
    ghost use Rattle.lq_operators.specs.Firsts.{firsts_in};
    ghost use Rattle.lq_operators.specs.Groups.{groups_in};
    ghost use Rattle.lq_plan.specs.Pipes.{all_items};
    ghost use Rattle.lq_plan.specs.PlannedRows.{IsPulled, pulled_value};
    ghost use Rattle.lq_plan.specs.Pulling.{item_at, through_stage};
    ghost use Rattle.lq_plan.specs.Slots.{values_in};
    ghost use Rattle.lq_host.specs.declared.call.Call.{Call};
    ghost use Rattle.lq_tree.specs.Watches.{Watch, has_watched_rows};
    ghost use Rattle.lq_plan.specs.Watching.{is_covered_pipe, watches};
    ghost use Rattle.lq_pipe.specs.Gathering.{AddsFirsts, AddsPairs};
    ghost use Rattle.lq_pipe.specs.Items.{AreGrouped, key_and_element, keys_and_elements};
    ghost use Rattle.lq_pipe.specs.Runs.{GivesCell, IsPlanned, world, Grown, covers, covers_stage};

    /// The distinct items of a pipe, each at its first appearance: one after another is looked for among those
    /// before it.
    #[cycle(running)]
    #[inline(never)]
    pub(crate) fn distinct(
        &self,
        pipe: &Pipe<'_>,
        slots: &Slots<'_, R>,
        log: &mut Log<H>,
    ) -> Result<Value<R>, RunError>
        requires { IsPlanned self.now slots.now pipe.now }
        ensures meant { IsAnswer (Ok (sequence (distinct same_values
            (all_items (world self.now) (values_in slots.now) pipe.now).0
            (all_items (world self.now) (values_in slots.now) pipe.now).1))) result }
        ensures grows { (w : Watch R) (start : List Call) → covers self.now w pipe.now.source.now ≡ true
            → covers_stage self.now w pipe.now.stage ≡ true
            → watches w slots.now ≡ true
            → Grown self.now w start log.old → Grown self.now w start log.new }
    {
        let mut base = self.open(None, pipe.source, slots, log)?;
        let mut firsts = Distinct::new(self.sources.alloc, 0)?;
        loop {
            match base.pull(&pipe.plan) {
                Ok(pulled) => match self.add_next(&mut firsts, pipe, pulled, slots, log)? {
                    End::Done => {}
                    End::Fault(fault) => {
                        return Ok(Value::Seq(firsts.into_items(), End::Fault(fault)));
                    }
                },
                Err(end) => return Ok(Value::Seq(firsts.into_items(), end)),
            }
        }
    }

    /// Adds what comes of what was pulled by the plan of a pipe, and answers how that ends.
    #[cycle(running)]
    #[inline(always)]
    fn add_next(
        &self,
        firsts: &mut Distinct<R>,
        pipe: &Pipe<'_>,
        pulled: Pulled<R>,
        slots: &Slots<'_, R>,
        log: &mut Log<H>,
    ) -> Result<End, AllocError>
        requires planned { IsPlanned self.now slots.now pipe.now }
        requires pulled { IsPulled R.table_of R.shown pipe.now.plan pulled }
        ensures meant { IfOk result (λ e. AddsFirsts (firsts_in firsts.old) (firsts_in firsts.new)
            (through_stage (world self.now) (values_in slots.now) pipe.now.stage
            (item_at (world self.now) (values_in slots.now) pipe.now.source.now
            (pulled_value pulled))) e) }
        ensures grows { (w : Watch R) (start : List Call)
            → is_covered_pipe (world self.now) w (values_in slots.now) pipe.now ≡ true
            → has_watched_rows w (pulled_value pulled) ≡ true
            → Grown self.now w start log.old → Grown self.now w start log.new }
    {
        match pulled {
            Pulled::Row(row) => match pipe.plan.cell(&row) {
                Some(cell) => add_cell(firsts, self.sources.alloc, cell),
                None => {
                    let step = self.pass_row(pipe, row, slots, log)?;
                    add_step(firsts, self.sources.alloc, step)
                }
            },
            Pulled::Item(item) => {
                let outcome = self.pass_item(pipe, item, slots, log)?;
                add_outcome(firsts, self.sources.alloc, outcome)
            }
        }
    }

    /// The items of a pipe in groups by their keys, as far as no fault is met, and how they end.
    #[cycle(running)]
    pub(crate) fn grouped(
        &self,
        key: &Lambda<'_>,
        element: &Lambda<'_>,
        pipe: &Pipe<'_>,
        slots: &Slots<'_, R>,
        log: &mut Log<H>,
    ) -> Result<(Grouping<R>, End), AllocError>
        requires planned { IsPlanned self.now slots.now pipe.now }
        requires key { GivesCell self.now slots.now key.now }
        requires element { GivesCell self.now slots.now element.now }
        ensures meant { IfOk result (λ found. AreGrouped found.0 found.1
            (keys_and_elements (world self.now) (values_in slots.now) key.now.body.now
            (Some element.now.body)
            (all_items (world self.now) (values_in slots.now) pipe.now))) }
        ensures grows { (w : Watch R) (start : List Call) → covers self.now w pipe.now.source.now ≡ true
            → covers_stage self.now w pipe.now.stage ≡ true
            → covers self.now w key.now.body.now ≡ true
            → covers self.now w element.now.body.now ≡ true
            → watches w slots.now ≡ true
            → Grown self.now w start log.old → Grown self.now w start log.new }
    {
        let mut base = self.open(None, pipe.source, slots, log)?;
        let mut grouping = Grouping::new(self.sources.alloc, 0)?;
        loop {
            match base.pull(&pipe.plan) {
                Ok(pulled) => {
                    match self.group_next(&mut grouping, key, element, pipe, pulled, slots, log)? {
                        End::Done => {}
                        End::Fault(fault) => return Ok((grouping, End::Fault(fault))),
                    }
                }
                Err(end) => return Ok((grouping, end)),
            }
        }
    }

    /// Puts what comes of what was pulled by the plan of a pipe into its group, and answers how that ends.
    #[cycle(running)]
    #[inline(always)]
    fn group_next(
        &self,
        grouping: &mut Grouping<R>,
        key: &Lambda<'_>,
        element: &Lambda<'_>,
        pipe: &Pipe<'_>,
        pulled: Pulled<R>,
        slots: &Slots<'_, R>,
        log: &mut Log<H>,
    ) -> Result<End, AllocError>
        requires planned { IsPlanned self.now slots.now pipe.now }
        requires pulled { IsPulled R.table_of R.shown pipe.now.plan pulled }
        requires key { GivesCell self.now slots.now key.now }
        requires element { GivesCell self.now slots.now element.now }
        ensures meant { IfOk result (λ e. AddsPairs (groups_in grouping.old) (groups_in grouping.new)
            (keys_and_elements (world self.now) (values_in slots.now) key.now.body.now
            (Some element.now.body)
            (through_stage (world self.now) (values_in slots.now) pipe.now.stage
            (item_at (world self.now) (values_in slots.now) pipe.now.source.now
            (pulled_value pulled)))) e) }
        ensures grows { (w : Watch R) (start : List Call)
            → is_covered_pipe (world self.now) w (values_in slots.now) pipe.now ≡ true
            → covers self.now w key.now.body.now ≡ true
            → covers self.now w element.now.body.now ≡ true
            → has_watched_rows w (pulled_value pulled) ≡ true
            → Grown self.now w start log.old → Grown self.now w start log.new }
    {
        match pulled {
            Pulled::Row(row) => match self.pass_row(pipe, row, slots, log)? {
                Ok(item) => self.group_item(grouping, key, element, item, slots, log),
                Err(end) => Ok(end),
            },
            Pulled::Item(item) => match self.pass_item(pipe, item, slots, log)? {
                Outcome::Item(item) => self.group_item(grouping, key, element, item, slots, log),
                Outcome::Dropped => Ok(End::Done),
                Outcome::Fault(fault) => Ok(End::Fault(fault)),
            },
        }
    }

    /// Puts the element of an item behind those of its key, and answers whether that meets a fault.
    #[cycle(running)]
    #[inline(always)]
    fn group_item(
        &self,
        grouping: &mut Grouping<R>,
        key: &Lambda<'_>,
        element: &Lambda<'_>,
        item: Value<R>,
        slots: &Slots<'_, R>,
        log: &mut Log<H>,
    ) -> Result<End, AllocError>
        requires key { GivesCell self.now slots.now key.now }
        requires element { GivesCell self.now slots.now element.now }
        ensures meant { IfOk result (λ e. AddsPairs (groups_in grouping.old) (groups_in grouping.new)
            (keys_and_elements (world self.now) (values_in slots.now) key.now.body.now
            (Some element.now.body) (item ∷ [], end.Done)) e) }
        ensures grows { (w : Watch R) (start : List Call)
            → covers self.now w key.now.body.now ≡ true
            → covers self.now w element.now.body.now ≡ true
            → watches w slots.now ≡ true
            → has_watched_rows w item ≡ true
            → Grown self.now w start log.old → Grown self.now w start log.new }
    {
        if group_in_place(grouping, self.sources.alloc, key, element, &item)? {
            return Ok(End::Done);
        }
        match self.value_by(key, &item, slots, log)? {
            Ok(key) => match self.value_by(element, &item, slots, log)? {
                Ok(element) => group_pair(grouping, self.sources.alloc, Ok((key, element))),
                Err(fault) => Ok(End::Fault(fault)),
            },
            Err(fault) => Ok(End::Fault(fault)),
        }
    }
}
