//! The running of what several sequences or keys take part in.
ghost use Rattle.std.specs.Prelude.{◌≡◌, IfOk};
ghost use Rattle.lq_value.specs.declared.value.End.TheVariants as end;
ghost use Rattle.lq_language.specs.Stream.{one, then_ending};

use crate::cells::copy_cell;
use crate::joining::{JoinLambdas, Sought};
use crate::running::Running;
use lq_grammar::SortKey;
use lq_host::{Asks, Log};
use lq_operators::{Matches, RunError};
use lq_plan::{Lambda, Pipe, Reads, Slots, Stage, TableRow, arrangements, sequences};
use lq_tree::{Form, Joined};
use lq_value::{End, Fault, List, Scalar, Value};
use std::alloc::AllocError;

impl<'a, R: TableRow, S: Reads<R>, H: Asks> Running<'a, R, S, H> {
    ghost use Rattle.std.specs.Prelude.{◌≡◌, IfOk, Ok, List, None, true, false};
    ghost use Rattle.lq_language.specs.Arrangement.{all_of};
    ghost use Rattle.lq_language.specs.Stream.{select_by, then_ending};
    ghost use Rattle.lq_value.specs.declared.value.End.TheVariants as end;
    ghost use Rattle.lq_operators.specs.Matching.{pairs_of};
    ghost use Rattle.lq_operators.specs.Answers.{IsAnswer};
    ghost use Rattle.lq_tree.specs.FormMeaning.{matched};
    ghost use Rattle.lq_tree.specs.declared.tree.Form.TheVariants as form;
    ghost use Rattle.lq_plan.specs.Arrangements.{columns_of, key_at};
    ghost use Rattle.lq_plan.specs.Meanings.{Answers, items_meant, meant, value_of_item};
    ghost use Rattle.lq_plan.specs.Pipes.{all_items};
    ghost use Rattle.lq_plan.specs.Slots.{values_in};
    ghost use Rattle.lq_pipe.specs.Items.{item_expansion, item_join, keys_and_elements, stream_expansion, stream_join};
    ghost use Rattle.lq_pipe.specs.Joins.{match_at, sought};
    ghost use Rattle.lq_host.specs.declared.call.Call.{Call};
    ghost use Rattle.lq_tree.specs.Watches.{Watch, are_covered_keys, has_watched_rows, have_watched_rows, is_covered_join};
    ghost use Rattle.lq_plan.specs.Watching.{matches_pass, watches};
    ghost use Rattle.lq_pipe.specs.Runs.{GivesCell, GivesCellBehind, IsPlanned, world, Grown, covers, covers_stage};

    /// What comes of each item and of each item of what it leads to.
    #[cycle(running)]
    #[inline(never)]
    pub(crate) fn select_many(
        &self,
        source: &Form,
        inner: &Form,
        body: &Form,
        slots: &Slots<'_, R>,
        log: &mut Log<H>,
    ) -> Result<Value<R>, RunError>
        ensures meant { IsAnswer
            (meant (world self.now) (form.SelectMany source.now inner.now body.now) slots.now)
            result }
        ensures grows { (w : Watch R) (start : List Call) → covers self.now w source.now ≡ true
            → covers self.now w inner.now ≡ true
            → covers self.now w body.now ≡ true
            → watches w slots.now ≡ true
            → Grown self.now w start log.old → Grown self.now w start log.new }
    {
        let pipe = self.sources.pipe_of(source, slots)?;
        let (values, end) = self.expand(&pipe, inner, body, slots, log)?;
        Ok(Value::Seq(values, end))
    }

    /// What comes of an item and of each item of what it leads to.
    #[cycle(running)]
    fn expand_item(
        &self,
        inner: &Form,
        body: &Form,
        item: &Value<R>,
        slots: &Slots<'_, R>,
        log: &mut Log<H>,
    ) -> Result<(List<Value<R>>, End), AllocError>
        ensures meant { IfOk result (λ s. s ≡ item_expansion (world self.now)
            (values_in slots.now) inner.now body.now item.now) }
        ensures grows { (w : Watch R) (start : List Call) → covers self.now w inner.now ≡ true
            → covers self.now w body.now ≡ true
            → watches w slots.now ≡ true
            → has_watched_rows w item.now ≡ true
            → Grown self.now w start log.old → Grown self.now w start log.new }
    {
        let deeper = (&*slots).with(&*item);
        let pipe = self.sources.pipe(Stage::Select(body), inner, &deeper)?;
        self.read(None, &pipe, &deeper, log)
    }

    /// The same of each item of a pipe, up to the first fault.
    #[cycle(running)]
    #[tactic(auto, using(crate::proofs::PullLaws::expands))]
    fn expand(
        &self,
        pipe: &Pipe<'_>,
        inner: &Form,
        body: &Form,
        slots: &Slots<'_, R>,
        log: &mut Log<H>,
    ) -> Result<(List<Value<R>>, End), AllocError>
        requires { IsPlanned self.now slots.now pipe.now }
        ensures meant { IfOk result (λ items.
            items ≡ stream_expansion (world self.now) (values_in slots.now) inner.now body.now
            (all_items (world self.now) (values_in slots.now) pipe.now)) }
        ensures grows { (w : Watch R) (start : List Call) → covers self.now w pipe.now.source.now ≡ true
            → covers_stage self.now w pipe.now.stage ≡ true
            → covers self.now w inner.now ≡ true
            → covers self.now w body.now ≡ true
            → watches w slots.now ≡ true
            → Grown self.now w start log.old → Grown self.now w start log.new }
    {
        let mut base = self.open(None, pipe.source, slots, log)?;
        let mut values = List::new(self.sources.alloc);
        loop {
            match self.next(pipe, &mut base, slots, log)? {
                Ok(item) => {
                    let (further, ending) = self.expand_item(inner, body, &item, slots, log)?;
                    values = sequences::append(values, further)?;
                    match ending {
                        End::Done => {}
                        End::Fault(fault) => return Ok((values, End::Fault(fault))),
                    }
                }
                Err(end) => return Ok((values, end)),
            }
        }
    }

    /// The items grouped by a key.
    #[cycle(running)]
    #[inline(never)]
    pub(crate) fn group_by(
        &self,
        source: &Form,
        key: &Form,
        element: &Form,
        slots: &Slots<'_, R>,
        log: &mut Log<H>,
    ) -> Result<Value<R>, RunError>
        ensures meant { IsAnswer
            (meant (world self.now) (form.GroupBy source.now key.now element.now) slots.now)
            result }
        ensures grows { (w : Watch R) (start : List Call) → covers self.now w source.now ≡ true
            → covers self.now w key.now ≡ true
            → covers self.now w element.now ≡ true
            → watches w slots.now ≡ true
            → Grown self.now w start log.old → Grown self.now w start log.new }
    {
        let pipe = self.sources.pipe_of(source, slots)?;
        let key = self.sources.lambda(key, slots);
        let element = self.sources.lambda(element, slots);
        let (grouping, end) = self.grouped(&key, &element, &pipe, slots, log)?;
        match end {
            End::Done => {
                let groups = grouping.into_groups(self.sources.alloc)?;
                Ok(Value::Seq(groups, End::Done))
            }
            End::Fault(fault) => Ok(sequences::fault_sequence(self.sources.alloc, fault)),
        }
    }

    /// The items of the inner source of a join with their keys, up to the first fault.
    #[cycle(running)]
    #[tactic(auto, using(crate::proofs::PullLaws::selects))]
    fn key_pairs(
        &self,
        source: &Form,
        key: &Form,
        slots: &Slots<'_, R>,
        log: &mut Log<H>,
    ) -> Result<(List<(Value<R>, Value<R>)>, End), AllocError>
        ensures meant { IfOk result (λ pairs.
            pairs ≡ keys_and_elements (world self.now) (values_in slots.now) key.now None
            (items_meant (world self.now) source.now slots.now)) }
        ensures grows { (w : Watch R) (start : List Call) → covers self.now w source.now ≡ true
            → covers self.now w key.now ≡ true
            → watches w slots.now ≡ true
            → Grown self.now w start log.old → Grown self.now w start log.new }
    {
        let pipe = self.sources.pipe_of(source, slots)?;
        let lambda = self.sources.lambda(key, slots);
        let mut base = self.open(None, pipe.source, slots, log)?;
        let mut pairs = List::new(self.sources.alloc);
        loop {
            match self.next(&pipe, &mut base, slots, log)? {
                Ok(item) => match self.value_by(&lambda, &item, slots, log)? {
                    Ok(key) => pairs.push((key, item))?,
                    Err(fault) => return Ok((pairs, End::Fault(fault))),
                },
                Err(end) => return Ok((pairs, end)),
            }
        }
    }

    /// A join: the inner items and their keys are read first, and then the outer ones one by one.
    #[cycle(running)]
    #[inline(never)]
    pub(crate) fn join(
        &self,
        joined: &Joined<Form>,
        source: &Form,
        slots: &Slots<'_, R>,
        log: &mut Log<H>,
    ) -> Result<Value<R>, RunError>
        ensures meant { IsAnswer
            (meant (world self.now) (form.Join source.now joined.now) slots.now) result }
        ensures grows { (w : Watch R) (start : List Call) → is_covered_join (world self.now) w joined.now ≡ true
            → covers self.now w source.now ≡ true
            → watches w slots.now ≡ true
            → Grown self.now w start log.old → Grown self.now w start log.new }
    {
        let (pairs, pairs_end) = self.key_pairs(&joined.inner, &joined.inner_key, slots, log)?;
        match pairs_end {
            End::Done => {
                let matches = Matches::build(self.sources.alloc, pairs)?;
                let outer = self.sources.pipe_of(source, slots)?;
                let (values, end) = self.join_items(joined, &matches, &outer, slots, log)?;
                Ok(Value::Seq(values, end))
            }
            End::Fault(fault) => Ok(sequences::fault_sequence(self.sources.alloc, fault)),
        }
    }

    /// What comes of an outer item and of each inner one that its key matches, or of all of them, behind
    /// the values that are there; and how that ends. A key that is a cell of the item stays where it stands.
    #[cycle(running)]
    fn join_item(
        &self,
        joined: &Joined<Form>,
        lambdas: &JoinLambdas<'_>,
        matches: &Matches<R>,
        item: &Value<R>,
        values: &mut List<Value<R>>,
        slots: &Slots<'_, R>,
        log: &mut Log<H>,
    ) -> Result<End, AllocError>
        requires key { GivesCell self.now slots.now lambdas.now.outer_key }
        requires outer { lambdas.now.outer_key.body.now ≡ joined.now.outer_key }
        requires cell { GivesCellBehind self.now slots.now lambdas.now.result }
        requires body { lambdas.now.result.body.now ≡ joined.now.result }
        ensures meant { IfOk result (λ ending. (values.new, ending) ≡ then_ending values.old end.Done
            (item_join (world self.now) (values_in slots.now) joined.now (pairs_of matches.now)
            item.now)) }
        ensures grows { (w : Watch R) (start : List Call) → is_covered_join (world self.now) w joined.now ≡ true
            → matches_pass w (pairs_of matches.now) ≡ true
            → watches w slots.now ≡ true
            → has_watched_rows w item.now ≡ true
            → Grown self.now w start log.old → Grown self.now w start log.new }
    {
        let deeper = (&*slots).with(&*item);
        if !joined.grouped {
            if let Some(cell) = lambdas.outer_key.cell(item) {
                let key = Sought::Cell(cell);
                return self.join_matches(&lambdas.result, &key, matches, values, &deeper, log);
            }
        }
        match self.value_by(&lambdas.outer_key, item, slots, log)? {
            Ok(key) => {
                if joined.grouped {
                    let items = matches.find(self.sources.alloc, &key)?;
                    let group = Value::Seq(items, End::Done);
                    let met = self.value_of_item(&joined.result, &group, &deeper, log)?;
                    return push_met(values, met);
                }
                let key = Sought::Made(&key);
                self.join_matches(&lambdas.result, &key, matches, values, &deeper, log)
            }
            Err(fault) => Ok(End::Fault(fault)),
        }
    }

    /// What a lambda gives of each inner item that a key matches, up to the first fault. The items are
    /// read where they stand: no list is made of them.
    #[cycle(running)]
    #[inline(always)]
    fn join_matches(
        &self,
        lambda: &Lambda<'_>,
        key: &Sought<'_, R>,
        matches: &Matches<R>,
        values: &mut List<Value<R>>,
        slots: &Slots<'_, R>,
        log: &mut Log<H>,
    ) -> Result<End, AllocError>
        requires { GivesCell self.now slots.now lambda.now }
        ensures meant { IfOk result (λ ending. (values.new, ending) ≡ then_ending values.old end.Done
            (select_by (value_of_item (world self.now) lambda.now.body.now slots.now)
            (matched (world self.now) false (sought key.now) (pairs_of matches.now)) end.Done)) }
        ensures grows { (w : Watch R) (start : List Call)
            → covers self.now w lambda.now.body.now ≡ true
            → matches_pass w (pairs_of matches.now) ≡ true
            → watches w slots.now ≡ true
            → Grown self.now w start log.old → Grown self.now w start log.new }
    {
        let places = key.places(matches, self.sources.alloc)?;
        for place in places {
            let ending = self.join_place(lambda, key, matches, *place, values, slots, log)?;
            match ending {
                End::Done => {}
                End::Fault(fault) => return Ok(End::Fault(fault)),
            }
        }
        Ok(End::Done)
    }

    /// What a lambda gives of the inner item at a place, where a key matches it.
    #[cycle(running)]
    #[inline(always)]
    fn join_place(
        &self,
        lambda: &Lambda<'_>,
        key: &Sought<'_, R>,
        matches: &Matches<R>,
        place: usize,
        values: &mut List<Value<R>>,
        slots: &Slots<'_, R>,
        log: &mut Log<H>,
    ) -> Result<End, AllocError>
        requires { GivesCell self.now slots.now lambda.now }
        ensures meant { IfOk result (λ ending. (values.new, ending) ≡ then_ending values.old end.Done
            (select_by (value_of_item (world self.now) lambda.now.body.now slots.now)
            (match_at matches.now (sought key.now) place) end.Done)) }
        ensures grows { (w : Watch R) (start : List Call)
            → covers self.now w lambda.now.body.now ≡ true
            → have_watched_rows w (match_at matches.now (sought key.now) place) ≡ true
            → watches w slots.now ≡ true
            → Grown self.now w start log.old → Grown self.now w start log.new }
    {
        match key.item(matches, place) {
            Some(inner) => {
                let met = self.value_by(lambda, inner, slots, log)?;
                push_met(values, met)
            }
            None => Ok(End::Done),
        }
    }

    /// What comes of each outer item of a pipe, up to the first fault.
    #[cycle(running)]
    #[tactic(auto, using(crate::proofs::PullLaws::expands))]
    fn join_items(
        &self,
        joined: &Joined<Form>,
        matches: &Matches<R>,
        pipe: &Pipe<'_>,
        slots: &Slots<'_, R>,
        log: &mut Log<H>,
    ) -> Result<(List<Value<R>>, End), AllocError>
        requires { IsPlanned self.now slots.now pipe.now }
        ensures meant { IfOk result (λ items.
            items ≡ stream_join (world self.now) (values_in slots.now) joined.now
            (pairs_of matches.now)
            (all_items (world self.now) (values_in slots.now) pipe.now)) }
        ensures grows { (w : Watch R) (start : List Call) → is_covered_join (world self.now) w joined.now ≡ true
            → matches_pass w (pairs_of matches.now) ≡ true
            → covers self.now w pipe.now.source.now ≡ true
            → covers_stage self.now w pipe.now.stage ≡ true
            → watches w slots.now ≡ true
            → Grown self.now w start log.old → Grown self.now w start log.new }
    {
        let mut base = self.open(None, pipe.source, slots, log)?;
        let lambdas = JoinLambdas {
            outer_key: self.sources.lambda(&joined.outer_key, slots),
            result: self.sources.lambda_behind(&joined.result, slots),
        };
        let mut values = List::new(self.sources.alloc);
        loop {
            match self.next(pipe, &mut base, slots, log)? {
                Ok(item) => {
                    let ending = self.join_item(
                        joined,
                        &lambdas,
                        matches,
                        &item,
                        &mut values,
                        slots,
                        log,
                    )?;
                    match ending {
                        End::Done => {}
                        End::Fault(fault) => return Ok((values, End::Fault(fault))),
                    }
                }
                Err(end) => return Ok((values, end)),
            }
        }
    }

    /// The items sorted by keys, or the first fault that is met in a key. The keys are met only where the
    /// items come to their end: where these end in a fault, there is nothing but that fault.
    #[cycle(running)]
    #[inline(never)]
    pub(crate) fn order_by(
        &self,
        keys: &List<SortKey<Form>>,
        source: &Form,
        slots: &Slots<'_, R>,
        log: &mut Log<H>,
    ) -> Result<Value<R>, RunError>
        ensures meant { IsAnswer
            (meant (world self.now) (form.OrderBy source.now keys.now) slots.now) result }
        ensures grows { (w : Watch R) (start : List Call) → are_covered_keys (world self.now) w keys.now ≡ true
            → covers self.now w source.now ≡ true
            → watches w slots.now ≡ true
            → Grown self.now w start log.old → Grown self.now w start log.new }
    {
        let pipe = self.sources.pipe_of(source, slots)?;
        let (items, end) = self.read(None, &pipe, slots, log)?;
        match end {
            End::Done => {
                let alloc = self.sources.alloc;
                let columns = self.key_columns(keys, items.as_slice(), slots, log);
                Ok(arrangements::sort_by(alloc, keys.as_slice(), columns, items)?)
            }
            End::Fault(fault) => Ok(sequences::fault_sequence(self.sources.alloc, fault)),
        }
    }

    /// The first key of all items, then the next of all, up to the first fault.
    #[cycle(running)]
    fn key_columns(
        &self,
        keys: &List<SortKey<Form>>,
        items: &[Value<R>],
        slots: &Slots<'_, R>,
        log: &mut Log<H>,
    ) -> Result<List<List<Scalar>>, RunError>
        ensures meant { Answers
            (columns_of (world self.now) (values_in slots.now) keys.now items.now) result }
        ensures grows { (w : Watch R) (start : List Call) → are_covered_keys (world self.now) w keys.now ≡ true
            → watches w slots.now ≡ true
            → have_watched_rows w items.now ≡ true
            → Grown self.now w start log.old → Grown self.now w start log.new }
    {
        let mut columns = List::new(self.sources.alloc);
        for key in keys.as_slice() {
            let column = self.key_column(&key.value, items, slots, log)?;
            columns.push(column)?;
        }
        Ok(columns)
    }

    /// A key of each item, up to the first fault.
    #[cycle(running)]
    fn key_column(
        &self,
        key: &Form,
        items: &[Value<R>],
        slots: &Slots<'_, R>,
        log: &mut Log<H>,
    ) -> Result<List<Scalar>, RunError>
        ensures meant { Answers
            (all_of (key_at (world self.now) (values_in slots.now) key.now) items.now) result }
        ensures grows { (w : Watch R) (start : List Call) → covers self.now w key.now ≡ true
            → watches w slots.now ≡ true
            → have_watched_rows w items.now ≡ true
            → Grown self.now w start log.old → Grown self.now w start log.new }
    {
        let lambda = self.sources.lambda(key, slots);
        let places = Vec::with_capacity(self.sources.alloc, items.len())?;
        let mut column = List::from_vec(places);
        for item in items {
            let scalar = self.key_of(&lambda, item, slots, log)?;
            column.push(scalar)?;
        }
        Ok(column)
    }

    /// A key of an item: where it is a cell, a copy of it as it stands.
    #[cycle(running)]
    fn key_of(
        &self,
        key: &Lambda<'_>,
        item: &Value<R>,
        slots: &Slots<'_, R>,
        log: &mut Log<H>,
    ) -> Result<Scalar, RunError>
        requires { GivesCell self.now slots.now key.now }
        ensures meant { Answers
            (key_at (world self.now) (values_in slots.now) key.now.body.now item.now) result }
        ensures grows { (w : Watch R) (start : List Call)
            → covers self.now w key.now.body.now ≡ true
            → watches w slots.now ≡ true
            → has_watched_rows w item.now ≡ true
            → Grown self.now w start log.old → Grown self.now w start log.new }
    {
        match key.cell(item) {
            Some(cell) => Ok(copy_cell(self.sources.alloc, cell)?),
            None => self.scalar(key.body, &(&*slots).with(&*item), log),
        }
    }
}

/// Puts what was met of an item behind the values that are there: a value, or the fault that ends them.
#[inline]
fn push_met<R: TableRow>(
    values: &mut List<Value<R>>,
    met: Result<Value<R>, Fault>,
) -> Result<End, AllocError>
    ensures { IfOk result (λ ending. (values.new, ending)
        ≡ then_ending values.old end.Done (one met)) }
{
    match met {
        Ok(value) => {
            values.push(value)?;
            Ok(End::Done)
        }
        Err(fault) => Ok(End::Fault(fault)),
    }
}
