//! Groups of which a record of their keys and tallies is selected: no list of a group's items is kept.
ghost use Rattle.std.specs.Prelude.{◌≡◌, IfOk, List, Result, slice_get};
ghost use Rattle.std.specs.Option.{option_copied};
ghost use Rattle.lq_value.specs.declared.value.Fault.{Fault};
ghost use Rattle.lq_value.specs.declared.value.Value.{Value};
ghost use Rattle.lq_operators.specs.declared.numbers.Tally.{Tally};
ghost use Rattle.lq_language.specs.Worlds.{World};
ghost use Rattle.lq_operators.specs.GroupTallies.{tallies_in};
ghost use Rattle.lq_plan.specs.Aggregates.{AreColumns, TalliesGiveCells, answer_of, begins_in, member_of};
ghost use Rattle.lq_plan.specs.Prepared.{GivesCell};
ghost use Rattle.lq_plan.specs.Pulling.{outcome_stream};
ghost use Rattle.lq_plan.specs.declared.lambdas.Lambda.{Lambda};
ghost use Rattle.lq_plan.specs.declared.aggregates.GroupTally.{GroupTally};
ghost use Rattle.lq_pipe.specs.SelectedGroups.{TalliesOn, record_of_group, records_of, records_until};

use crate::running::Running;
use lq_host::{Asks, Log};
use lq_operators::{GroupTallies, Tally};
use lq_plan::aggregates::{GroupColumns, GroupRead, GroupReads, GroupTally, SelectedGroups};
use lq_plan::{Outcome, Pipe, Pulled, Reads, Slots, TableRow, parts};
use lq_value::{End, Fault, List, Scalar, Value, copy};
use std::alloc::{AllocError, Global};

/// What stands at a place.
fn item_at<T>(items: &[T], place: usize) -> Option<&T>
    ensures { option_copied result ≡ slice_get items.now place }
{
    items.get(place)
}

/// What a tally answers that has come so far, or met a fault.
fn tally_answer<R: TableRow>(
    of: Option<&GroupTally<'_>>,
    so_far: Option<&Result<Tally, Fault>>,
) -> Result<Value<R>, Fault>
    ensures { (tallies : List GroupTally) (key : Value R) (kept : List (Result Tally Fault))
        → result ≡ answer_of tallies key kept (option_copied of.entry) (option_copied so_far.entry) }
{
    match (of, so_far) {
        (Some(of), Some(Ok(tally))) => Ok(Value::Scalar(tally.result(of.of, End::Done)?)),
        (Some(_), Some(Err(fault))) => Err(*fault),
        _ => Ok(Value::Scalar(Scalar::Null)),
    }
}

/// A member of what is selected of a group with this key and these tallies.
fn group_member<R: TableRow>(
    alloc: Global,
    read: GroupRead,
    of: &[GroupTally<'_>],
    key: &Value<R>,
    kept: &[Result<Tally, Fault>],
) -> Result<Result<Value<R>, Fault>, AllocError>
    ensures { IfOk result (λ member. member ≡ member_of of.now key.now kept.now read) }
{
    match read {
        GroupRead::Key => Ok(Ok(copy(alloc, key)?)),
        GroupRead::Tally(place) => Ok(tally_answer(item_at(of, place), item_at(kept, place))),
    }
}

/// The record that is selected of a group, or the first fault of its members.
#[tactic(auto, using(crate::proofs::GroupRecordLemmas::members))]
fn group_record<R: TableRow>(
    alloc: Global,
    reads: &GroupReads<'_>,
    key: &Value<R>,
    kept: &[Result<Tally, Fault>],
) -> Result<Result<Value<R>, Fault>, AllocError>
    ensures { IfOk result (λ made. made ≡ record_of_group reads.now.tallies.items
        reads.now.members.items (key.now, kept.now)) }
{
    let mut members = List::new(alloc);
    for member in reads.members.iter() {
        match group_member(alloc, member.read, reads.tallies.as_slice(), key, kept)? {
            Ok(value) => parts::push_member(alloc, &mut members, member.name, value)?,
            Err(fault) => return Ok(Err(fault)),
        }
    }
    Ok(Ok(Value::Rec(members)))
}

/// The records that are selected of groups, up to the first fault.
#[tactic(auto, using(crate::proofs::GroupRecordLemmas::records))]
fn group_records<R: TableRow>(
    alloc: Global,
    reads: &GroupReads<'_>,
    tallies: GroupTallies<R>,
) -> Result<(List<Value<R>>, End), AllocError>
    ensures { IfOk result (λ items. items ≡ records_of reads.now.tallies.items
        reads.now.members.items (tallies_in tallies)) }
{
    let mut records = List::new(alloc);
    let groups = tallies.into_groups();
    for group in groups.as_slice() {
        match group_record(alloc, reads, &group.0, group.1.as_slice())? {
            Ok(record) => records.push(record)?,
            Err(fault) => return Ok((records, End::Fault(fault))),
        }
    }
    Ok((records, End::Done))
}

/// Puts what an item has become to the tallies of its group, and answers how that ends; none where it isn't
/// known which group that is, or what its numbers are.
#[inline(always)]
#[tactic(auto, using(crate::proofs::GroupRecordLemmas::tallies_with))]
fn add_tallies<R: TableRow>(
    alloc: Global,
    columns: &GroupColumns,
    outcome: Outcome<R>,
    tallies: &mut GroupTallies<R>,
) -> Result<Option<End>, AllocError>
    ensures tallies { IfOk result (λ next. (world : World R) (slots : List (Value R)) (key : Lambda)
        (of : List GroupTally) → tallies.old.begins ≡ begins_in of
        → AreColumns key of columns.now → GivesCell R.table_of R.shown world slots key
        → TalliesGiveCells R.table_of R.shown world slots of
        → TalliesOn world slots key.body.now of tallies.old (outcome_stream outcome) next tallies.new) }
    ensures begins { tallies.new.begins ≡ tallies.old.begins }
{
    match outcome {
        Outcome::Item(Value::Row(row)) => match columns.add(alloc, &row, tallies)? {
            true => Ok(Some(End::Done)),
            false => Ok(None),
        },
        Outcome::Item(_) => Ok(None),
        Outcome::Dropped => Ok(Some(End::Done)),
        Outcome::Fault(fault) => Ok(Some(End::Fault(fault))),
    }
}

/// The records that are selected of groups, where the items of these end so: where that is a fault, there is
/// nothing but that fault.
fn records_until<R: TableRow>(
    alloc: Global,
    reads: &GroupReads<'_>,
    tallies: GroupTallies<R>,
    end: End,
) -> Result<(List<Value<R>>, End), AllocError>
    ensures { IfOk result (λ items. items ≡ records_until reads.now.tallies.items
        reads.now.members.items (tallies_in tallies) end) }
{
    match end {
        End::Done => group_records(alloc, reads, tallies),
        End::Fault(fault) => Ok((List::new(alloc), End::Fault(fault))),
    }
}

impl<'a, R: TableRow, S: Reads<R>, H: Asks> Running<'a, R, S, H> {
    ghost use Rattle.std.specs.Prelude.{◌≡◌, IfOk, IfSome, List, true};
    ghost use Rattle.lq_host.specs.declared.call.Call.{Call};
    ghost use Rattle.lq_tree.specs.Watches.{Watch};
    ghost use Rattle.lq_plan.specs.Meanings.{items_meant};
    ghost use Rattle.lq_plan.specs.Pipes.{all_items};
    ghost use Rattle.lq_plan.specs.Pulling.{stream_behind};
    ghost use Rattle.lq_plan.specs.Slots.{values_in};
    ghost use Rattle.lq_plan.specs.Watching.{watches};
    ghost use Rattle.lq_plan.specs.declared.stages.Stage.TheVariants as of_stage;
    ghost use Rattle.lq_tree.specs.declared.tree.Form.{Form};
    ghost use Rattle.std.specs.Borrow.{Bor};
    ghost use Rattle.lq_pipe.specs.Runs.{IsPlanned, world, Grown, covers, covers_stage};
    ghost use Rattle.lq_pipe.specs.SelectedGroups.{AreSelected};

    /// What is selected of the groups of all items of a pipe, and how that ends; none where it isn't known of an
    /// item which group it is of, or what its numbers are.
    #[cycle(running)]
    #[inline(never)]
    pub(crate) fn group_items(
        &self,
        selected: &SelectedGroups<'_>,
        pipe: &Pipe<'_>,
        slots: &Slots<'_, R>,
        log: &mut Log<H>,
    ) -> Result<Option<(List<Value<R>>, End)>, AllocError>
        requires planned { IsPlanned self.now slots.now pipe.now }
        requires plain { pipe.now.stage ≡ of_stage.Plain }
        ensures meant { IfOk result (λ found. IfSome found (λ items. (source : Form) (body : Bor Form)
            → AreSelected self.now slots.now source body.now selected.now
            → all_items (world self.now) (values_in slots.now) pipe.now
            ≡ items_meant (world self.now) selected.now.items.now slots.now
            → items ≡ stream_behind (world self.now) (values_in slots.now) (of_stage.Select body) source)) }
        ensures grows { (w : Watch R) (start : List Call)
            → covers self.now w pipe.now.source.now ≡ true
            → covers_stage self.now w pipe.now.stage ≡ true
            → watches w slots.now ≡ true
            → Grown self.now w start log.old → Grown self.now w start log.new }
    {
        let alloc = self.sources.alloc;
        let mut tallies = GroupTallies::new(alloc, selected.reads.begins(alloc)?)?;
        let mut base = self.open(None, pipe.source, slots, log)?;
        loop {
            match base.pull(&pipe.plan) {
                Ok(Pulled::Row(row)) => {
                    if !selected.columns.add(alloc, &row, &mut tallies)? {
                        return Ok(None);
                    }
                }
                Ok(Pulled::Item(item)) => {
                    let outcome = self.pass_item(pipe, item, slots, log)?;
                    match add_tallies(alloc, &selected.columns, outcome, &mut tallies)? {
                        Some(End::Done) => {}
                        Some(End::Fault(fault)) => {
                            return Ok(Some((List::new(alloc), End::Fault(fault))));
                        }
                        None => return Ok(None),
                    }
                }
                Err(end) => return Ok(Some(records_until(alloc, &selected.reads, tallies, end)?)),
            }
        }
    }
}
