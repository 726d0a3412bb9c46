//! The first pulls of a pipe: of a head over a chain.
ghost use Rattle.std.specs.Prelude.{◌≡◌, [], IfOk, None, Some};
ghost use Rattle.lq_language.specs.Meaning.{given_meaning};
ghost use Rattle.lq_language.specs.TableRows.{TableRow};
ghost use Rattle.lq_language.specs.Worlds.{World};
ghost use Rattle.lq_tree.specs.FormMeaning.{form_meaning};
ghost use Rattle.lq_tree.specs.declared.tree.Form.{Form};
ghost use Rattle.lq_tree.specs.declared.tree.Form.TheVariants as form;
ghost use Rattle.lq_plan.specs.Handing.{handed_out, items_to_come, rows_to_come};
ghost use Rattle.lq_plan.specs.Plans.{world};
ghost use Rattle.lq_plan.specs.Pulling.{base_stream, items_at};
ghost use Rattle.lq_plan.specs.Watching.{facts};
ghost use Rattle.lq_pipeline.specs.Chains.{comes_at, leaf_of};
ghost use Rattle.lq_pipeline.specs.Heads.{AreItemsOf, IsHeadOver, decides_given, unwrapped};
ghost use Rattle.lq_pipeline.specs.Places.{covers_beside, start_of};
ghost use Rattle.lq_pipeline.specs.Reading.{Reads, covers_chain};
ghost use Rattle.lq_pipeline.specs.Standings.{AnswersWith, IsBegun, Pulled, handed_by, place_of};
ghost use Rattle.lq_pipeline.specs.declared.steps.Standing.TheVariants as stands;

use crate::chains::{Head, Straight};
use crate::pulling::{
    all_value, contains_value, found, given_value, next_row, simple_value, sought_by, taken_by,
};
use crate::steps::{Opened, Step};
use lq_guard::VisibleRow;
use lq_host::{Asks, Log};
use lq_language::Given;
use lq_pipe::{Base, form_value};
use lq_plan::Sources;
use lq_pull::Reader;
use lq_tree::Form;
use lq_value::{Fault, Value};
use std::alloc::AllocError;

/// The first item of a tree whose value was looked for among the rows of a leaf.
fn first_value<'a>(
    found: Result<Result<Value<VisibleRow<'a>>, Fault>, AllocError>,
    leaf: Base<VisibleRow<'a>, Reader<'a, 'a>>,
    state: &mut Opened<'a>,
) -> Result<Step<VisibleRow<'a>>, AllocError>
    requires lost { state.old.standing ≡ stands.Lost }
    requires rows { items_to_come leaf ≡ [] }
    ensures gives { (world : World TableRow) (f : Form)
        → AnswersWith world f found.entry result state.new }
    ensures leaf { state.new.leaf ≡ Some leaf.entry }
    ensures begun { (f : Form) → IsBegun f state.new }
{
    state.leaf = Some(leaf);
    match found {
        Ok(found) => Ok(state.answer(found)),
        Err(error) => Err(error),
    }
}

/// The value of a method over the items of a chain, by its argument, which was evaluated.
fn value_with<'a, H: Asks>(
    sources: &Sources<'_, VisibleRow<'a>, Reader<'a, 'a>, H>,
    method: Given,
    argument: Result<Value<VisibleRow<'a>>, Fault>,
    chain: &Form,
    leaf: &mut Base<VisibleRow<'a>, Reader<'a, 'a>>,
    log: &mut Log<H>,
) -> Result<Result<Value<VisibleRow<'a>>, Fault>, AllocError>
    requires { items_to_come leaf.old ≡ [] }
    ensures meant { IfOk result (λ found. found
        ≡ given_meaning (world sources.now) method argument.entry
        (items_at (world sources.now) [] chain.now (base_stream leaf.old))) }
    ensures reads { Reads (world sources.now) (facts sources.now)
        (covers_chain (world sources.now) chain.now) (comes_at (world sources.now) chain.now)
        (decides_given method argument.entry) (rows_to_come leaf.old) (handed_out leaf.old)
        log.old result (rows_to_come leaf.new) (handed_out leaf.new) log.new }
    ensures rows { items_to_come leaf.new ≡ [] }
{
    match sought_by(method, &argument) {
        Some(value) => contains_value(sources, value, chain, leaf, log),
        None => given_value(sources, method, argument, chain, leaf, log),
    }
}

/// The first item of a method above a chain, by its argument, which was evaluated.
fn first_with<'a, H: Asks>(
    sources: &Sources<'_, VisibleRow<'a>, Reader<'a, 'a>, H>,
    method: Given,
    argument: Result<Value<VisibleRow<'a>>, Fault>,
    straight: &Straight<'a>,
    state: &mut Opened<'a>,
    log: &mut Log<H>,
) -> Result<Step<VisibleRow<'a>>, AllocError>
    requires lost { state.old.standing ≡ stands.Lost }
    requires leaf { leaf_of straight.now.chain.now ≡ Some straight.now.table }
    requires items { AreItemsOf straight.now.chain.now straight.now.table }
    ensures pulled { (f b : Form) → unwrapped f ≡ form.Given method straight.now.chain.now b
        → form_meaning (world sources.now) b [] ≡ argument.entry
        → Pulled (world sources.now) (facts sources.now)
        (covers_chain (world sources.now) straight.now.chain.now)
        (start_of (world sources.now) f) 0 log.old
        result (place_of (world sources.now) f state.new) (handed_by state.new.leaf) log.new }
    ensures begun { (f b : Form) → unwrapped f ≡ form.Given method straight.now.chain.now b
        → IsBegun f state.new }
{
    let mut leaf = sources.rows_of(straight.table);
    match taken_by(method, &argument) {
        Some(count) => {
            state.leaf = Some(leaf);
            next_row(sources, straight.chain, Some(count), state, log)
        }
        None => {
            let found = value_with(sources, method, argument, straight.chain, &mut leaf, log);
            first_value(found, leaf, state)
        }
    }
}

/// The first item of a method with an argument above a chain.
fn first_given<'a, H: Asks>(
    sources: &Sources<'_, VisibleRow<'a>, Reader<'a, 'a>, H>,
    method: Given,
    argument: &Form,
    straight: &Straight<'a>,
    state: &mut Opened<'a>,
    log: &mut Log<H>,
) -> Result<Step<VisibleRow<'a>>, AllocError>
    requires lost { state.old.standing ≡ stands.Lost }
    requires none { state.old.leaf ≡ None }
    requires leaf { leaf_of straight.now.chain.now ≡ Some straight.now.table }
    requires items { AreItemsOf straight.now.chain.now straight.now.table }
    ensures pulled { (f : Form) → unwrapped f ≡ form.Given method straight.now.chain.now argument.now
        → Pulled (world sources.now) (facts sources.now) (covers_beside (world sources.now) f)
        (start_of (world sources.now) f) 0 log.old
        result (place_of (world sources.now) f state.new) (handed_by state.new.leaf) log.new }
    ensures begun { (f : Form) → unwrapped f ≡ form.Given method straight.now.chain.now argument.now
        → IsBegun f state.new }
{
    match found(form_value(sources.alloc, argument, sources.tables, sources.hosts, log)) {
        Ok(argument) => first_with(sources, method, argument, straight, state, log),
        Err(error) => Err(error),
    }
}

/// The first item of a head above a chain.
pub(crate) fn first<'a, H: Asks>(
    sources: &Sources<'_, VisibleRow<'a>, Reader<'a, 'a>, H>,
    straight: &Straight<'a>,
    state: &mut Opened<'a>,
    log: &mut Log<H>,
) -> Result<Step<VisibleRow<'a>>, AllocError>
    requires lost { state.old.standing ≡ stands.Lost }
    requires none { state.old.leaf ≡ None }
    requires leaf { leaf_of straight.now.chain.now ≡ Some straight.now.table }
    requires items { AreItemsOf straight.now.chain.now straight.now.table }
    ensures pulled { (f : Form) → IsHeadOver f straight.now.head straight.now.chain.now
        → Pulled (world sources.now) (facts sources.now) (covers_beside (world sources.now) f)
        (start_of (world sources.now) f) 0 log.old
        result (place_of (world sources.now) f state.new) (handed_by state.new.leaf) log.new }
    ensures begun { (f : Form) → IsHeadOver f straight.now.head straight.now.chain.now
        → IsBegun f state.new }
{
    let mut leaf = sources.rows_of(straight.table);
    match straight.head {
        Head::Plain => {
            state.leaf = Some(leaf);
            next_row(sources, straight.chain, None, state, log)
        }
        Head::Simple(method, of) => {
            let found = simple_value(sources, method, of, straight.chain, &mut leaf, log);
            first_value(found, leaf, state)
        }
        Head::Given(method, argument) => {
            first_given(sources, method, argument, straight, state, log)
        }
        Head::All(condition) => {
            let found = all_value(sources, condition, straight.chain, &mut leaf, log);
            first_value(found, leaf, state)
        }
    }
}
