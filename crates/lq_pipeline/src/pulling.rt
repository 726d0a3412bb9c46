//! The pulls of a pipe, over tables that are read and host predicates that are asked.
ghost use Rattle.std.specs.Prelude.{◌≡◌, [], IfOk, IfSome, None, Ok};
ghost use Rattle.lq_language.specs.declared.methods.Given.TheVariants as methods;
ghost use Rattle.lq_language.specs.Meaning.{as_truth, given_meaning, simple_meaning};
ghost use Rattle.lq_language.specs.Enumerable.{all, contains, is_among};
ghost use Rattle.lq_value.specs.SameAndOrder.{same_values};
ghost use Rattle.lq_language.specs.TableRows.{TableRow};
ghost use Rattle.lq_language.specs.Worlds.{World};
ghost use Rattle.lq_tree.specs.FormMeaning.{form_meaning};
ghost use Rattle.lq_tree.specs.declared.tree.Form.{Form};
ghost use Rattle.lq_plan.specs.Counts.{given_limit, read_first, simple_limit};
ghost use Rattle.lq_plan.specs.Handing.{handed_out, items_to_come, rows_to_come};
ghost use Rattle.lq_plan.specs.Meanings.{holds_of};
ghost use Rattle.lq_plan.specs.Plans.{world};
ghost use Rattle.lq_plan.specs.Pulling.{base_stream, items_at};
ghost use Rattle.lq_plan.specs.Watching.{facts};
ghost use Rattle.lq_plan.specs.declared.slots.Slots.TheVariants as slots;
ghost use Rattle.lq_pull.specs.Evaluations.{Finds};
ghost use Rattle.lq_pipeline.specs.Chains.{comes_at};
ghost use Rattle.lq_pipeline.specs.Heads.{decides_given, fails, taken_by};
ghost use Rattle.lq_pipe.specs.Steps.{Steps};
ghost use Rattle.lq_pipeline.specs.Reading.{Reads, Takes, covers_all, covers_chain};
ghost use Rattle.lq_pipeline.specs.Settling.{reaches};
ghost use Rattle.lq_pipeline.specs.Standings.{IsBegun, IsOfRows, IsOver, Pulled, handed_by, place_of, rows_place};
ghost use Rattle.lq_pipeline.specs.Truths.{IsTruth};
ghost use Rattle.lq_pipeline.specs.declared.steps.Standing.TheVariants as stands;

use crate::reading::{are_true, has_item, pull, read};
use crate::steps::{Opened, Standing, Step};
use lq_guard::VisibleRow;
use lq_host::{Asks, Log};
use lq_language::{Given, Simple};
use lq_operators::{given, simple};
use lq_pipe::{Base, RunError};
use lq_plan::{Slots, Sources, Stage, counts};
use lq_pull::Reader;
use lq_tree::Form;
use lq_value::{End, Fault, List, Scalar, Ty, Value};
use std::alloc::AllocError;

/// A value or its fault, apart from a refusal of memory.
pub(crate) fn found<R>(
    answer: Result<Value<R>, RunError>,
) -> Result<Result<Value<R>, Fault>, AllocError>
    ensures { Finds answer result }
{
    match answer {
        Ok(value) => Ok(Ok(value)),
        Err(RunError::Fault(fault)) => Ok(Err(fault)),
        Err(RunError::Memory) => Err(AllocError),
    }
}

/// A truth value or its fault, as a value.
fn truth<R>(
    found: Result<Result<bool, Fault>, AllocError>,
) -> Result<Result<Value<R>, Fault>, AllocError>
    ensures { IsTruth found result }
{
    match found {
        Ok(Ok(truth)) => Ok(Ok(Value::Scalar(Scalar::Bool(truth)))),
        Ok(Err(fault)) => Ok(Err(fault)),
        Err(error) => Err(error),
    }
}

/// How many items `Take` gives one by one, where its argument is a number; none for every other method.
pub(crate) fn taken_by<R>(method: Given, argument: &Result<Value<R>, Fault>) -> Option<usize>
    ensures { result ≡ taken_by method argument.now }
{
    match (method, argument) {
        (Given::Take, Ok(Value::Scalar(Scalar::Int(number)))) => {
            Some(if *number < 0 { 0 } else { *number as usize })
        }
        _ => None,
    }
}

/// The value that `Contains` looks for; none for every other method, and where the argument is a fault.
pub(crate) fn sought_by<R>(method: Given, argument: &Result<Value<R>, Fault>) -> Option<&Value<R>>
    ensures some { IfSome result (λ v. (method ≡ methods.Contains) × (argument.now ≡ Ok v.now)) }
    ensures none { result ≡ None → decides_given method argument.now
        ≡ reaches (given_limit method argument.now) }
{
    match method {
        Given::Contains => match argument {
            Ok(value) => Some(value),
            Err(_) => None,
        },
        Given::Take | Given::Skip | Given::ElementAt => None,
        Given::Concat | Given::Union | Given::Intersect | Given::Except => None,
    }
}

/// The next item of a chain, or how its items end.
fn next_of<'a, H: Asks>(
    sources: &Sources<'_, VisibleRow<'a>, Reader<'a, 'a>, H>,
    chain: &Form,
    leaf: &mut Base<VisibleRow<'a>, Reader<'a, 'a>>,
    log: &mut Log<H>,
) -> Result<Result<Value<VisibleRow<'a>>, End>, AllocError>
    requires { items_to_come leaf.old ≡ [] }
    ensures meant { IfOk result (λ step. Steps
        (items_at (world sources.now) [] chain.now (base_stream leaf.old)) step
        (items_at (world sources.now) [] chain.now (base_stream leaf.new))) }
    ensures takes { Takes (world sources.now) (facts sources.now)
        (covers_chain (world sources.now) chain.now) (comes_at (world sources.now) chain.now)
        (rows_to_come leaf.old) (handed_out leaf.old) log.old
        result (rows_to_come leaf.new) (handed_out leaf.new) log.new }
    ensures rows { items_to_come leaf.new ≡ [] }
{
    match sources.pipe_of(chain, &Slots::Empty) {
        Ok(pipe) => pull(sources, &pipe, leaf, log),
        Err(error) => Err(error),
    }
}

/// The next item of a chain, up to a limit.
pub(crate) fn next_row<'a, H: Asks>(
    sources: &Sources<'_, VisibleRow<'a>, Reader<'a, 'a>, H>,
    chain: &'a Form,
    limit: Option<usize>,
    state: &mut Opened<'a>,
    log: &mut Log<H>,
) -> Result<Step<VisibleRow<'a>>, AllocError>
    requires rows { IsOfRows state.old.leaf }
    requires lost { state.old.standing ≡ stands.Lost }
    ensures pulled { (f : Form) → Pulled (world sources.now) (facts sources.now)
        (covers_chain (world sources.now) chain.now)
        (rows_place (world sources.now) chain.now limit state.old.leaf) (handed_by state.old.leaf)
        log.old result (place_of (world sources.now) f state.new) (handed_by state.new.leaf) log.new }
    ensures begun { (f : Form) → IsOver f chain.now → IsBegun f state.new }
{
    let Some(leaf) = &mut state.leaf else {
        return Ok(state.end(End::Done));
    };
    let Some(less) = counts::one_less(limit) else {
        return Ok(state.end(End::Done));
    };
    match next_of(sources, chain, leaf, log) {
        Ok(Ok(item)) => {
            state.standing = Standing::Rows(chain, less);
            Ok(Step::Item(item))
        }
        Ok(Err(end)) => Ok(state.end(end)),
        Err(error) => Err(error),
    }
}

/// The items of a chain up to a limit, where there is one, and how they end as far as they are read.
fn up_to<'a, H: Asks>(
    sources: &Sources<'_, VisibleRow<'a>, Reader<'a, 'a>, H>,
    chain: &Form,
    limit: Option<usize>,
    leaf: &mut Base<VisibleRow<'a>, Reader<'a, 'a>>,
    log: &mut Log<H>,
) -> Result<(List<Value<VisibleRow<'a>>>, End), AllocError>
    requires { items_to_come leaf.old ≡ [] }
    ensures meant { IfOk result (λ items. items ≡ read_first limit
        (items_at (world sources.now) [] chain.now (base_stream leaf.old))) }
    ensures reads { Reads (world sources.now) (facts sources.now)
        (covers_chain (world sources.now) chain.now) (comes_at (world sources.now) chain.now)
        (reaches limit) (rows_to_come leaf.old) (handed_out leaf.old) log.old
        result (rows_to_come leaf.new) (handed_out leaf.new) log.new }
    ensures rows { items_to_come leaf.new ≡ [] }
{
    match sources.pipe_of(chain, &Slots::Empty) {
        Ok(pipe) => read(sources, &pipe, limit, leaf, log),
        Err(error) => Err(error),
    }
}

/// The value of a method without an argument over the items of a chain.
pub(crate) fn simple_value<'a, H: Asks>(
    sources: &Sources<'_, VisibleRow<'a>, Reader<'a, 'a>, H>,
    method: Simple,
    of: &Ty,
    chain: &Form,
    leaf: &mut Base<VisibleRow<'a>, Reader<'a, 'a>>,
    log: &mut Log<H>,
) -> Result<Result<Value<VisibleRow<'a>>, Fault>, AllocError>
    requires { items_to_come leaf.old ≡ [] }
    ensures meant { IfOk result (λ found. found ≡ simple_meaning method of.now
        (items_at (world sources.now) [] chain.now (base_stream leaf.old))) }
    ensures reads { Reads (world sources.now) (facts sources.now)
        (covers_chain (world sources.now) chain.now) (comes_at (world sources.now) chain.now)
        (reaches (simple_limit method)) (rows_to_come leaf.old) (handed_out leaf.old) log.old
        result (rows_to_come leaf.new) (handed_out leaf.new) log.new }
    ensures rows { items_to_come leaf.new ≡ [] }
{
    match up_to(sources, chain, counts::simple_limit(method), leaf, log) {
        Ok((items, end)) => found(simple(sources.alloc, method, of, items, end)),
        Err(error) => Err(error),
    }
}

/// Whether an item of a chain is the same as a value.
pub(crate) fn contains_value<'a, H: Asks>(
    sources: &Sources<'_, VisibleRow<'a>, Reader<'a, 'a>, H>,
    value: &Value<VisibleRow<'a>>,
    chain: &Form,
    leaf: &mut Base<VisibleRow<'a>, Reader<'a, 'a>>,
    log: &mut Log<H>,
) -> Result<Result<Value<VisibleRow<'a>>, Fault>, AllocError>
    requires { items_to_come leaf.old ≡ [] }
    ensures meant { IfOk result (λ found. found ≡ as_truth (contains same_values value.now
        (items_at (world sources.now) [] chain.now (base_stream leaf.old)).0
        (items_at (world sources.now) [] chain.now (base_stream leaf.old)).1)) }
    ensures reads { Reads (world sources.now) (facts sources.now)
        (covers_chain (world sources.now) chain.now) (comes_at (world sources.now) chain.now)
        (is_among same_values value.now) (rows_to_come leaf.old) (handed_out leaf.old) log.old
        result (rows_to_come leaf.new) (handed_out leaf.new) log.new }
    ensures rows { items_to_come leaf.new ≡ [] }
{
    match sources.pipe_of(chain, &Slots::Empty) {
        Ok(pipe) => truth(has_item(sources, &pipe, value, leaf, log)),
        Err(error) => Err(error),
    }
}

/// The value of a method with an argument that was evaluated, over the items of a chain up to those that settle it.
pub(crate) fn given_value<'a, H: Asks>(
    sources: &Sources<'_, VisibleRow<'a>, Reader<'a, 'a>, H>,
    method: Given,
    argument: Result<Value<VisibleRow<'a>>, Fault>,
    chain: &Form,
    leaf: &mut Base<VisibleRow<'a>, Reader<'a, 'a>>,
    log: &mut Log<H>,
) -> Result<Result<Value<VisibleRow<'a>>, Fault>, AllocError>
    requires { items_to_come leaf.old ≡ [] }
    ensures meant { IfOk result (λ found. found
        ≡ given_meaning (world sources.now) method argument.entry
        (items_at (world sources.now) [] chain.now (base_stream leaf.old))) }
    ensures reads { Reads (world sources.now) (facts sources.now)
        (covers_chain (world sources.now) chain.now) (comes_at (world sources.now) chain.now)
        (reaches (given_limit method argument.entry)) (rows_to_come leaf.old) (handed_out leaf.old)
        log.old result (rows_to_come leaf.new) (handed_out leaf.new) log.new }
    ensures rows { items_to_come leaf.new ≡ [] }
{
    match up_to(
        sources,
        chain,
        counts::given_limit(method, &argument),
        leaf,
        log,
    ) {
        Ok((items, end)) => found(given(sources.alloc, method, argument, items, end)),
        Err(error) => Err(error),
    }
}

/// Whether a condition is true of all items of a chain.
pub(crate) fn all_value<'a, H: Asks>(
    sources: &Sources<'_, VisibleRow<'a>, Reader<'a, 'a>, H>,
    condition: &Form,
    chain: &Form,
    leaf: &mut Base<VisibleRow<'a>, Reader<'a, 'a>>,
    log: &mut Log<H>,
) -> Result<Result<Value<VisibleRow<'a>>, Fault>, AllocError>
    requires { items_to_come leaf.old ≡ [] }
    ensures meant { IfOk result (λ found. found
        ≡ as_truth (all (holds_of (world sources.now) condition.now slots.Empty)
        (items_at (world sources.now) [] chain.now (base_stream leaf.old)).0
        (items_at (world sources.now) [] chain.now (base_stream leaf.old)).1)) }
    ensures reads { Reads (world sources.now) (facts sources.now)
        (covers_all (world sources.now) chain.now condition.now)
        (comes_at (world sources.now) chain.now) (fails (world sources.now) condition.now)
        (rows_to_come leaf.old) (handed_out leaf.old) log.old
        result (rows_to_come leaf.new) (handed_out leaf.new) log.new }
    ensures rows { items_to_come leaf.new ≡ [] }
{
    match sources.pipe(Stage::Select(condition), chain, &Slots::Empty) {
        Ok(pipe) => truth(are_true(sources, &pipe, leaf, log)),
        Err(error) => Err(error),
    }
}
