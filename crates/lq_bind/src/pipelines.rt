//! What calls make of a query that is bound as far as them (ECMA-334, query expression translation;
//! .NET, `Enumerable`).
ghost use Rattle.std.specs.Prelude.{◌≡◌, ◌+◌, IfOk, Some};
ghost use Rattle.lq_value.specs.declared.ty.Ty.TheVariants as ty;
ghost use Rattle.lq_language.specs.Operators.{One, With, pattern_type, unnamed};
ghost use Rattle.lq_language.specs.Types.{is_within, when};
ghost use Rattle.lq_tree.specs.Binding.{items_of_pipeline, pipeline_of, tree_of};
ghost use Rattle.lq_tree.specs.declared.tree.Form.TheVariants as form;
ghost use Rattle.lq_bind.specs.Frames.{GivesStage, pattern_in, stage_in};
ghost use Rattle.lq_bind.specs.Outcomes.{Gives};
ghost use Rattle.lq_bind.specs.Stages as stages;

use crate::error::TermError;
use crate::trees::{into_form, new_form, new_tree};
use crate::type_checks;
use crate::variables::{Variables, unnamed};
use lq_grammar::SortKey;
use lq_tree::{Form, Joined, Tree};
use lq_typing::{are_join_keys, element_type, is_within};
use lq_value::{Held, List, Txt, Ty};
use std::alloc::{AllocError, Global};

/// A query as far as its calls are bound: the form of a sequence, and what its items stand for.
#[derive(Drop)]
pub(crate) struct Pipeline {
    pub(crate) variables: Held<Variables>,
    pub(crate) form: Held<Form>,
}

/// What a join pairs.
#[derive(Drop)]
pub(crate) struct Sides {
    /// The outer sequence.
    pub(crate) outer: Held<Form>,
    /// The inner sequence.
    pub(crate) inner: Held<Form>,
    /// The keys of an outer item and of an inner one.
    pub(crate) keys: (Held<Form>, Held<Form>),
}

/// A query that has come to this form, whose items stand for these variables.
fn new_pipeline(
    alloc: Global,
    variables: Held<Variables>,
    form: Form,
) -> Result<Pipeline, TermError>
    ensures { GivesStage (Some (pipeline_of (pattern_in variables) form)) result }
{
    let form = new_form(alloc, form)?;
    Ok(Pipeline { variables, form })
}

/// The form that a query has come to.
pub(crate) fn into_source(pipeline: Pipeline) -> Held<Form>
    ensures { result ≡ pipeline.form }
{
    let Pipeline { form, .. } = pipeline;
    form
}

/// A pair of the item in this slot and of what the second form means.
fn item_beside(alloc: Global, item: usize, second: Held<Form>) -> Result<Held<Form>, TermError>
    ensures { Gives (Some (form.Pair (form.Slot item) second)) result }
{
    let item = new_form(alloc, Form::Slot(item))?;
    new_form(alloc, Form::Pair(item, second))
}

/// Variables with one more.
#[tactic(auto, using(crate::proofs::FrameLemmas::patterns))]
fn with_variable(
    alloc: Global,
    variables: Held<Variables>,
    name: &Txt,
    ty: Ty,
) -> Result<Held<Variables>, AllocError>
    ensures { IfOk result (λ more. pattern_in more ≡ With (pattern_in variables) name.now ty) }
{
    let name = Txt::from_str(alloc, name.as_str())?;
    Held::new(alloc, Variables::With(variables, name, ty))
}

/// The items of a source as a sequence: a fault met in making it is the ending of its stream.
pub(crate) fn sequence(alloc: Global, source: Tree) -> Result<Tree, TermError>
    ensures { Gives (stages.sequence_of source) result }
{
    let Tree { ty, form } = type_checks::items(source)?;
    new_tree(alloc, ty, Form::Sequence(form))
}

/// The items of a body, under its range variable.
#[tactic(auto, using(crate::proofs::FrameLemmas::patterns))]
pub(crate) fn start(alloc: Global, name: &Txt, items: Tree) -> Result<Pipeline, AllocError>
    ensures { IfOk result (λ first. stage_in first
        ≡ pipeline_of (One name.now items.ty) items.form) }
{
    let Tree { ty, form } = items;
    let name = Txt::from_str(alloc, name.as_str())?;
    let variables = Held::new(alloc, Variables::One(name, ty))?;
    Ok(Pipeline { variables, form })
}

/// The item in this slot.
pub(crate) fn item(alloc: Global, variables: &Variables, slot: usize) -> Result<Tree, TermError>
    ensures { Gives (Some (tree_of (pattern_type (pattern_in variables.now)) (form.Slot slot)))
        result }
{
    let ty = variables.item_type(alloc)?;
    new_tree(alloc, ty, Form::Slot(slot))
}

/// Items that are given by this tree, under no name, where it isn't null by its type.
pub(crate) fn value(alloc: Global, tree: Tree) -> Result<Pipeline, TermError>
    ensures { GivesStage (stages.value_stage tree) result }
{
    let Tree { ty, form } = type_checks::not_null(tree)?;
    let variables = unnamed(alloc, ty)?;
    Ok(Pipeline { variables, form })
}

/// `Where`, with its condition.
pub(crate) fn filter(
    alloc: Global,
    pipeline: Pipeline,
    condition: Tree,
) -> Result<Pipeline, TermError>
    ensures { GivesStage (stages.filtered_stage (stage_in pipeline) condition) result }
{
    let condition = type_checks::condition(condition)?;
    let Pipeline { variables, form } = pipeline;
    new_pipeline(alloc, variables, Form::Where(form, into_form(condition)))
}

/// `Select`, with its value.
pub(crate) fn select(alloc: Global, source: Held<Form>, tree: Tree) -> Result<Pipeline, TermError>
    ensures { GivesStage (stages.selected_stage source tree) result }
{
    let Pipeline { variables, form } = value(alloc, tree)?;
    new_pipeline(alloc, variables, Form::Select(source, form))
}

/// `Select` of each item, which stands in this slot, beside the value of one more name, where it
/// isn't null by its type.
pub(crate) fn widen(
    alloc: Global,
    pipeline: Pipeline,
    name: &Txt,
    item: usize,
    value: Tree,
) -> Result<Pipeline, TermError>
    ensures { GivesStage (stages.widened_stage (stage_in pipeline) item name.now value) result }
{
    let Tree { ty, form: second } = type_checks::not_null(value)?;
    let Pipeline {
        variables,
        form: source,
    } = pipeline;
    let variables = with_variable(alloc, variables, name, ty)?;
    let pair = item_beside(alloc, item, second)?;
    new_pipeline(alloc, variables, Form::Select(source, pair))
}

/// A pair of what stands in this slot and in the next one.
fn slots_form(alloc: Global, item: usize) -> Result<Held<Form>, TermError>
    ensures { Gives (Some (form.Pair (form.Slot item) (form.Slot (item + 1)))) result }
{
    let Some(next) = item.checked_add(1) else {
        return Err(TermError::Memory);
    };
    let next = new_form(alloc, Form::Slot(next))?;
    item_beside(alloc, item, next)
}

/// A pair of the items in this slot and in the next one, of which the second has this name.
pub(crate) fn slots(
    alloc: Global,
    variables: Held<Variables>,
    name: &Txt,
    ty: Ty,
    item: usize,
) -> Result<Pipeline, TermError>
    ensures { GivesStage (Some (stages.slots_stage (pattern_in variables) name.now ty item))
        result }
{
    let variables = with_variable(alloc, variables, name, ty)?;
    let form = slots_form(alloc, item)?;
    Ok(Pipeline { variables, form })
}

/// `SelectMany`: what comes of each item, and of each item of the sequence that it leads to.
pub(crate) fn expand(
    alloc: Global,
    source: Held<Form>,
    inner: Held<Form>,
    item: Pipeline,
) -> Result<Pipeline, TermError>
    ensures { GivesStage (Some (stages.expanded_stage source inner (stage_in item))) result }
{
    let Pipeline { variables, form } = item;
    new_pipeline(alloc, variables, Form::SelectMany(source, inner, form))
}

/// The keys of a join, where they can be compared.
pub(crate) fn join_keys(outer: Tree, inner: Tree) -> Result<(Held<Form>, Held<Form>), TermError>
    ensures { Gives (stages.join_keys outer inner) result }
{
    if !are_join_keys(&outer.ty, &inner.ty) {
        return Err(TermError::IllTyped);
    }
    Ok((into_form(outer), into_form(inner)))
}

/// The form of a join.
fn join_form(
    alloc: Global,
    sides: Sides,
    is_grouped: bool,
    item: Held<Form>,
) -> Result<Held<Form>, TermError>
    ensures { Gives (Some (stages.join_form sides.outer sides.inner sides.keys is_grouped item))
        result }
{
    let Sides { outer, inner, keys } = sides;
    let (outer_key, inner_key) = keys;
    let parts = Joined {
        inner: inner.into_inner(),
        outer_key: outer_key.into_inner(),
        inner_key: inner_key.into_inner(),
        grouped: is_grouped,
        result: item.into_inner(),
    };
    let parts = Held::new(alloc, parts)?;
    new_form(alloc, Form::Join(outer, parts))
}

/// `Join`, or `GroupJoin` where the matches are grouped: what comes of each pair.
pub(crate) fn join(
    alloc: Global,
    sides: Sides,
    is_grouped: bool,
    item: Pipeline,
) -> Result<Pipeline, TermError>
    ensures { GivesStage (Some (pipeline_of (pattern_in item.variables)
        (stages.join_form sides.outer sides.inner sides.keys is_grouped item.form))) result }
{
    let Pipeline { variables, form } = item;
    let form = join_form(alloc, sides, is_grouped, form)?;
    Ok(Pipeline { variables, form })
}

/// `OrderBy`, with its keys.
pub(crate) fn order_by(
    alloc: Global,
    pipeline: Pipeline,
    keys: List<SortKey<Form>>,
) -> Result<Pipeline, TermError>
    ensures { GivesStage (Some (pipeline_of (pattern_in pipeline.variables)
        (form.OrderBy pipeline.form keys))) result }
{
    let Pipeline { variables, form } = pipeline;
    new_pipeline(alloc, variables, Form::OrderBy(form, keys))
}

/// Groups that no name stands for, with keys of the first type.
fn group_variables(alloc: Global, key: Ty, element: Ty) -> Result<Held<Variables>, AllocError>
    ensures { IfOk result (λ variables. pattern_in variables ≡ unnamed (ty.Group key element)) }
{
    let key = Held::new(alloc, key)?;
    let element = Held::new(alloc, element)?;
    unnamed(alloc, Ty::Group(key, element))
}

/// The groups of a source by a key.
fn groups(
    alloc: Global,
    source: Held<Form>,
    key: Tree,
    element: Tree,
) -> Result<Pipeline, TermError>
    ensures { GivesStage (Some (stages.groups_of source key element)) result }
{
    let Tree {
        ty: key_type,
        form: key,
    } = key;
    let Tree {
        ty: element_type,
        form: element,
    } = element;
    let variables = group_variables(alloc, key_type, element_type)?;
    new_pipeline(alloc, variables, Form::GroupBy(source, key, element))
}

/// `GroupBy`, with its key and its element, which isn't null by its type.
pub(crate) fn group_by(
    alloc: Global,
    source: Held<Form>,
    key: Tree,
    element: Tree,
) -> Result<Pipeline, TermError>
    ensures { GivesStage (stages.grouped_stage source key element) result }
{
    let element = type_checks::not_null(element)?;
    groups(alloc, source, key, element)
}

/// The items, where the type of their sequence is one that an expression may have.
#[tactic(auto, using(crate::proofs::Layers::types))]
fn within_sequence(alloc: Global, items: Tree) -> Result<Tree, TermError>
    ensures { Gives (when (is_within (ty.Seq items.ty)) (Some items)) result }
{
    let Tree { ty, form } = items;
    let sequence = Ty::Seq(Held::new(alloc, ty)?);
    if !is_within(&sequence) {
        return Err(TermError::IllTyped);
    }
    let ty = element_type(sequence).ok_or(TermError::IllTyped)?;
    Ok(Tree { ty, form })
}

/// The items behind all calls, where their type is any but that of null, and that of their sequence
/// is one that an expression may have.
pub(crate) fn into_items(alloc: Global, pipeline: Pipeline) -> Result<Tree, TermError>
    ensures { Gives (items_of_pipeline (stage_in pipeline)) result }
{
    let Pipeline { variables, form } = pipeline;
    let ty = variables.into_inner().into_type(alloc)?;
    let items = type_checks::not_null(Tree { ty, form })?;
    within_sequence(alloc, items)
}

/// A query of these items.
pub(crate) fn query(alloc: Global, items: Tree) -> Result<Tree, TermError>
    ensures { Gives (Some (tree_of (ty.Seq items.ty) items.form)) result }
{
    let Tree { ty, form } = items;
    let ty = Ty::Seq(Held::new(alloc, ty)?);
    Ok(Tree { ty, form })
}
