//! The binding of calls that pair items: `SelectMany`, `Join` and `GroupJoin` (ECMA-334, from and
//! join clauses).
ghost use Rattle.std.specs.Prelude.{◌≡◌, option_map};
ghost use Rattle.lq_language.specs.ClauseTyping.{joined_name};
ghost use Rattle.lq_bind.specs.Bound.{inner_side, joined_type};
ghost use Rattle.lq_bind.specs.Frames.{places_in};
ghost use Rattle.lq_bind.specs.Outcomes.{Gives};

use crate::binder::Binder;
use crate::error::TermError;
use crate::frames::Frame;
use crate::pipelines::{self, Pipeline, Sides};
use crate::type_checks;
use crate::variables::Variables;
use lq_grammar::Join;
use lq_language::{Paired, Term};
use lq_tree::{Form, Tree};
use lq_value::{Held, Txt, Ty};
use std::alloc::Global;

/// The inner side of a join.
#[derive(Drop)]
pub(crate) struct InnerSide {
    /// The inner sequence.
    pub(crate) items: Held<Form>,
    /// The keys of an outer item and of an inner one.
    pub(crate) keys: (Held<Form>, Held<Form>),
    /// The type of the name that the join leaves behind.
    pub(crate) ty: Ty,
}

/// The type of the name that a join leaves behind: that of an inner item; or with `into` that of
/// the sequence of the matches, whose name repeats none that is known.
fn joined_type(
    alloc: Global,
    into: &Option<Txt>,
    ty: Ty,
    frame: &Frame<'_>,
) -> Result<Ty, TermError>
    ensures { Gives (joined_type (places_in frame.now) into.now ty) result }
{
    match into {
        Some(name) => {
            if !frame.is_fresh(name.as_str()) {
                return Err(TermError::IllTyped);
            }
            Ok(Ty::Seq(Held::new(alloc, ty)?))
        }
        None => Ok(ty),
    }
}

/// The inner side of a join of these items by these keys.
fn side_of(
    alloc: Global,
    into: &Option<Txt>,
    inner: Tree,
    keys: (Held<Form>, Held<Form>),
    frame: &Frame<'_>,
) -> Result<InnerSide, TermError>
    ensures { Gives (option_map (inner_side inner keys)
        (joined_type (places_in frame.now) into.now inner.ty)) result }
{
    let Tree { ty, form: items } = inner;
    let ty = joined_type(alloc, into, ty, frame)?;
    Ok(InnerSide { items, keys, ty })
}

/// The name that a join leaves behind.
fn joined_name(join: &Join<Term>) -> &Txt
    ensures { result.now ≡ joined_name join.now }
{
    match &join.into {
        Some(name) => name,
        None => &join.name,
    }
}

impl Binder<'_> {
    ghost use Rattle.lq_language.specs.declared.calls.Operator.TheVariants as query;
    ghost use Rattle.lq_bind.specs.Bound.{expanded_at, inner_side_at, join_keys_at, joined_at};
    ghost use Rattle.lq_bind.specs.Bound.{operator_at, pair_at};
    ghost use Rattle.lq_bind.specs.Frames.{GivesStage, pattern_in, stage_in};
    ghost use Rattle.lq_bind.specs.Outcomes.{Gives};

    /// `SelectMany`, whose inner sequence is in the scope of an item, and whose name repeats none
    /// that is known.
    #[cycle(binding)]
    pub(crate) fn select_many(
        &self,
        pair: &Paired<Term>,
        source: &Term,
        name: &Txt,
        pipeline: Pipeline,
        frame: &Frame<'_>,
    ) -> Result<Pipeline, TermError>
        ensures { GivesStage (operator_at self.now frame.now
            (query.SelectMany name.now source.now pair.now) (stage_in pipeline)) result }
    {
        let item = (&*frame).with_item(pipeline.variables.get());
        if !item.is_fresh(name.as_str()) {
            return Err(TermError::IllTyped);
        }
        let inner = self.term(source, &item)?;
        let inner = type_checks::items(inner)?;
        self.expand(pair, name, pipeline, inner, frame)
    }

    /// `SelectMany` with this inner sequence.
    #[cycle(binding)]
    fn expand(
        &self,
        pair: &Paired<Term>,
        name: &Txt,
        pipeline: Pipeline,
        inner: Tree,
        frame: &Frame<'_>,
    ) -> Result<Pipeline, TermError>
        ensures { GivesStage (expanded_at self.now frame.now name.now pair.now
            (stage_in pipeline) inner) result }
    {
        let Pipeline {
            variables,
            form: source,
        } = pipeline;
        let Tree { ty, form: inner } = inner;
        let item = self.pair(pair, name, ty, variables, frame)?;
        pipelines::expand(self.alloc, source, inner, item)
    }

    /// What comes of a pair.
    #[cycle(binding)]
    fn pair(
        &self,
        pair: &Paired<Term>,
        name: &Txt,
        ty: Ty,
        variables: Held<Variables>,
        frame: &Frame<'_>,
    ) -> Result<Pipeline, TermError>
        ensures { GivesStage (pair_at self.now frame.now (pattern_in variables) name.now ty
            pair.now) result }
    {
        match pair {
            Paired::Pair => {
                let item = frame.depth()?;
                pipelines::slots(self.alloc, variables, name, ty, item)
            }
            Paired::Value(value) => {
                let item = (&*frame).with_item(variables.get());
                let inner = (&item).with_name(&*name, &ty);
                let value = self.term(value, &inner)?;
                pipelines::value(self.alloc, value)
            }
        }
    }

    /// The keys of a join whose inner items are of this type.
    #[cycle(binding)]
    fn join_keys(
        &self,
        join: &Join<Term>,
        variables: &Variables,
        ty: &Ty,
        frame: &Frame<'_>,
    ) -> Result<(Held<Form>, Held<Form>), TermError>
        ensures { Gives (join_keys_at self.now frame.now (pattern_in variables.now) join.now
            ty.now) result }
    {
        let outer_item = (&*frame).with_item(&*variables);
        let outer = self.term(&join.outer_key, &outer_item)?;
        let inner_item = (&*frame).with_name(&join.name, &*ty);
        let inner = self.term(&join.inner_key, &inner_item)?;
        pipelines::join_keys(outer, inner)
    }

    /// The inner side of a join, whose sequence sees none of the query's range variables; the name
    /// of its items repeats none that is known.
    #[cycle(binding)]
    pub(crate) fn inner_side(
        &self,
        join: &Join<Term>,
        variables: &Variables,
        frame: &Frame<'_>,
    ) -> Result<InnerSide, TermError>
        ensures { Gives (inner_side_at self.now frame.now (pattern_in variables.now) join.now)
            result }
    {
        let item = (&*frame).with_item(&*variables);
        if !item.is_fresh(join.name.as_str()) {
            return Err(TermError::IllTyped);
        }
        let inner = self.term(&join.source, frame)?;
        let inner = type_checks::items(inner)?;
        let keys = self.join_keys(join, variables, &inner.ty, frame)?;
        side_of(self.alloc, &join.into, inner, keys, &item)
    }

    /// `Join` or `GroupJoin`, with this inner side.
    #[cycle(binding)]
    pub(crate) fn join(
        &self,
        pair: &Paired<Term>,
        join: &Join<Term>,
        pipeline: Pipeline,
        side: InnerSide,
        frame: &Frame<'_>,
    ) -> Result<Pipeline, TermError>
        ensures { GivesStage (joined_at self.now frame.now join.now pair.now (stage_in pipeline)
            side) result }
    {
        let InnerSide { items, keys, ty } = side;
        let Pipeline { variables, form } = pipeline;
        let sides = Sides {
            outer: form,
            inner: items,
            keys,
        };
        let item = self.pair(pair, joined_name(join), ty, variables, frame)?;
        pipelines::join(self.alloc, sides, join.into.is_some(), item)
    }
}
