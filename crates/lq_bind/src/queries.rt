//! The binding of the calls that queries stand for (ECMA-334, query expression translation).
use crate::binder::Binder;
use crate::error::TermError;
use crate::frames::Frame;
use crate::pipelines::Pipeline;
use crate::variables::Variables;
use crate::{pipelines, type_checks};
use lq_grammar::SortKey;
use lq_language::{Call, Operator, Part, Term};
use lq_tree::Tree;
use lq_value::Txt;

impl Binder<'_> {
    ghost use Rattle.lq_language.specs.declared.calls.Operator.TheVariants as query;
    ghost use Rattle.lq_tree.specs.Binding.{walked};
    ghost use Rattle.lq_bind.specs.Bound.{body_at, call_at, element_at, operator_at, part_at};
    ghost use Rattle.lq_bind.specs.Frames.{GivesStage, pattern_in, stage_in};
    ghost use Rattle.lq_bind.specs.Outcomes.{Gives};

    /// The calls of a query.
    #[cycle(binding)]
    #[inline(never)]
    #[tactic(auto, unfolding(lq_tree::specs::Binding::call_tree))]
    pub(crate) fn call(&self, call: &Call<Term>, frame: &Frame<'_>) -> Result<Tree, TermError>
        ensures { Gives (call_at self.now frame.now call.now) result }
    {
        let source = self.term(&call.source, frame)?;
        let source = pipelines::sequence(self.alloc, source)?;
        let items = self.body(call.operators.as_slice(), &call.name, source, frame)?;
        let items = self.parts(call.rest.as_slice(), items, frame)?;
        pipelines::query(self.alloc, items)
    }

    /// What follows by `into`.
    #[cycle(binding)]
    fn parts(&self, parts: &[Part<Term>], first: Tree, frame: &Frame<'_>) -> Result<Tree, TermError>
        ensures { Gives (walked (part_at self.now frame.now) first parts.now) result }
    {
        let mut items = first;
        for part in parts {
            let next = self.body(part.operators.as_slice(), &part.name, items, frame)?;
            items = next;
        }
        Ok(items)
    }

    /// The calls of a body over its range variable, whose name repeats no local name.
    #[cycle(binding)]
    fn body(
        &self,
        operators: &[Operator<Term>],
        name: &Txt,
        items: Tree,
        frame: &Frame<'_>,
    ) -> Result<Tree, TermError>
        ensures { Gives (body_at self.now frame.now name.now operators.now items) result }
    {
        if !frame.is_fresh(name.as_str()) {
            return Err(TermError::IllTyped);
        }
        let first = pipelines::start(self.alloc, name, items)?;
        let last = self.operators(operators, first, frame)?;
        pipelines::into_items(self.alloc, last)
    }

    /// The calls of a body, one behind the other.
    #[cycle(binding)]
    fn operators(
        &self,
        operators: &[Operator<Term>],
        first: Pipeline,
        frame: &Frame<'_>,
    ) -> Result<Pipeline, TermError>
        ensures { GivesStage (walked (operator_at self.now frame.now) (stage_in first)
            operators.now) result }
    {
        let mut pipeline = first;
        for operator in operators {
            let next = self.operator(operator, pipeline, frame)?;
            pipeline = next;
        }
        Ok(pipeline)
    }

    /// A call.
    #[cycle(binding)]
    #[tactic(auto, using(crate::proofs::TermLaws::joins))]
    fn operator(
        &self,
        operator: &Operator<Term>,
        pipeline: Pipeline,
        frame: &Frame<'_>,
    ) -> Result<Pipeline, TermError>
        ensures { GivesStage (operator_at self.now frame.now operator.now (stage_in pipeline))
            result }
    {
        match operator {
            Operator::Where(condition) => self.filter(condition, pipeline, frame),
            Operator::Select(value) => self.select(value, pipeline, frame),
            Operator::Let(name, value) => self.widen(value, name, pipeline, frame),
            Operator::SelectMany(name, source, pair) => {
                self.select_many(pair, source, name, pipeline, frame)
            }
            Operator::Join(join, pair) => {
                let side = self.inner_side(join, pipeline.variables.get(), frame)?;
                self.join(pair, join, pipeline, side, frame)
            }
            Operator::OrderBy(keys) => self.order_by(keys.as_slice(), pipeline, frame),
            Operator::GroupBy(key, element) => self.group_by(element, key, pipeline, frame),
        }
    }

    /// `Where`
    #[cycle(binding)]
    fn filter(
        &self,
        condition: &Term,
        pipeline: Pipeline,
        frame: &Frame<'_>,
    ) -> Result<Pipeline, TermError>
        ensures { GivesStage (operator_at self.now frame.now (query.Where condition.now)
            (stage_in pipeline)) result }
    {
        let item = (&*frame).with_item(pipeline.variables.get());
        let condition = self.term(condition, &item)?;
        pipelines::filter(self.alloc, pipeline, condition)
    }

    /// `Select`
    #[cycle(binding)]
    fn select(
        &self,
        value: &Term,
        pipeline: Pipeline,
        frame: &Frame<'_>,
    ) -> Result<Pipeline, TermError>
        ensures { GivesStage (operator_at self.now frame.now (query.Select value.now)
            (stage_in pipeline)) result }
    {
        let item = (&*frame).with_item(pipeline.variables.get());
        let value = self.term(value, &item)?;
        pipelines::select(self.alloc, pipelines::into_source(pipeline), value)
    }

    /// `let`: `Select` of each item beside the value of one more name, which repeats none that is
    /// known.
    #[cycle(binding)]
    fn widen(
        &self,
        value: &Term,
        name: &Txt,
        pipeline: Pipeline,
        frame: &Frame<'_>,
    ) -> Result<Pipeline, TermError>
        ensures { GivesStage (operator_at self.now frame.now (query.Let name.now value.now)
            (stage_in pipeline)) result }
    {
        let slot = frame.depth()?;
        let item = (&*frame).with_item(pipeline.variables.get());
        if !item.is_fresh(name.as_str()) {
            return Err(TermError::IllTyped);
        }
        let value = self.term(value, &item)?;
        pipelines::widen(self.alloc, pipeline, name, slot, value)
    }

    /// `OrderBy`
    #[cycle(binding)]
    fn order_by(
        &self,
        keys: &[SortKey<Term>],
        pipeline: Pipeline,
        frame: &Frame<'_>,
    ) -> Result<Pipeline, TermError>
        ensures { GivesStage (operator_at self.now frame.now (query.OrderBy keys.now)
            (stage_in pipeline)) result }
    {
        let item = (&*frame).with_item(pipeline.variables.get());
        let keys = self.sort_keys(keys, &item)?;
        pipelines::order_by(self.alloc, pipeline, keys)
    }

    /// The element of `GroupBy`, which is the item where there is no other.
    #[cycle(binding)]
    fn element(
        &self,
        element: &Option<Term>,
        variables: &Variables,
        frame: &Frame<'_>,
    ) -> Result<Tree, TermError>
        ensures { Gives (element_at self.now frame.now (pattern_in variables.now) element.now)
            result }
    {
        match element {
            Some(element) => {
                let item = (&*frame).with_item(&*variables);
                self.term(element, &item)
            }
            None => pipelines::item(self.alloc, variables, frame.depth()?),
        }
    }

    /// `GroupBy`
    #[cycle(binding)]
    fn group_by(
        &self,
        element: &Option<Term>,
        key: &Term,
        pipeline: Pipeline,
        frame: &Frame<'_>,
    ) -> Result<Pipeline, TermError>
        ensures { GivesStage (operator_at self.now frame.now (query.GroupBy key.now element.now)
            (stage_in pipeline)) result }
    {
        let item = (&*frame).with_item(pipeline.variables.get());
        let key = self.term(key, &item)?;
        let key = type_checks::key(key)?;
        let element = self.element(element, pipeline.variables.get(), frame)?;
        pipelines::group_by(self.alloc, pipelines::into_source(pipeline), key, element)
    }
}
