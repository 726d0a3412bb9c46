//! The running of forms.
use lq_host::{Asks, Log};
use lq_operators::RunError;
use lq_plan::parts::Part;
use lq_plan::{Reads, Slots, Sources, Stage, TableRow, part_ref, scalars};
use lq_tree::Form;
use lq_value::{Scalar, Value, copy_scalar};

/// The running of forms over some tables and host predicates.
#[derive(Drop)]
pub(crate) struct Running<'a, R: TableRow, S: Reads<R>, H: Asks> {
    pub(crate) sources: Sources<'a, R, S, H>,
}

impl<'a, R: TableRow, S: Reads<R>, H: Asks> Running<'a, R, S, H> {
    ghost use Rattle.std.specs.Prelude.{◌≡◌, List, true};
    ghost use Rattle.lq_language.specs.Operations.{on_ok};
    ghost use Rattle.lq_operators.specs.Answers.{IsAnswer};
    ghost use Rattle.lq_plan.specs.Meanings.{Answers, meant, scalar_in};
    ghost use Rattle.lq_plan.specs.Parts.{part_of};
    ghost use Rattle.lq_plan.specs.declared.parts.Part.TheVariants as part;
    ghost use Rattle.lq_host.specs.declared.call.Call.{Call};
    ghost use Rattle.lq_tree.specs.Watches.{Watch};
    ghost use Rattle.lq_plan.specs.Watching.{covers_part, watches};
    ghost use Rattle.lq_pipe.specs.Runs.{world, Grown, covers};

    /// What a form means, or its first fault.
    #[cycle(running)]
    #[tactic(auto, using(lq_plan::proofs::FormLaws::form_literal, lq_plan::proofs::FormLaws::form_slot, lq_plan::proofs::FormLaws::form_table, lq_plan::proofs::FormLaws::form_simple, lq_plan::proofs::FormLaws::parts, lq_plan::proofs::FormLaws::stages))]
    pub(crate) fn evaluate(
        &self,
        form: &Form,
        slots: &Slots<'_, R>,
        log: &mut Log<H>,
    ) -> Result<Value<R>, RunError>
        ensures meant { IsAnswer (meant (world self.now) form.now slots.now) result }
        ensures grows { (w : Watch R) (start : List Call) → covers self.now w form.now ≡ true
            → watches w slots.now ≡ true
            → Grown self.now w start log.old → Grown self.now w start log.new }
    {
        match form {
            Form::Literal(scalar) => self.sources.literal(scalar),
            Form::Slot(number) => self.sources.slot(*number, slots),
            Form::First(pair) => self.part(Part::First, pair.get(), slots, log),
            Form::Second(pair) => self.part(Part::Second, pair.get(), slots, log),
            Form::Table(number) => self.sources.table(*number),
            Form::Column(row, table, at) => self.part(
                Part::Cell(*table, *at),
                row.get(),
                slots,
                log,
            ),
            Form::Host(predicate, row, table, columns) => {
                self.part(
                    Part::Host(*predicate, *table, *columns),
                    row.get(),
                    slots,
                    log,
                )
            }
            Form::Member(value, place) => self.part(Part::Member(*place), value.get(), slots, log),
            Form::Key(group) => self.key(group.get(), slots, log),
            Form::Unary(op, operand) => self.unary(*op, operand.get(), slots, log),
            Form::Binary(op, left, right) => self.binary(*op, left.get(), right.get(), slots, log),
            Form::And(left, right) => self.both(left.get(), right.get(), slots, log),
            Form::Or(left, right) => self.either(left.get(), right.get(), slots, log),
            Form::Coalesce(left, right) => self.coalesce(left.get(), right.get(), slots, log),
            Form::Conditional(condition, left, right) => {
                self.choose(condition.get(), left.get(), right.get(), slots, log)
            }
            Form::IsNull(wanted, of) => self.null_test(*wanted, of.get(), slots, log),
            Form::Record(fields) => self.record(fields, slots, log),
            Form::Pair(left, right) => self.pair(left.get(), right.get(), slots, log),
            Form::Sequence(source) => self.sequence(Stage::Plain, source.get(), slots, log),
            Form::Simple(method, of, source) => self.simple(*method, of, source.get(), slots, log),
            Form::Given(method, source, argument) => {
                self.given(*method, source.get(), argument.get(), slots, log)
            }
            Form::Where(of, test) => self.sequence(Stage::Where(test.get()), of.get(), slots, log),
            Form::Select(of, body) => self.sequence(
                Stage::Select(body.get()),
                of.get(),
                slots,
                log,
            ),
            Form::All(source, condition) => self.all(source.get(), condition.get(), slots, log),
            Form::SelectMany(source, inner, body) => {
                self.select_many(source.get(), inner.get(), body.get(), slots, log)
            }
            Form::GroupBy(source, key, element) => {
                self.group_by(source.get(), key.get(), element.get(), slots, log)
            }
            Form::Join(source, joined) => self.join(joined.get(), source.get(), slots, log),
            Form::OrderBy(source, keys) => self.order_by(keys, source.get(), slots, log),
        }
    }

    /// The key of the group that a form means. It is a function of its own, as `null_test` is, so that what is read has no
    /// place on the stack in `evaluate`, which operators take that stand one below the other.
    #[cycle(running)]
    #[inline(never)]
    fn key(
        &self,
        group: &Form,
        slots: &Slots<'_, R>,
        log: &mut Log<H>,
    ) -> Result<Value<R>, RunError>
        ensures meant { IsAnswer (on_ok (meant (world self.now) group.now slots.now)
            (part_of (world self.now) part.Key)) result }
        ensures grows { (w : Watch R) (start : List Call) → covers self.now w group.now ≡ true
            → watches w slots.now ≡ true
            → Grown self.now w start log.old → Grown self.now w start log.new }
    {
        self.part(Part::Key, group, slots, log)
    }

    /// Whether what a form means is null, where that is wanted, or else whether it isn't.
    #[cycle(running)]
    #[inline(never)]
    fn null_test(
        &self,
        wanted: bool,
        of: &Form,
        slots: &Slots<'_, R>,
        log: &mut Log<H>,
    ) -> Result<Value<R>, RunError>
        ensures meant { IsAnswer (on_ok (meant (world self.now) of.now slots.now)
            (part_of (world self.now) (part.IsNull wanted))) result }
        ensures grows { (w : Watch R) (start : List Call) → covers self.now w of.now ≡ true
            → watches w slots.now ≡ true
            → Grown self.now w start log.old → Grown self.now w start log.new }
    {
        self.part(Part::IsNull(wanted), of, slots, log)
    }

    /// The scalar that a form means. It has no place of its own on the stack.
    #[cycle(running)]
    #[inline(always)]
    pub(crate) fn scalar(
        &self,
        form: &Form,
        slots: &Slots<'_, R>,
        log: &mut Log<H>,
    ) -> Result<Scalar, RunError>
        ensures meant { Answers
            (scalar_in (world self.now) (meant (world self.now) form.now slots.now)) result }
        ensures grows { (w : Watch R) (start : List Call) → covers self.now w form.now ≡ true
            → watches w slots.now ≡ true
            → Grown self.now w start log.old → Grown self.now w start log.new }
    {
        match self.sources.scalar_ref(&*form, &*slots) {
            Some(scalar) => Ok(copy_scalar(self.sources.alloc, scalar)?),
            None => scalars::scalar(self.evaluate(form, slots, log)?),
        }
    }

    /// What is read of what a form means, or asked about it: it stays in its slot where it is a part of what
    /// stands in one.
    #[cycle(running)]
    #[inline(never)]
    fn part(
        &self,
        part: Part,
        form: &Form,
        slots: &Slots<'_, R>,
        log: &mut Log<H>,
    ) -> Result<Value<R>, RunError>
        ensures meant { IsAnswer (on_ok (meant (world self.now) form.now slots.now)
            (part_of (world self.now) part)) result }
        ensures grows { (w : Watch R) (start : List Call) → covers_part w part ≡ true
            → covers self.now w form.now ≡ true
            → watches w slots.now ≡ true
            → Grown self.now w start log.old → Grown self.now w start log.new }
    {
        match part_ref(form, slots) {
            Some(value) => self.sources.part(part, value, log),
            None => self
                .sources
                .part(part, &self.evaluate(form, slots, log)?, log),
        }
    }
}
