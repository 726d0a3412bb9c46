//! The running of operators, and of what makes one value of several.
use crate::running::Running;
use lq_grammar::Field;
use lq_host::{Asks, Log};
use lq_language::Op;
use lq_operators::RunError;
use lq_plan::{Reads, Slots, TableRow, parts, scalars};
use lq_tree::Form;
use lq_value::{List, Scalar, Value};

impl<'a, R: TableRow, S: Reads<R>, H: Asks> Running<'a, R, S, H> {
    ghost use Rattle.std.specs.Prelude.{◌≡◌, List, true};
    ghost use Rattle.lq_value.specs.declared.value.Fault.TheVariants as fault;
    ghost use Rattle.lq_language.specs.OperandMeaning.{as_value, on_scalar};
    ghost use Rattle.lq_language.specs.Operations.{of_two};
    ghost use Rattle.lq_operators.specs.Answers.{IsAnswer};
    ghost use Rattle.lq_tree.specs.declared.tree.Form.TheVariants as form;
    ghost use Rattle.lq_plan.specs.Meanings.{meant};
    ghost use Rattle.lq_host.specs.declared.call.Call.{Call};
    ghost use Rattle.lq_tree.specs.Watches.{Watch, are_covered_fields};
    ghost use Rattle.lq_plan.specs.Watching.{watches};
    ghost use Rattle.lq_pipe.specs.Runs.{world, Grown, covers};

    /// What an operator gives to one operand.
    #[cycle(running)]
    #[inline(never)]
    #[tactic(auto, using(lq_plan::proofs::FormLaws::form_unary))]
    pub(crate) fn unary(
        &self,
        op: Op,
        operand: &Form,
        slots: &Slots<'_, R>,
        log: &mut Log<H>,
    ) -> Result<Value<R>, RunError>
        ensures meant { IsAnswer (meant (world self.now) (form.Unary op operand.now) slots.now) result }
        ensures grows { (w : Watch R) (start : List Call) → covers self.now w operand.now ≡ true
            → watches w slots.now ≡ true
            → Grown self.now w start log.old → Grown self.now w start log.new }
    {
        let operand = self.scalar(operand, slots, log)?;
        scalars::of_one(self.sources.alloc, op, operand)
    }

    /// What an operator gives to two operands, the left one of which is evaluated first.
    #[cycle(running)]
    #[inline(never)]
    #[tactic(auto, using(lq_plan::proofs::FormLaws::form_binary))]
    pub(crate) fn binary(
        &self,
        op: Op,
        left: &Form,
        right: &Form,
        slots: &Slots<'_, R>,
        log: &mut Log<H>,
    ) -> Result<Value<R>, RunError>
        ensures meant { IsAnswer
            (meant (world self.now) (form.Binary op left.now right.now) slots.now) result }
        ensures grows { (w : Watch R) (start : List Call) → covers self.now w left.now ≡ true
            → covers self.now w right.now ≡ true
            → watches w slots.now ≡ true
            → Grown self.now w start log.old → Grown self.now w start log.new }
    {
        if let Some(value) = self.sources.binary_of_refs(op, &*left, &*right, &*slots) {
            return value;
        }
        let left = self.scalar(left, slots, log)?;
        self.binary_right(op, left, right, slots, log)
    }

    /// The same beside the left operand: a function of its own, so that operators that stand one below the
    /// other on their left take little of the stack.
    #[cycle(running)]
    #[inline(never)]
    fn binary_right(
        &self,
        op: Op,
        left: Scalar,
        right: &Form,
        slots: &Slots<'_, R>,
        log: &mut Log<H>,
    ) -> Result<Value<R>, RunError>
        ensures meant { IsAnswer (on_scalar (world self.now) (meant (world self.now) right.now slots.now)
            (λ t. as_value (of_two fault.NullReference op left t))) result }
        ensures grows { (w : Watch R) (start : List Call) → covers self.now w right.now ≡ true
            → watches w slots.now ≡ true
            → Grown self.now w start log.old → Grown self.now w start log.new }
    {
        let right = self.scalar(right, slots, log)?;
        scalars::of_two(self.sources.alloc, op, &left, &right)
    }

    /// Whether both are true; the second is evaluated only where the first is.
    #[cycle(running)]
    #[inline(never)]
    #[tactic(auto, using(lq_plan::proofs::FormLaws::form_both))]
    pub(crate) fn both(
        &self,
        left: &Form,
        right: &Form,
        slots: &Slots<'_, R>,
        log: &mut Log<H>,
    ) -> Result<Value<R>, RunError>
        ensures meant { IsAnswer
            (meant (world self.now) (form.And left.now right.now) slots.now) result }
        ensures grows { (w : Watch R) (start : List Call) → covers self.now w left.now ≡ true
            → covers self.now w right.now ≡ true
            → watches w slots.now ≡ true
            → Grown self.now w start log.old → Grown self.now w start log.new }
    {
        match self.truth(left, slots, log)? {
            true => self.evaluate(right, slots, log),
            false => Ok(Value::Scalar(Scalar::Bool(false))),
        }
    }

    /// Whether one is true; the second is evaluated only where the first isn't.
    #[cycle(running)]
    #[inline(never)]
    #[tactic(auto, using(lq_plan::proofs::FormLaws::form_either))]
    pub(crate) fn either(
        &self,
        left: &Form,
        right: &Form,
        slots: &Slots<'_, R>,
        log: &mut Log<H>,
    ) -> Result<Value<R>, RunError>
        ensures meant { IsAnswer (meant (world self.now) (form.Or left.now right.now) slots.now) result }
        ensures grows { (w : Watch R) (start : List Call) → covers self.now w left.now ≡ true
            → covers self.now w right.now ≡ true
            → watches w slots.now ≡ true
            → Grown self.now w start log.old → Grown self.now w start log.new }
    {
        match self.truth(left, slots, log)? {
            true => Ok(Value::Scalar(Scalar::Bool(true))),
            false => self.evaluate(right, slots, log),
        }
    }

    /// The first, or the second in place of null.
    #[cycle(running)]
    #[inline(never)]
    #[tactic(auto, using(lq_plan::proofs::FormLaws::form_coalesce))]
    pub(crate) fn coalesce(
        &self,
        left: &Form,
        right: &Form,
        slots: &Slots<'_, R>,
        log: &mut Log<H>,
    ) -> Result<Value<R>, RunError>
        ensures meant { IsAnswer
            (meant (world self.now) (form.Coalesce left.now right.now) slots.now) result }
        ensures grows { (w : Watch R) (start : List Call) → covers self.now w left.now ≡ true
            → covers self.now w right.now ≡ true
            → watches w slots.now ≡ true
            → Grown self.now w start log.old → Grown self.now w start log.new }
    {
        let left = self.scalar(left, slots, log)?;
        match scalars::is_null(&left) {
            true => self.evaluate(right, slots, log),
            false => Ok(Value::Scalar(left)),
        }
    }

    /// The one that the condition chooses; the other is not evaluated.
    #[cycle(running)]
    #[inline(never)]
    #[tactic(auto, using(lq_plan::proofs::FormLaws::form_choice))]
    pub(crate) fn choose(
        &self,
        condition: &Form,
        left: &Form,
        right: &Form,
        slots: &Slots<'_, R>,
        log: &mut Log<H>,
    ) -> Result<Value<R>, RunError>
        ensures meant { IsAnswer
            (meant (world self.now) (form.Conditional condition.now left.now right.now) slots.now)
            result }
        ensures grows { (w : Watch R) (start : List Call) → covers self.now w condition.now ≡ true
            → covers self.now w left.now ≡ true
            → covers self.now w right.now ≡ true
            → watches w slots.now ≡ true
            → Grown self.now w start log.old → Grown self.now w start log.new }
    {
        match self.truth(condition, slots, log)? {
            true => self.evaluate(left, slots, log),
            false => self.evaluate(right, slots, log),
        }
    }

    /// A record, whose members are evaluated in their order, up to the first fault.
    #[cycle(running)]
    #[inline(never)]
    pub(crate) fn record(
        &self,
        fields: &List<Field<Form>>,
        slots: &Slots<'_, R>,
        log: &mut Log<H>,
    ) -> Result<Value<R>, RunError>
        ensures meant { IsAnswer (meant (world self.now) (form.Record fields.now) slots.now) result }
        ensures grows { (w : Watch R) (start : List Call) → are_covered_fields (world self.now) w fields.now ≡ true
            → watches w slots.now ≡ true
            → Grown self.now w start log.old → Grown self.now w start log.new }
    {
        let mut members = List::new(self.sources.alloc);
        for field in fields.as_slice() {
            let value = self.evaluate(&field.value, slots, log)?;
            parts::push_member(self.sources.alloc, &mut members, &field.name, value)?;
        }
        Ok(Value::Rec(members))
    }

    /// A pair, the left part of which is evaluated first.
    #[cycle(running)]
    #[inline(never)]
    #[tactic(auto, using(lq_plan::proofs::FormLaws::form_pair))]
    pub(crate) fn pair(
        &self,
        left: &Form,
        right: &Form,
        slots: &Slots<'_, R>,
        log: &mut Log<H>,
    ) -> Result<Value<R>, RunError>
        ensures meant { IsAnswer
            (meant (world self.now) (form.Pair left.now right.now) slots.now) result }
        ensures grows { (w : Watch R) (start : List Call) → covers self.now w left.now ≡ true
            → covers self.now w right.now ≡ true
            → watches w slots.now ≡ true
            → Grown self.now w start log.old → Grown self.now w start log.new }
    {
        let left = self.evaluate(left, slots, log)?;
        let right = self.evaluate(right, slots, log)?;
        Ok(parts::pair(self.sources.alloc, left, right)?)
    }
}
