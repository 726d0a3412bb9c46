//! Conditions: truth values, which are evaluated without a value of their own.
use crate::running::Running;
use lq_host::{Asks, Log};
use lq_language::Op;
use lq_operators::RunError;
use lq_plan::{Reads, Slots, TableRow, scalars};
use lq_tree::Form;

impl<'a, R: TableRow, S: Reads<R>, H: Asks> Running<'a, R, S, H> {
    ghost use Rattle.std.specs.Prelude.{◌≡◌, List, true};
    ghost use Rattle.lq_tree.specs.declared.tree.Form.TheVariants as form;
    ghost use Rattle.lq_plan.specs.Meanings.{Answers, meant, truth_in};
    ghost use Rattle.lq_host.specs.declared.call.Call.{Call};
    ghost use Rattle.lq_tree.specs.Watches.{Watch};
    ghost use Rattle.lq_plan.specs.Watching.{watches};
    ghost use Rattle.lq_pipe.specs.Runs.{world, Grown, covers};

    /// The truth value that a form means.
    #[cycle(running)]
    #[inline(never)]
    pub(crate) fn truth(
        &self,
        form: &Form,
        slots: &Slots<'_, R>,
        log: &mut Log<H>,
    ) -> Result<bool, RunError>
        ensures meant { Answers (truth_in (world self.now)
            (meant (world self.now) form.now slots.now)) result }
        ensures grows { (w : Watch R) (start : List Call) → covers self.now w form.now ≡ true
            → watches w slots.now ≡ true
            → Grown self.now w start log.old → Grown self.now w start log.new }
    {
        match form {
            Form::And(left, right) => self.truth_of_both(left.get(), right.get(), slots, log),
            Form::Or(left, right) => self.truth_of_either(left.get(), right.get(), slots, log),
            Form::Binary(op, left, right) => {
                self.truth_of_two(*op, left.get(), right.get(), slots, log)
            }
            _ => scalars::truth(&self.scalar(form, slots, log)?),
        }
    }

    /// Whether both are true; the second is evaluated only where the first is.
    #[cycle(running)]
    #[inline(never)]
    #[tactic(auto, using(lq_plan::proofs::TruthLaws::truth_both))]
    fn truth_of_both(
        &self,
        left: &Form,
        right: &Form,
        slots: &Slots<'_, R>,
        log: &mut Log<H>,
    ) -> Result<bool, RunError>
        ensures meant { Answers (truth_in (world self.now)
            (meant (world self.now) (form.And left.now right.now) slots.now)) result }
        ensures grows { (w : Watch R) (start : List Call) → covers self.now w left.now ≡ true
            → covers self.now w right.now ≡ true
            → watches w slots.now ≡ true
            → Grown self.now w start log.old → Grown self.now w start log.new }
    {
        match self.truth(left, slots, log)? {
            true => self.truth(right, slots, log),
            false => Ok(false),
        }
    }

    /// Whether one is true; the second is evaluated only where the first isn't.
    #[cycle(running)]
    #[inline(never)]
    #[tactic(auto, using(lq_plan::proofs::TruthLaws::truth_either))]
    fn truth_of_either(
        &self,
        left: &Form,
        right: &Form,
        slots: &Slots<'_, R>,
        log: &mut Log<H>,
    ) -> Result<bool, RunError>
        ensures meant { Answers (truth_in (world self.now)
            (meant (world self.now) (form.Or left.now right.now) slots.now)) result }
        ensures grows { (w : Watch R) (start : List Call) → covers self.now w left.now ≡ true
            → covers self.now w right.now ≡ true
            → watches w slots.now ≡ true
            → Grown self.now w start log.old → Grown self.now w start log.new }
    {
        match self.truth(left, slots, log)? {
            true => Ok(true),
            false => self.truth(right, slots, log),
        }
    }

    /// The truth value that an operator gives to two operands.
    #[cycle(running)]
    #[inline(never)]
    fn truth_of_two(
        &self,
        op: Op,
        left: &Form,
        right: &Form,
        slots: &Slots<'_, R>,
        log: &mut Log<H>,
    ) -> Result<bool, RunError>
        ensures meant { Answers (truth_in (world self.now)
            (meant (world self.now) (form.Binary op left.now right.now) slots.now)) result }
        ensures grows { (w : Watch R) (start : List Call) → covers self.now w left.now ≡ true
            → covers self.now w right.now ≡ true
            → watches w slots.now ≡ true
            → Grown self.now w start log.old → Grown self.now w start log.new }
    {
        match self.sources.truth_of_refs(op, &*left, &*right, &*slots) {
            Some(truth) => truth,
            None => scalars::truth_in(self.binary(op, left, right, slots, log)?),
        }
    }
}
