//! Slots: the values that lambdas take, borrowed where they stand.
use lq_value::{RowRef, Value};

/// The values in the slots, as a chain from the innermost lambda outwards. One slot more stands on
/// the machine's stack, and takes no memory.
#[derive(Clone, Copy)]
#[cycle(slots)]
pub enum Slots<'a, R> {
    /// No slot.
    Empty,
    /// These slots, and one more behind them.
    With(&'a Slots<'a, R>, &'a Value<R>),
}

impl<'a, R: RowRef> Slots<'a, R> {
    ghost use Rattle.std.specs.Prelude.{◌≡◌, ◌∷◌, ◌++◌, ◌+◌, [], true, Some, IfOk, IfErr, length, slice_get};
    ghost use Rattle.std.specs.Option.{option_copied};
    ghost use Rattle.lq_plan.specs.Slots.{values_in};

    /// These slots and one more behind them, in which the value stands. Takes no memory.
    #[tactic(auto, using(crate::proofs::SlotLaws::chains))]
    #[inline]
    pub fn with<'b>(&'b self, value: &'b Value<R>) -> Slots<'b, R>
        ensures { values_in result ≡ values_in self.now ++ value.now ∷ [] }
    {
        Slots::With(self, value)
    }

    /// What the slot of this number holds, counted from 0 at the outermost; or else how many numbers
    /// behind the last slot it stands.
    #[tactic(auto, using(crate::proofs::SlotLaws::chains, crate::proofs::SlotLaws::places))]
    fn find(&self, number: usize) -> Result<&Value<R>, usize>
        ensures value { IfOk result (λ v. slice_get (values_in self.now) number ≡ Some v.now) }
        ensures past { IfErr result (λ n. number ≡ length (values_in self.now) + n) }
    {
        match self {
            Slots::Empty => Err(number),
            Slots::With(outer, last) => match outer.find(number) {
                Ok(value) => Ok(value),
                Err(0) => Ok(last),
                Err(past) => Err(past - 1),
            },
        }
    }

    /// Whether the slot of this number would be the one so many behind the next one.
    pub(crate) fn is_behind(&self, number: usize, past: usize) -> bool
        ensures { result ≡ true → number ≡ length (values_in self.now) + past }
    {
        match self.find(number) {
            Ok(_) => false,
            Err(behind) => behind == past,
        }
    }

    /// What the slot of this number holds, counted from 0 at the outermost; none exactly where there are
    /// no more slots than that.
    #[tactic(auto, using(crate::proofs::SlotLaws::past_all))]
    pub fn get(&self, number: usize) -> Option<&Value<R>>
        ensures { option_copied result ≡ slice_get (values_in self.now) number }
    {
        match self.find(number) {
            Ok(value) => Some(value),
            Err(_) => None,
        }
    }
}
