//! What comes of one item, by what a lambda gave of it or what it became: the next item, or one more of a tally.
ghost use Rattle.std.specs.Prelude.{◌≡◌};
ghost use Rattle.lq_value.specs.declared.ty.Ty.{Ty};
ghost use Rattle.lq_value.specs.declared.value.Value.{Value};
ghost use Rattle.lq_language.specs.Stream.{Stream, one, then_stream};
ghost use Rattle.lq_operators.specs.Tallies.{goes_on, tallied};
ghost use Rattle.lq_plan.specs.Pulling.{outcome_stream};
ghost use Rattle.lq_pipe.specs.Steps.{GivesStep};

use lq_operators::Tally;
use lq_plan::{Outcome, TableRow};
use lq_value::{End, Fault, Value};

/// What comes of an item of which a lambda gave this.
pub(crate) fn outcome_of<R: TableRow>(given: Result<Value<R>, Fault>) -> Outcome<R>
    ensures { outcome_stream result ≡ one given }
{
    match given {
        Ok(value) => Outcome::Item(value),
        Err(fault) => Outcome::Fault(fault),
    }
}

/// The next item of a pipe, or how they end, where a lambda gave this.
pub(crate) fn step_of<R: TableRow>(given: Result<Value<R>, Fault>) -> Result<Value<R>, End>
    ensures { GivesStep (one given) result }
{
    match given {
        Ok(value) => Ok(value),
        Err(fault) => Err(End::Fault(fault)),
    }
}

/// The tally with what a lambda gave of one item more, or the fault that was met there.
pub(crate) fn with_given<R: TableRow>(
    tally: Tally,
    given: Result<Value<R>, Fault>,
) -> Result<Tally, Fault>
    ensures { (t : Ty) (rest : Stream (Value R))
        → tallied t tally (then_stream (one given) rest) ≡ goes_on t result rest }
{
    match given {
        Ok(value) => tally.with(&value),
        Err(fault) => Err(fault),
    }
}

/// The tally with what came of one item more, or the fault that was met there.
pub(crate) fn with_outcome<R: TableRow>(tally: Tally, outcome: Outcome<R>) -> Result<Tally, Fault>
    ensures { (t : Ty) (rest : Stream (Value R))
        → tallied t tally (then_stream (outcome_stream outcome) rest) ≡ goes_on t result rest }
{
    match outcome {
        Outcome::Item(item) => tally.with(&item),
        Outcome::Dropped => Ok(tally),
        Outcome::Fault(fault) => Err(fault),
    }
}
