//! Laws of how few rows a pipe hands out. Each function's contract is the law that it is named for; the functions themselves do nothing.
ghost use Rattle.lq_pipeline.specs.Drains.{DrainsHandOut, DrainsPull};
ghost use Rattle.lq_pipeline.specs.Laziness.{CallsAreOnHanded, ChainsNeed, EndsStay, NeededIsShortest, PullsHandOut, RefusalsStay};

use lq_guard::VisibleRow;
use lq_sink::Sink;

/// What is needed until something is decided is the shortest front of the rows that settles it, and all of them where none does.
pub fn needed_is_shortest<R, A>()
    ensures { NeededIsShortest R A }
{}

/// Which rows a method over a chain of conditions and lambdas needs (.NET, `Enumerable`): those up to an item for `First` and `Any`, up to the item at
/// a number for `ElementAt`, up to so many for `Take`, up to the match for `Contains`, and up to the first that isn't true for `All`. No row, where an
/// argument is a fault or a number below.
pub fn chains_need()
    ensures { ChainsNeed }
{}

/// After any pulls of a pipe, those rows were handed out that so many pulls need: a front of all that are needed, and all of these once the end was
/// answered. The count is theirs, and calls of host predicates were added about them alone.
pub fn pulls_hand_out()
    ensures { PullsHandOut }
{}

/// Where a query names one table, once, at the end of a chain, each call that its pulls add is about a row that was handed out.
pub fn calls_are_on_handed()
    ensures { CallsAreOnHanded }
{}

/// Once a pull said how the items end, each further one says the same, hands out no row and has no host predicate asked.
pub fn ends_stay()
    ensures { EndsStay }
{}

/// Once a pull was refused a growth, each further one is, hands out no row and has no host predicate asked.
pub fn refusals_stay()
    ensures { RefusalsStay }
{}

/// A drain is a pull for each item that is given, and one for the end where nothing stopped: no pull comes after a stop.
pub fn drains_pull<'a, K: Sink<VisibleRow<'a>>>()
    ensures { DrainsPull K.takes }
{}

/// After a drain of what was opened, those rows were handed out that the items which it gave need, or these and the end: a front of all that are
/// needed, and all of these once it came to the end. The count is theirs, and calls of host predicates were added about them alone.
pub fn drains_hand_out<'a, K: Sink<VisibleRow<'a>>>()
    ensures { DrainsHandOut K.takes }
{}
