//! Laws of the tallies of rows. Each function's contract is the law that it is named for; the functions
//! themselves do nothing.
ghost use Rattle.lq_operators.specs.TallyLaws.{TallyAnswers, TallyAtPlace};

use lq_value::RowRef;

/// Where each row has a number at a place, the tally there is what the one that begins there makes of
/// these numbers, one after another; what stands at other places makes no difference.
pub fn tally_at_place()
    ensures { TallyAtPlace }
{}

/// What a tally makes of the numbers that items are, one after another, answers as the method does on
/// the items, or is the fault that the method meets there.
pub fn tally_answers<R: RowRef>()
    ensures { TallyAnswers R }
{}
