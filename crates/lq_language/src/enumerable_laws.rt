//! Laws of the methods of sequences. Each function's contract is the law that it is named for; the
//! functions themselves do nothing.
ghost use Rattle.lq_language.specs.EnumerableLaws.{AnswersNone, ComparesAll, KeepsFirstAppearances, MeetsTheEnding, ReadsNothing, StopsAtItems, SumsInTurn};

/// What stops at an item (`Any`, `First`, `Single` at the second, `ElementAt`, `Take`, `All`, `Contains`)
/// ignores what comes after it, faults too. What gets to the fault that ends its source meets it:
/// `Last` and `Reverse` always, and `Intersect` and `Except` that of the second sequence before all else.
pub fn sequences_are_read<A>()
    ensures stops { StopsAtItems A }
    ensures endings { MeetsTheEnding A }
    ensures nothing { ReadsNothing A }
{}

/// What each gives where there is no item; and `Distinct` and `Union` give each item at its first
/// appearance.
pub fn items_are_given<A>()
    ensures none { AnswersNone A }
    ensures distinct { KeepsFirstAppearances A }
{}

/// A sum overflows at the item where it leaves `int`; `Min` and `Max` read all, and answer for none.
pub fn numbers_are_summed()
    ensures sums { SumsInTurn }
    ensures extremes { ComparesAll }
{}
