//! Laws of meaning. Each function's contract is the law that it is named for; the functions
//! themselves do nothing.
ghost use Rattle.lq_language.specs.ArrangementLaws.{ArrangesByKeys, KeepsTies};
ghost use Rattle.lq_language.specs.KeyOrder.{TellsKeyOrder};
ghost use Rattle.lq_language.specs.RuleMeaningLaws.{HasRuleMeaning};
ghost use Rattle.lq_language.specs.OneArrangement.{ArrangesItems, ArrangesOnce};
ghost use Rattle.lq_language.specs.MeaningLaws.{HasMeaning, HasStream, KeepsRuleMeanings, NeverFaults};

/// In the rule language, where local names have values of their types and tables have their rows, a
/// typed expression has a meaning of its own, the same whatever is used where there is none: a value of
/// its type, or a fault.
pub fn rule_meanings()
    ensures { HasRuleMeaning }
{}

/// The same of the whole language, over rows of any kind: a typed expression, with records, groups and
/// methods of sequences in it, has a meaning of its own, the same whatever is used where there is none:
/// a value of its type, or a fault. So has a typed query: its stream, of items of their type.
pub fn typed_meanings<R>()
    ensures expression { HasMeaning R }
    ensures query { HasStream R }
{}

/// What has a type in the rule language means in the whole language what it means there, where local
/// names have values of their types and tables have their rows.
pub fn rule_meanings_are_kept<R>()
    ensures { KeepsRuleMeanings R }
{}

/// Of two lists of sort keys one comes before the other exactly where, at the first place at which they
/// differ, its key is less, or greater where that key descends.
pub fn order_of_sort_keys()
    ensures { TellsKeyOrder }
{}

/// `orderby` leaves the items sorted by their keys: none comes after one that its keys put after
/// it. And of items with the same keys each is there as often as before, in the order that they had.
pub fn arranged_items<A>()
    ensures sorted { ArrangesByKeys A }
    ensures ties { KeepsTies A }
{}

/// Where each item has a key for each direction, that is the one arrangement: no other list is sorted by
/// the keys and has the items with the same keys in the order that they had.
pub fn one_arrangement<A>()
    ensures { ArrangesOnce A }
{}

/// Where each sort key is found for each item, `orderby` gives the items as they are arranged by their
/// own keys, the first of which counts most.
pub fn items_by_their_keys<A, S>()
    ensures { ArrangesItems A S }
{}

/// An expression whose type is that of a sequence never faults: a fault that is met in making it is the
/// ending of its stream.
pub fn sequences_never_fault<R>()
    ensures { NeverFaults R }
{}
