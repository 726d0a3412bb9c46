//! Laws of operators and members. Each function's contract is the law that it is named for; the
//! functions themselves do nothing.
ghost use Rattle.lq_language.specs.NullLaws.{HasValueUnlessNull, NullGivesNull, NullHasNoOrder};
ghost use Rattle.lq_language.specs.NullLaws.{NullHasNothing, NullIsEmptyText, SameByContent};
ghost use Rattle.lq_language.specs.OperationLaws.{Divides, FindsParts, FindsPrefixes, FindsSuffixes, IsDecided};
ghost use Rattle.lq_language.specs.OperatorMeaningLaws.{MembersAreApplied, NegationsAreApplied};
ghost use Rattle.lq_language.specs.OperatorMeaningLaws.{SearchesAreApplied, SignsAreApplied};

/// On operands of the number and the kinds that it takes, an operator or member has a meaning of
/// its own, the same whatever is used where there is none.
pub fn decided_operations()
    ensures { IsDecided }
{}

/// A quotient times the divisor and the remainder make up the dividend; the remainder is nearer to
/// 0 than the divisor, and has the dividend's sign or is 0.
pub fn division_truncates()
    ensures { Divides }
{}

/// A text begins with another, ends with it, or has it in itself, exactly where its bytes are the
/// other's and more after them, before them, or on both sides.
pub fn texts_are_searched()
    ensures prefixes { FindsPrefixes }
    ensures suffixes { FindsSuffixes }
    ensures parts { FindsParts }
{}

/// An `int?` has a value exactly where it isn't null. Null has no value and no length, no text is looked
/// for in it, and it in no text; and `<`, `>`, `<=` and `>=` are false of it.
pub fn null_is_no_value()
    ensures values { HasValueUnlessNull }
    ensures members { NullHasNothing }
    ensures order { NullHasNoOrder }
{}

/// Arithmetic with null on either side gives null, and so does `-` before null; `+` of texts takes null
/// as the empty text.
pub fn null_operands()
    ensures arithmetic { NullGivesNull }
    ensures texts { NullIsEmptyText }
{}

/// Two scalars of one kind are the same exactly where both are null, or both hold one content.
pub fn contents_are_compared()
    ensures { SameByContent }
{}

/// An expression of an operator or a member means what this gives on the scalars that its operands
/// mean, and the first fault of an operand, from left to right, where one faults.
pub fn operators_are_applied<R>()
    ensures members { MembersAreApplied R }
    ensures signs { SignsAreApplied R }
    ensures negations { NegationsAreApplied R }
    ensures searches { SearchesAreApplied R }
{}
