//! Laws of the translation. Each function's contract is the law that it is named for; the functions
//! themselves do nothing.
ghost use Rattle.lq_translate.specs.TranslationLaws.{CallsMeanAlike, CallsTypedAlike, MeansAlike};
ghost use Rattle.lq_translate.specs.TranslationLaws.{CallsUsedAlike, TermsMeanAlike, TermsTypedAlike, TermsUsedAlike, TypedAlike, UsedAlike};

/// The calls that a query is translated to mean under nested pairs what its clauses mean under names, items and ending alike,
/// whatever its expressions are and mean, provided that a name means what it refers to; and they have its type, or none where it has none.
pub fn calls_and_clauses<R, X>()
    ensures meaning { MeansAlike R X }
    ensures typing { TypedAlike X }
{}

/// The same for whole expressions, in which queries may hold queries: what an expression is translated to has its type, or none
/// where it has none, and means what it means; and so the calls of a query have its items' type and give its stream.
pub fn terms_and_expressions<R>()
    ensures types { TermsTypedAlike }
    ensures meanings { TermsMeanAlike R }
    ensures items { CallsTypedAlike }
    ensures streams { CallsMeanAlike R }
{}

/// The calls that a query is translated to use what its clauses use, tables, columns and host predicates in the order of the text, whatever its
/// expressions are, provided that a name uses nothing where it is a local one.
pub fn uses_of_calls<X>()
    ensures { UsedAlike X }
{}

/// The same for whole expressions, in which queries may hold queries: what an expression is translated to uses what it uses, and so
/// do the calls of a query.
pub fn uses_of_terms()
    ensures terms { TermsUsedAlike }
    ensures calls { CallsUsedAlike }
{}
