//! Laws of what a session's definitions mean. Each function's contract is the law that it is named for; the
//! functions themselves do nothing.
ghost use Rattle.lq_machine.specs.DefinitionLaws.{NamesAreKnown, NamesHaveMeanings, NamesHaveValues, ServesMeanings};
ghost use Rattle.lq_machine.specs.SessionTypes.{LimitsNames, LimitsQueries, LimitsStatements};

/// The names of a session are those that its definitions make known. Where tables have their rows, each
/// has a value of its type, the same whatever is used where there is no meaning.
pub fn session_values<R>()
    ensures names { NamesAreKnown R }
    ensures values { NamesHaveValues R }
    ensures meanings { NamesHaveMeanings R }
{}

/// Over tables whose cells are of their columns' types, and under definitions as `var` makes them, no
/// reply to `run` depends on what is used where an expression has no meaning.
pub fn served_meanings()
    ensures { ServesMeanings }
{}

/// Under definitions as `var` makes them, the names of a session have types of at most 4,096 parts, and so
/// have every typed expression of a statement, and the sequence of every query's items.
pub fn session_types_are_limited()
    ensures names { LimitsNames }
    ensures expression { LimitsStatements }
    ensures query { LimitsQueries }
{}
