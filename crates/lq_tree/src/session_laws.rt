//! Laws of the places of a session's names. Each function's contract is the law that it is named for;
//! the functions themselves do nothing.
ghost use Rattle.lq_tree.specs.SessionLaws.{MeaningsOfStatements, PlacesAreKnown, PlacesGive, PlacesUse, ReadsNoSession};
ghost use Rattle.lq_tree.specs.SessionLaws.{TypesOfStatements, UsesOfStatements};
ghost use Rattle.lq_tree.specs.SessionLaws.{MeaningsOfConditions, TypesOfConditions, UsesOfConditions};
ghost use Rattle.lq_tree.specs.SessionLaws.{MeaningsOfStatementCalls, TypesOfStatementCalls, UsesOfStatementCalls};

/// The places of a session's names are those of what is known of its definitions: names, types and
/// uses.
pub fn places_are_known()
    ensures { PlacesAreKnown }
{}

/// Where each named query has a type, the form of a name uses what the name is known to use, however
/// many slots are in use where it is opened.
pub fn places_use()
    ensures { PlacesUse }
{}

/// Where tables have their rows, the form of a name gives its value, whatever the slots hold: that of
/// a variable, and the stream of a named query over the rows of the moment.
pub fn places_give<R>()
    ensures { PlacesGive R }
{}

/// What a tree means doesn't depend on what the names of the session refer to, as the names in it are
/// resolved.
pub fn reads_no_session<R>()
    ensures { ReadsNoSession R }
{}

/// So an expression of a statement is bound to a tree exactly where it has a type among the names of
/// the session, which is the tree's; the tree means, over the tables alone, what the expression means
/// where the names refer to what was defined, and it uses the same.
pub fn trees_of_statements<R>()
    ensures types { TypesOfStatements }
    ensures meanings { MeaningsOfStatements R }
    ensures uses { UsesOfStatements }
{}

/// And so is a condition on the rows of a table, under the row's local name: there is a tree exactly
/// where the condition has a type among that name and those of the session, which is the tree's; the
/// tree means of each row of the table what the condition means of it, and it uses the same.
pub fn trees_of_conditions<R>()
    ensures types { TypesOfConditions }
    ensures meanings { MeaningsOfConditions R }
    ensures uses { UsesOfConditions }
{}

/// And so are the calls of a query: there is a tree exactly where their items have a type among the
/// names of the session, of whose sequence the tree is; the tree means the sequence of their stream,
/// items and ending alike, and it uses the same.
pub fn trees_of_calls<R>()
    ensures types { TypesOfStatementCalls }
    ensures meanings { MeaningsOfStatementCalls R }
    ensures uses { UsesOfStatementCalls }
{}
