//! Laws of clauses. Each function's contract is the law that it is named for; the functions
//! themselves do nothing.
ghost use Rattle.lq_language.specs.ClauseLaws.{BoundsParts, ComparesOneType, CountsParts, EnumeratesGroups, GroupsInTurn, HidesTables, MeetsFirstKeysFirst, MeetsInnerKeysFirst, NullMatchesNothing, ReadsSourceAnew, RecordsMatch, RepeatsNoName, ReturnsItsName, SeesItAlone, SeesNoRangeVariable, SortsWhole, TakesAllElse, TakesNoNull};

/// No clause brings in a name that is in scope before it, also where `into` ends the scope of a
/// `join`'s range variable at once. The inner sequence of a `join` and its second key see none of
/// the range variables before it, and after `into x` there is x alone. The name of a `join`'s
/// range variable may come again by its own `into`. A range variable hides a table of its name.
pub fn scopes_of_clauses<X>()
    ensures fresh { RepeatsNoName X }
    ensures again { ReturnsItsName X }
    ensures hidden { HidesTables }
    ensures join { SeesNoRangeVariable X }
    ensures into { SeesItAlone X }
{}

/// `let`, `select` and `group` take values of any type but null, and sequences and groups are
/// enumerated. A `join` compares keys of one key type, or an int with an int?. What gives a sequence
/// of more than 4,096 parts has no type.
pub fn types_of_clauses<X>()
    ensures placed { TakesNoNull X }
    ensures others { TakesAllElse X }
    ensures keys { ComparesOneType }
    ensures bounded { BoundsParts X }
    ensures parts { CountsParts }
    ensures enumerated { EnumeratesGroups X }
{}

/// A second `from` reads its source again for each scope, in that scope.
pub fn sources_of_clauses<R, X>()
    ensures { ReadsSourceAnew R X }
{}

/// A null key matches nothing, and a record with null members its like. The key of an inner item of a
/// `join` is met before the next one, and before any outer item; `orderby` meets a fault of its source
/// before any key, and the first keys of all items before the next key of any; `group` the keys and
/// elements of the items before a fault of its source.
pub fn order_of_faults<R>()
    ensures nulls { NullMatchesNothing R }
    ensures records { RecordsMatch R }
    ensures join { MeetsInnerKeysFirst R }
    ensures orderby { SortsWhole R }
    ensures keys { MeetsFirstKeysFirst R }
    ensures group { GroupsInTurn R }
{}
