//! Laws of the host calls that a run may add to a log. Each function's contract is the law that it is named for; the functions themselves
//! do nothing.
ghost use Rattle.lq_tree.specs.AllowedCalls.{OwnCallsAreAllowed, SeenRowsPass, SeenTablesPass};
ghost use Rattle.lq_tree.specs.WatchLaws.{MeansWatchedRows, OwnWatchCovers};

/// Where a watch covers a form and passes the rows in its slots, the form means a fault, or a value each
/// row of which passes. So what a form's base gives, what its lambdas give of an item and what is asked about a
/// host predicate's row all pass.
pub fn means_watched_rows<R>()
    ensures { MeansWatchedRows R }
{}

/// The watch of a form's own host predicates covers it, where its test passes all rows of all tables.
pub fn own_watch_covers<R>()
    ensures { OwnWatchCovers R }
{}

/// Over the tables as a role sees them all rows pass the test of what the role sees. So calls that are
/// watched by a form's own watch with this test are those that a statement may make which names the form's
/// host predicates: each is about a row that the role sees.
pub fn own_calls_are_allowed<R>()
    ensures rows { SeenRowsPass R }
    ensures tables { SeenTablesPass R }
    ensures calls { OwnCallsAreAllowed R }
{}
