//! The list of the commands.

/// The list of the commands.
pub(crate) const HELP: &str = "\
A statement, whose `;` may be left out:
  run E   var N = E   N = E   insert T (C, ..)   delete T X => E   as R
A command:
  .tables               the tables, their columns, and how many of their rows the current role sees
  .roles                the roles, which one is current, and which bypass row security
  .names                the variables and named queries, with their types
  .rights               what the current role may use of each table, and which rule withholds the rest
  .why T NUMBER         which policies let the current role see the row of this number, or hide it
  .why T NUMBER delete  the same for deleting it; with `insert`, for inserting a row like it
  .rows N               at most N rows of a reply are shown, or N groups or sequences of N items each
  .json on|off          replies are shown as lines of JSON, or as tables
  .time on|off          the time that each statement takes is reported on standard error, or not
  .run FILE             answers each line of a file as if it were typed
  .help                 this list
  .quit                 ends, as Ctrl-D does
";
