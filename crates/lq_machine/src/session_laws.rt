//! Laws of the session machine and of its output. Each function's contract is the law that it is
//! named for; the functions themselves do nothing.
ghost use Rattle.lq_machine.specs.DefinitionLaws.{KeepsDefined};
ghost use Rattle.lq_machine.specs.OpeningLaws.{FindsRank, FindsSize, OpensNothing, StoresOpening};
ghost use Rattle.lq_machine.specs.SessionLaws.{AnswersAlike, KeepsPolicies, LookAlikeBehind, NumberAlikeBehind, ScriptsAlike, IsOutput, LeavesTheRest, IsSilentAlike, MemoryLineIsServed, StayReadForTables};

/// Hidden rows change no answer: two states whose role sees the same tables, under the same policies,
/// schemas, variables and named queries, give every line the same reply, and a script under that role the
/// same replies, the memory line aside. An `insert` alone may distinguish them, as full, where they number
/// the rows to come otherwise. After a line that takes another role they may look otherwise to that one.
pub fn hidden_rows()
    ensures line { AnswersAlike }
    ensures behind { LookAlikeBehind }
    ensures numbers { NumberAlikeBehind }
    ensures script { ScriptsAlike }
{}

/// Where no reply is the memory line, the replies to a script and the state after it are those of
/// the session machine.
pub fn output_law()
    ensures { IsOutput }
{}

/// The memory line changes nothing: the other replies, and the state after the script, are those of
/// the session machine over the other lines. It is given only where the machine has a reply.
pub fn memory_law()
    ensures others { LeavesTheRest }
    ensures silent { IsSilentAlike }
{}

/// The memory line is served as any other refusal is.
pub fn memory_line_is_served()
    ensures { MemoryLineIsServed }
{}

/// Over tables whose cells are of their columns' types, every line leaves the definitions as `var` makes
/// them: a variable has a scalar's type and a value of it, a named query is of a sequence's type under
/// the names before it, and each name is new to the tables and to the definitions before it.
pub fn definitions_are_kept()
    ensures { KeepsDefined }
{}

/// Whatever a line says, the state after it has the same policies, and tables of the same schemas. So
/// policies that were read for the tables where a script begins are so after it, as the laws of row
/// policies ask.
pub fn policies_are_kept()
    ensures step { KeepsPolicies }
    ensures read { StayReadForTables }
{}

/// A token opens a named query where it is the query's name and doesn't come directly after a `.`. The
/// size of a statement is the number of its tokens, and the size of what each token opens; its rank is 0
/// where none opens anything, and else one more than the greatest rank among what is opened. A `var` line
/// that is answered as defined and gives a sequence adds one definition: its name, its expression as a
/// named query, and what the line itself opens, which is within the limits.
pub fn opened_queries()
    ensures size { FindsSize }
    ensures rank { FindsRank }
    ensures unread { OpensNothing }
    ensures stored { StoresOpening }
{}
