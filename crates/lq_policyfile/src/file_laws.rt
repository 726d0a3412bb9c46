//! The law of policy files. The function's contract is the law that it is named for; the function
//! itself does nothing.
ghost use Rattle.lq_policyfile.specs.FileLaws.{ReadsForTables};

/// What a policy file says of the tables of a store are policies for these tables, whatever host
/// predicates are known, by which the laws of row policies speak of their rules: each is typed as a
/// truth value over the columns of its policy's table, where no predicate is known, and can't fault.
pub fn policies_are_read_for_tables()
    ensures { ReadsForTables }
{}
