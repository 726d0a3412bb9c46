//! Laws of the grammar. Each function's contract is the law that it is named for; the functions
//! themselves do nothing.
ghost use Rattle.lq_grammar.specs.GrammarLaws.{IsOneStatement, IsOneCondition, ReadsSpelledStatements, ReadsSpelledConditions};

/// A list of tokens spells at most one statement, and at most one condition.
pub fn one_tree()
    ensures statement { IsOneStatement }
    ensures condition { IsOneCondition }
{}

/// The function that reads the tokens of a line gives a statement exactly where the grammar says
/// that they spell it.
pub fn statement_is_spelled()
    ensures { ReadsSpelledStatements }
{}

/// The function that reads the tokens of a rule gives an expression exactly where the grammar says
/// that they spell it as a condition.
pub fn condition_is_spelled()
    ensures { ReadsSpelledConditions }
{}
