//! The laws of total rules. Each function's contract is the law that it is named for; the functions
//! themselves do nothing.
ghost use Rattle.lq_security.specs.RuleLaws.{HoldsAsMeant};
ghost use Rattle.lq_security.specs.TotalityLaws.{DecidesRules, TellsTotal};

/// The function that looks whether a rule can fault gives exactly the rules that are total by their
/// form.
pub fn total_rules_are_told()
    ensures { TellsTotal }
{}

/// A total rule that is typed has a truth value on every row of the schema and for every user: it
/// can't fault.
pub fn total_rules_decide()
    ensures { DecidesRules }
{}

/// Policies are decided by what the language says: on every row whose cells are of the columns'
/// types, and for every user, a total rule that is typed as a truth value has the value that
/// `rule_holds` gives.
pub fn total_rules_hold_as_meant()
    ensures { HoldsAsMeant }
{}
