//! Laws of the typing rules. Each function's contract is the law that it is named for; the
//! functions themselves do nothing.
ghost use Rattle.lq_language.specs.RuleTypingLaws.{FindsRuleTypes, HasOneRuleType, KeepsRuleTypes};
ghost use Rattle.lq_language.specs.TypingLaws.{FindsQueryItems, FindsTypes, GivesOneType, HasOneType, LimitsItems, LimitsTypes};

/// In the rule language an expression has at most one type under given names.
pub fn one_rule_type()
    ensures { HasOneRuleType }
{}

/// The function that looks for a type in the rule language finds exactly the type that its rules give.
pub fn rule_type_is_found()
    ensures { FindsRuleTypes }
{}

/// What has a type in the rule language has the same type in the whole language.
pub fn rule_types_are_kept()
    ensures { KeepsRuleTypes }
{}

/// An expression has at most one type under given names, by rules for each
/// form, clause and method of sequences; and so have the items of a query.
pub fn one_type()
    ensures expression { HasOneType }
    ensures query { GivesOneType }
{}

/// The function that looks for a type finds exactly the type that these rules
/// give, for expressions and for the items of queries.
pub fn types_are_found()
    ensures expression { FindsTypes }
    ensures query { FindsQueryItems }
{}

/// Where the types of local names and of the session's names have at most 4,096 parts, so have those of
/// all expressions, and of the sequences of all queries' items.
pub fn types_are_limited()
    ensures expression { LimitsTypes }
    ensures query { LimitsItems }
{}
