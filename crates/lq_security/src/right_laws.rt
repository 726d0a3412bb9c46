//! Laws of rights. Each function's contract is the law that it is named for; the functions themselves
//! do nothing.
ghost use Rattle.lq_security.specs.DenialLaws.{DeniesFirst, NamesDenier};
ghost use Rattle.lq_security.specs.RightLaws.{DeniesTheRest, DeniesWithoutGrants, GrantsMore, TellsUses, WithholdsMore};

/// The function that decides on rights gives exactly what a role may use: what some grant that applies
/// covers and no withhold that applies does, and a table where this is so of one of its columns. And
/// nothing is denied exactly where the role may use each of the uses.
pub fn rights_of_roles()
    ensures uses { TellsUses }
    ensures denials { DeniesTheRest }
{}

/// One withhold more never turns a denial into an answer, and one grant more never turns an answer
/// into a denial.
pub fn one_rule_more()
    ensures withhold { WithholdsMore }
    ensures grant { GrantsMore }
{}

/// A role to which no grant applies is denied whatever uses a table or a column.
pub fn no_right_without_a_grant()
    ensures { DeniesWithoutGrants }
{}

/// What a role may not use is denied under the name of the first withhold that concerns it: that applies
/// to the role and covers the use, or of a table a column of it; and as one without a grant where no
/// withhold does. Of a list of uses the first is denied that the role may not use.
pub fn named_denials()
    ensures name { NamesDenier }
    ensures first { DeniesFirst }
{}
