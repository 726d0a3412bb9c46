//! Laws of typed forms. Each function's contract is the law that it is named for; the functions
//! themselves do nothing.
ghost use Rattle.lq_tree.specs.KindLaws.{DefaultsAreThere, EqualsOneKind, ItemsAreEnumerated, KeysAreSame, NoNumbersAreThere};
ghost use Rattle.lq_tree.specs.KindLaws.{NullIsNull, NumbersAreRead, OrdersNumbers, PairsHaveParts, RunsOnKinds, SortsOneKind, TakesOneAlike, TakesTwoAlike};
ghost use Rattle.lq_tree.specs.TypedFormLaws.{ConditionsMeetOperands, KeepsItems, KeepsShapes, KindsSuffice, MeetsOperands};
ghost use Rattle.lq_tree.specs.TypedFormLaws.{PlacesAreTyped, StatementsMeetOperands, TypedCalls, TypedConditions};
ghost use Rattle.lq_tree.specs.TypedFormLaws.{TypedExpressions, TypedStatements, TypedTrees};

/// The tree that a term is bound to is a typed form, under what the slots of its place hold, and gives
/// what the tree's type says; so are the tree of a query's calls, and that of a whole expression.
pub fn trees_are_typed()
    ensures terms { TypedTrees }
    ensures calls { TypedCalls }
    ensures expressions { TypedExpressions }
{}

/// Where each named query has a type, the places of a statement are typed; so the tree of
/// its expression is a typed form with no slot in use, and that of a condition on the rows of a table
/// one with a row of the table in the first slot.
pub fn statements_are_typed()
    ensures places { PlacesAreTyped }
    ensures statements { TypedStatements }
    ensures conditions { TypedConditions }
{}

/// Where tables have their rows, a typed form whose slots hold what they are said to hold gives a
/// fault, or a value such as it is typed to give; and what it is enumerated as are such items.
pub fn evaluation_keeps_types<R>()
    ensures values { KeepsShapes R }
    ensures items { KeepsItems R }
{}

/// And wherever it is run so, each operand that it meets, in a lambda too, is a fault or of the kind
/// that is asked of it, decided by the values alone: so it is where a statement's tree is run, and
/// where that of a condition is, on a row with the cells of its table.
pub fn operands_are_of_their_kinds<R>()
    ensures forms { MeetsOperands R }
    ensures statements { StatementsMeetOperands R }
    ensures conditions { ConditionsMeetOperands R }
{}

/// What is run on operands of these kinds means the same whatever is put where there is no meaning: no
/// case of its meaning that answers this for an operand of another kind is reached.
pub fn kinds_suffice<R>()
    ensures { KindsSuffice R }
{}

/// Operands of these kinds don't meet the answers either that stand for one of another kind and don't
/// ask what is unknown: a pair is its two parts, two keys are the same by their contents or member by
/// member, a sort compares two scalars of one kind, all numbers of items are read, what is enumerated
/// has its own items, and a default is that of a type that has one. Null alone is null. So it is
/// wherever a form is run on operands of their kinds.
pub fn kinds_exclude_others<R>()
    ensures pairs { PairsHaveParts R }
    ensures keys { KeysAreSame R }
    ensures order { SortsOneKind R }
    ensures numbers { NumbersAreRead R }
    ensures items { ItemsAreEnumerated R }
    ensures defaults { DefaultsAreThere R }
    ensures null { NullIsNull R }
    ensures forms { RunsOnKinds R }
{}

/// The same of scalars: an operator works on the operands that the laws of operators say it takes; on
/// these `<` and `==` answer by their contents, and by which of them is null, alone; and the least or
/// greatest of no number is a fault of `int`, and null of `int?`.
pub fn kinds_of_scalars()
    ensures one { TakesOneAlike }
    ensures two { TakesTwoAlike }
    ensures less { OrdersNumbers }
    ensures equal { EqualsOneKind }
    ensures none { NoNumbersAreThere }
{}
