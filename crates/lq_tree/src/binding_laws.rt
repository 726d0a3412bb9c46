//! Laws of binding. Each function's contract is the law that it is named for; the functions
//! themselves do nothing.
ghost use Rattle.lq_tree.specs.BindingLaws.{BindsExpressions, BindsQueries, MeaningsOfCalls};
ghost use Rattle.lq_tree.specs.BindingLaws.{MeaningsOfTrees, TypesOfCalls, TypesOfTrees, UsesOfCalls, UsesOfExpressions, UsesOfTrees};

/// A term is bound to a tree at a place exactly where it has a type there, and the tree's type is
/// that; and so are the calls of a query, whose tree is of the type of a sequence of their items.
pub fn types_of_trees()
    ensures terms { TypesOfTrees }
    ensures calls { TypesOfCalls }
{}

/// Where tables have their rows, and the slots hold what reaches the values of all local names, which
/// are of their types, a tree means what its term means, values and faults alike; and what it gives is
/// of its type. So the tree of a query's calls is the sequence of their stream, items and ending alike.
pub fn meanings_of_trees<R>()
    ensures terms { MeaningsOfTrees R }
    ensures calls { MeaningsOfCalls R }
{}

/// The same of whole expressions, through the terms that they are translated to: each that has a type
/// is bound to a tree of that type, which means what the expression means; and so is each query, whose
/// tree is the sequence of its stream.
pub fn trees_of_expressions<R>()
    ensures expressions { BindsExpressions R }
    ensures queries { BindsQueries R }
{}

/// A tree uses what its term uses, tables, columns and host predicates in the order of the text, and so what the
/// expression uses that was translated to it; and so does the tree of the calls of a query.
pub fn uses_of_trees()
    ensures terms { UsesOfTrees }
    ensures calls { UsesOfCalls }
    ensures expressions { UsesOfExpressions }
{}
