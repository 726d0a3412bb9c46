//! Laws of replies. Each function's contract is the law that it is named for; the functions
//! themselves do nothing.
ghost use Rattle.lq_machine.specs.NestedFaults.{NamesFirstFault, ServesFaultless};
ghost use Rattle.lq_machine.specs.ServedTypeLaws.{IsTypeServedBy};

/// The fault that a reply names in place of a value is the first one inside of it, depth first: a
/// record's members as written, a group's key before its elements, and in a sequence its items before
/// the fault that ends it. A value is served as it is exactly where no sequence in it ends with a
/// fault.
pub fn nested_faults<R>()
    ensures named { NamesFirstFault R }
    ensures served { ServesFaultless R }
{}

/// A line has the type by which its value is served exactly where the machine serves it so: it says
/// `run` of an expression that has this type, within the limits of opening; what isn't denied is
/// answered by the expression's meaning as a value of the type, and the state stays.
pub fn served_types()
    ensures { IsTypeServedBy }
{}
