//! Laws of what sessions serve. Each function's contract is the law that it is named for; the
//! functions themselves do nothing.
ghost use Rattle.lq_session.specs.StoredMeanings.{ServesStoredMeanings};

/// Over the tables that a store keeps and names that mean what `var` defined, no reply to `run` depends on what is put where an expression
/// has no meaning: what is served has one.
pub fn served_meanings()
    ensures { ServesStoredMeanings }
{}
