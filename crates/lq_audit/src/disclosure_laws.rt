//! Laws of what is disclosed about rows. Each function's contract is the law that it is named for; the
//! functions themselves do nothing.
ghost use Rattle.lq_audit.specs.DisclosureLaws.{ExplainsAlike};

/// Whoever began under a role that doesn't bypass row security gets the same answers whatever the rows
/// are that are hidden from the present role.
pub fn hidden_rows_stay_hidden()
    ensures { ExplainsAlike }
{}
