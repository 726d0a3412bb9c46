//! Laws of what guarded leaves hand out. Each function's contract is the law that it is named for; the functions themselves do nothing.
ghost use Rattle.lq_guard.specs.GuardLaws.{HandsOutTablesAsSeen, HandsOutVisibleRows, ReadsTablesAsSeen};
ghost use Rattle.lq_guard.specs.GuardLaws.{MeansAlikeForSelect, MeansHeadForAction};

/// The scans of all tables, for a role that reads them, hand out the tables as seen; and a scan for any action hands out visible rows alone.
pub fn scans_hand_out()
    ensures tables { HandsOutTablesAsSeen }
    ensures visible { HandsOutVisibleRows }
{}

/// A tree that is guarded for select means what the tree means over the tables as seen.
pub fn trees_read_tables_as_seen()
    ensures { ReadsTablesAsSeen }
{}

/// So it is over any rows that may be read: a form that is guarded for select means what the form means. And a condition on the rows of a
/// table, where these are guarded for another action, is asked of the rows with which this may be done; what it reads itself are rows that
/// may be read.
pub fn guarded_forms_mean<R>()
    ensures select { MeansAlikeForSelect R }
    ensures head { MeansHeadForAction R }
{}
