//! Laws of the lines that are read. Each function's contract is the law that it is named for; the functions
//! themselves do nothing.
ghost use Rattle.lq_render.specs.Readings.{PutKeepsOrder, ShowsData, ShowsMemoryLine, ShowsReplies, SortedIsOrdered};

/// The line of data, its compact text and a line feed, is shown as the data is: where the data has integers
/// alone, and its members are in the order of their names' bytes. Members that are put in by their names are.
pub fn lines_of_data()
    ensures shown { ShowsData }
    ensures ordered { PutKeepsOrder }
{}

/// Whatever a session answers to a line is the line of data whose members are in the order of their names' bytes, the
/// memory line too. Where its numbers are integers within 64 bits and it is nested at most 127 deep, it is shown as this
/// data is.
pub fn lines_of_replies()
    ensures ordered { SortedIsOrdered }
    ensures shown { ShowsReplies }
    ensures memory { ShowsMemoryLine }
{}
