//! Laws of table files. Each function's contract is the law that it is named for; the functions
//! themselves do nothing.
ghost use Rattle.lq_load.specs.TableLaws.{MeansTable, TellsFirstFault};

/// A file means the table whose columns are those of its header and whose rows, numbered from 1, are
/// its further records, cell by cell. It means none exactly where it has a fault, and is refused for
/// the first: more bytes than a file may have; no header, or more columns than a table may have; in
/// the header the first cell that isn't a column, or has the name of one before it; then in the first
/// wrong record another number of fields than columns, or else the first cell that its column can't
/// hold.
pub fn table_files()
    ensures table { MeansTable }
    ensures fault { TellsFirstFault }
{}
