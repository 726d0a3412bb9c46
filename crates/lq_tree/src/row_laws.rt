//! Laws of rows. Each function's contract is the law that it is named for; the functions themselves
//! do nothing.
ghost use Rattle.lq_tree.specs.RowLaws.{MeansAlikeOverRows, ServesAlikeOverRows, StreamsAlikeOverRows};

/// What a tree means depends on the cells of the rows alone: over rows of another kind that have the
/// same cells it means the same, with each row replaced by the one that represents it; the same
/// faults come, and the same streams.
pub fn means_alike_over_rows<R, S>()
    ensures meaning { MeansAlikeOverRows R S }
    ensures stream { StreamsAlikeOverRows R S }
{}

/// The reply that serves a stream or a value of a type depends on the cells of the rows alone.
pub fn serves_alike_over_rows<R, S>()
    ensures { ServesAlikeOverRows R S }
{}
