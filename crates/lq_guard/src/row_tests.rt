//! Tests of rows.
use lq_value::Scalar;

/// What is asked of a row's cells, to find out whether the row is wanted.
pub trait RowTest {
    ghost use Rattle.std.specs.Prelude.{◌≡◌, List, Option, Bool};
    ghost use Rattle.lq_value.specs.declared.scalar.Scalar.{Scalar};

    ghost verdict_of: { Self → List Scalar → Option Bool };

    /// Whether a row with these cells is wanted, or nothing, where that has to be found out in another way. Takes no memory.
    fn verdict(&self, cells: &[Scalar]) -> Option<bool>
        ensures { result ≡ verdict_of self.now cells.now };
}
