//! Ranges of numbers.
ghost use Rattle.std.specs.Prelude.{◌≡◌};
ghost use Rattle.lq_host.specs.AcceptedSets.{is_within};

/// Whether `number` is no less than the first of `range` and no greater than the second.
pub(crate) fn is_within(range: (i32, i32), number: i32) -> bool
    ensures { result ≡ is_within range number }
{
    range.0 <= number && number <= range.1
}
