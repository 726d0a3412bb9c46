//! What the predicates answer.
ghost use Rattle.std.specs.Prelude.{◌≡◌};
ghost use Rattle.lq_predicates.specs.ProgramPredicates.{is_among, is_leap_year, is_under};

/// Whether a year is a leap year of the Gregorian calendar: one that 4 divides, but no full century, unless 400 divides it.
pub fn is_leap_year(year: i32) -> bool
    ensures { result ≡ is_leap_year year }
{
    year % 4 == 0 && year % 100 != 0 || year % 400 == 0
}

/// Whether the first number is less than the second.
pub fn is_under(first: i32, second: i32) -> bool
    ensures { result ≡ is_under (first, second) }
{
    first < second
}

/// Whether a number is among some.
pub fn is_among(numbers: &[i32], number: i32) -> bool
    ensures { result ≡ is_among numbers.now number }
{
    numbers.contains(&number)
}
