//! A test of one number.
ghost use Rattle.std.specs.Prelude.{◌≡◌, ℤ, true};
ghost use Rattle.std.specs.Ordering.{int_cmp};
ghost use Rattle.lq_host.specs.AcceptedSets.{Accepted, is_within, accepted_numbers-prop};

/// A test of one number, which is only ever asked of numbers of its range. It knows its accepted set.
#[derive(Drop)]
pub(crate) struct OneTest {
    pub(crate) range: (i32, i32),
    pub(crate) test: Box<dyn Fn(i32) -> bool>,
    pub(crate) ghost callable: { (x : ℤ) → is_within range x ≡ true → pre test x },
    pub(crate) ghost accepted: { Accepted int_cmp (is_within range)
        (λ x answer. post test x answer) } by { accepted_numbers-prop _ _ },
}

impl OneTest {
    ghost use Rattle.std.specs.Prelude.{◌≡◌, ℤ, true};
    ghost use Rattle.std.specs.Ordering.{int_cmp};
    ghost use Rattle.std.specs.FinSet.{contains};
    ghost use Rattle.lq_host.specs.AcceptedSets.{Accepted, AnswersBy, Numbers, is_within};
    ghost use Rattle.lq_host.specs.Predicates.{numbers_of};

    /// The test of numbers from the first of `range` to the second.
    pub(crate) fn new(range: (i32, i32), test: Box<dyn Fn(i32) -> bool>) -> OneTest
        requires callable { (x : ℤ) → is_within range x ≡ true → pre test x }
        requires accepted { Accepted int_cmp (is_within range) (λ x answer. post test x answer) }
        ensures range { result.range ≡ range }
        ensures accepted { (set : Numbers)
            → AnswersBy (is_within range) (λ x answer. post test x answer) set
            → numbers_of result ≡ set }
    {
        OneTest { range, test }
    }

    /// The answer to a number of the range, by a call of the closure.
    pub(crate) fn answer(&self, argument: i32) -> bool
        requires { is_within self.now.range argument ≡ true }
        ensures { result ≡ contains (numbers_of self.now) argument }
    {
        (self.test)(argument)
    }
}
