//! A test of two numbers.
ghost use Rattle.std.specs.Prelude.{◌≡◌, ℤ, true};
ghost use Rattle.lq_host.specs.AcceptedSets.{Accepted, is_within_both, pair_cmp, accepted_pairs-prop};

use crate::ranges::is_within;

/// A test of two numbers, which is only ever asked of pairs of its rectangle. It knows its accepted set.
#[derive(Drop)]
pub(crate) struct TwoTest {
    pub(crate) ranges: ((i32, i32), (i32, i32)),
    pub(crate) test: Box<dyn Fn(i32, i32) -> bool>,
    pub(crate) ghost callable: { (x y : ℤ) → is_within_both ranges (x, y) ≡ true → pre test x y },
    pub(crate) ghost accepted: { Accepted pair_cmp (is_within_both ranges)
        (λ p answer. post test p.0 p.1 answer) } by { accepted_pairs-prop _ _ },
}

impl TwoTest {
    ghost use Rattle.std.specs.Prelude.{◌≡◌, ℤ, true};
    ghost use Rattle.std.specs.FinSet.{contains};
    ghost use Rattle.lq_host.specs.AcceptedSets.{Accepted, AnswersBy, Pairs, is_within_both, pair_cmp};
    ghost use Rattle.lq_host.specs.Predicates.{pairs_of};

    /// The test of pairs of the rectangle of two ranges.
    pub(crate) fn new(
        ranges: ((i32, i32), (i32, i32)),
        test: Box<dyn Fn(i32, i32) -> bool>,
    ) -> TwoTest
        requires callable { (x y : ℤ) → is_within_both ranges (x, y) ≡ true → pre test x y }
        requires accepted { Accepted pair_cmp (is_within_both ranges)
            (λ p answer. post test p.0 p.1 answer) }
        ensures ranges { result.ranges ≡ ranges }
        ensures accepted { (set : Pairs)
            → AnswersBy (is_within_both ranges) (λ p answer. post test p.0 p.1 answer) set
            → pairs_of result ≡ set }
    {
        TwoTest { ranges, test }
    }

    /// Whether a pair is in the rectangle.
    pub(crate) fn is_within(&self, first: i32, second: i32) -> bool
        ensures { result ≡ is_within_both self.now.ranges (first, second) }
    {
        is_within(self.ranges.0, first) && is_within(self.ranges.1, second)
    }

    /// The answer to a pair of the rectangle, by a call of the closure.
    pub(crate) fn answer(&self, first: i32, second: i32) -> bool
        requires { is_within_both self.now.ranges (first, second) ≡ true }
        ensures { result ≡ contains (pairs_of self.now) (first, second) }
    {
        self.call(first, second)
    }

    /// What the closure gives to a pair of the rectangle.
    fn call(&self, first: i32, second: i32) -> bool
        requires { is_within_both self.now.ranges (first, second) ≡ true }
        ensures { post self.now.test first second result }
    {
        (self.test)(first, second)
    }
}
