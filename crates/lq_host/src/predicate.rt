//! Host predicates.
ghost use Rattle.std.specs.Prelude.{◌≡◌, true, is_some, Some};
ghost use Rattle.lq_host.specs.Predicates.{arity_of, domain_answer, domain_of, ranges_of};

use crate::call::Pick2;
use crate::error::HostError;
use crate::one::OneTest;
use crate::ranges::is_within;
use crate::two::TwoTest;
use lq_value::Txt;

/// A test of one argument or of two.
#[derive(Drop)]
pub(crate) enum Test {
    One(OneTest),
    Two(TwoTest),
}

/// A predicate of a host: a name, and a test of one number or of two.
#[derive(Drop)]
pub struct HostPredicate {
    pub(crate) name: Txt,
    pub(crate) test: Test,
}

impl Test {
    /// The range of the first argument, and that of the second.
    pub(crate) fn ranges(&self) -> ((i32, i32), Option<(i32, i32)>)
        ensures { result ≡ ranges_of (domain_of self.now) }
    {
        match self {
            Test::One(one) => (one.range, None),
            Test::Two(two) => (two.ranges.0, Some(two.ranges.1)),
        }
    }

    /// How many arguments it takes.
    pub(crate) fn arity(&self) -> u16
        ensures { result ≡ arity_of (domain_of self.now) }
    {
        match self {
            Test::One(_) => 1,
            Test::Two(_) => 2,
        }
    }

    /// Whether these arguments are within its range.
    pub(crate) fn is_within(&self, arguments: Pick2) -> bool
        ensures { result ≡ is_some (domain_answer (domain_of self.now) arguments) }
    {
        match (self, arguments) {
            (Test::One(one), Pick2::One(number)) => is_within(one.range, number),
            (Test::Two(two), Pick2::Two(first, second)) => two.is_within(first, second),
            _ => false,
        }
    }

    /// The answer to arguments in its range, by a call of its closure.
    pub(crate) fn answer(&self, arguments: Pick2) -> bool
        requires { is_some (domain_answer (domain_of self.now) arguments) ≡ true }
        ensures { domain_answer (domain_of self.now) arguments ≡ Some result }
    {
        match (self, arguments) {
            (Test::One(one), Pick2::One(number)) => one.answer(number),
            (Test::Two(two), Pick2::Two(first, second)) => two.answer(first, second),
            _ => false,
        }
    }
}

impl HostPredicate {
    ghost use Rattle.std.specs.Prelude.{◌≡◌, ℤ, string_bytes, true};
    ghost use Rattle.std.specs.Ordering.{int_cmp};
    ghost use Rattle.lq_host.specs.AcceptedSets.{Accepted, AnswersBy, Numbers, Pairs, is_within, is_within_both, pair_cmp};
    ghost use Rattle.lq_host.specs.Predicates.{OfOne, OfTwo, made_of, shown_made};

    /// The predicate of this name whose test is `f`, over the numbers from `lo` to `hi`. The test may be called on each of them, and it
    /// answers true exactly on a finite set of them. Refuses with `EmptyRange` where `lo` is greater than `hi`. Takes no memory.
    pub fn new(
        name: String,
        lo: i32,
        hi: i32,
        f: Box<dyn Fn(i32) -> bool>,
    ) -> Result<HostPredicate, HostError>
        requires callable { (x : ℤ) → is_within (lo, hi) x ≡ true → pre f x }
        requires accepted { Accepted int_cmp (is_within (lo, hi)) (λ x answer. post f x answer) }
        ensures { (set : Numbers)
            → AnswersBy (is_within (lo, hi)) (λ x answer. post f x answer) set
            → shown_made result ≡ made_of (string_bytes name) (OfOne (lo, hi) set) }
    {
        if lo > hi {
            return Err(HostError::EmptyRange);
        }
        let test = OneTest::new((lo, hi), f);
        Ok(HostPredicate {
            name: Txt::from_string(name),
            test: Test::One(test),
        })
    }

    /// The predicate of this name whose test is `f`, over the pairs of a number of `first` and one of `second`, each range given by its
    /// least and its greatest number. The test may be called on each of these pairs, and it answers true exactly on a finite set of
    /// them. Refuses with `EmptyRange` where the least number of a range is greater than the greatest. Takes no memory.
    pub fn new2(
        name: String,
        first: (i32, i32),
        second: (i32, i32),
        f: Box<dyn Fn(i32, i32) -> bool>,
    ) -> Result<HostPredicate, HostError>
        requires callable { (x y : ℤ) → is_within_both (first, second) (x, y) ≡ true → pre f x y }
        requires accepted { Accepted pair_cmp (is_within_both (first, second))
            (λ p answer. post f p.0 p.1 answer) }
        ensures { (set : Pairs)
            → AnswersBy (is_within_both (first, second)) (λ p answer. post f p.0 p.1 answer) set
            → shown_made result ≡ made_of (string_bytes name) (OfTwo (first, second) set) }
    {
        if first.0 > first.1 || second.0 > second.1 {
            return Err(HostError::EmptyRange);
        }
        let test = TwoTest::new((first, second), f);
        Ok(HostPredicate {
            name: Txt::from_string(name),
            test: Test::Two(test),
        })
    }
}
