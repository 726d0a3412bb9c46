//! Comparisons of a cell with a number, as ranges of numbers, ready to be asked of many rows.
ghost use Rattle.std.specs.Prelude.{◌≡◌, ◌&&◌, int_le, ℤ, Ok, true, IfSome};
ghost use Rattle.lq_value.specs.declared.scalar.Scalar.TheVariants as scalar;
ghost use Rattle.lq_value.specs.declared.value.Fault.TheVariants as fault;
ghost use Rattle.lq_language.specs.Operations.{compared, is_int};
ghost use Rattle.lq_rule.specs.Deciding.{AgreesWithin};
ghost use Rattle.lq_rule.specs.declared.prepared.Prepared.TheVariants as prepared;

use crate::prepared::Prepared;
use lq_grammar::Binary;
use lq_value::Scalar;

/// The numbers from the least to the greatest.
#[derive(Clone, Copy, Drop)]
struct Ends {
    least: i32,
    greatest: i32,
}

/// A range of numbers for the cell at a place.
#[derive(Clone, Copy, Drop)]
pub(crate) struct Range {
    place: usize,
    ends: Ends,
}

/// The numbers for which a sign is true beside a number; none where they have no least and greatest.
#[tactic(auto, using(crate::proofs::RangeLemmas::ends))]
fn numbers_beside(sign: Binary, number: i32) -> Option<Ends>
    ensures { IfSome result (λ ends. (n : ℤ) → is_int n ≡ true
        → compared fault.NullReference sign (scalar.Int n) (scalar.Int number)
        ≡ Ok (int_le ends.least n && int_le n ends.greatest)) }
{
    match sign {
        Binary::Less => Some(Ends {
            least: i32::MIN,
            greatest: number.checked_sub(1)?,
        }),
        Binary::Greater => Some(Ends {
            least: number.checked_add(1)?,
            greatest: i32::MAX,
        }),
        Binary::LessOrEqual => Some(Ends {
            least: i32::MIN,
            greatest: number,
        }),
        Binary::GreaterOrEqual => Some(Ends {
            least: number,
            greatest: i32::MAX,
        }),
        Binary::Equal => Some(Ends {
            least: number,
            greatest: number,
        }),
        _ => None,
    }
}

/// The range that a sign between the cell at a place and a number is.
#[tactic(auto, using(crate::proofs::RangeLemmas::range_agrees))]
fn range_of_sign(sign: Binary, place: usize, number: i32) -> Option<Range>
    ensures { IfSome result
        (AgreesWithin (prepared.WithLiteral sign place (scalar.Int number))) }
{
    Some(Range {
        place,
        ends: numbers_beside(sign, number)?,
    })
}

impl Ends {
    ghost use Rattle.std.specs.Prelude.{◌≡◌, ◌&&◌, int_le};

    /// Whether a number is from the least to the greatest.
    #[inline(always)]
    fn contain(&self, number: i32) -> bool
        ensures { result ≡ int_le self.now.least number && int_le number self.now.greatest }
    {
        self.least <= number && number <= self.greatest
    }
}

impl Range {
    ghost use Rattle.std.specs.Prelude.{◌≡◌, IfSome};
    ghost use Rattle.lq_rule.specs.Deciding.{AgreesWithin};
    ghost use Rattle.lq_rule.specs.Ranges.{range_verdict};

    /// The range that a tree is, if it is one.
    pub(crate) fn of(tree: &Prepared) -> Option<Range>
        ensures { IfSome result (AgreesWithin tree.now) }
    {
        match tree {
            Prepared::WithLiteral(sign, place, Scalar::Int(number)) => {
                range_of_sign(*sign, *place, *number)
            }
            _ => None,
        }
    }

    /// Whether the number in the cell is one of the range; nothing, where there is no number.
    #[inline(always)]
    #[tactic(auto, using(lq_language::proofs::IntLaws::fit_is))]
    pub(crate) fn verdict(&self, cells: &[Scalar]) -> Option<bool>
        ensures { result ≡ range_verdict self.now cells.now }
    {
        match cells.get(self.place) {
            Some(Scalar::Int(number)) => Some(self.ends.contain(*number)),
            _ => None,
        }
    }
}
