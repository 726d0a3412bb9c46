//! Prepared conditions: how they are built, and what they say of the cells of a row.
ghost use Rattle.std.specs.Prelude.{◌≡◌, IfSome};
ghost use Rattle.lq_condition.specs.Verdicts.{both_verdicts, either_verdict, not_verdict, verdict};
ghost use Rattle.lq_value.specs.declared.scalar.Scalar.TheVariants as scalar;
ghost use Rattle.lq_condition.specs.declared.condition.Condition.TheVariants as condition;

use crate::verdicts::{
    cell_at, cells_verdict, literal_verdict, number_in, number_verdict, search_verdict,
    truth_verdict, value_verdict,
};
use lq_grammar::Binary;
use lq_language::Op;
use lq_value::{Held, Scalar, Txt, copy_scalar};
use std::alloc::{AllocError, Global};

/// A condition on the cells of a row, each named by its place. Of a row without that cell, and where
/// a fault is met, it says nothing.
#[derive(Drop)]
pub enum Condition {
    /// It says nothing of any row.
    Silent,
    /// It says the same of every row.
    Constant(bool),
    /// A sign between the cell at a place and a number.
    Number(Binary, usize, i32),
    /// A sign between the cell at a place and a scalar.
    Literal(Binary, usize, Scalar),
    /// A method that looks for a text in the cell at a place.
    Search(Op, usize, Txt),
    /// A sign between the cells at two places.
    Cells(Binary, usize, usize),
    /// The truth value in the cell at a place.
    Truth(usize),
    /// Whether the cell at a place has a value.
    HasValue(usize),
    /// `!`
    Not(Held<Condition>),
    /// `&&`. What follows a first operand stands in the second one, so that a chain is a list.
    Both(Held<Condition>, Held<Condition>),
    /// `||`
    Either(Held<Condition>, Held<Condition>),
}

/// A sign between the cell at a place and a number.
fn number_condition(sign: Binary, place: usize, number: i32) -> Condition
    ensures { result ≡ condition.Number sign place number }
{
    Condition::Number(sign, place, number)
}

impl Condition {
    ghost use Rattle.std.specs.Prelude.{◌≡◌, IfOk};
    ghost use Rattle.lq_condition.specs.Verdicts.{IsBoth, IsCells, IsEither, IsNot, IsSearch, IsSign, IsTruth, IsValue, verdict};

    /// A sign between the cell at a place and a scalar: what it gives is said where it is a truth
    /// value. Refused where there was no memory for a copy of a text.
    #[tactic(auto, using(crate::proofs::ConditionLaws::conditions_made))]
    pub fn sign(
        alloc: Global,
        sign: Binary,
        place: usize,
        operand: &Scalar,
    ) -> Result<Condition, AllocError>
        ensures { IfOk result (IsSign sign place operand.now) }
    {
        match number_in(operand) {
            Some(number) => Ok(number_condition(sign, place, number)),
            None => Ok(Condition::Literal(sign, place, copy_scalar(alloc, operand)?)),
        }
    }

    /// Whether the text in the cell at a place begins with another, ends with it or has it somewhere,
    /// as the method says; nothing where one of them isn't a text, and for any other operator. Refused
    /// where there was no memory for a copy of the text that is looked for.
    #[tactic(auto, using(crate::proofs::ConditionLaws::searches_made))]
    pub fn search(
        alloc: Global,
        op: Op,
        place: usize,
        needle: &Scalar,
    ) -> Result<Condition, AllocError>
        ensures { IfOk result (IsSearch op place needle.now) }
    {
        match needle {
            Scalar::Text(needle) => {
                let needle = Txt::from_str(alloc, needle.as_str())?;
                Ok(Condition::Search(op, place, needle))
            }
            _ => Ok(Condition::Silent),
        }
    }

    /// A sign between the cells at two places: what it gives is said where it is a truth value.
    #[tactic(auto, using(crate::proofs::ConditionLaws::places_made))]
    pub fn cells(sign: Binary, left: usize, right: usize) -> Condition
        ensures { IsCells sign left right result }
    {
        Condition::Cells(sign, left, right)
    }

    /// The truth value in the cell at a place; nothing where another scalar is there.
    #[tactic(auto, using(crate::proofs::ConditionLaws::places_made))]
    pub fn truth(place: usize) -> Condition
        ensures { IsTruth place result }
    {
        Condition::Truth(place)
    }

    /// Whether the number in the cell at a place is there, or null is (.NET, `Nullable<int>.HasValue`);
    /// nothing where another scalar is there.
    #[tactic(auto, using(crate::proofs::ConditionLaws::places_made))]
    pub fn has_value(place: usize) -> Condition
        ensures { IsValue place result }
    {
        Condition::HasValue(place)
    }

    /// `!`: the opposite of what a condition says. Refused where no memory was left.
    #[tactic(auto, using(crate::proofs::ConditionLaws::opposites_made))]
    pub fn not(alloc: Global, condition: Condition) -> Result<Condition, AllocError>
        ensures { IfOk result (IsNot condition) }
    {
        match condition {
            Condition::Silent => Ok(Condition::Silent),
            Condition::Constant(truth) => Ok(Condition::Constant(!truth)),
            condition => Ok(Condition::Not(Held::new(alloc, condition)?)),
        }
    }

    /// `&&`: false where the first says so, and where the first is true what the second says. Refused
    /// where no memory was left.
    #[tactic(auto, using(crate::proofs::ConditionLaws::conditions_made))]
    pub fn both(alloc: Global, left: Condition, right: Condition) -> Result<Condition, AllocError>
        ensures { IfOk result (IsBoth left right) }
    {
        match left {
            Condition::Constant(true) => Ok(right),
            Condition::Silent => Ok(Condition::Silent),
            Condition::Both(first, second) => {
                let rest = Condition::both(alloc, second.into_inner(), right)?;
                Ok(Condition::Both(first, Held::new(alloc, rest)?))
            }
            left => Ok(Condition::Both(Held::new(alloc, left)?, Held::new(alloc, right)?)),
        }
    }

    /// `||`: true where the first says so, and where the first is false what the second says. Refused
    /// where no memory was left.
    #[tactic(auto, using(crate::proofs::ConditionLaws::conditions_made))]
    pub fn either(alloc: Global, left: Condition, right: Condition) -> Result<Condition, AllocError>
        ensures { IfOk result (IsEither left right) }
    {
        match left {
            Condition::Silent => Ok(Condition::Silent),
            left => Ok(Condition::Either(Held::new(alloc, left)?, Held::new(alloc, right)?)),
        }
    }

    /// Whether the condition is true on a row with these cells, where it says so. Takes no memory and
    /// has no fault.
    #[cycle(verdicts)]
    #[inline]
    #[tactic(auto, using(crate::proofs::ConditionLaws::verdicts))]
    pub fn verdict(&self, cells: &[Scalar]) -> Option<bool>
        ensures { result ≡ verdict self.now cells.now }
    {
        match self {
            Condition::Both(left, right) => both_verdict(left.get(), right.get(), cells),
            _ => self.single_verdict(cells),
        }
    }

    /// The same, without a call where a number is compared, as most conditions do.
    #[cycle(verdicts)]
    #[inline]
    #[tactic(auto, using(crate::proofs::ConditionLaws::verdicts))]
    fn single_verdict(&self, cells: &[Scalar]) -> Option<bool>
        ensures { result ≡ verdict self.now cells.now }
    {
        match self {
            Condition::Number(sign, place, number) => {
                number_verdict(*sign, cell_at(cells, *place), *number)
            }
            _ => self.any_verdict(cells),
        }
    }

    /// The same, with an arm for each form.
    #[cycle(verdicts)]
    #[inline(never)]
    #[tactic(auto, using(crate::proofs::ConditionLaws::verdicts))]
    fn any_verdict(&self, cells: &[Scalar]) -> Option<bool>
        ensures { result ≡ verdict self.now cells.now }
    {
        match self {
            Condition::Silent => None,
            Condition::Constant(truth) => Some(*truth),
            Condition::Number(sign, place, number) => {
                number_verdict(*sign, cell_at(cells, *place), *number)
            }
            Condition::Literal(sign, place, literal) => {
                literal_verdict(*sign, cell_at(cells, *place), literal)
            }
            Condition::Search(op, place, needle) => {
                search_verdict(*op, cell_at(cells, *place), needle.as_str())
            }
            Condition::Cells(sign, left, right) => {
                cells_verdict(*sign, cell_at(cells, *left), cell_at(cells, *right))
            }
            Condition::Truth(place) => truth_verdict(cell_at(cells, *place)),
            Condition::HasValue(place) => value_verdict(cell_at(cells, *place)),
            Condition::Not(operand) => not_verdict(operand.get(), cells),
            Condition::Both(left, right) => both_verdict(left.get(), right.get(), cells),
            Condition::Either(left, right) => either_verdict(left.get(), right.get(), cells),
        }
    }
}

/// What `!` before a condition says.
#[cycle(verdicts)]
#[inline(never)]
fn not_verdict(operand: &Condition, cells: &[Scalar]) -> Option<bool>
    ensures { result ≡ not_verdict (verdict operand.now cells.now) }
{
    match operand.verdict(cells) {
        Some(truth) => Some(!truth),
        None => None,
    }
}

/// What `&&` between two conditions says. A chain of them is gone down in one frame of the stack.
#[cycle(verdicts)]
#[inline(never)]
#[tactic(auto, using(crate::proofs::ConditionLaws::verdicts))]
fn both_verdict(left: &Condition, right: &Condition, cells: &[Scalar]) -> Option<bool>
    ensures { result ≡ both_verdicts (verdict left.now cells.now) (verdict right.now cells.now) }
{
    let mut first = left;
    let mut rest = right;
    'chain: loop {
        match first.single_verdict(cells) {
            Some(true) => {}
            Some(false) => return Some(false),
            None => return None,
        }
        let Condition::Both(next, others) = rest else {
            return rest.single_verdict(cells);
        };
        first = next.get();
        rest = others.get();
    }
}

/// What `||` between two conditions says.
#[cycle(verdicts)]
#[inline(never)]
fn either_verdict(left: &Condition, right: &Condition, cells: &[Scalar]) -> Option<bool>
    ensures { result ≡ either_verdict (verdict left.now cells.now) (verdict right.now cells.now) }
{
    match left.verdict(cells) {
        Some(true) => Some(true),
        Some(false) => right.verdict(cells),
        None => None,
    }
}
