//! What comparisons and searches of cells say of a rule, before its tree is read.
ghost use Rattle.std.specs.Prelude.{IfOk};
ghost use Rattle.lq_rule.specs.Deciding.{Agrees};
ghost use Rattle.lq_rule.specs.declared.prepared.Prepared.TheVariants as prepared;

use crate::prepared::Prepared;
use lq_condition::Condition;
use lq_language::Op;
use lq_value::Scalar;
use std::alloc::{AllocError, Global};

/// The condition on the cells of a row that a tree is, where it compares cells with literals, looks for
/// literals in them, or joins such conditions. Of any other form it says nothing. Refused where no memory
/// was left for it.
#[tactic(auto, using(crate::proofs::AgreeingLemmas::agreements))]
pub(crate) fn condition(alloc: Global, tree: &Prepared) -> Result<Condition, AllocError>
    ensures { IfOk result (Agrees tree.now) }
{
    match tree {
        Prepared::Literal(scalar) => Ok(constant(scalar)),
        Prepared::WithLiteral(sign, place, literal) => {
            Condition::sign(alloc, *sign, *place, literal)
        }
        Prepared::Search(op, text, needle) => search(alloc, *op, text.get(), needle.get()),
        Prepared::And(left, right) => {
            let left = condition(alloc, left.get())?;
            Condition::both(alloc, left, condition(alloc, right.get())?)
        }
        Prepared::Or(left, right) => {
            let left = condition(alloc, left.get())?;
            Condition::either(alloc, left, condition(alloc, right.get())?)
        }
        _ => Ok(Condition::Silent),
    }
}

/// The condition that a literal is.
#[tactic(auto, using(crate::proofs::AgreeingLemmas::constants))]
fn constant(scalar: &Scalar) -> Condition
    ensures { Agrees (prepared.Literal scalar.now) result }
{
    match scalar {
        Scalar::Bool(truth) => Condition::Constant(*truth),
        _ => Condition::Silent,
    }
}

/// The same for a method that looks for the second in the first.
#[tactic(auto, using(crate::proofs::AgreeingLemmas::searches))]
fn search(
    alloc: Global,
    op: Op,
    text: &Prepared,
    needle: &Prepared,
) -> Result<Condition, AllocError>
    ensures { IfOk result (Agrees (prepared.Search op text.now needle.now)) }
{
    match (text, needle) {
        (Prepared::Cell(place), Prepared::Literal(needle)) => {
            Condition::search(alloc, op, *place, needle)
        }
        _ => Ok(Condition::Silent),
    }
}
