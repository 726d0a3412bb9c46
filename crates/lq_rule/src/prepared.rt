//! The tree that a rule is prepared as, and how it is read on a row.
ghost use Rattle.std.specs.Prelude.{◌≡◌, not, Ok, slice_get};
ghost use Rattle.lq_value.specs.declared.scalar.Scalar.TheVariants as scalar;
ghost use Rattle.lq_value.specs.declared.value.Fault.TheVariants as fault;
ghost use Rattle.lq_language.specs.Operations.{has_value, of_two, on_ok, operation_of, searched, truth, truth_of};
ghost use Rattle.lq_security.specs.Visible.{is_true};
ghost use Rattle.lq_scalar.specs.Operands.{shown_scalar, shown_scalars};
ghost use Rattle.lq_scalar.specs.Shapes.{scalar_or_fault};

use lq_grammar::Binary;
use lq_language::Op;
use lq_scalar::{ScalarRef, has_value, operate, search_text};
use lq_value::{Fault, Held, Scalar};

/// An expression of a rule, with a variant for each of the forms that a total one has.
#[derive(Drop)]
pub(crate) enum Prepared {
    /// A literal.
    Literal(Scalar),
    /// The cell at a place.
    Cell(usize),
    /// A fault in place of a scalar.
    Fault(Fault),
    /// The name of the role.
    User,
    /// `!`
    Not(Held<Prepared>),
    /// `&&`
    And(Held<Prepared>, Held<Prepared>),
    /// `||`
    Or(Held<Prepared>, Held<Prepared>),
    /// A sign between two scalars: one that compares or divides.
    Binary(Binary, Held<Prepared>, Held<Prepared>),
    /// A sign between the cell at a place and a literal, as most rules have it. No operand is a tree
    /// of its own, so that none is read by a call.
    WithLiteral(Binary, usize, Scalar),
    /// `??`
    Coalesce(Held<Prepared>, Held<Prepared>),
    /// `? :`, with its condition first.
    Conditional(Held<Prepared>, Held<Prepared>, Held<Prepared>),
    /// `HasValue`
    HasValue(Held<Prepared>),
    /// A method that looks for the second in the first.
    Search(Op, Held<Prepared>, Held<Prepared>),
}

/// The cell at a place.
fn cell_at<'a>(cells: &'a [Scalar], place: usize) -> Result<ScalarRef<'a>, Fault>
    ensures { shown_scalars result ≡ scalar_or_fault (slice_get cells.now place) }
{
    match cells.get(place) {
        Some(cell) => Ok(ScalarRef::of(cell)),
        None => Err(Fault::NullReference),
    }
}

/// The truth value that a scalar is.
fn truth(scalar: ScalarRef<'_>) -> Result<bool, Fault>
    ensures { result ≡ truth_of fault.NullReference (shown_scalar scalar.entry) }
{
    match scalar {
        ScalarRef::Bool(truth) => Ok(truth),
        _ => Err(Fault::NullReference),
    }
}

/// What a sign between two scalars gives, as a truth value. Integers, which most rules compare, are
/// compared in place.
fn decided(sign: Binary, left: ScalarRef<'_>, right: ScalarRef<'_>) -> Result<bool, Fault>
    ensures { result
        ≡ on_ok (of_two fault.NullReference (operation_of sign) (shown_scalar left.entry)
        (shown_scalar right.entry)) (truth_of fault.NullReference) }
{
    match (sign, left, right) {
        (Binary::Less, ScalarRef::Int(left), ScalarRef::Int(right)) => Ok(left < right),
        (Binary::Greater, ScalarRef::Int(left), ScalarRef::Int(right)) => Ok(left > right),
        (Binary::LessOrEqual, ScalarRef::Int(left), ScalarRef::Int(right)) => Ok(left <= right),
        (Binary::GreaterOrEqual, ScalarRef::Int(left), ScalarRef::Int(right)) => Ok(left >= right),
        (Binary::Equal, ScalarRef::Int(left), ScalarRef::Int(right)) => Ok(left == right),
        (Binary::NotEqual, ScalarRef::Int(left), ScalarRef::Int(right)) => Ok(left != right),
        _ => truth(operate(sign, left, right)?),
    }
}

/// The other truth value.
fn other_truth<'a>(operand: ScalarRef<'_>) -> Result<ScalarRef<'a>, Fault>
    ensures { shown_scalars result ≡ on_ok
        (truth_of fault.NullReference (shown_scalar operand.entry))
        (λ b. Ok (scalar.Bool (not b))) }
{
    Ok(ScalarRef::Bool(!truth(operand)?))
}

/// Whether an `int?` has a value.
fn has_value_in<'a>(scalar: ScalarRef<'_>) -> Result<ScalarRef<'a>, Fault>
    ensures { shown_scalars result ≡ truth fault.NullReference
        (has_value fault.NullReference (shown_scalar scalar.entry)) }
{
    Ok(ScalarRef::Bool(has_value(scalar)?))
}

/// Whether a text has another in it.
fn text_matches<'a>(
    op: Op,
    text: ScalarRef<'_>,
    needle: ScalarRef<'_>,
) -> Result<ScalarRef<'a>, Fault>
    ensures { shown_scalars result ≡ truth fault.NullReference
        (searched fault.NullReference op (shown_scalar text.entry) (shown_scalar needle.entry)) }
{
    Ok(ScalarRef::Bool(search_text(op, text, needle)?))
}

impl Prepared {
    ghost use Rattle.std.specs.Prelude.{◌≡◌};
    ghost use Rattle.lq_value.specs.declared.value.Fault.TheVariants as fault;
    ghost use Rattle.lq_language.specs.Operations.{on_ok, truth_of};
    ghost use Rattle.lq_security.specs.Visible.{is_true};
    ghost use Rattle.lq_scalar.specs.Operands.{shown_scalars};
    ghost use Rattle.lq_rule.specs.RowMeaning.{read};

    /// What it is on a row with these cells, for this user.
    #[tactic(auto, using(crate::proofs::ReadingLemmas::reads))]
    pub(crate) fn read<'a>(
        &'a self,
        cells: &'a [Scalar],
        user: &'a str,
    ) -> Result<ScalarRef<'a>, Fault>
        ensures { shown_scalars result ≡ read self.now cells.now user.now }
    {
        match self {
            Prepared::Literal(scalar) => Ok(ScalarRef::of(scalar)),
            Prepared::Cell(place) => cell_at(cells, *place),
            Prepared::Fault(fault) => Err(*fault),
            Prepared::User => Ok(ScalarRef::Text(user)),
            Prepared::Not(operand) => other_truth(operand.get().read(cells, user)?),
            Prepared::And(left, right) => match truth(left.get().read(cells, user)?)? {
                true => right.get().read(cells, user),
                false => Ok(ScalarRef::Bool(false)),
            },
            Prepared::Or(left, right) => match truth(left.get().read(cells, user)?)? {
                true => Ok(ScalarRef::Bool(true)),
                false => right.get().read(cells, user),
            },
            Prepared::Binary(sign, left, right) => {
                let left = left.get().read(cells, user)?;
                operate(*sign, left, right.get().read(cells, user)?)
            }
            Prepared::WithLiteral(sign, place, literal) => {
                operate(*sign, cell_at(cells, *place)?, ScalarRef::of(literal))
            }
            Prepared::Coalesce(left, right) => match left.get().read(cells, user)? {
                ScalarRef::Null => right.get().read(cells, user),
                scalar => Ok(scalar),
            },
            Prepared::Conditional(condition, left, right) => {
                match truth(condition.get().read(cells, user)?)? {
                    true => left.get().read(cells, user),
                    false => right.get().read(cells, user),
                }
            }
            Prepared::HasValue(operand) => has_value_in(operand.get().read(cells, user)?),
            Prepared::Search(op, text, needle) => {
                let text = text.get().read(cells, user)?;
                text_matches(*op, text, needle.get().read(cells, user)?)
            }
        }
    }

    /// The truth value that it is there. Comparisons, and the signs between conditions, give it with
    /// no scalar in between.
    #[tactic(auto, using(crate::proofs::ReadingLemmas::reads))]
    fn decide(&self, cells: &[Scalar], user: &str) -> Result<bool, Fault>
        ensures { result ≡ on_ok (read self.now cells.now user.now) (truth_of fault.NullReference) }
    {
        match self {
            Prepared::WithLiteral(sign, place, literal) => {
                decided(*sign, cell_at(cells, *place)?, ScalarRef::of(literal))
            }
            Prepared::Binary(sign, left, right) => {
                let left = left.get().read(cells, user)?;
                decided(*sign, left, right.get().read(cells, user)?)
            }
            Prepared::Not(operand) => Ok(!operand.get().decide(cells, user)?),
            Prepared::And(left, right) => match left.get().decide(cells, user)? {
                true => right.get().decide(cells, user),
                false => Ok(false),
            },
            Prepared::Or(left, right) => match left.get().decide(cells, user)? {
                true => Ok(true),
                false => right.get().decide(cells, user),
            },
            _ => truth(self.read(cells, user)?),
        }
    }

    /// Whether it is true there. A fault isn't.
    pub(crate) fn is_true(&self, cells: &[Scalar], user: &str) -> bool
        ensures { result
            ≡ is_true (on_ok (read self.now cells.now user.now) (truth_of fault.NullReference)) }
    {
        matches!(self.decide(cells, user), Ok(true))
    }
}
