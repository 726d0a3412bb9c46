//! Evaluation of expressions to a row or a scalar, or to their first fault (ECMA-334, expressions).
ghost use Rattle.std.specs.Prelude.{◌≡◌, option_map, true};
ghost use Rattle.lq_value.specs.declared.value.Fault.TheVariants as fault;
ghost use Rattle.lq_language.specs.Members.{search_named};
ghost use Rattle.lq_language.specs.Operations.{negated, of_search, on_ok, truth};
ghost use Rattle.lq_language.specs.OperandTypes.{is_equality};
ghost use Rattle.lq_scalar.specs.Operands.{shown_scalar, shown_scalars};
ghost use Rattle.lq_scalar.specs.Shapes.{operand_part, operand_scalar, equality_of_parts};

use crate::comparison::compared;
use crate::error::ScalarError;
use crate::members::{member_of, search};
use crate::names::{Names, Referent};
use crate::operand::Operand;
use crate::scalar_ref::ScalarRef;
use crate::signs::{negate, operate};
use crate::texts::{Joins, joined};
use crate::types::{is_row, is_text, type_of};
use lq_grammar::{Argument, Binary, Expr, Node, Unary};
use lq_value::{Fault, List};

fn is_equality(sign: Binary) -> bool
    ensures { result ≡ is_equality sign }
{
    matches!(sign, Binary::Equal | Binary::NotEqual)
}

/// What `==` or `!=` gives for two operands, where None represents a row: scalars by their contents,
/// and a row isn't null.
fn equality_of_parts(
    sign: Binary,
    left: Option<ScalarRef<'_>>,
    right: Option<ScalarRef<'_>>,
) -> Result<bool, Fault>
    requires { is_equality sign ≡ true }
    ensures { result ≡ equality_of_parts sign (option_map shown_scalar left.entry)
        (option_map shown_scalar right.entry) }
{
    match (left, right) {
        (Some(left), Some(right)) => compared(sign, left, right),
        (Some(ScalarRef::Null), None) | (None, Some(ScalarRef::Null)) => {
            Ok(sign == Binary::NotEqual)
        }
        _ => Err(Fault::NullReference),
    }
}

// What follows takes operands by value, so that a text that was built is let go in one place.

/// What `==` or `!=` gives for two operands.
#[inline(never)]
fn equality<'a>(sign: Binary, left: Operand<'_>, right: Operand<'_>) -> Result<ScalarRef<'a>, Fault>
    requires { is_equality sign ≡ true }
    ensures { shown_scalars result ≡ truth fault.NullReference
        (equality_of_parts sign (operand_part left.entry) (operand_part right.entry)) }
{
    let answer = equality_of_parts(sign, left.part(), right.part())?;
    Ok(ScalarRef::Bool(answer))
}

/// The number with the other sign.
fn minus<'a>(operand: Operand<'_>) -> Result<ScalarRef<'a>, Fault>
    ensures { shown_scalars result ≡ on_ok (operand_scalar operand.entry)
        (negated fault.NullReference) }
{
    negate(operand.scalar()?)
}

/// What a method of this name finds in a text.
fn searched<'a>(
    method: &str,
    text: Operand<'_>,
    needle: Operand<'_>,
) -> Result<ScalarRef<'a>, Fault>
    ensures { shown_scalars result
        ≡ on_ok (operand_scalar text.entry)
        (λ s. on_ok (operand_scalar needle.entry)
        (λ t. of_search fault.NullReference (search_named method.now) s t)) }
{
    search(method, text.scalar()?, needle.scalar()?)
}

/// Where expressions are evaluated: what their names refer to, and what makes their texts.
#[derive(Drop)]
pub(crate) struct Evaluation<'a, N, T> {
    pub(crate) names: &'a N,
    pub(crate) texts: T,
}

impl<'a, N: Names, T: Joins> Evaluation<'a, N, T> {
    ghost use Rattle.std.specs.Prelude.{◌≡◌, ◌+◌, []};
    ghost use Rattle.lq_language.specs.Operations.{on_ok};
    ghost use Rattle.lq_scalar.specs.Shapes.{operand_scalar};
    ghost use Rattle.lq_language.specs.Worlds.{binding_of};
    ghost use Rattle.lq_language.specs.OperandTypes.{is_text_type};
    ghost use Rattle.lq_language.specs.RuleTyping.{rule_type};
    ghost use Rattle.lq_grammar.specs.declared.syntax.Expr.TheVariants as expr;
    ghost use Rattle.lq_grammar.specs.declared.syntax.Node.TheVariants as node;
    ghost use Rattle.lq_grammar.specs.declared.syntax.Unary.TheVariants as unary;
    ghost use Rattle.lq_grammar.specs.declared.syntax.Binary.TheVariants as binary;
    ghost use Rattle.lq_value.specs.declared.scalar.Scalar.TheVariants as scalar;
    ghost use Rattle.lq_scalar.specs.Referents.{cell_in, names_among, row_at, shape_at};
    ghost use Rattle.lq_scalar.specs.Operands.{IsAnswer, shown_scalar, shown_scalars};
    ghost use Rattle.lq_language.specs.Members.{sole_argument};
    ghost use Rattle.lq_scalar.specs.Sums.{sum_sign, sums_in, sums_of_argument};
    ghost use Rattle.lq_scalar.specs.Shapes.{IsEvaluated, IsOperand, IsSparing, IsTruth, shape_of_argument, truth_of_expression, scalar_or_fault, member_of_null, member_shape, operated_scalars, scalar_shape, shape_of, shown_operand, shown_operands};

    /// What a name refers to.
    fn named(&self, name: &'a str) -> Result<Operand<'a>, Fault>
        ensures { shown_operands (N.scope self.now.names.now) result
            ≡ shape_at (binding_of name.now (N.scope self.now.names.now)) }
    {
        match self.names.named(name) {
            Some(Referent::Row) => Ok(Operand::Row(name)),
            Some(Referent::Scalar(scalar)) => Ok(Operand::Scalar(scalar)),
            None => Err(Fault::NullReference),
        }
    }

    /// The column of the row that a name refers to.
    fn cell(&self, row: &str, column: &str) -> Result<ScalarRef<'a>, Fault>
        ensures { shown_scalars result ≡ scalar_or_fault
            (cell_in (N.world self.now.names.now) column.now
            (row_at (binding_of row.now (N.scope self.now.names.now)))) }
    {
        match self.names.cell(row, column) {
            Some(cell) => Ok(ScalarRef::of(cell)),
            None => Err(Fault::NullReference),
        }
    }

    /// A member of null, by the type of what is null: a row has none.
    fn member_of_null(&self, operand: &Expr, member: &str) -> Result<ScalarRef<'a>, Fault>
        ensures { shown_scalars result ≡ member_of_null
            (rule_type operand.now (names_among [] (N.world self.now.names.now)
            (N.scope self.now.names.now))) member.now }
    {
        if is_row(type_of(self.names, &[], operand)) {
            return Err(Fault::NullReference);
        }
        member_of(ScalarRef::Null, member)
    }

    /// A member of what an operand was evaluated to.
    fn member_of(
        &self,
        operand: &Expr,
        value: Operand<'_>,
        member: &str,
    ) -> Result<ScalarRef<'a>, Fault>
        ensures { scalar_shape (shown_scalars result)
            ≡ member_shape (N.world self.now.names.now)
            (rule_type operand.now (names_among [] (N.world self.now.names.now)
            (N.scope self.now.names.now))) member.now
            (shown_operand (N.scope self.now.names.now) value.entry) }
    {
        match value {
            Operand::Row(row) => self.cell(row, member),
            Operand::Scalar(ScalarRef::Null) => self.member_of_null(operand, member),
            Operand::Scalar(scalar) => member_of(scalar, member),
            Operand::Text(text) => member_of(ScalarRef::Text(text.as_str()), member),
        }
    }

    /// Whether the expression has the type of texts.
    fn is_text(&self, expression: &Expr) -> bool
        ensures { result
            ≡ is_text_type (rule_type expression.now
            (names_among [] (N.world self.now.names.now) (N.scope self.now.names.now))) }
    {
        is_text(type_of(self.names, &[], expression))
    }

    /// The sum of two nulls: the empty text where one has the type of texts, and else null.
    fn sum_of_nulls(&self, left: &Expr, right: &Expr) -> Result<Operand<'a>, ScalarError>
        ensures { IsOperand (N.scope self.now.names.now) 1
            (scalar_shape (operated_scalars binary.Add
            (rule_type left.now (names_among [] (N.world self.now.names.now)
            (N.scope self.now.names.now)))
            (rule_type right.now (names_among [] (N.world self.now.names.now)
            (N.scope self.now.names.now))) scalar.Null scalar.Null)) result }
    {
        if self.is_text(left) || self.is_text(right) {
            Ok(Operand::Text(joined(self.texts, ScalarRef::Null, ScalarRef::Null)?))
        } else {
            Ok(Operand::Scalar(ScalarRef::Null))
        }
    }

    /// What a sign other than `==` and `!=` gives to two scalars: `+` joins texts.
    fn operated_scalars(
        &self,
        sign: Binary,
        left: &Expr,
        right: &Expr,
        x: ScalarRef<'_>,
        y: ScalarRef<'_>,
    ) -> Result<Operand<'a>, ScalarError>
        ensures { IsOperand (N.scope self.now.names.now) (sum_sign sign)
            (scalar_shape (operated_scalars sign
            (rule_type left.now (names_among [] (N.world self.now.names.now)
            (N.scope self.now.names.now)))
            (rule_type right.now (names_among [] (N.world self.now.names.now)
            (N.scope self.now.names.now))) (shown_scalar x.entry) (shown_scalar y.entry))) result }
    {
        match (sign, x, y) {
            (Binary::Add, ScalarRef::Text(_), _) | (Binary::Add, _, ScalarRef::Text(_)) => {
                Ok(Operand::Text(joined(self.texts, x, y)?))
            }
            (Binary::Add, ScalarRef::Null, ScalarRef::Null) => self.sum_of_nulls(left, right),
            _ => Ok(Operand::Scalar(operate(sign, x, y)?)),
        }
    }

    /// What such a sign gives to two operands. Where it is evaluated, little of the stack is taken.
    #[inline(never)]
    fn operated(
        &self,
        sign: Binary,
        left: &Expr,
        right: &Expr,
        x: Operand<'_>,
        y: Operand<'_>,
    ) -> Result<Operand<'a>, ScalarError>
        ensures { IsOperand (N.scope self.now.names.now) (sum_sign sign)
            (on_ok (operand_scalar x.entry) (λ s. on_ok (operand_scalar y.entry)
            (λ t. scalar_shape (operated_scalars sign
            (rule_type left.now (names_among [] (N.world self.now.names.now)
            (N.scope self.now.names.now)))
            (rule_type right.now (names_among [] (N.world self.now.names.now)
            (N.scope self.now.names.now))) s t)))) result }
    {
        self.operated_scalars(sign, left, right, x.scalar()?, y.scalar()?)
    }

    /// What the expression is, or its first fault.
    #[cycle(operands)]
    #[tactic(auto, using(crate::proofs::ShapeLaws::shapes, crate::proofs::SumLemmas::sums))]
    pub(crate) fn operand(&self, expression: &'a Expr) -> Result<Operand<'a>, ScalarError>
        ensures { IsEvaluated (N.world self.now.names.now) (N.scope self.now.names.now)
            expression.now result }
    {
        match expression {
            Expr::Node(node) => self.node(node),
            Expr::Query(_) => Err(ScalarError::Fault(Fault::NullReference)),
        }
    }

    /// What the expression of this node is, or its first fault. Each form that evaluates operands has a
    /// function of its own, so that deep expressions take little of the stack.
    #[cycle(operands)]
    #[tactic(auto, using(crate::proofs::ShapeLaws::shapes, crate::proofs::SumLemmas::sums))]
    fn node(&self, node: &'a Node<Expr>) -> Result<Operand<'a>, ScalarError>
        ensures { IsEvaluated (N.world self.now.names.now) (N.scope self.now.names.now)
            (expr.Node node.now) result }
    {
        match node {
            Node::Integer(number) => Ok(Operand::Scalar(ScalarRef::Int(*number))),
            Node::Text(text) => Ok(Operand::Scalar(ScalarRef::Text(text.as_str()))),
            Node::Bool(truth) => Ok(Operand::Scalar(ScalarRef::Bool(*truth))),
            Node::Null => Ok(Operand::Scalar(ScalarRef::Null)),
            Node::Name(name) => Ok(self.named(name.as_str())?),
            Node::Member(operand, member) => self.member(operand.get(), member.as_str()),
            Node::Method(receiver, method, arguments) => {
                self.method(arguments, receiver.get(), method.as_str())
            }
            Node::Unary(Unary::Minus, operand) => self.minus(operand.get()),
            Node::Unary(Unary::Not, operand) => self.not(operand.get()),
            Node::Binary(sign, left, right) => self.binary(*sign, left.get(), right.get()),
            Node::And(left, right) => self.both(left.get(), right.get()),
            Node::Or(left, right) => self.either(left.get(), right.get()),
            Node::Coalesce(left, right) => self.coalesced(left.get(), right.get()),
            Node::Conditional(condition, left, right) => {
                self.conditional(condition.get(), left.get(), right.get())
            }
            // No host predicate is known here.
            Node::Host(_, row, _) => {
                self.operand(row.get())?;
                Err(ScalarError::Fault(Fault::NullReference))
            }
            Node::HostOther(_, _) | Node::New(_) => Err(ScalarError::Fault(Fault::NullReference)),
        }
    }

    /// A member of an operand.
    #[cycle(operands)]
    #[inline(never)]
    #[tactic(auto, using(crate::proofs::ShapeLaws::operands, crate::proofs::ShapeLaws::shape_member, crate::proofs::SumLemmas::sums_member))]
    fn member(&self, operand: &'a Expr, member: &str) -> Result<Operand<'a>, ScalarError>
        ensures { IsEvaluated (N.world self.now.names.now) (N.scope self.now.names.now)
            (expr.Node (node.Member operand.now member.now)) result }
    {
        let value = self.operand(operand)?;
        Ok(Operand::Scalar(self.member_of(operand, value, member)?))
    }

    /// What a method finds in a text.
    #[cycle(operands)]
    #[inline(never)]
    #[tactic(auto, using(crate::proofs::ShapeLaws::operands, crate::proofs::ShapeLaws::shape_method, crate::proofs::SumLemmas::sums_method))]
    fn method(
        &self,
        arguments: &'a List<Argument<Expr>>,
        receiver: &'a Expr,
        method: &str,
    ) -> Result<Operand<'a>, ScalarError>
        ensures { IsEvaluated (N.world self.now.names.now) (N.scope self.now.names.now)
            (expr.Node (node.Method receiver.now method.now arguments.now)) result }
    {
        let text = self.operand(receiver)?;
        text.scalar()?;
        let needle = self.argument(arguments)?;
        Ok(Operand::Scalar(searched(method, text, needle)?))
    }

    /// The number with the other sign.
    #[cycle(operands)]
    #[inline(never)]
    #[tactic(auto, using(crate::proofs::ShapeLaws::operands, crate::proofs::ShapeLaws::shape_minus, crate::proofs::SumLemmas::sums_unary))]
    fn minus(&self, operand: &'a Expr) -> Result<Operand<'a>, ScalarError>
        ensures { IsEvaluated (N.world self.now.names.now) (N.scope self.now.names.now)
            (expr.Node (node.Unary unary.Minus operand.now)) result }
    {
        Ok(Operand::Scalar(minus(self.operand(operand)?)?))
    }

    /// The other truth value.
    #[cycle(operands)]
    #[inline(never)]
    #[tactic(auto, using(crate::proofs::ShapeLaws::operands, crate::proofs::ShapeLaws::shape_not, crate::proofs::SumLemmas::sums_unary))]
    fn not(&self, operand: &'a Expr) -> Result<Operand<'a>, ScalarError>
        ensures { IsEvaluated (N.world self.now.names.now) (N.scope self.now.names.now)
            (expr.Node (node.Unary unary.Not operand.now)) result }
    {
        let truth = self.operand(operand)?.truth()?;
        Ok(Operand::Scalar(ScalarRef::Bool(!truth)))
    }

    /// What a sign between two operands gives.
    #[cycle(operands)]
    #[inline(never)]
    #[tactic(auto, using(crate::proofs::ShapeLaws::operands, crate::proofs::ShapeLaws::shape_binary, crate::proofs::SumLemmas::sums_binary))]
    fn binary(
        &self,
        sign: Binary,
        left: &'a Expr,
        right: &'a Expr,
    ) -> Result<Operand<'a>, ScalarError>
        ensures { IsEvaluated (N.world self.now.names.now) (N.scope self.now.names.now)
            (expr.Node (node.Binary sign left.now right.now)) result }
    {
        let x = self.operand(left)?;
        if is_equality(sign) {
            let y = self.operand(right)?;
            return Ok(Operand::Scalar(equality(sign, x, y)?));
        }
        x.scalar()?;
        let y = self.operand(right)?;
        self.operated(sign, left, right, x, y)
    }

    /// Whether both are true; the second is evaluated only where the first is.
    #[cycle(operands)]
    #[inline(never)]
    #[tactic(auto, using(crate::proofs::ShapeLaws::operands, crate::proofs::ShapeLaws::shape_both, crate::proofs::SumLemmas::sums_both))]
    fn both(&self, left: &'a Expr, right: &'a Expr) -> Result<Operand<'a>, ScalarError>
        ensures { IsEvaluated (N.world self.now.names.now) (N.scope self.now.names.now)
            (expr.Node (node.And left.now right.now)) result }
    {
        match self.operand(left)?.truth()? {
            true => self.operand(right),
            false => Ok(Operand::Scalar(ScalarRef::Bool(false))),
        }
    }

    /// Whether one is true; the second is evaluated only where the first isn't.
    #[cycle(operands)]
    #[inline(never)]
    #[tactic(auto, using(crate::proofs::ShapeLaws::operands, crate::proofs::ShapeLaws::shape_either, crate::proofs::SumLemmas::sums_either))]
    fn either(&self, left: &'a Expr, right: &'a Expr) -> Result<Operand<'a>, ScalarError>
        ensures { IsEvaluated (N.world self.now.names.now) (N.scope self.now.names.now)
            (expr.Node (node.Or left.now right.now)) result }
    {
        match self.operand(left)?.truth()? {
            true => Ok(Operand::Scalar(ScalarRef::Bool(true))),
            false => self.operand(right),
        }
    }

    /// The first, or the second in place of null.
    #[cycle(operands)]
    #[inline(never)]
    #[tactic(auto, using(crate::proofs::ShapeLaws::operands, crate::proofs::ShapeLaws::shape_coalesce, crate::proofs::SumLemmas::sums_coalesce))]
    fn coalesced(&self, left: &'a Expr, right: &'a Expr) -> Result<Operand<'a>, ScalarError>
        ensures { IsEvaluated (N.world self.now.names.now) (N.scope self.now.names.now)
            (expr.Node (node.Coalesce left.now right.now)) result }
    {
        let value = self.operand(left)?;
        match value.is_null()? {
            true => self.operand(right),
            false => Ok(value),
        }
    }

    /// The one that the condition chooses; the other is not evaluated.
    #[cycle(operands)]
    #[inline(never)]
    #[tactic(auto, using(crate::proofs::ShapeLaws::operands, crate::proofs::ShapeLaws::shape_choice, crate::proofs::SumLemmas::sums_choice))]
    fn conditional(
        &self,
        condition: &'a Expr,
        left: &'a Expr,
        right: &'a Expr,
    ) -> Result<Operand<'a>, ScalarError>
        ensures { IsEvaluated (N.world self.now.names.now) (N.scope self.now.names.now)
            (expr.Node (node.Conditional condition.now left.now right.now)) result }
    {
        match self.operand(condition)?.truth()? {
            true => self.operand(left),
            false => self.operand(right),
        }
    }

    /// What the one argument of a method is. No typed expression has another number of them, or a
    /// lambda.
    #[cycle(operands)]
    #[tactic(auto, using(crate::proofs::ShapeLaws::operands))]
    fn argument(&self, arguments: &'a List<Argument<Expr>>) -> Result<Operand<'a>, ScalarError>
        ensures { IsOperand (N.scope self.now.names.now)
            (sums_of_argument (sole_argument arguments.now))
            (shape_of_argument (N.world self.now.names.now) (N.scope self.now.names.now)
            (sole_argument arguments.now)) result }
    {
        match arguments.as_slice() {
            [Argument::Value(argument)] => self.operand(argument),
            _ => Err(ScalarError::Fault(Fault::NullReference)),
        }
    }

    /// The truth value that a condition is, or its first fault.
    #[tactic(auto, using(crate::proofs::ShapeLaws::operands))]
    pub(crate) fn truth(&self, condition: &'a Expr) -> Result<bool, ScalarError>
        ensures meant { IsTruth (truth_of_expression (N.world self.now.names.now)
            (N.scope self.now.names.now) condition.now) result }
        ensures sparing { IsSparing (sums_in condition.now) result }
    {
        let value = self.operand(condition)?;
        Ok(value.truth()?)
    }
}
