//! The trees of operators that evaluate both of their operands (ECMA-334, operators).
ghost use Rattle.std.specs.Prelude.{◌≡◌, true, Some};
ghost use Rattle.lq_value.specs.declared.ty.Ty.{out-Ty};
ghost use Rattle.lq_language.specs.OperandMeaning.{equality_truth};
ghost use Rattle.lq_language.specs.Operations.{operation_of};
ghost use Rattle.lq_tree.specs.Binding.{binary_form, binary_tree, equality_form, is_literal};
ghost use Rattle.lq_tree.specs.Binding.{is_object, operation_at, tested_first, tested_second};
ghost use Rattle.lq_tree.specs.declared.tree.Form.{out-Form};
ghost use Rattle.lq_bind.specs.Outcomes.{Gives};

use crate::error::TermError;
use crate::trees::{into_form, new_form};
use lq_grammar::Binary;
use lq_language::Op;
use lq_tree::{Form, Tree};
use lq_typing::{is_equality, is_text, operated_type};
use lq_value::{Held, Ty};
use std::alloc::Global;

/// What is done to the operands of a sign.
fn operation_of(sign: Binary) -> Op
    ensures { result ≡ operation_of sign }
{
    match sign {
        Binary::Multiply => Op::Multiply,
        Binary::Divide => Op::Divide,
        Binary::Remainder => Op::Remainder,
        Binary::Add => Op::Add,
        Binary::Subtract => Op::Subtract,
        Binary::Less => Op::Less,
        Binary::Greater => Op::Greater,
        Binary::LessOrEqual => Op::LessOrEqual,
        Binary::GreaterOrEqual => Op::GreaterOrEqual,
        Binary::Equal => Op::Equal,
        Binary::NotEqual => Op::NotEqual,
    }
}

/// The same where the operands have these types: `+` joins texts.
fn operation_at(sign: Binary, left: &Ty, right: &Ty) -> Op
    ensures { result ≡ operation_at sign (out-Ty left.now) (out-Ty right.now) }
{
    match sign {
        Binary::Add if is_text(left) || is_text(right) => Op::Concat,
        Binary::Add => Op::Add,
        _ => operation_of(sign),
    }
}

/// Whether the type is that of a row, a record or a group, which may be asked only whether it is
/// null.
#[tactic(auto, using(crate::proofs::Layers::types))]
fn is_object(ty: &Ty) -> bool
    ensures { result ≡ is_object (out-Ty ty.now) }
{
    matches!(ty, Ty::Row(_) | Ty::Rec(_) | Ty::Group(_, _))
}

/// Whether the form is a literal.
#[tactic(auto, using(crate::proofs::Layers::forms))]
fn is_literal(form: &Form) -> bool
    ensures { result ≡ is_literal (out-Form form.now) }
{
    matches!(form, Form::Literal(_))
}

/// Whether `==` or `!=` is true of operands that are the same.
fn is_true_of_same(sign: Binary) -> bool
    ensures { result ≡ equality_truth sign true }
{
    !matches!(sign, Binary::NotEqual)
}

/// The first operand, which is tested for null beside one that is null.
fn tested_first(alloc: Global, left: Held<Form>, right: Held<Form>) -> Result<Held<Form>, TermError>
    ensures { Gives (Some (tested_first left right)) result }
{
    if is_literal(right.get()) {
        return Ok(left);
    }
    let pair = new_form(alloc, Form::Pair(left, right))?;
    new_form(alloc, Form::First(pair))
}

/// The second operand, which is tested for null beside one that is null.
fn tested_second(
    alloc: Global,
    left: Held<Form>,
    right: Held<Form>,
) -> Result<Held<Form>, TermError>
    ensures { Gives (Some (tested_second left right)) result }
{
    if is_literal(left.get()) {
        return Ok(right);
    }
    let pair = new_form(alloc, Form::Pair(left, right))?;
    new_form(alloc, Form::Second(pair))
}

/// `==` and `!=`.
fn equality_form(
    alloc: Global,
    sign: Binary,
    left: Tree,
    right: Tree,
) -> Result<Held<Form>, TermError>
    ensures { Gives (Some (equality_form sign left right)) result }
{
    if is_object(&left.ty) {
        let operand = tested_first(alloc, into_form(left), into_form(right))?;
        return new_form(alloc, Form::IsNull(is_true_of_same(sign), operand));
    }
    if is_object(&right.ty) {
        let operand = tested_second(alloc, into_form(left), into_form(right))?;
        return new_form(alloc, Form::IsNull(is_true_of_same(sign), operand));
    }
    let op = operation_of(sign);
    new_form(alloc, Form::Binary(op, into_form(left), into_form(right)))
}

/// The form of an operator over two operands.
fn binary_form(
    alloc: Global,
    sign: Binary,
    left: Tree,
    right: Tree,
) -> Result<Held<Form>, TermError>
    ensures { Gives (Some (binary_form sign left right)) result }
{
    if is_equality(sign) {
        return equality_form(alloc, sign, left, right);
    }
    let op = operation_at(sign, &left.ty, &right.ty);
    new_form(alloc, Form::Binary(op, into_form(left), into_form(right)))
}

/// A sign between two operands.
pub(crate) fn binary(
    alloc: Global,
    sign: Binary,
    left: Tree,
    right: Tree,
) -> Result<Tree, TermError>
    ensures { Gives (binary_tree sign left right) result }
{
    let ty = operated_type(sign, &left.ty, &right.ty).ok_or(TermError::IllTyped)?;
    let form = binary_form(alloc, sign, left, right)?;
    Ok(Tree { ty, form })
}
