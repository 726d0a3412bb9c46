//! The trees of operators over the trees of their operands (ECMA-334, operators).
ghost use Rattle.std.specs.Prelude.{◌≡◌, ◌&&◌};
ghost use Rattle.lq_value.specs.declared.ty.Ty.{out-Ty};
ghost use Rattle.lq_language.specs.OperandTypes.{is_bool};
ghost use Rattle.lq_language.specs.Typing.{type_of_choice};
ghost use Rattle.lq_grammar.specs.declared.syntax.Unary.TheVariants as unary;
ghost use Rattle.lq_tree.specs.Binding.{and_tree, coalesce_tree, conditional_tree, or_tree};
ghost use Rattle.lq_tree.specs.Binding.{search_form, typed_tree, unary_tree};
ghost use Rattle.lq_tree.specs.declared.tree.Form.TheVariants as form;
ghost use Rattle.lq_bind.specs.Outcomes.{Gives};
ghost use Rattle.lq_bind.specs.Operators.{operation_tree};

use crate::error::TermError;
use crate::signs;
use crate::trees::{into_form, tree_if, typed_tree};
use lq_grammar::{Binary, Unary};
use lq_language::Op;
use lq_tree::{Form, Tree};
use lq_typing::{choice_type, coalesced_type, is_bool, is_number, is_text};
use lq_value::{Held, Ty};
use std::alloc::Global;

/// An operator between two operands.
#[derive(Clone, Copy)]
pub(crate) enum Infix {
    /// One that evaluates both of them.
    Sign(Binary),
    /// `&&`
    And,
    /// `||`
    Or,
    /// `??`
    Coalesce,
}

/// Whether both types are that of a truth value.
fn are_bools(left: &Ty, right: &Ty) -> bool
    ensures { result ≡ is_bool (out-Ty left.now) && is_bool (out-Ty right.now) }
{
    is_bool(left) && is_bool(right)
}

/// `&&`
fn and(alloc: Global, left: Tree, right: Tree) -> Result<Tree, TermError>
    ensures { Gives (and_tree left right) result }
{
    let is_typed = are_bools(&left.ty, &right.ty);
    let form = Form::And(into_form(left), into_form(right));
    tree_if(alloc, is_typed, Ty::Bool, form)
}

/// `||`
fn or(alloc: Global, left: Tree, right: Tree) -> Result<Tree, TermError>
    ensures { Gives (or_tree left right) result }
{
    let is_typed = are_bools(&left.ty, &right.ty);
    let form = Form::Or(into_form(left), into_form(right));
    tree_if(alloc, is_typed, Ty::Bool, form)
}

/// `??`
fn coalesce(alloc: Global, left: Tree, right: Tree) -> Result<Tree, TermError>
    ensures { Gives (coalesce_tree left right) result }
{
    let ty = coalesced_type(&left.ty, &right.ty);
    let form = Form::Coalesce(into_form(left), into_form(right));
    typed_tree(alloc, ty, form)
}

/// An operator between two operands.
#[inline(never)]
pub(crate) fn operation(
    alloc: Global,
    op: Infix,
    left: Tree,
    right: Tree,
) -> Result<Tree, TermError>
    ensures { Gives (operation_tree op left right) result }
{
    match op {
        Infix::Sign(sign) => signs::binary(alloc, sign, left, right),
        Infix::And => and(alloc, left, right),
        Infix::Or => or(alloc, left, right),
        Infix::Coalesce => coalesce(alloc, left, right),
    }
}

/// `-` before a number.
fn minus(alloc: Global, operand: Tree) -> Result<Tree, TermError>
    ensures { Gives (unary_tree unary.Minus operand) result }
{
    let is_typed = is_number(&operand.ty);
    let Tree { ty, form } = operand;
    tree_if(alloc, is_typed, ty, Form::Unary(Op::Minus, form))
}

/// `!` before a truth value.
fn not(alloc: Global, operand: Tree) -> Result<Tree, TermError>
    ensures { Gives (unary_tree unary.Not operand) result }
{
    let is_typed = is_bool(&operand.ty);
    tree_if(
        alloc,
        is_typed,
        Ty::Bool,
        Form::Unary(Op::Not, into_form(operand)),
    )
}

/// An operator with one operand.
pub(crate) fn unary(alloc: Global, sign: Unary, operand: Tree) -> Result<Tree, TermError>
    ensures { Gives (unary_tree sign operand) result }
{
    match sign {
        Unary::Minus => minus(alloc, operand),
        Unary::Not => not(alloc, operand),
    }
}

/// A choice between two operands.
fn choice(alloc: Global, condition: Held<Form>, left: Tree, right: Tree) -> Result<Tree, TermError>
    ensures { Gives (typed_tree (type_of_choice (out-Ty left.ty) (out-Ty right.ty))
        (form.Conditional condition left.form right.form)) result }
{
    let Tree {
        ty: left_type,
        form: left,
    } = left;
    let Tree {
        ty: right_type,
        form: right,
    } = right;
    let ty = choice_type(left_type, right_type);
    typed_tree(alloc, ty, Form::Conditional(condition, left, right))
}

/// `? :`, with its condition first.
pub(crate) fn conditional(
    alloc: Global,
    condition: Tree,
    left: Tree,
    right: Tree,
) -> Result<Tree, TermError>
    ensures { Gives (conditional_tree condition left right) result }
{
    if !is_bool(&condition.ty) {
        return Err(TermError::IllTyped);
    }
    choice(alloc, into_form(condition), left, right)
}

/// A search for one text in another.
pub(crate) fn search(alloc: Global, op: Op, text: Tree, needle: Tree) -> Result<Tree, TermError>
    ensures { Gives (search_form op text needle) result }
{
    let is_typed = is_text(&needle.ty);
    let form = Form::Binary(op, into_form(text), into_form(needle));
    tree_if(alloc, is_typed, Ty::Bool, form)
}
