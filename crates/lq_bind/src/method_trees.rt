//! The trees of methods on what is enumerated (.NET, `Enumerable`). The tree of a method's items has
//! the form of the sequence, and the type of each item.
ghost use Rattle.std.specs.Prelude.{Some};
ghost use Rattle.lq_language.specs.Typing.{given_type, simple_type, through_type};
ghost use Rattle.lq_tree.specs.Binding.{method_form, typed_tree};
ghost use Rattle.lq_tree.specs.declared.tree.Form.TheVariants as form;
ghost use Rattle.lq_bind.specs.Outcomes.{Gives};

use crate::error::TermError;
use crate::trees::{into_form, new_form, new_tree};
use lq_language::{Given, Simple, Through};
use lq_tree::{Form, Tree};
use lq_typing::{given_type, simple_type, through_type};
use lq_value::{Held, Ty};
use std::alloc::Global;

/// The type of a method without an argument, on items of this type.
fn plain_type(alloc: Global, method: Simple, item: &Ty) -> Result<Ty, TermError>
    ensures { Gives (simple_type method item.now) result }
{
    simple_type(alloc, method, item)?.ok_or(TermError::IllTyped)
}

/// A method without an argument on items.
pub(crate) fn plain(alloc: Global, method: Simple, items: Tree) -> Result<Tree, TermError>
    ensures { Gives (typed_tree (simple_type method items.ty)
        (form.Simple method items.ty items.form)) result }
{
    let ty = plain_type(alloc, method, &items.ty)?;
    let Tree { ty: item, form } = items;
    new_tree(alloc, ty, Form::Simple(method, item, form))
}

/// The type of a method with an argument of this type, on items of that one.
fn value_type(alloc: Global, method: Given, item: &Ty, argument: &Ty) -> Result<Ty, TermError>
    ensures { Gives (given_type method item.now (Some argument.now)) result }
{
    given_type(alloc, method, item, argument)?.ok_or(TermError::IllTyped)
}

/// A method with an argument on items.
pub(crate) fn with_value(
    alloc: Global,
    method: Given,
    items: Tree,
    argument: Tree,
) -> Result<Tree, TermError>
    ensures { Gives (typed_tree (given_type method items.ty (Some argument.ty))
        (form.Given method items.form argument.form)) result }
{
    let ty = value_type(alloc, method, &items.ty, &argument.ty)?;
    new_tree(
        alloc,
        ty,
        Form::Given(method, into_form(items), into_form(argument)),
    )
}

/// A method without an argument on the items on which a condition is true.
fn on_those(
    alloc: Global,
    method: Simple,
    items: Tree,
    condition: Held<Form>,
) -> Result<Held<Form>, TermError>
    ensures { Gives (Some (form.Simple method items.ty (form.Where items.form condition)))
        result }
{
    let Tree { ty, form } = items;
    let those = new_form(alloc, Form::Where(form, condition))?;
    new_form(alloc, Form::Simple(method, ty, those))
}

/// A method without an argument on the values that come of the items of a source.
fn on_values(
    alloc: Global,
    method: Simple,
    source: Held<Form>,
    value: Tree,
) -> Result<Held<Form>, TermError>
    ensures { Gives (Some (form.Simple method value.ty (form.Select source value.form)))
        result }
{
    let Tree { ty, form } = value;
    let values = new_form(alloc, Form::Select(source, form))?;
    new_form(alloc, Form::Simple(method, ty, values))
}

/// The form of a method on items with a lambda, whose body is given.
fn method_form(
    alloc: Global,
    method: Through,
    items: Tree,
    body: Tree,
) -> Result<Held<Form>, TermError>
    ensures { Gives (Some (method_form method items.ty body.ty items.form body.form)) result }
{
    match method {
        Through::Where => new_form(alloc, Form::Where(into_form(items), into_form(body))),
        Through::Select => new_form(alloc, Form::Select(into_form(items), into_form(body))),
        Through::All => new_form(alloc, Form::All(into_form(items), into_form(body))),
        Through::Those(method) => on_those(alloc, method, items, into_form(body)),
        Through::Values(method) => on_values(alloc, method, into_form(items), body),
    }
}

/// The type of a method with a lambda whose body is of this type, on items of that one.
fn lambda_type(alloc: Global, method: Through, item: &Ty, body: &Ty) -> Result<Ty, TermError>
    ensures { Gives (through_type method item.now (Some body.now)) result }
{
    through_type(alloc, method, item, body)?.ok_or(TermError::IllTyped)
}

/// A method on items with a lambda, whose body is given.
pub(crate) fn with_lambda(
    alloc: Global,
    method: Through,
    items: Tree,
    body: Tree,
) -> Result<Tree, TermError>
    ensures { Gives (typed_tree (through_type method items.ty (Some body.ty))
        (method_form method items.ty body.ty items.form body.form)) result }
{
    let ty = lambda_type(alloc, method, &items.ty, &body.ty)?;
    let form = method_form(alloc, method, items, body)?;
    Ok(Tree { ty, form })
}
