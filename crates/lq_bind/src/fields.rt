//! The trees of records (ECMA-334, anonymous object creation expressions).
ghost use Rattle.std.specs.Prelude.{◌≡◌, IfOk, Some, map};
ghost use Rattle.lq_language.specs.Typing.{are_distinct, is_new};
ghost use Rattle.lq_tree.specs.Binding.{fields_tree, form_of_field, type_of_field};
ghost use Rattle.lq_bind.specs.Outcomes.{Gives};

use crate::error::TermError;
use crate::trees::{into_form, new_tree};
use lq_grammar::Field;
use lq_tree::{Form, Tree};
use lq_typing::copy_ty;
use lq_value::{List, Txt, Ty};
use std::alloc::{AllocError, Global};

/// Whether none of the members has this name.
fn is_new<X>(name: &str, fields: &[Field<X>]) -> bool
    ensures { result ≡ is_new name.now (map (λ field. field.name) fields.now) }
{
    for field in fields {
        if name == field.name.as_str() {
            return false;
        }
    }
    true
}

/// Whether the members have different names.
pub(crate) fn are_distinct<X>(fields: &[Field<X>]) -> bool
    ensures { result ≡ are_distinct (map (λ field. field.name) fields.now) }
{
    let mut rest = fields;
    while let Some((field, others)) = rest.split_first() {
        if !is_new(field.name.as_str(), others) {
            return false;
        }
        rest = others;
    }
    true
}

/// The names and types of members.
fn types_of(alloc: Global, fields: &[Field<Tree>]) -> Result<List<(Txt, Ty)>, AllocError>
    ensures { IfOk result (λ types. types ≡ map type_of_field fields.now) }
{
    let mut types = List::new(alloc);
    for field in fields {
        let name = Txt::from_str(alloc, field.name.as_str())?;
        types.push((name, copy_ty(alloc, &field.value.ty)?))?;
    }
    Ok(types)
}

/// A member's form.
fn form_of(field: Field<Tree>) -> Field<Form>
    ensures { result ≡ form_of_field field }
{
    let Field { name, value } = field;
    let value = into_form(value).into_inner();
    Field { name, value }
}

/// The members' forms.
fn forms_of(alloc: Global, fields: List<Field<Tree>>) -> Result<List<Field<Form>>, AllocError>
    ensures { IfOk result (λ forms. forms ≡ map form_of_field fields) }
{
    let mut forms = List::new(alloc);
    for field in fields.into_vec() {
        forms.push(form_of(field))?;
    }
    Ok(forms)
}

/// A record of members that have trees.
pub(crate) fn record(alloc: Global, fields: List<Field<Tree>>) -> Result<Tree, TermError>
    ensures { Gives (Some (fields_tree fields)) result }
{
    let types = types_of(alloc, fields.as_slice())?;
    let forms = forms_of(alloc, fields)?;
    new_tree(alloc, Ty::Rec(types), Form::Record(forms))
}
