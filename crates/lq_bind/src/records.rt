//! The binding of records and of the keys of `orderby` (ECMA-334, anonymous object creation
//! expressions and orderby clauses).
ghost use Rattle.std.specs.Prelude.{Some};
ghost use Rattle.lq_tree.specs.Binding.{field_with, key_with};
ghost use Rattle.lq_bind.specs.Outcomes.{Gives};

use crate::binder::Binder;
use crate::error::TermError;
use crate::frames::Frame;
use crate::trees::into_form;
use crate::{fields, type_checks};
use lq_grammar::{Field, SortKey};
use lq_language::Term;
use lq_tree::{Form, Tree};
use lq_value::{List, Txt};
use std::alloc::Global;

/// A member of a record with this value, which is not null by its type.
fn member(alloc: Global, name: &Txt, value: Tree) -> Result<Field<Tree>, TermError>
    ensures { Gives (field_with name.now (Some value)) result }
{
    let value = type_checks::not_null(value)?;
    let name = Txt::from_str(alloc, name.as_str())?;
    Ok(Field { name, value })
}

/// A key of `orderby` with this value, which is of a type that it sorts by.
fn sort_key(is_descending: bool, value: Tree) -> Result<SortKey<Form>, TermError>
    ensures { Gives (key_with is_descending (Some value)) result }
{
    let value = type_checks::sort_key(value)?;
    Ok(SortKey {
        value: into_form(value).into_inner(),
        descending: is_descending,
    })
}

impl Binder<'_> {
    ghost use Rattle.lq_grammar.specs.declared.syntax.Node.TheVariants as expression;
    ghost use Rattle.lq_tree.specs.Binding.{gathered};
    ghost use Rattle.lq_bind.specs.Bound.{field_at, node_at, sort_key_at};
    ghost use Rattle.lq_bind.specs.Outcomes.{Gives};

    /// A record of members with different names.
    #[cycle(binding)]
    #[inline(never)]
    pub(crate) fn new_record(
        &self,
        fields: &List<Field<Term>>,
        frame: &Frame<'_>,
    ) -> Result<Tree, TermError>
        ensures { Gives (node_at self.now frame.now (expression.New fields.now)) result }
    {
        if !fields::are_distinct(fields.as_slice()) {
            return Err(TermError::IllTyped);
        }
        let members = self.fields(fields.as_slice(), frame)?;
        type_checks::within_limit(fields::record(self.alloc, members)?)
    }

    /// The members of a record.
    #[cycle(binding)]
    fn fields(
        &self,
        fields: &[Field<Term>],
        frame: &Frame<'_>,
    ) -> Result<List<Field<Tree>>, TermError>
        ensures { Gives (gathered (field_at self.now frame.now) fields.now) result }
    {
        let mut members = List::new(self.alloc);
        for field in fields {
            let value = self.term(&field.value, frame)?;
            let member = member(self.alloc, &field.name, value)?;
            members.push(member)?;
        }
        Ok(members)
    }

    /// The keys of `orderby`.
    #[cycle(binding)]
    pub(crate) fn sort_keys(
        &self,
        keys: &[SortKey<Term>],
        frame: &Frame<'_>,
    ) -> Result<List<SortKey<Form>>, TermError>
        ensures { Gives (gathered (sort_key_at self.now frame.now) keys.now) result }
    {
        let mut forms = List::new(self.alloc);
        for key in keys {
            let value = self.term(&key.value, frame)?;
            let form = sort_key(key.descending, value)?;
            forms.push(form)?;
        }
        Ok(forms)
    }
}
