//! The uses of typed trees.
ghost use Rattle.std.specs.Prelude.{◌≡◌, ◌∷◌, ◌++◌, [], flat_map, IfOk, OnOk};
ghost use Rattle.lq_machine.specs.States.{schemas_of};
ghost use Rattle.lq_use.specs.FormRights.{form_rights, join_uses, uses_served};
ghost use Rattle.lq_use.specs.Hosts.{picked_uses};

use crate::shown::add_columns;
use lq_grammar::{Field, SortKey};
use lq_host::{Pick, PredicateNumber};
use lq_policy::Use;
use lq_store::Store;
use lq_tree::{Form, Joined, Tree, ty};
use lq_value::{ColumnNumber, TableNumber};
use std::alloc::{AllocError, Global};

/// What a form uses, after other uses.
#[cycle(gathering)]
#[inline(never)]
#[tactic(auto, using(crate::proofs::UseLemmas::forms))]
fn add_form(form: &Form, uses: &mut Vec<Use>) -> Result<(), AllocError>
    ensures { OnOk result (uses.new.items ≡ uses.old.items ++ form_rights form.now) }
{
    match form {
        Form::Literal(_) => Ok(()),
        Form::Slot(_) => Ok(()),
        Form::First(pair) => add_form(pair.get(), uses),
        Form::Second(pair) => add_form(pair.get(), uses),
        Form::Table(table) => Ok(uses.push(Use::Table(*table))?),
        Form::Column(row, table, column) => add_column(row.get(), *table, *column, uses),
        Form::Host(predicate, row, table, columns) => {
            add_host(row.get(), *predicate, *table, *columns, uses)
        }
        Form::Member(value, _) => add_form(value.get(), uses),
        Form::Key(group) => add_form(group.get(), uses),
        Form::Unary(_, operand) => add_form(operand.get(), uses),
        Form::Binary(_, left, right) => add_two(left.get(), right.get(), uses),
        Form::And(left, right) => add_two(left.get(), right.get(), uses),
        Form::Or(left, right) => add_two(left.get(), right.get(), uses),
        Form::Coalesce(left, right) => add_two(left.get(), right.get(), uses),
        Form::Conditional(test, a, b) => add_three(test.get(), a.get(), b.get(), uses),
        Form::IsNull(_, operand) => add_form(operand.get(), uses),
        Form::Record(fields) => add_fields(fields.as_slice(), uses),
        Form::Pair(first, second) => add_two(first.get(), second.get(), uses),
        Form::Sequence(source) => add_form(source.get(), uses),
        Form::Simple(_, _, source) => add_form(source.get(), uses),
        Form::Given(_, source, argument) => add_two(source.get(), argument.get(), uses),
        Form::Where(source, condition) => add_two(source.get(), condition.get(), uses),
        Form::Select(source, body) => add_two(source.get(), body.get(), uses),
        Form::All(source, condition) => add_two(source.get(), condition.get(), uses),
        Form::SelectMany(a, inner, body) => add_three(a.get(), inner.get(), body.get(), uses),
        Form::Join(source, joined) => {
            add_form(source.get(), uses)?;
            Ok(add_joined(joined.get(), uses)?)
        }
        Form::OrderBy(sorted, keys) => {
            add_form(sorted.get(), uses)?;
            Ok(add_keys(keys.as_slice(), uses)?)
        }
        Form::GroupBy(source, key, element) => {
            add_three(source.get(), element.get(), key.get(), uses)
        }
    }
}

/// A column, after what its row uses.
#[cycle(gathering)]
fn add_column(
    row: &Form,
    table: TableNumber,
    column: ColumnNumber,
    uses: &mut Vec<Use>,
) -> Result<(), AllocError>
    ensures { OnOk result (uses.new.items
        ≡ uses.old.items ++ (form_rights row.now ++ Use.Column table column ∷ [])) }
{
    add_form(row, uses)?;
    Ok(uses.push(Use::Column(table, column))?)
}

/// Columns of a table.
fn add_picked(table: TableNumber, columns: Pick, uses: &mut Vec<Use>) -> Result<(), AllocError>
    ensures { OnOk result (uses.new.items ≡ uses.old.items ++ picked_uses table columns) }
{
    match columns {
        Pick::One(only) => Ok(uses.push(Use::Column(table, only))?),
        Pick::Two(first, second) => {
            uses.push(Use::Column(table, first))?;
            Ok(uses.push(Use::Column(table, second))?)
        }
    }
}

/// A host predicate, what the row uses that is asked about, and its columns.
#[cycle(gathering)]
fn add_host(
    asked: &Form,
    predicate: PredicateNumber,
    table: TableNumber,
    columns: Pick,
    uses: &mut Vec<Use>,
) -> Result<(), AllocError>
    ensures { OnOk result (uses.new.items
        ≡ uses.old.items
        ++ (Use.Host predicate ∷ (form_rights asked.now ++ picked_uses table columns))) }
{
    uses.push(Use::Host(predicate))?;
    add_form(asked, uses)?;
    add_picked(table, columns, uses)
}

/// What two forms use, one after the other.
#[cycle(gathering)]
fn add_two(first: &Form, second: &Form, uses: &mut Vec<Use>) -> Result<(), AllocError>
    ensures { OnOk result (uses.new.items
        ≡ uses.old.items ++ (form_rights first.now ++ form_rights second.now)) }
{
    add_form(first, uses)?;
    add_form(second, uses)
}

/// What three forms use, one after the other.
#[cycle(gathering)]
fn add_three(
    first: &Form,
    second: &Form,
    third: &Form,
    uses: &mut Vec<Use>,
) -> Result<(), AllocError>
    ensures { OnOk result (uses.new.items
        ≡ uses.old.items ++ (form_rights first.now
        ++ (form_rights second.now ++ form_rights third.now))) }
{
    add_form(first, uses)?;
    add_two(second, third, uses)
}

/// What the members of a record use, in order.
#[cycle(gathering)]
fn add_fields(fields: &[Field<Form>], uses: &mut Vec<Use>) -> Result<(), AllocError>
    ensures { OnOk result (uses.new.items
        ≡ uses.old.items ++ flat_map (λ field. form_rights field.value) fields.now) }
{
    for field in fields {
        add_form(&field.value, uses)?;
    }
    Ok(())
}

/// What keys use, in order.
#[cycle(gathering)]
fn add_keys(keys: &[SortKey<Form>], uses: &mut Vec<Use>) -> Result<(), AllocError>
    ensures { OnOk result (uses.new.items
        ≡ uses.old.items ++ flat_map (λ key. form_rights key.value) keys.now) }
{
    for key in keys {
        add_form(&key.value, uses)?;
    }
    Ok(())
}

/// What four forms use, one after the other.
#[cycle(gathering)]
fn add_four(
    first: &Form,
    second: &Form,
    third: &Form,
    fourth: &Form,
    uses: &mut Vec<Use>,
) -> Result<(), AllocError>
    ensures { OnOk result (uses.new.items
        ≡ uses.old.items ++ (form_rights first.now
        ++ (form_rights second.now ++ (form_rights third.now ++ form_rights fourth.now)))) }
{
    add_form(first, uses)?;
    add_three(second, third, fourth, uses)
}

/// What the parts of a join use, but for its outer source.
#[cycle(gathering)]
fn add_joined(joined: &Joined<Form>, uses: &mut Vec<Use>) -> Result<(), AllocError>
    ensures { OnOk result (uses.new.items ≡ uses.old.items ++ join_uses joined.now) }
{
    add_four(
        &joined.inner,
        &joined.outer_key,
        &joined.inner_key,
        &joined.result,
        uses,
    )
}

/// What a tree uses, in the order of the text that it comes from: tables, columns and host predicates, each predicate before the row
/// that it is asked about, and that before its columns; and where it is `served`, after them each column of each row type in its type, all
/// of which a reply shows. Refused where memory is.
pub fn uses(alloc: Global, tree: &Tree, store: &Store, served: bool) -> Result<Vec<Use>, AllocError>
    ensures { IfOk result (λ uses. uses.items
        ≡ form_rights tree.now.form ++ uses_served served (schemas_of store.now) tree.now.ty) }
{
    let mut uses = Vec::new(alloc);
    add_form(tree.form.get(), &mut uses)?;
    if served {
        add_columns(store, ty(tree), &mut uses)?;
    }
    Ok(uses)
}
