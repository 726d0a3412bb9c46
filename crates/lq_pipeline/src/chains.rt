//! Chains of conditions and lambdas above a table, with the method above them: what can be pulled row by row.
ghost use Rattle.std.specs.Prelude.{◌≡◌, [], IfNone, IfSome, None, Some, option_map, slice_get};
ghost use Rattle.lq_language.specs.OperandMeaning.{stream_of, table_value};
ghost use Rattle.lq_language.specs.TableRows.{TableRow};
ghost use Rattle.lq_language.specs.Worlds.{World};
ghost use Rattle.lq_tree.specs.FormMeaning.{form_meaning};
ghost use Rattle.lq_tree.specs.declared.tree.Form.{out-Form};
ghost use Rattle.lq_tree.specs.declared.tree.Form.TheVariants as variant;
ghost use Rattle.lq_plan.specs.Pulling.{items_at};
ghost use Rattle.lq_pipeline.specs.Chains.{leaf_of, table_in};
ghost use Rattle.lq_pipeline.specs.Heads.{AreItemsOf, IsHeadOver, is_take, is_take_layer, leaf_below, sequence_layer, take_in, unwrapped};

use lq_language::{Given, Simple};
use lq_plan::stage_of;
use lq_tree::Form;
use lq_value::{TableNumber, Ty};

/// The table that a form is.
fn table_in(form: &Form) -> Option<TableNumber>
    ensures table { result ≡ table_in (out-Form form.now) }
    ensures form { IfSome result (λ n. form.now ≡ variant.Table n) }
{
    match form {
        Form::Table(number) => Some(*number),
        _ => None,
    }
}

/// The table at the end of a chain of conditions and lambdas; none exactly where the form isn't one.
#[tactic(auto, using(crate::proofs::ChainLemmas::chains))]
fn leaf_of(form: &Form) -> Option<TableNumber>
    ensures leaf { result ≡ leaf_of form.now }
    ensures items { IfSome result (AreItemsOf form.now) }
{
    match stage_of(form) {
        Some((_, source)) => leaf_of(source),
        None => table_in(form),
    }
}

/// What stands above a chain.
#[derive(Clone, Copy)]
pub(crate) enum Head<'f> {
    /// Nothing: its items are those of the tree.
    Plain,
    /// A method without an argument, and the type that it is of.
    Simple(Simple, &'f Ty),
    /// A method with an argument.
    Given(Given, &'f Form),
    /// `All`, with its condition.
    All(&'f Form),
}

/// A tree whose rows are pulled: what stands above its chain, the chain, and the table at the chain's end.
#[derive(Clone, Copy)]
pub(crate) struct Straight<'f> {
    pub(crate) head: Head<'f>,
    pub(crate) chain: &'f Form,
    pub(crate) table: TableNumber,
}

/// A head above a form, where that is a chain.
fn above<'f>(head: Head<'f>, chain: &'f Form) -> Option<Straight<'f>>
    ensures head { IfSome result (λ straight. straight.head ≡ head.entry) }
    ensures chain { IfSome result (λ straight. straight.chain.now ≡ chain.now) }
    ensures leaf { IfSome result (λ straight. leaf_of chain.now ≡ Some straight.table) }
    ensures items { IfSome result (λ straight. AreItemsOf chain.now straight.table) }
    ensures none { IfNone result (leaf_of chain.now ≡ None) }
{
    match leaf_of(chain) {
        Some(table) => Some(Straight { head, chain, table }),
        None => None,
    }
}

/// What a form says is a sequence.
fn sequence_in(form: &Form) -> Option<&Form>
    ensures { option_map (λ source. source.now) result ≡ sequence_layer (out-Form form.now) }
{
    match form {
        Form::Sequence(source) => Some(source.get()),
        _ => None,
    }
}

/// Whether a method is `Take`.
fn is_take_method(method: Given) -> bool
    ensures { result ≡ is_take method }
{
    match method {
        Given::Take => true,
        Given::Skip | Given::ElementAt | Given::Contains => false,
        Given::Concat | Given::Union | Given::Intersect | Given::Except => false,
    }
}

/// Whether a form is a `Take`.
fn is_take(form: &Form) -> bool
    ensures { result ≡ is_take_layer (out-Form form.now) }
{
    match form {
        Form::Given(method, _, _) => is_take_method(*method),
        _ => false,
    }
}

/// The `Take` in a form, below what says only that it is a sequence.
fn take_in(form: &Form) -> Option<&Form>
    ensures { take_in form.now ≡ option_map (λ taken. taken.now) result }
{
    match sequence_in(form) {
        Some(source) => take_in(source),
        None => { if is_take(form) { Some(form) } else { None } }
    }
}

/// A form whose items are the same: the `Take` in it, or itself.
fn unwrapped(form: &Form) -> &Form
    ensures { result.now ≡ unwrapped form.now }
{
    match take_in(form) {
        Some(taken) => taken,
        None => form,
    }
}

/// A tree as a head above a chain; none exactly where it has no such form, and is run whole.
pub(crate) fn straight_of(form: &Form) -> Option<Straight<'_>>
    ensures head { IfSome result (λ straight.
        IsHeadOver form.now straight.head straight.chain.now) }
    ensures leaf { IfSome result (λ straight. leaf_of straight.chain.now ≡ Some straight.table) }
    ensures items { IfSome result (λ straight. AreItemsOf straight.chain.now straight.table) }
    ensures none { IfNone result (leaf_below form.now ≡ None) }
{
    let form = unwrapped(form);
    match form {
        Form::Simple(method, of, source) => above(Head::Simple(*method, of), source.get()),
        Form::Given(method, source, argument) => {
            above(Head::Given(*method, argument.get()), source.get())
        }
        Form::All(source, condition) => above(Head::All(condition.get()), source.get()),
        _ => above(Head::Plain, form),
    }
}
