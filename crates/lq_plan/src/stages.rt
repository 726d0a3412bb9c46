//! Stages: what items go through on their way from a base to a form, and what is handed on of them.
ghost use Rattle.std.specs.Prelude.{◌≡◌, IfSome, None, true};
ghost use Rattle.lq_plan.specs.Stages.{IsStageOver, has_no_stage, is_base};

use lq_tree::Form;
use lq_value::{Fault, Value};

/// What the items of a source go through last.
#[derive(Clone, Copy)]
pub enum Stage<'f> {
    /// Nothing: they are the items as they come.
    Plain,
    /// A condition, which keeps the items of which it is true (.NET, `Enumerable.Where`).
    Where(&'f Form),
    /// A lambda, of each item what it gives (.NET, `Enumerable.Select`).
    Select(&'f Form),
}

/// The stage that a form is, and the source before it; none exactly where the form is the base of its
/// items. What makes a sequence lets each item through.
pub fn stage_of(form: &Form) -> Option<(Stage<'_>, &Form)>
    ensures stage { IfSome result (λ view. IsStageOver form.now view.0 view.1.now) }
    ensures none { result ≡ None → is_base form.now ≡ true }
{
    match form {
        Form::Where(source, condition) => Some((Stage::Where(condition.get()), source.get())),
        Form::Select(source, body) => Some((Stage::Select(body.get()), source.get())),
        Form::Sequence(source) => Some((Stage::Plain, source.get())),
        _ => None,
    }
}

/// Whether an item of a form's base is one of the form, since neither a condition nor a lambda stands
/// between them: so it is of a base, and of what makes a sequence of one. It looks no further down.
pub fn has_no_stage(form: &Form) -> bool
    ensures { result ≡ has_no_stage form.now }
{
    match form {
        Form::Where(_, _) => false,
        Form::Select(_, _) => false,
        Form::Sequence(source) => match source.get() {
            Form::Where(_, _) => false,
            Form::Select(_, _) => false,
            Form::Sequence(_) => false,
            _ => true,
        },
        _ => true,
    }
}

/// What an item has become behind conditions and lambdas.
#[derive(Drop)]
pub enum Outcome<R> {
    /// It is this item now.
    Item(Value<R>),
    /// A condition wasn't true of it.
    Dropped,
    /// A condition or a lambda met this fault.
    Fault(Fault),
}
