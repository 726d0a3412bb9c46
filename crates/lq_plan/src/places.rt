//! Items that stand in slots.
ghost use Rattle.std.specs.Prelude.{◌≡◌, IfSome};
ghost use Rattle.lq_value.specs.declared.value.Value.{out-Value};
ghost use Rattle.lq_language.specs.Worlds.{World};
ghost use Rattle.lq_language.specs.OperandMeaning.{items_of, stream_of};
ghost use Rattle.lq_plan.specs.Meanings.{meant};

use crate::slots::Slots;
use crate::sources::part_ref;
use lq_tree::Form;
use lq_value::{End, RowRef, Value};

/// The items that a value is enumerated as, where they stand in it, and how they end. None exactly where it
/// is no sequence and no group.
#[tactic(auto, using(crate::proofs::PartLemmas::layers))]
fn items_in<R: RowRef>(value: &Value<R>) -> Option<(&[Value<R>], End)>
    ensures { (world : World R) → IfSome result (λ s.
        items_of world (out-Value R value.now) ≡ (s.0.now, s.1)) }
{
    match value {
        Value::Seq(items, end) => Some((items.as_slice(), *end)),
        Value::Group(_, items) => Some((items.as_slice(), End::Done)),
        Value::Scalar(_) | Value::Row(_) | Value::Rec(_) => None,
    }
}

/// The items of a form, and how they end, where the form is a slot, or a part of what stands in one
/// (`part_ref`), and what it means is a sequence or a group: they stay where they are. None means nothing:
/// every form has items, which are had by evaluating it.
pub fn items_ref<'s, R: RowRef>(
    form: &Form,
    slots: &'s Slots<'_, R>,
) -> Option<(&'s [Value<R>], End)>
    ensures { (world : World R) → IfSome result (λ s.
        stream_of world (meant world form.now slots.now) ≡ (s.0.now, s.1)) }
{
    items_in(part_ref(form, slots)?)
}
