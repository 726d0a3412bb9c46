//! What an opened pipe gives where no row is read.
ghost use Rattle.std.specs.Prelude.{◌≡◌, [], reverse};
ghost use Rattle.lq_language.specs.TableRows.{TableRow};
ghost use Rattle.lq_language.specs.Worlds.{World};
ghost use Rattle.lq_tree.specs.declared.tree.Form.{Form};
ghost use Rattle.lq_pipeline.specs.Chains.{HasItems, items_of_result};
ghost use Rattle.lq_pipeline.specs.Standings.{GivesOn, IsBegun, IsOfRows};

use crate::steps::{Opened, Standing, Step};
use lq_guard::VisibleRow;
use lq_value::{End, Fault, List, Value};

/// The items of a sequence, and how they end, or every other value as it is.
#[tactic(auto, using(crate::proofs::ValueLemmas::values))]
fn items_in<R>(value: Value<R>) -> Result<(List<Value<R>>, End), Value<R>>
    ensures { HasItems value result }
{
    match value {
        Value::Seq(items, end) => Ok((items, end)),
        Value::Scalar(scalar) => Err(Value::Scalar(scalar)),
        Value::Row(row) => Err(Value::Row(row)),
        Value::Rec(members) => Err(Value::Rec(members)),
        Value::Group(key, items) => Err(Value::Group(key, items)),
    }
}

impl<'a> Opened<'a> {
    /// The items have ended so: this is answered now and from then on.
    pub(crate) fn end(&mut self, end: End) -> Step<VisibleRow<'a>>
        ensures gives { (world : World TableRow) (f : Form)
            → GivesOn world f ([], end) result self.new }
        ensures leaf { self.new.leaf ≡ self.old.leaf }
        ensures begun { (f : Form) → IsOfRows self.old.leaf → IsBegun f self.new }
    {
        self.standing = Standing::Over(end);
        match end {
            End::Done => Step::Done,
            End::Fault(fault) => Step::Fault(fault),
        }
    }

    /// The next of items that were made, of which the next stands last.
    pub(crate) fn give(
        &mut self,
        mut items: Vec<Value<VisibleRow<'a>>>,
        end: End,
    ) -> Step<VisibleRow<'a>>
        ensures gives { (world : World TableRow) (f : Form)
            → GivesOn world f (reverse items.entry.items, end) result self.new }
        ensures leaf { self.new.leaf ≡ self.old.leaf }
        ensures begun { (f : Form) → IsOfRows self.old.leaf → IsBegun f self.new }
    {
        match items.pop() {
            Some(item) => {
                self.standing = Standing::Items(items, end);
                Step::Item(item)
            }
            None => self.end(end),
        }
    }

    /// The first item of a tree whose value or fault was found: of a sequence its own first item.
    pub(crate) fn answer(
        &mut self,
        found: Result<Value<VisibleRow<'a>>, Fault>,
    ) -> Step<VisibleRow<'a>>
        ensures gives { (world : World TableRow) (f : Form)
            → GivesOn world f (items_of_result found.entry) result self.new }
        ensures leaf { self.new.leaf ≡ self.old.leaf }
        ensures begun { (f : Form) → IsOfRows self.old.leaf → IsBegun f self.new }
    {
        match found {
            Ok(value) => match items_in(value) {
                Ok((items, end)) => {
                    let mut items = items.into_vec();
                    items.reverse();
                    self.give(items, end)
                }
                Err(value) => {
                    self.standing = Standing::Over(End::Done);
                    Step::Item(value)
                }
            },
            Err(fault) => self.end(End::Fault(fault)),
        }
    }
}
