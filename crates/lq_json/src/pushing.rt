//! Replies of items that are pushed one by one.
ghost use Rattle.std.specs.Prelude.{◌≡◌, [], IfOk, None, Some};
ghost use Rattle.lq_json.specs.Items.{Holds};
ghost use Rattle.lq_json.specs.declared.pushing.Writing.{Writing};

use crate::fault::nested_fault;
use crate::items::ItemsLine;
use crate::line::Line;
use crate::shape::{Shape, shape_of};
use lq_sink::{Flow, Sink};
use lq_store::Store;
use lq_value::{End, Fault, RowRef, Ty, Value};
use std::alloc::{AllocError, Global};

/// What cuts a reply off: no item comes behind it.
#[derive(Clone, Copy, Drop)]
pub(crate) enum Cut {
    /// The fault in an item that was pushed.
    Fault(Fault),
    /// A growth was refused.
    Memory,
}

/// The items that are written, by the shape of their type.
#[derive(Drop)]
pub(crate) struct Writing {
    shape: Shape,
    line: ItemsLine,
}

impl Writing {
    ghost use Rattle.std.specs.Prelude.{◌≡◌, ◌∷◌, ◌++◌, [], IfOk, OnOk, List};
    ghost use Rattle.serde_json.specs.Data.{Data};
    ghost use Rattle.lq_machine.specs.States.{schemas_of};
    ghost use Rattle.lq_json.specs.Items.{Holds};
    ghost use Rattle.lq_json.specs.Shapes.{data_by, shape_of};

    /// No item yet.
    fn new(alloc: Global, ty: &Ty, store: &Store) -> Result<Writing, AllocError>
        ensures shape { IfOk result (λ w. w.shape ≡ shape_of (schemas_of store.now) ty.now) }
        ensures none { IfOk result (λ w. Holds w.line []) }
    {
        let shape = shape_of(alloc, store, ty)?;
        let line = ItemsLine::new(alloc)?;
        Ok(Writing { shape, line })
    }

    /// Writes an item behind the others.
    #[tactic(auto, using(crate::proofs::PushLemmas::holds_more))]
    fn push<R: RowRef>(&mut self, value: &Value<R>) -> Result<(), AllocError>
        ensures items { OnOk result ((ds : List Data) → Holds self.old.line ds
            → Holds self.new.line (ds ++ data_by R.shown self.old.shape value.now ∷ [])) }
        ensures shape { self.new.shape ≡ self.old.shape }
    {
        self.line.push(&self.shape, value)?;
        Ok(())
    }
}

/// The line that is written; one with no item where there is none.
fn line_in(alloc: Global, writing: Option<Writing>) -> Result<ItemsLine, AllocError>
    ensures written { IfOk result (λ line. (w : Writing) → writing ≡ Some w → line ≡ w.line) }
    ensures none { IfOk result (λ line. writing ≡ None → Holds line []) }
{
    match writing {
        Some(Writing { line, .. }) => Ok(line),
        None => Ok(ItemsLine::new(alloc)?),
    }
}

/// The reply of a sequence, whose items are pushed one by one. Once it has stopped, further items change nothing.
#[derive(Drop)]
pub struct Items<'a> {
    alloc: Global,
    ty: &'a Ty,
    store: &'a Store,
    writing: Option<Writing>,
    cut: Option<Cut>,
}

impl<'a> Items<'a> {
    ghost use Rattle.std.specs.Prelude.{◌≡◌, [], false, IfOk, List, None, OnOk};
    ghost use Rattle.serde_json.specs.Data.{Data};
    ghost use Rattle.serde_json.specs.Data.{object};
    ghost use Rattle.lq_machine.specs.Served.{line_of, stream_members};
    ghost use Rattle.lq_machine.specs.States.{schemas_of};
    ghost use Rattle.lq_json.specs.Pushing.{HasPushed, IsOfSame, IsReplyOf, Pushes, Writes, cut_of, ending, has_memory};

    /// The reply with no item, of values of this type; the tables of the store name the columns of rows. Takes no memory.
    pub fn new(alloc: Global, ty: &'a Ty, store: &'a Store) -> Items<'a>
        ensures none { HasPushed result [] }
        ensures open { cut_of result ≡ None }
        ensures of { IsReplyOf (schemas_of store.now) ty.now result }
    {
        Items {
            alloc,
            ty,
            store,
            writing: None,
            cut: None,
        }
    }

    /// Writes an item behind the others, the first one behind what a reply begins with.
    fn write<R: RowRef>(&mut self, value: &Value<R>) -> Result<(), AllocError>
        ensures same { (self.new.cut ≡ self.old.cut) × IsOfSame self.old self.new }
        ensures written { OnOk result (Writes R.shown self.old value.now self.new) }
    {
        match &mut self.writing {
            Some(writing) => {
                writing.push(value)?;
                Ok(())
            }
            None => {
                let mut writing = Writing::new(self.alloc, self.ty, self.store)?;
                writing.push(value)?;
                self.writing = Some(writing);
                Ok(())
            }
        }
    }

    /// Pushes an item. The reply stops at one that holds a fault, before it, and where a growth is refused; after that it changes no more.
    pub fn push<R: RowRef>(&mut self, value: &Value<R>) -> Flow
        ensures { Pushes R.shown self.old value.now result self.new }
    {
        if self.cut.is_some() {
            return Flow::Stop;
        }
        if let Some(fault) = nested_fault(value) {
            self.cut = Some(Cut::Fault(fault));
            return Flow::Stop;
        }
        match self.write(value) {
            Ok(()) => Flow::Go,
            Err(AllocError) => {
                self.cut = Some(Cut::Memory);
                Flow::Stop
            }
        }
    }

    /// The line of the items that were pushed up to the first stop, and their ending: the fault in an item takes its place. Refused where a
    /// growth was refused, or one for the ending is.
    pub fn finish(self, end: End) -> Result<Line, AllocError>
        ensures line { IfOk result (λ line. (ds : List Data) → HasPushed self.entry ds
            → line ≡ line_of (object (stream_members ds (ending (cut_of self.entry) end)))) }
        ensures whole { IfOk result (λ line. has_memory (cut_of self.entry) ≡ false) }
    {
        let Items {
            alloc,
            writing,
            cut,
            ..
        } = self;
        let line = line_in(alloc, writing)?;
        match cut {
            None => line.finish(end),
            Some(Cut::Fault(fault)) => line.finish(End::Fault(fault)),
            Some(Cut::Memory) => Err(AllocError),
        }
    }
}

impl<R: RowRef> Sink<R> for Items<'_> {
    ghost use Rattle.lq_json.specs.Pushing.{Pushes};

    ghost takes = { λ old value said new. Pushes R.shown old value said new };

    fn take(&mut self, item: Value<R>) -> Flow
        ensures { Pushes R.shown self.old item result self.new }
    {
        self.push(&item)
    }
}
