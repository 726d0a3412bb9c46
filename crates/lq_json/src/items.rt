//! The line of a reply of items, written item by item into one buffer.
ghost use Rattle.std.specs.Prelude.{◌≡◌, ◌∷◌, ◌++◌, [], drop, true, IfOk, List, OnOk};
ghost use Rattle.serde_json.specs.Data.{Data, boolean, null, number, object, string};
ghost use Rattle.serde_json.specs.Find.{of_integer};
ghost use Rattle.serde_json.specs.Written.{comma_if, compact_text};
ghost use Rattle.lq_value.specs.declared.value.End.TheVariants as end;
ghost use Rattle.lq_machine.specs.Served.{line_of, stream_members};
ghost use Rattle.lq_json.specs.Shapes.{data_by};
ghost use Rattle.lq_json.specs.Items.{Holds, Pushes, fault_front, has_items, text_in};

use crate::line::Line;
use crate::scalar::{write_bool, write_int};
use crate::shape::Shape;
use crate::string::write_string;
use crate::text::Text;
use crate::write::write;
use lq_value::{End, Fault, RowRef, Value};
use std::alloc::{AllocError, Global};

/// The line of a reply of items, of which some are written. Items are put one after another, with no
/// copy of those before. Once memory was refused it is of no more use.
#[derive(Drop)]
pub struct ItemsLine {
    alloc: Global,
    out: Text,
    has_items: bool,
}

/// What a reply begins with that ends in this fault.
fn fault_front(fault: Fault) -> &'static [u8]
    ensures { result.now ≡ fault_front fault }
{
    match fault {
        Fault::DivideByZero => b"{\"fault\":\"DivideByZero\",",
        Fault::Overflow => b"{\"fault\":\"Overflow\",",
        Fault::NullReference => b"{\"fault\":\"NullReference\",",
        Fault::InvalidOperation => b"{\"fault\":\"InvalidOperation\",",
        Fault::ArgumentOutOfRange => b"{\"fault\":\"ArgumentOutOfRange\",",
    }
}

/// The line of this text.
fn line_of_text(mut text: Vec<u8>) -> Result<Line, AllocError>
    ensures { IfOk result (λ line. line ≡ text.items ++ 10 ∷ []) }
{
    text.push(b'\n')?;
    Ok(Line::from_bytes(text))
}

/// The text without its first byte.
fn after_first(text: &[u8]) -> &[u8]
    ensures { result.now ≡ drop 1 text.now }
{
    match text {
        [_, rest @ ..] => rest,
        [] => text,
    }
}

/// The text of a reply that ends in this fault, from the text of the one that ends well.
fn faulted(alloc: Global, fault: Fault, text: &[u8]) -> Result<Vec<u8>, AllocError>
    ensures { IfOk result (λ bytes. bytes.items ≡ fault_front fault ++ drop 1 text.now) }
{
    let mut bytes = Vec::new(alloc);
    bytes.extend_from_slice(fault_front(fault))?;
    bytes.extend_from_slice(after_first(text))?;
    Ok(bytes)
}

impl ItemsLine {
    /// The line with no item yet.
    pub fn new(alloc: Global) -> Result<ItemsLine, AllocError>
        ensures { IfOk result (λ items. Holds items []) }
    {
        let mut out = Text::new(alloc);
        out.put(b"{\"items\":[")?;
        Ok(ItemsLine {
            alloc,
            out,
            has_items: false,
        })
    }

    /// Puts a comma behind the items, where there are any, for the one to come.
    fn begin_item(&mut self) -> Result<(), AllocError>
        ensures text { OnOk result (text_in self.new
            ≡ text_in self.old ++ comma_if (has_items self.old)) }
        ensures later { has_items self.new ≡ true }
    {
        let later = self.has_items;
        self.has_items = true;
        self.out.put_comma(later)
    }

    /// Writes a null after the other items.
    pub fn push_null(&mut self) -> Result<(), AllocError>
        ensures { OnOk result (Pushes self.old self.new null) }
    {
        self.begin_item()?;
        self.out.put(b"null")
    }

    /// Writes an int after the other items.
    pub fn push_int(&mut self, int: i32) -> Result<(), AllocError>
        ensures { OnOk result (Pushes self.old self.new (number (of_integer int))) }
    {
        self.begin_item()?;
        write_int(int, &mut self.out)
    }

    /// Writes a truth value after the other items.
    pub fn push_bool(&mut self, truth: bool) -> Result<(), AllocError>
        ensures { OnOk result (Pushes self.old self.new (boolean truth)) }
    {
        self.begin_item()?;
        write_bool(truth, &mut self.out)
    }

    /// Writes a text after the other items.
    pub fn push_text(&mut self, text: &str) -> Result<(), AllocError>
        ensures { OnOk result (Pushes self.old self.new (string text.now)) }
    {
        self.begin_item()?;
        write_string(text, &mut self.out)
    }

    /// Writes a value of this shape after the other items.
    pub(crate) fn push<R: RowRef>(
        &mut self,
        shape: &Shape,
        value: &Value<R>,
    ) -> Result<(), AllocError>
        ensures { OnOk result (Pushes self.old self.new (data_by R.shown shape.now value.now)) }
    {
        self.begin_item()?;
        write(shape, value, &mut self.out)
    }

    /// The line's text, where the items end well.
    fn text(self) -> Result<Vec<u8>, AllocError>
        ensures { IfOk result (λ text. (ds : List Data) → Holds self ds
            → text.items ≡ compact_text (object (stream_members ds end.Done))) }
    {
        let ItemsLine { mut out, .. } = self;
        out.put(b"]}")?;
        Ok(out.into_bytes())
    }

    /// The whole line, of the items written and how they end.
    pub fn finish(self, end: End) -> Result<Line, AllocError>
        ensures { IfOk result (λ line. (ds : List Data) → Holds self ds
            → line ≡ line_of (object (stream_members ds end))) }
    {
        let alloc = self.alloc;
        let text = self.text()?;
        match end {
            End::Done => line_of_text(text),
            End::Fault(fault) => line_of_text(faulted(alloc, fault, text.as_slice())?),
        }
    }
}
