//! What is done with a pipe, and what comes of it, as a short text.
//!
//! A row is written as # and its number, a record in braces, a group as its key and its items in brackets, and a sequence as its items in brackets, of
//! which the last may be a fault. The end of a pipe is a dot or, behind a !, the fault; a pull that is refused memory is written `memory`. What a drain
//! gives to its sink is in parentheses, with its end.
use lq_host::{Call, Pick, Pick2, SeenRow};
use lq_pipeline::Step;
use lq_sink::{Flow, Sink};
use lq_value::{End, Fault, Scalar, Txt, Value};
use std::alloc::Global;

/// How much was done with a pipe by some moment.
#[derive(Clone, Copy)]
pub(crate) struct Count {
    /// How many items it gave.
    pub(crate) given: usize,
    /// How many pulls and drains were refused memory.
    pub(crate) refused: usize,
    /// How many rows it handed out.
    pub(crate) handed: u64,
    /// How many calls the log has.
    pub(crate) calls: usize,
}

impl Count {
    /// Whether this may come after an act, where that was before it: nothing is taken back, and once memory was refused it is refused
    /// again, and nothing else changes.
    fn may_follow(self, before: Count) -> bool {
        if before.refused == 0 {
            return self.handed >= before.handed && self.calls >= before.calls;
        }
        self.refused > before.refused
            && self.given == before.given
            && self.handed == before.handed
            && self.calls == before.calls
    }
}

/// What came of a pipe.
#[derive(Drop)]
pub(crate) struct Trace {
    text: String,
    /// Whether a blank comes before what is written next.
    has_gap: bool,
    given: usize,
    /// After how many items a sink takes no more.
    enough: usize,
    refused: usize,
    /// Whether it is written how many rows were handed out.
    shows_rows: bool,
    /// How many rows are to be handed out by the end of each act, where that is known.
    needed: Option<u64>,
    /// How much of the text there was at the first refusal.
    settled: usize,
    /// Whether the text itself was refused memory.
    is_cut: bool,
    /// Whether something is wrong that needs no comparison.
    is_wrong: bool,
}

impl Trace {
    pub(crate) fn new(alloc: Global, shows_rows: bool, needed: Option<u64>) -> Trace {
        Trace {
            text: String::new(alloc),
            has_gap: false,
            given: 0,
            enough: 0,
            refused: 0,
            shows_rows,
            needed,
            settled: 0,
            is_cut: false,
            is_wrong: false,
        }
    }

    pub(crate) fn as_str(&self) -> &str {
        self.text.as_str()
    }

    pub(crate) fn given(&self) -> usize {
        self.given
    }

    pub(crate) fn refused(&self) -> usize {
        self.refused
    }

    pub(crate) fn is_cut(&self) -> bool {
        self.is_cut
    }

    pub(crate) fn is_right(&self) -> bool {
        !self.is_cut && !self.is_wrong
    }

    /// Says that something is wrong.
    pub(crate) fn judge(&mut self, is_right: bool) {
        if !is_right {
            self.is_wrong = true;
        }
    }

    /// What was written before memory was refused.
    fn settled_text(&self) -> Option<&str> {
        if self.refused == 0 {
            Some(self.as_str())
        } else {
            self.as_str().get(..self.settled)
        }
    }

    /// Whether this is the front of another trace, up to where memory was refused; it is all of it, where it wasn't.
    pub(crate) fn is_front_of(&self, whole: &Trace) -> bool {
        match self.settled_text() {
            Some(text) if self.refused > 0 => whole.as_str().starts_with(text),
            Some(text) => whole.as_str() == text,
            None => false,
        }
    }

    pub(crate) fn write(&mut self, piece: &str) {
        if self.text.push_str(piece).is_err() {
            self.is_cut = true;
        }
    }

    pub(crate) fn write_number(&mut self, number: u64) {
        if write!(self.text, "{number}").is_err() {
            self.is_cut = true;
        }
    }

    fn write_int(&mut self, number: i32) {
        if write!(self.text, "{number}").is_err() {
            self.is_cut = true;
        }
    }

    fn write_truth(&mut self, truth: bool) {
        self.write(if truth { "true" } else { "false" });
    }

    fn write_gap(&mut self) {
        if self.has_gap {
            self.write(" ");
        }
        self.has_gap = true;
    }

    /// Writes a word, behind a blank where something stands before it.
    pub(crate) fn write_word(&mut self, word: &str) {
        self.write_gap();
        self.write(word);
    }

    fn begin(&mut self, bracket: &str) {
        self.write(bracket);
        self.has_gap = false;
    }

    /// Begins the items of a drain or a run, of which a sink takes so many.
    pub(crate) fn begin_items(&mut self, most: usize) {
        self.write_gap();
        self.begin("(");
        self.enough = self.given.saturating_add(most);
    }

    pub(crate) fn end(&mut self, bracket: &str) {
        self.write(bracket);
        self.has_gap = true;
    }

    fn write_fault(&mut self, fault: Fault) {
        if write!(self.text, "!{fault:?}").is_err() {
            self.is_cut = true;
        }
    }

    pub(crate) fn write_end(&mut self, end: End) {
        self.write_gap();
        match end {
            End::Done => self.write("."),
            End::Fault(fault) => self.write_fault(fault),
        }
    }

    pub(crate) fn write_refusal(&mut self) {
        if self.refused == 0 {
            self.settled = self.text.len();
        }
        self.refused = self.refused.saturating_add(1);
        self.write_word("memory");
    }

    fn write_scalar(&mut self, scalar: &Scalar) {
        match scalar {
            Scalar::Null => self.write("null"),
            Scalar::Int(number) => self.write_int(*number),
            Scalar::Bool(truth) => self.write_truth(*truth),
            Scalar::Text(letters) => self.write(letters.as_str()),
        }
    }

    /// Writes a scalar or a row. No query here has anything else as deep as this.
    fn write_plain<R: SeenRow>(&mut self, value: &Value<R>) {
        match value {
            Value::Scalar(scalar) => self.write_scalar(scalar),
            Value::Row(row) => {
                self.write("#");
                self.write_number(row.number());
            }
            _ => self.write("?"),
        }
    }

    fn write_list<R: SeenRow>(&mut self, items: &[Value<R>], end: End) {
        self.begin("[");
        for item in items {
            self.write_gap();
            self.write_plain(item);
        }
        if let End::Fault(fault) = end {
            self.write_gap();
            self.write_fault(fault);
        }
        self.end("]");
    }

    fn write_member<R: SeenRow>(&mut self, value: &Value<R>) {
        match value {
            Value::Seq(items, end) => self.write_list(items.as_slice(), *end),
            _ => self.write_plain(value),
        }
    }

    fn write_members<R: SeenRow>(&mut self, members: &[(Txt, Value<R>)]) {
        self.begin("{");
        for (_, value) in members {
            self.write_gap();
            self.write_member(value);
        }
        self.end("}");
    }

    fn write_value<R: SeenRow>(&mut self, value: &Value<R>) {
        match value {
            Value::Rec(members) => self.write_members(members.as_slice()),
            Value::Group(key, items) => {
                self.write_plain(key.get());
                self.write_list(items.as_slice(), End::Done);
            }
            _ => self.write_member(value),
        }
    }

    pub(crate) fn write_item<R: SeenRow>(&mut self, item: &Value<R>) {
        self.given = self.given.saturating_add(1);
        self.write_gap();
        self.write_value(item);
    }

    /// Writes what a pull answered, and says whether that was an item.
    pub(crate) fn write_step<R: SeenRow>(&mut self, step: &Step<R>) -> bool {
        match step {
            Step::Item(item) => {
                self.write_item(item);
                true
            }
            Step::Done => {
                self.write_end(End::Done);
                false
            }
            Step::Fault(fault) => {
                self.write_end(End::Fault(*fault));
                false
            }
        }
    }

    /// Judges what an act did, and writes how many rows were handed out, where that is to be written.
    pub(crate) fn write_count(&mut self, before: Count, after: Count) {
        self.judge(after.may_follow(before));
        if let Some(needed) = self.needed {
            self.judge(after.handed == needed);
        }
        if self.shows_rows {
            self.write("@");
            self.write_number(after.handed);
        }
    }

    fn write_column(&mut self, column: u16, argument: i32) {
        self.write(" ");
        self.write_number(column as u64);
        self.write("=");
        self.write_int(argument);
    }

    fn write_call(&mut self, call: &Call) {
        self.write(" [");
        self.write_number(call.predicate as u64);
        self.write(": ");
        self.write_number(call.table as u64);
        self.write(" #");
        self.write_number(call.row);
        match (call.columns, call.arguments) {
            (Pick::One(column), Pick2::One(argument)) => self.write_column(column, argument),
            (Pick::Two(first, second), Pick2::Two(third, fourth)) => {
                self.write_column(first, third);
                self.write_column(second, fourth);
            }
            _ => self.is_wrong = true,
        }
        self.write(" ");
        self.write_truth(call.answer);
        self.write("]");
    }

    /// Writes the calls of a log behind so many, in brackets: the number of the predicate, the table, the row, its columns with what they have, and the
    /// answer.
    pub(crate) fn write_calls(&mut self, log: &[Call], before: usize) {
        for call in log.iter().skip(before) {
            self.write_call(call);
        }
    }
}

impl<R: SeenRow + Drop> Sink<R> for Trace {
    ghost takes = { λ _ _ _ _. Unit {0} };

    fn take(&mut self, item: Value<R>) -> Flow
        ensures { Unit {0} }
    {
        self.write_item(&item);
        if self.given < self.enough {
            Flow::Go
        } else {
            Flow::Stop
        }
    }
}
