//! The asking of host predicates about rows.
use crate::parts;
use crate::rows::Reads;
use crate::sources::Sources;
use crate::tables::{TableRow, cell};
use lq_host::{Asks, HostError, Log, Pick, Pick2, PredicateNumber, Question};
use lq_operators::RunError;
use lq_value::{ColumnNumber, Fault, Scalar, TableNumber, Value};

impl<'a, R: TableRow, S: Reads<R>, H: Asks> Sources<'a, R, S, H> {
    ghost use Rattle.std.specs.Prelude.{◌≡◌, List, Some, IfSome, true};
    ghost use Rattle.lq_value.specs.declared.value.Value.{out-Value};
    ghost use Rattle.lq_host.specs.Calls.{arguments_at as arguments_of, number_of};
    ghost use Rattle.lq_host.specs.Predicates.{answer_in};
    ghost use Rattle.lq_language.specs.OperandMeaning.{answer_value, host_answer, answer_about};
    ghost use Rattle.lq_operators.specs.Answers.{IsAnswer};
    ghost use Rattle.lq_tree.specs.FormMeaning.{arguments_at, arguments_in, numbered_cell};
    ghost use Rattle.lq_tree.specs.Watches.{Watch, has_watched_rows};
    ghost use Rattle.lq_host.specs.declared.call.Call.{Call};
    ghost use Rattle.lq_plan.specs.Plans.{world};
    ghost use Rattle.lq_plan.specs.Watching.{Grown};

    /// The integer that a row has in a column of a table; none where it has no cell there, or another one.
    fn number_in(&self, row: &R, table: TableNumber, column: ColumnNumber) -> Option<i32>
        ensures { result ≡ number_of (numbered_cell (world self.now) table row.now column) }
    {
        match cell(self.tables, row, table, column) {
            Some(Scalar::Int(number)) => Some(*number),
            _ => None,
        }
    }

    /// The arguments that a row of a table has in columns of it; none where it has no integer in one of them.
    fn own_arguments(&self, row: &R, table: TableNumber, columns: Pick) -> Option<Pick2>
        ensures { result ≡ arguments_in (world self.now) table columns row.now }
    {
        match columns {
            Pick::One(column) => Some(Pick2::One(self.number_in(row, table, column)?)),
            Pick::Two(first, second) => Some(Pick2::Two(
                self.number_in(row, table, first)?,
                self.number_in(row, table, second)?,
            )),
        }
    }

    /// The arguments that a row has in columns of a table; none where it is of another table, or has no
    /// integer in one of them.
    fn arguments(&self, row: &R, table: TableNumber, columns: Pick) -> Option<Pick2>
        ensures meant { result ≡ arguments_at (world self.now) table columns row.now }
        ensures cells { IfSome result (λ xs. (R.table_of row.now ≡ table)
            × (arguments_of (R.shown row.now) columns ≡ Some xs)) }
    {
        if row.table() == table {
            return self.own_arguments(row, table, columns);
        }
        None
    }

    /// The answer to a question, whose arguments are those of a row; or the fault of arguments that are out of the
    /// predicate's range. `Memory` where there was none for the entry of the call.
    fn answer(&self, question: Question, log: &mut Log<H>) -> Result<Value<R>, RunError>
        ensures meant { IsAnswer (answer_value (world self.now) (answer_in
            (world self.now).predicates question.predicate question.arguments)) result }
        ensures grows { (w : Watch R) (start : List Call) (row : R) → w.row row ≡ true
            → w.host question.predicate question.table question.columns ≡ true
            → R.table_of row ≡ question.table → R.number_of row ≡ question.row
            → arguments_of (R.shown row) question.columns ≡ Some question.arguments
            → Grown self.now w start log.old → Grown self.now w start log.new }
    {
        match self.hosts.ask(question, log) {
            Ok(answer) => Ok(parts::truth(answer)),
            Err(HostError::Range) => Err(RunError::Fault(Fault::ArgumentOutOfRange)),
            Err(_) => Err(RunError::Memory),
        }
    }

    /// What a predicate answers about a row, or the fault of a form without meaning where the row is of
    /// another table, or has no integer in one of the columns: no typed tree asks for it there.
    fn ask_row(
        &self,
        predicate: PredicateNumber,
        row: &R,
        table: TableNumber,
        columns: Pick,
        log: &mut Log<H>,
    ) -> Result<Value<R>, RunError>
        ensures meant { IsAnswer (host_answer (world self.now) (Some predicate)
            (arguments_at (world self.now) table columns row.now)) result }
        ensures grows { (w : Watch R) (start : List Call) → w.row row.now ≡ true
            → w.host predicate table columns ≡ true
            → Grown self.now w start log.old → Grown self.now w start log.new }
    {
        match self.arguments(row, table, columns) {
            Some(arguments) => {
                let row = row.number();
                let question = Question {
                    predicate,
                    table,
                    row,
                    columns,
                    arguments,
                };
                self.answer(question, log)
            }
            None => Err(RunError::Fault(Fault::NullReference)),
        }
    }

    /// What the host predicate of this number answers about what is a row, whose cells in these columns of
    /// this table are its arguments; or the fault of a null row, or of arguments out of its range.
    #[tactic(auto, using(crate::proofs::PartLemmas::layers))]
    pub(crate) fn host(
        &self,
        predicate: PredicateNumber,
        row: &Value<R>,
        table: TableNumber,
        columns: Pick,
        log: &mut Log<H>,
    ) -> Result<Value<R>, RunError>
        ensures meant { IsAnswer (answer_about (world self.now) (Some predicate)
            (arguments_at (world self.now) table columns) (out-Value R row.now)) result }
        ensures grows { (w : Watch R) (start : List Call) → has_watched_rows w row.now ≡ true
            → w.host predicate table columns ≡ true
            → Grown self.now w start log.old → Grown self.now w start log.new }
    {
        match row {
            Value::Row(row) => self.ask_row(predicate, row, table, columns, log),
            Value::Scalar(_) | Value::Rec(_) | Value::Group(_, _) | Value::Seq(_, _) => {
                Err(RunError::Fault(Fault::NullReference))
            }
        }
    }
}
