//! The audit: a line to standard error for each host call that is logged. Takes no memory.
ghost use Rattle.std.specs.Prelude.{◌≡◌, ◌++◌, decimal, flat_map, slice_get};
ghost use Rattle.std.specs.Fmt.{signed_decimal};
ghost use Rattle.lq_host.specs.Hosts.{hosts_of, predicates_of};
ghost use Rattle.lq_machine.specs.Served.{name_of_table};
ghost use Rattle.lq_machine.specs.States.{schemas_of};
ghost use Rattle.lq_session.specs.States.{hosts_in, state_of};
ghost use Rattle.lq_serve.specs.Audit.{answer_text, argument_words, asked_words, audit_line, audit_text, audited, column_name, predicate_name, word};
ghost use Rattle.lq_serve.specs.Devices.{inner_of, is_failed, WritesUnlessFailed};

use crate::device::Device;
use crate::error_output::write_more;
use itoa::Buffer;
use lq_host::{Call, HostSet, Pick, Pick2, PredicateNumber, Predicates};
use lq_session::Session;
use lq_store::Store;
use lq_value::{ColumnNumber, TableNumber};
use std::io::Write;

// Writes what an audit prints of the calls that the session's log has now, if one is asked for.
#[tactic(auto, using(crate::proofs::DeviceLemmas::nothing_more))]
pub(crate) fn write_audit<E: Write>(audit: bool, errors: &mut Device<E>, session: &Session)
    ensures { WritesUnlessFailed (is_failed errors.old) (E.contents (inner_of errors.old))
        (is_failed errors.new) (E.contents (inner_of errors.new))
        (audited audit (state_of session.now) (hosts_in session.now).calls) }
{
    if audit {
        write_log(errors, session);
    }
}

// Writes the lines of the calls that the session's log has now.
fn write_log<E: Write>(errors: &mut Device<E>, session: &Session)
    ensures { WritesUnlessFailed (is_failed errors.old) (E.contents (inner_of errors.old))
        (is_failed errors.new) (E.contents (inner_of errors.new))
        (audit_text (state_of session.now) (hosts_in session.now).calls) }
{
    write_lines(errors, session.store(), session.hosts());
}

// Writes the lines of the calls, in their order.
fn write_lines<E: Write>(errors: &mut Device<E>, store: &Store, hosts: &HostSet)
    ensures { WritesUnlessFailed (is_failed errors.old) (E.contents (inner_of errors.old))
        (is_failed errors.new) (E.contents (inner_of errors.new))
        (flat_map (audit_line (schemas_of store.now) (hosts_of hosts.now).predicates)
        (hosts_of hosts.now).calls) }
{
    for call in hosts.calls() {
        write_line(errors, store, hosts.predicates(), *call);
    }
}

fn write_line<E: Write>(errors: &mut Device<E>, store: &Store, predicates: &Predicates, call: Call)
    ensures { WritesUnlessFailed (is_failed errors.old) (E.contents (inner_of errors.old))
        (is_failed errors.new) (E.contents (inner_of errors.new))
        (audit_line (schemas_of store.now) (predicates_of predicates.now) call) }
{
    let mut buffer = Buffer::new();
    write_more(errors, predicate_name(predicates, call.predicate));
    write_word(errors, table_name(store, call.table));
    write_word(errors, buffer.format(call.row));
    write_asked(errors, store, call);
    write_word(errors, answer_text(call.answer));
    write_more(errors, "\n");
}

// Writes each column with its argument.
fn write_asked<E: Write>(errors: &mut Device<E>, store: &Store, call: Call)
    ensures { WritesUnlessFailed (is_failed errors.old) (E.contents (inner_of errors.old))
        (is_failed errors.new) (E.contents (inner_of errors.new))
        (asked_words (schemas_of store.now) call.table call.columns call.arguments) }
{
    match (call.columns, call.arguments) {
        (Pick::One(column), Pick2::One(x)) => {
            write_argument(errors, column_name(store, call.table, column), x);
        }
        (Pick::Two(first, second), Pick2::Two(x, y)) => {
            let first = column_name(store, call.table, first);
            write_two(errors, first, x, column_name(store, call.table, second), y);
        }
        _ => {}
    }
}

// Writes two columns, each with its argument.
fn write_two<E: Write>(errors: &mut Device<E>, first: &str, x: i32, second: &str, y: i32)
    ensures { WritesUnlessFailed (is_failed errors.old) (E.contents (inner_of errors.old))
        (is_failed errors.new) (E.contents (inner_of errors.new))
        (argument_words first.now x ++ argument_words second.now y) }
{
    write_argument(errors, first, x);
    write_argument(errors, second, y);
}

fn write_argument<E: Write>(errors: &mut Device<E>, column: &str, argument: i32)
    ensures { WritesUnlessFailed (is_failed errors.old) (E.contents (inner_of errors.old))
        (is_failed errors.new) (E.contents (inner_of errors.new))
        (argument_words column.now argument) }
{
    let mut buffer = Buffer::new();
    write_word(errors, column);
    write_word(errors, buffer.format(argument));
}

fn write_word<E: Write>(errors: &mut Device<E>, text: &str)
    ensures { WritesUnlessFailed (is_failed errors.old) (E.contents (inner_of errors.old))
        (is_failed errors.new) (E.contents (inner_of errors.new)) (word text.now) }
{
    write_more(errors, " ");
    write_more(errors, text);
}

fn answer_text(answer: bool) -> &'static str
    ensures { result.now ≡ answer_text answer }
{
    if answer { "true" } else { "false" }
}

// The name of a predicate; empty where there is no such predicate.
fn predicate_name(predicates: &Predicates, predicate: PredicateNumber) -> &str
    ensures { result.now ≡ predicate_name (predicates_of predicates.now) predicate }
{
    if predicate as usize >= predicates.len() {
        return "";
    }
    predicates.name(predicate)
}

// The name of a table; empty where there is no such table.
fn table_name(store: &Store, table: TableNumber) -> &str
    ensures { result.now ≡ name_of_table (slice_get (schemas_of store.now) table) }
{
    if table as usize >= store.len() {
        return "";
    }
    store.schema(table).name.as_str()
}

// The name of a column; empty where there is no such column.
fn column_name(store: &Store, table: TableNumber, column: ColumnNumber) -> &str
    ensures { result.now ≡ column_name (schemas_of store.now) table column }
{
    if table as usize >= store.len() {
        return "";
    }
    match store.schema(table).columns.as_slice().get(column as usize) {
        Some(column) => column.name.as_str(),
        None => "",
    }
}
