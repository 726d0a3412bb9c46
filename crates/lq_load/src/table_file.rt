//! Tables read from files of comma-separated values.
ghost use Rattle.std.specs.Prelude.{◌≡◌, ◌<◌, ◌+◌, ◌^◌, true, length, OnOk, IfErr, IfOk, Ok, Err};
ghost use Rattle.csv.specs.Records.{fields_of};
ghost use Rattle.lq_load.specs.CsvRecords.{IsReading, records_left};
ghost use Rattle.lq_load.specs.TableFile.{LoadsAs, UnlessMemory, table_of, table_of_records, table_under, with_record, with_records};

use crate::cells::cells_of;
use crate::header::columns_of;
use crate::load_error::LoadError;
use crate::reading::{read_record, reader_of};
use csv::{ByteRecord, Reader};
use lq_lex::without_marks;
use lq_store::{Schema, StoreError, Table};
use lq_value::Txt;
use std::alloc::Global;

/// The most bytes that a table's file has.
pub const MOST_BYTES: usize = 16_777_216;

/// The most columns that a table has.
const MOST_COLUMNS: usize = 100;

/// The table of this name that a file's bytes mean. Its first record is the header: a cell
/// `NAME:TYPE` for each column, where TYPE is `int`, `int[lo..hi]`, `int?`, `bool` or `string`. Each
/// further record is a row, numbered from 1. Byte order marks at the start are passed over, cells
/// aren't trimmed, and quotes make no difference to what a cell means.
///
/// An integer is decimal digits, with or without a minus before them, within 32 bits with a sign, and within the
/// column's range; a truth value is `true`, `True`, `TRUE` or `t`, or `false`, `False`, `FALSE` or
/// `f`; a text is any UTF-8. `\N` is null for `int?` and `string`, and so is an empty cell for `int?`.
///
/// Refuses with `TooLarge` for more than 16,777,216 bytes, marks among them, or 100 columns, and
/// then with the first fault met, record by record: a header cell's form before its name (`Header`,
/// `DuplicateName`), and a record's length (`Csv`) before its cells (`Cell`). No record at all is
/// `Header`, and so is a cell of the header that isn't UTF-8; in another record that is `Cell`.
/// `Memory` may replace any other answer.
pub fn table_from_csv(alloc: Global, name: Txt, bytes: &[u8]) -> Result<Table, LoadError>
    ensures { LoadsAs (table_of name bytes.now) result }
{
    if bytes.len() > MOST_BYTES {
        return Err(LoadError::TooLarge);
    }
    let mut reader = reader_of(alloc, without_marks(bytes));
    table_of_records(alloc, name, &mut reader)
}

// The table that the records of `reader` mean.
fn table_of_records(
    alloc: Global,
    name: Txt,
    reader: &mut Reader<&[u8]>,
) -> Result<Table, LoadError>
    requires reading { IsReading reader.old }
    requires room { length (records_left reader.old) < 2 ^ 63 }
    ensures { LoadsAs (table_of_records name (records_left reader.old)) result }
{
    let mut row = ByteRecord::new(alloc);
    if !read_record(reader, &mut row)? {
        return Err(LoadError::Header);
    }
    let mut table = table_under(alloc, name, &row)?;
    push_records(alloc, &mut table, reader, &mut row)?;
    Ok(table)
}

// The table without rows that a header describes.
fn table_under(alloc: Global, name: Txt, header: &ByteRecord) -> Result<Table, LoadError>
    requires { 0 < length (fields_of header.now) }
    ensures table { LoadsAs (table_under name (fields_of header.now)) result }
    ensures first { IfOk result (λ t. t.next ≡ 1) }
{
    if header.len() > MOST_COLUMNS {
        return Err(LoadError::TooLarge);
    }
    let columns = columns_of(alloc, header)?;
    Ok(Table::new(alloc, Schema { name, columns }, 1))
}

// Puts a row into `table` for each record that is left.
fn push_records(
    alloc: Global,
    table: &mut Table,
    reader: &mut Reader<&[u8]>,
    row: &mut ByteRecord,
) -> Result<(), LoadError>
    requires reading { IsReading reader.old }
    requires first { table.old.next ≡ 1 }
    requires room { length (records_left reader.old) < 2 ^ 63 }
    ensures ok { OnOk result (with_records (records_left reader.old) table.old ≡ Ok table.new) }
    ensures err { IfErr result
        (λ e. UnlessMemory e (with_records (records_left reader.old) table.old ≡ Err e)) }
{
    // The header is record 1, so that row 1 is record 2.
    let mut place = 2;
    while read_record(reader, row)? {
        push_record(alloc, table, row, place)?;
        place += 1;
    }
    Ok(())
}

// Puts the row of the record `row` with the number `place` into `table`.
fn push_record(
    alloc: Global,
    table: &mut Table,
    row: &ByteRecord,
    place: u64,
) -> Result<(), LoadError>
    requires place { place ≡ table.old.next + 1 }
    ensures ok { OnOk result (with_record table.old (fields_of row.now) ≡ Ok table.new) }
    ensures err { IfErr result
        (λ e. UnlessMemory e (with_record table.old (fields_of row.now) ≡ Err e)) }
    ensures next { OnOk result (table.new.next ≡ table.old.next + 1) }
{
    let columns = table.schema().columns.as_slice();
    if row.len() != columns.len() {
        return Err(LoadError::Csv);
    }
    let cells = cells_of(alloc, columns, row, place)?;
    match table.push(cells.into_vec()) {
        Ok(_) => Ok(()),
        Err((error, _cells)) => Err(memory_of(error)),
    }
}

// A table takes these cells, unless there is no memory.
fn memory_of(error: StoreError) -> LoadError
    requires { error ≡ StoreError.Memory }
    ensures { result ≡ LoadError.Memory }
{
    match error {
        StoreError::Memory => LoadError::Memory,
        _ => unreachable!(),
    }
}
