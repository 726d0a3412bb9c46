//! Records of comma-separated values, one at a time.
ghost use Rattle.std.specs.Prelude.{◌≡◌, IfOk};
ghost use Rattle.csv.specs.Reading.{default_config, records, strip_bom};
ghost use Rattle.csv.specs.Records.{fields_of};
ghost use Rattle.lq_load.specs.CsvRecords.{IsReading, Reads, records_left};

use csv::{ByteRecord, Reader, ReaderBuilder};
use std::alloc::{AllocError, Global};

/// A reader of the records of `text`, of any lengths.
pub(crate) fn reader_of(alloc: Global, text: &[u8]) -> Reader<&[u8]>
    ensures reading { IsReading result }
    ensures records { records_left result ≡ records default_config (strip_bom text.now) }
{
    ReaderBuilder::new()
        .has_headers(false)
        .flexible(true)
        .from_reader(alloc, text)
}

/// Reads the next record into `row`, and whether there was one.
pub(crate) fn read_record(
    reader: &mut Reader<&[u8]>,
    row: &mut ByteRecord,
) -> Result<bool, AllocError>
    requires { IsReading reader.old }
    ensures { IfOk result (Reads reader.old reader.new (fields_of row.new)) }
{
    // Records may be of any length, so that a read fails for memory or for the reader
    // underneath; that one is a slice, which never fails.
    reader.read_byte_record(row).ok().ok_or(AllocError)
}
