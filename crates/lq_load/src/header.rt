//! The columns that a header describes.
ghost use Rattle.std.specs.Prelude.{◌≡◌, ◌==◌, ◌+◌, [], if◌then◌else◌, take, drop, true, length, ◌<◌, IfSome, Option, Some, None, option_map};
ghost use Rattle.std.specs.List.{position};
ghost use Rattle.std.specs.Option.{ok_or};
ghost use Rattle.csv.specs.Records.{fields_of};
ghost use Rattle.lq_grammar.specs.Tokens.{is_name};
ghost use Rattle.lq_load.specs.Headers.{column_of, columns_from, has_name};
ghost use Rattle.lq_load.specs.TableFile.{LoadsAs};
ghost use Rattle.lq_load.specs.declared.load_error.LoadError.TheVariants.{Header};

use crate::kind::kind_of;
use crate::load_error::LoadError;
use csv::ByteRecord;
use lq_lex::is_name;
use lq_store::Column;
use lq_value::{List, Txt};
use std::alloc::Global;

/// The columns that the cells of `header` describe. Refuses with `Header` or `DuplicateName` for
/// the first cell that has no form of a column, or the name of an earlier one.
pub(crate) fn columns_of(alloc: Global, header: &ByteRecord) -> Result<List<Column>, LoadError>
    ensures { LoadsAs (columns_from (fields_of header.now) []) result }
{
    let mut columns = List::new(alloc);
    for cell in header {
        let column = column_of(alloc, cell)?;
        if has_name(columns.as_slice(), column.name.as_bytes()) {
            return Err(LoadError::DuplicateName);
        }
        columns.push(column)?;
    }
    Ok(columns)
}

// Whether one of `columns` has the name.
fn has_name(columns: &[Column], name: &[u8]) -> bool
    ensures { result ≡ has_name columns.now name.now }
{
    columns.iter().any(|column| column.name.as_bytes() == name)
}

// The column that a cell describes.
fn column_of(alloc: Global, cell: &[u8]) -> Result<Column, LoadError>
    ensures { LoadsAs (ok_or (column_of cell.now) Header) result }
{
    let Some(colon) = colon_of(cell) else {
        return Err(LoadError::Header);
    };
    let Some(name) = name_of(&cell[..colon]) else {
        return Err(LoadError::Header);
    };
    let Some((ty, range)) = kind_of(&cell[colon + 1..]) else {
        return Err(LoadError::Header);
    };
    Ok(Column {
        name: Txt::from_str(alloc, name)?,
        ty,
        range,
    })
}

// The place of the first colon.
fn colon_of(cell: &[u8]) -> Option<usize>
    ensures value { result ≡ position (λ c. c == 58) cell.now }
    ensures within { IfSome result (λ colon. colon < length cell.now) }
{
    cell.iter().position(|byte| *byte == b':')
}

// The name that these bytes are. Bytes that aren't text aren't a name.
#[tactic(auto, using(crate::proofs::NameFacts::other_bytes))]
fn name_of(bytes: &[u8]) -> Option<&str>
    ensures { option_map (λ name. name.now) result
        ≡ (if is_name bytes.now then Some bytes.now else None) }
{
    std::str::from_utf8(bytes).ok().filter(|name| is_name(name))
}
