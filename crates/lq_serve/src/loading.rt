//! Loading: the tables of some files, or the line that says why there are none.
ghost use Rattle.std.specs.Prelude.{◌≡◌, ◌∷◌, [], List, ℕ, Option, map, string_bytes, IfOk, IfErr};
ghost use Rattle.lq_serve.specs.Loading.{Agrees, Answered, GivesTable, LeavesTables, Loaded, RefusedBy, readings_of_one, table_in, table_read, with_table};

use crate::file_fault::FileFault;
use crate::files::Files;
use crate::naming::table_name;
use crate::reading::read_file;
use crate::start_error::{StartError, refusal};
use lq_lex::is_name;
use lq_load::{MOST_BYTES, table_from_csv};
use lq_store::{Store, Table};
use lq_value::Txt;
use std::alloc::Global;

// The most bytes that are read of a table's file: one more than a table's file may have.
const READ_LIMIT: u64 = MOST_BYTES as u64 + 1;

// The tables that the files of these names hold, in this order.
//
// A table's name is its file's without folders and without the ending `.csv`. The first fault is
// refused, file by file: `name` where that is no name, `read` where the file can't be read, what
// `table_from_csv` refuses, `duplicate-table` for a second table of one name, and `too-many` for
// more than 64 tables. Each file is read once, up to the first fault, and no other file is; at most
// 16,777,217 bytes are asked for.
pub(crate) fn load_tables<F: Files>(
    alloc: Global,
    names: &[String],
    files: &mut F,
) -> Result<Store, StartError>
    ensures ok { IfOk result
        (λ store. Loaded (F.holds files.old) (F.answered files.old) (F.answered files.new)
        (map string_bytes names.now) store) }
    ensures err { IfErr result (λ error.
        RefusedBy (F.holds files.old) (F.answered files.old) (F.answered files.new)
        (map string_bytes names.now) error) }
    ensures keeps { (n : List ℕ) → F.holds files.new n ≡ F.holds files.old n }
{
    let mut store = Store::new(alloc);
    for name in names {
        if let Err(fault) = add_file(alloc, name.as_str(), files, &mut store) {
            return Err(refusal(alloc, name.as_str(), fault));
        }
    }
    Ok(store)
}

// Reads the file of this name, and puts its table after the others.
fn add_file<F: Files>(
    alloc: Global,
    file: &str,
    files: &mut F,
    store: &mut Store,
) -> Result<(), FileFault>
    ensures added { (gave : Option (List ℕ))
        × Agrees (F.holds files.old) (record { file = file.now; gave = gave })
        × Answered result (F.answered files.old) (F.answered files.new)
        (readings_of_one (record { file = file.now; gave = gave }))
        × LeavesTables (with_table store.old (table_in (record { file = file.now; gave = gave })))
        result store.new }
    ensures keeps { (n : List ℕ) → F.holds files.new n ≡ F.holds files.old n }
{
    let table = read_table(alloc, file, files)?;
    match store.add(table) {
        Ok(_) => Ok(()),
        Err((error, _table)) => Err(FileFault::from(error)),
    }
}

// The table of the file of this name.
fn read_table<F: Files>(alloc: Global, file: &str, files: &mut F) -> Result<Table, FileFault>
    ensures table { (gave : Option (List ℕ))
        × Agrees (F.holds files.old) (record { file = file.now; gave = gave })
        × Answered result (F.answered files.old) (F.answered files.new)
        (readings_of_one (record { file = file.now; gave = gave }))
        × GivesTable (table_in (record { file = file.now; gave = gave })) result }
    ensures keeps { (n : List ℕ) → F.holds files.new n ≡ F.holds files.old n }
{
    let name = table_name(file);
    if !is_name(name) {
        return Err(FileFault::Name);
    }
    let bytes = read_file(file, READ_LIMIT, files)?;
    table_from_bytes(alloc, name, &bytes)
}

// The table of this name that a file's bytes mean.
fn table_from_bytes(alloc: Global, name: &str, bytes: &[u8]) -> Result<Table, FileFault>
    ensures { GivesTable (table_read name.now (Some bytes.now)) result }
{
    let name = Txt::from_str(alloc, name)?;
    match table_from_csv(alloc, name, bytes) {
        Ok(table) => Ok(table),
        Err(error) => Err(FileFault::from(error)),
    }
}
