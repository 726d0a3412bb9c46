//! The names of tables, by those of their files.
ghost use Rattle.std.specs.Prelude.{◌≡◌};
ghost use Rattle.lq_serve.specs.Loading.{table_name, without_ending, without_folders};

// The name of the table that the file of this name holds: without folders, and without the ending
// `.csv`.
pub(crate) fn table_name(file: &str) -> &str
    ensures { result.now ≡ table_name file.now }
{
    without_ending(without_folders(file))
}

// What comes after the last `/`.
fn without_folders(file: &str) -> &str
    ensures { result.now ≡ without_folders file.now }
{
    let mut rest = file;
    while let Some((_folder, behind)) = rest.split_once('/') {
        rest = behind;
    }
    rest
}

// A name without the ending `.csv`, where it has one.
fn without_ending(name: &str) -> &str
    ensures { result.now ≡ without_ending name.now }
{
    match name.strip_suffix(".csv") {
        Some(front) => front,
        None => name,
    }
}
