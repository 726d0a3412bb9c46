//! What may be wrong with what the command line names, a file or the role, and the line that reports it.
ghost use Rattle.std.specs.Prelude.{◌≡◌, IfOk, string_bytes};
ghost use Rattle.lq_serve.specs.Loading.{fault_line, fault_of_load, fault_of_store, fault_text};

use lq_load::LoadError;
use lq_policyfile::PolicyFileError;
use lq_store::StoreError;
use std::alloc::{AllocError, Global};

// Why a table's file, the policy file or the role was refused.
#[derive(Clone, Copy, Debug, Drop, Eq, PartialEq)]
pub(crate) enum FileFault {
    // There was no memory.
    Memory,
    // The table's name isn't a name.
    Name,
    // The file can't be read.
    Read,
    // A record has more or fewer cells than the header.
    Csv,
    // There is no header, or a cell of it isn't a `NAME:TYPE`.
    Header,
    // Two columns have one name.
    DuplicateName,
    // The cell in the record and the column of these numbers is not of its column's type.
    Cell(u64, u64),
    // There are too many bytes or columns.
    TooLarge,
    // An earlier table has this name.
    DuplicateTable,
    // There are as many tables as a session has.
    TooMany,
    // The policy file isn't TOML.
    Toml,
    // The policy file has another key, another kind of value, or too many bytes, lacks a key, or has
    // a rule that doesn't parse.
    Shape,
    // The policy file names a table, column or role that isn't there.
    UnknownName,
    // The policy file has a role, a table or the name of a rule twice.
    Duplicate,
    // A rule of the policy file isn't a truth value.
    RuleType,
    // A rule of the policy file may fault.
    RuleNotTotal,
    // The policies don't have the role.
    Role,
}

impl From<LoadError> for FileFault {
    ghost use Rattle.std.specs.Prelude.{◌≡◌};
    ghost use Rattle.lq_serve.specs.Loading.{fault_of_load};

    ghost from_gives = { λ error fault. fault ≡ fault_of_load error };

    fn from(error: LoadError) -> FileFault {
        match error {
            LoadError::Memory => FileFault::Memory,
            LoadError::Csv => FileFault::Csv,
            LoadError::Header => FileFault::Header,
            LoadError::DuplicateName => FileFault::DuplicateName,
            LoadError::Cell(record, column) => FileFault::Cell(record, column),
            LoadError::TooLarge => FileFault::TooLarge,
        }
    }
}

impl From<AllocError> for FileFault {
    ghost use Rattle.std.specs.Prelude.{◌≡◌};
    ghost use Rattle.lq_serve.specs.declared.file_fault.FileFault.TheVariants.{Memory};

    ghost from_gives = { λ _ fault. fault ≡ Memory };

    fn from(_: AllocError) -> FileFault {
        FileFault::Memory
    }
}

impl From<StoreError> for FileFault {
    ghost use Rattle.std.specs.Prelude.{◌≡◌};
    ghost use Rattle.lq_serve.specs.Loading.{fault_of_store};

    ghost from_gives = { λ error fault. fault ≡ fault_of_store error };

    fn from(error: StoreError) -> FileFault {
        match error {
            StoreError::DuplicateTable => FileFault::DuplicateTable,
            StoreError::TooMany => FileFault::TooMany,
            _ => FileFault::Memory,
        }
    }
}

impl From<PolicyFileError> for FileFault {
    ghost use Rattle.std.specs.Prelude.{◌≡◌};
    ghost use Rattle.lq_serve.specs.Starting.{fault_of_policy};

    ghost from_gives = { λ error fault. fault ≡ fault_of_policy error };

    fn from(error: PolicyFileError) -> FileFault {
        match error {
            PolicyFileError::Memory => FileFault::Memory,
            PolicyFileError::Toml => FileFault::Toml,
            PolicyFileError::Shape => FileFault::Shape,
            PolicyFileError::UnknownName => FileFault::UnknownName,
            PolicyFileError::Duplicate => FileFault::Duplicate,
            PolicyFileError::RuleType => FileFault::RuleType,
            PolicyFileError::RuleNotTotal => FileFault::RuleNotTotal,
        }
    }
}

// The line that reports a fault, without a line feed.
pub(crate) fn fault_line(alloc: Global, file: &str, fault: FileFault) -> Result<String, AllocError>
    ensures { IfOk result (λ line. string_bytes line ≡ fault_line file.now fault) }
{
    let text = fault_text(alloc, fault)?;
    let text = text.as_str();
    format!(in alloc; "lq: {file}: {text}")
}

// The words of a fault, as they are in its line.
fn fault_text(alloc: Global, fault: FileFault) -> Result<String, AllocError>
    ensures { IfOk result (λ text. string_bytes text ≡ fault_text fault) }
{
    match fault {
        FileFault::Memory => String::from_str(alloc, "memory"),
        FileFault::Name => String::from_str(alloc, "name"),
        FileFault::Read => String::from_str(alloc, "read"),
        FileFault::Csv => String::from_str(alloc, "csv"),
        FileFault::Header => String::from_str(alloc, "header"),
        FileFault::DuplicateName => String::from_str(alloc, "duplicate-name"),
        FileFault::Cell(record, column) => format!(in alloc; "cell {record} {column}"),
        FileFault::TooLarge => String::from_str(alloc, "too-large"),
        FileFault::DuplicateTable => String::from_str(alloc, "duplicate-table"),
        FileFault::TooMany => String::from_str(alloc, "too-many"),
        FileFault::Toml => String::from_str(alloc, "toml"),
        FileFault::Shape => String::from_str(alloc, "shape"),
        FileFault::UnknownName => String::from_str(alloc, "unknown-name"),
        FileFault::Duplicate => String::from_str(alloc, "duplicate"),
        FileFault::RuleType => String::from_str(alloc, "rule-type"),
        FileFault::RuleNotTotal => String::from_str(alloc, "rule-not-total"),
        FileFault::Role => String::from_str(alloc, "role"),
    }
}
