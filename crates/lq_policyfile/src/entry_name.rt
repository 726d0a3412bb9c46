//! Entries that have names.
use crate::entry::{PolicyEntry, RightEntry, RoleEntry, TableEntry};

/// What has a name.
pub(crate) trait HasEntryName {
    ghost use Rattle.std.specs.Prelude.{◌≡◌, List, ℕ};

    /// The name as a contract sees it.
    ghost name: { Self → List ℕ };

    /// The name.
    fn name(&self) -> &str
        ensures { result.now ≡ name self.now };
}

impl HasEntryName for RoleEntry {
    ghost name = { λ role. role.name };

    fn name(&self) -> &str {
        self.name.as_str()
    }
}

impl HasEntryName for TableEntry {
    ghost name = { λ table. table.name };

    fn name(&self) -> &str {
        self.name.as_str()
    }
}

impl HasEntryName for PolicyEntry {
    ghost name = { λ policy. policy.name };

    fn name(&self) -> &str {
        self.name.as_str()
    }
}

impl HasEntryName for RightEntry {
    ghost name = { λ right. right.name };

    fn name(&self) -> &str {
        self.name.as_str()
    }
}
