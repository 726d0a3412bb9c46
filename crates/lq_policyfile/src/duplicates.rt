//! Names that occur twice.
ghost use Rattle.std.specs.Prelude.{◌≡◌, ◌++◌, [], map, true, IfOk};
ghost use Rattle.lq_policyfile.specs.Duplicates.{are_new, has_no_duplicates, names_of_rules};
ghost use Rattle.lq_policyfile.specs.NameSets.{with_names};

use crate::entry::FileEntries;
use crate::entry_name::HasEntryName;
use crate::name_set::NameSet;
use std::alloc::{AllocError, Global};

/// Whether each entry's name is unlike the earlier ones and those before it. Where it is, they are
/// earlier ones from now on.
#[tactic(auto, using(crate::proofs::NameLemmas::are_new_step))]
fn add_new<'a, T: HasEntryName>(
    earlier: &mut NameSet<'a>,
    entries: &'a [T],
) -> Result<bool, AllocError>
    ensures new { IfOk result (λ answer. answer ≡ are_new earlier.old (map T.name entries.now)) }
    ensures names { IfOk result (λ answer. answer ≡ true
        → earlier.new ≡ earlier.old ++ map T.name entries.now) }
{
    let mut left = entries;
    while let [entry, others @ ..] = left {
        if !earlier.add(entry.name())? {
            return Ok(false);
        }
        left = others;
    }
    Ok(true)
}

/// Whether each entry's name is unlike those before it.
fn are_new<T: HasEntryName>(alloc: Global, entries: &[T]) -> Result<bool, AllocError>
    ensures { IfOk result (λ answer. answer ≡ are_new [] (map T.name entries.now)) }
{
    add_new(&mut NameSet::new(alloc), entries)
}

/// Whether the names of policies, grants and withholds are unlike one another.
#[tactic(auto, using(crate::proofs::NameLemmas::are_new_after))]
fn are_rules_new(alloc: Global, file: &FileEntries) -> Result<bool, AllocError>
    ensures { IfOk result (λ answer. answer ≡ are_new [] (names_of_rules file.now)) }
{
    let mut earlier = NameSet::new(alloc);
    Ok(
        add_new(&mut earlier, file.policies.as_slice())?
            && add_new(&mut earlier, file.grants.as_slice())?
            && add_new(&mut earlier, file.withholds.as_slice())?,
    )
}

/// The names of entries, each once.
pub(crate) fn names_of<T: HasEntryName>(
    alloc: Global,
    entries: &[T],
) -> Result<NameSet<'_>, AllocError>
    ensures { IfOk result (λ names. names ≡ with_names [] (map T.name entries.now)) }
{
    let mut names = NameSet::new(alloc);
    let mut left = entries;
    while let [entry, others @ ..] = left {
        names.add(entry.name())?;
        left = others;
    }
    Ok(names)
}

/// Whether no two roles, no two tables and no two rules have one name.
pub(crate) fn has_no_duplicates(alloc: Global, file: &FileEntries) -> Result<bool, AllocError>
    ensures { IfOk result (λ answer. answer ≡ has_no_duplicates file.now) }
{
    Ok(
        are_new(alloc, file.roles.as_slice())?
            && are_new(alloc, file.tables.as_slice())?
            && are_rules_new(alloc, file)?,
    )
}
