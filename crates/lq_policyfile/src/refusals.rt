//! The refusals of a policy file's entries.
ghost use Rattle.std.specs.Prelude.{◌≡◌, [], true, OnOk};
ghost use Rattle.lq_policyfile.specs.Duplicates.{are_new};
ghost use Rattle.lq_policyfile.specs.File.{refusal_of};
ghost use Rattle.lq_policyfile.specs.Names.{role_names};
ghost use Rattle.lq_policyfile.specs.Outcome.{Refuses};
ghost use Rattle.lq_policyfile.specs.RuleChecks as rules;

use crate::entry::FileEntries;
use crate::error::PolicyFileError;
use crate::rule_checks::{are_rules_total, are_rules_typed};
use crate::{duplicates, names};
use lq_language::HostName;
use lq_store::Store;
use std::alloc::Global;

/// Refuses entries with the least refusal that applies.
#[tactic(auto, unfolding(crate::specs::File::refusal_of))]
pub(crate) fn check(
    alloc: Global,
    store: &Store,
    hosts: &[HostName],
    file: &FileEntries,
) -> Result<(), PolicyFileError>
    ensures refusal { Refuses (refusal_of store.now hosts.now file.now) result }
    ensures distinct { OnOk result (are_new [] (role_names file.now.roles) ≡ true) }
    ensures total { OnOk result (rules.are_rules_total file.now.policies ≡ true) }
{
    if !names::are_names_known(alloc, store, hosts, file)? {
        return Err(PolicyFileError::UnknownName);
    }
    if !duplicates::has_no_duplicates(alloc, file)? {
        return Err(PolicyFileError::Duplicate);
    }
    if !are_rules_typed(store, hosts, file.policies.as_slice()) {
        return Err(PolicyFileError::RuleType);
    }
    if !are_rules_total(file.policies.as_slice()) {
        return Err(PolicyFileError::RuleNotTotal);
    }
    Ok(())
}
