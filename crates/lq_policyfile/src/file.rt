//! Policy files.
ghost use Rattle.std.specs.Prelude.{◌≡◌, option_map, true, IfOk};
ghost use Rattle.toml.specs.View.{table_view};
ghost use Rattle.lq_host.specs.Hosts.{hosts_of};
ghost use Rattle.lq_language.specs.Worlds.{known_predicates};
ghost use Rattle.lq_policy.specs.Rules as totals;
ghost use Rattle.lq_policyfile.specs.File.{document_of, of_document, parts_in, policies_in};
ghost use Rattle.lq_policyfile.specs.Outcome.{Answers};

use crate::entry::FileEntries;
use crate::error::PolicyFileError;
use crate::{parts, refusals, shape};
use lq_host::HostSet;
use lq_language::{HostName, host_names};
use lq_policy::{Policies, PolicyError};
use lq_security::PolicyParts;
use lq_store::Store;
use lq_value::List;
use std::alloc::{AllocError, Global};
use toml::Table;

/// The most bytes that a policy file has.
pub const MOST_BYTES: usize = 1_048_576;

/// What the entries of a file mean.
#[tactic(auto, using(crate::proofs::FileLemmas::total_parts))]
fn parts_in(
    alloc: Global,
    store: &Store,
    hosts: List<HostName>,
    file: FileEntries,
) -> Result<PolicyParts, PolicyFileError>
    ensures parts { Answers (parts_in store.now hosts file) result }
    ensures total { IfOk result (λ parts. totals.are_rules_total parts.policies ≡ true) }
    ensures predicates { IfOk result (λ parts. parts.predicates ≡ hosts) }
{
    refusals::check(alloc, store, hosts.as_slice(), &file)?;
    Ok(parts::parts_of(alloc, store, hosts, file)?)
}

/// The tree of a TOML document in UTF-8; None where the bytes aren't such a document.
#[tactic(auto, using(crate::proofs::FileLemmas::documents))]
fn document(alloc: Global, bytes: &[u8]) -> Result<Option<Table>, AllocError>
    ensures { IfOk result (λ tree. option_map table_view tree ≡ document_of bytes.now) }
{
    let Ok(text) = std::str::from_utf8(bytes) else {
        return Ok(None);
    };
    match toml::table_from_str(alloc, text) {
        Ok(table) => Ok(Some(table)),
        Err(error) if error.is_memory() => Err(AllocError),
        Err(_) => Ok(None),
    }
}

/// What the bytes of a file within its limit mean.
fn parts_of_bytes(
    alloc: Global,
    bytes: &[u8],
    store: &Store,
    hosts: List<HostName>,
) -> Result<PolicyParts, PolicyFileError>
    ensures parts { Answers (of_document store.now hosts (document_of bytes.now)) result }
    ensures total { IfOk result (λ parts. totals.are_rules_total parts.policies ≡ true) }
    ensures predicates { IfOk result (λ parts. parts.predicates ≡ hosts) }
{
    let Some(tree) = document(alloc, bytes)? else {
        return Err(PolicyFileError::Toml);
    };
    let file = shape::entries_of(alloc, &tree)?;
    parts_in(alloc, store, hosts, file)
}

/// The parts of the policies that the bytes of a file mean.
#[tactic(auto, unfolding(crate::specs::File::policies_in))]
fn policy_parts(
    alloc: Global,
    bytes: &[u8],
    store: &Store,
    hosts: List<HostName>,
) -> Result<PolicyParts, PolicyFileError>
    ensures parts { Answers (policies_in store.now hosts bytes.now) result }
    ensures total { IfOk result (λ parts. totals.are_rules_total parts.policies ≡ true) }
    ensures predicates { IfOk result (λ parts. parts.predicates ≡ hosts) }
{
    if bytes.len() > MOST_BYTES {
        return Err(PolicyFileError::Shape);
    }
    parts_of_bytes(alloc, bytes, store, hosts)
}

/// The policies that the bytes of a file mean, where these host predicates are known.
fn policies_among(
    alloc: Global,
    bytes: &[u8],
    store: &Store,
    hosts: List<HostName>,
) -> Result<Policies, PolicyFileError>
    ensures policies { Answers (policies_in store.now hosts bytes.now) result }
    ensures predicates { IfOk result (λ policies. policies.predicates ≡ hosts) }
{
    let parts = policy_parts(alloc, bytes, store, hosts)?;
    match Policies::build(alloc, parts) {
        Ok(policies) => Ok(policies),
        Err((PolicyError::Memory, _parts)) => Err(PolicyFileError::Memory),
    }
}

/// The policies that the bytes of a policy file mean for the tables of a store and the host
/// predicates of a set.
///
/// A file of more than 1,048,576 bytes is refused with `Shape`. Of any other the least refusal that
/// applies is given, whatever comes first in the file: `Toml`, `Shape`, `UnknownName`, `Duplicate`,
/// `RuleType` and then `RuleNotTotal`. `Memory` may replace any other answer. A rule that names a
/// predicate that isn't there is refused with `UnknownName`, and one that asks a predicate with
/// `RuleNotTotal` where it is well typed. The policies keep the names of the predicates.
pub fn policies_from_toml(
    alloc: Global,
    bytes: &[u8],
    store: &Store,
    hosts: &HostSet,
) -> Result<Policies, PolicyFileError>
    ensures policies { Answers (policies_in store.now
        (known_predicates (hosts_of hosts.now).predicates) bytes.now) result }
    ensures predicates { IfOk result
        (λ policies. policies.predicates ≡ known_predicates (hosts_of hosts.now).predicates) }
{
    policies_among(alloc, bytes, store, host_names(alloc, hosts.predicates())?)
}
