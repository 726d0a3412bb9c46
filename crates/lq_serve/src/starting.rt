//! Starting: the session over the tables, the policies and the role that the command line names, or the line that says
//! why there is none.
ghost use Rattle.std.specs.Prelude.{◌≡◌, ◌<◌, ◌∷◌, [], List, ℕ, Option, Some, IfErr, IfOk};
ghost use Rattle.lq_host.specs.Hosts.{hosts_of};
ghost use Rattle.lq_language.specs.Worlds.{known_predicates};
ghost use Rattle.lq_machine.specs.States.{first_state};
ghost use Rattle.lq_policy.specs.Roles.{number_of, role_number};
ghost use Rattle.lq_session.specs.States.{hosts_in, state_of};
ghost use Rattle.lq_serve.specs.Loading.{Answered, AreFirstBytes};
ghost use Rattle.lq_serve.specs.Starting.{GivesPolicies, NotStarted, Started, asked_by, policies_read, policy_read_limit};

use crate::file_fault::FileFault;
use crate::files::Files;
use crate::start_error::{StartError, refusal};
use crate::{loading, reading};
use lq_host::HostSet;
use lq_options::Options;
use lq_policy::{Policies, RoleId};
use lq_policyfile::{MOST_BYTES, policies_from_toml};
use lq_session::Session;
use lq_store::Store;
use std::alloc::{AllocError, Global};

// The most bytes that are read of a policy file: one more than it may have.
const READ_LIMIT: u64 = MOST_BYTES as u64 + 1;

/// The first session that the options ask for: over the tables of their files, under the policies of
/// their policy file, in their role, with these host predicates. Where there is no session, these are
/// dropped.
///
/// A table's name is its file's without folders and without the ending `.csv`. The first fault is
/// refused: of the tables, file by file (`name` where that is no name, `read` where the file can't be
/// read, what `table_from_csv` refuses, `duplicate-table` for a second table of one name, `too-many`
/// for more than 64 tables); then of the policy file (`read`, and what `policies_from_toml` refuses);
/// then `role`, where the policies don't have the role. The line is `lq: WORD: FAULT`, with the word
/// of the command line. Each file is read once, up to the first fault, and no other file is; at most
/// 16,777,217 bytes are asked for of a table's file, and 1,048,577 of the policy file. `Memory` may
/// replace any other answer.
pub fn load<F: Files>(
    alloc: Global,
    options: &Options,
    hosts: HostSet,
    files: &mut F,
) -> Result<Session, StartError>
    // This is always so, as in `Session::step`.
    requires { 0 < 1 }

    ensures ok { IfOk result
        (λ it. Started (F.holds files.old) (F.answered files.old) (F.answered files.new)
        (asked_by options.now) (hosts_of hosts).predicates (state_of it)) }
    ensures hosts { IfOk result (λ it. hosts_in it ≡ hosts_of hosts) }
    ensures err { IfErr result (λ error.
        NotStarted (F.holds files.old) (F.answered files.old) (F.answered files.new)
        (asked_by options.now) (hosts_of hosts).predicates error) }
{
    let store = loading::load_tables(alloc, options.tables.as_slice(), files)?;
    let policies = match load_policies(alloc, options.policy.as_str(), files, &store, &hosts) {
        Ok(policies) => policies,
        Err(fault) => return Err(refusal(alloc, options.policy.as_str(), fault)),
    };
    match policies.role(options.role.as_str()) {
        Some(role) => prepared(alloc, store, policies, hosts, role),
        None => Err(refusal(alloc, options.role.as_str(), FileFault::Role)),
    }
}

// The session over these tables, under these policies, which are prepared for its role.
fn prepared(
    alloc: Global,
    store: Store,
    mut policies: Policies,
    hosts: HostSet,
    role: RoleId,
) -> Result<Session, StartError>
    requires { known_predicates (hosts_of hosts).predicates ≡ policies.predicates }
    ensures ok { IfOk result (λ it. state_of it
        ≡ first_state store policies (hosts_of hosts).predicates (number_of role)) }
    ensures hosts { IfOk result (λ it. hosts_in it ≡ hosts_of hosts) }
    ensures err { IfErr result (λ error. error ≡ StartError.Memory) }
{
    match policies.prepare(alloc, role) {
        Ok(()) => Ok(Session::new(alloc, store, policies, hosts, role)),
        Err(AllocError) => Err(StartError::Memory),
    }
}

// The policies that the file of this name holds, for the tables of the store and these host predicates.
fn load_policies<F: Files>(
    alloc: Global,
    file: &str,
    files: &mut F,
    store: &Store,
    hosts: &HostSet,
) -> Result<Policies, FileFault>
    ensures given { (gave : Option (List ℕ))
        × AreFirstBytes (F.holds files.old) policy_read_limit file.now gave
        × Answered result (F.answered files.old) (F.answered files.new)
        (record { file = file.now; limit = policy_read_limit; gave = gave } ∷ [])
        × GivesPolicies
        (policies_read store.now (known_predicates (hosts_of hosts.now).predicates) gave) result }
    ensures predicates { IfOk result
        (λ policies. policies.predicates ≡ known_predicates (hosts_of hosts.now).predicates) }
{
    let bytes = reading::read_file(file, READ_LIMIT, files)?;
    policies_from_bytes(alloc, &bytes, store, hosts)
}

// The policies that the bytes of their file mean, for the tables of the store and these host predicates.
fn policies_from_bytes(
    alloc: Global,
    bytes: &[u8],
    store: &Store,
    hosts: &HostSet,
) -> Result<Policies, FileFault>
    ensures policies { GivesPolicies (policies_read store.now
        (known_predicates (hosts_of hosts.now).predicates) (Some bytes.now)) result }
    ensures predicates { IfOk result
        (λ policies. policies.predicates ≡ known_predicates (hosts_of hosts.now).predicates) }
{
    match policies_from_toml(alloc, bytes, store, hosts) {
        Ok(policies) => Ok(policies),
        Err(error) => Err(FileFault::from(error)),
    }
}
