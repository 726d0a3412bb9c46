//! Lines of a session that no script of the built program can have: one too long, and rows for a table whose row numbers are used
//! up; and the tables that a session shows. Other replies are shown by the built program (tests/cli).
ghost use Rattle.std.specs.Prelude.{◌≡◌, ◌≤◌, []};
ghost use Rattle.lq_host.specs.Hosts.{hosts_of};

use crate::policies::policies;
use crate::tables::{add, has_numbers, rows_of};
use lq_host::HostSet;
use lq_policy::Policies;
use lq_session::Session;
use lq_store::Store;
use std::alloc::{AllocError, Global};
use std::process::Abort;
use std::test::Fail;

/// All rights to the table t, which has no row security.
const OPEN: &str = r#"
role = [{name = "a"}]
grant = [{name = "all", rights = ["t.*", "t insert", "t delete"]}]
"#;

// A store of an empty table t whose first row has this number.
fn store(alloc: Global, next: u64) -> Result<Store, Fail>
    requires { 1 ≤ next }
{
    let mut store = Store::new(alloc);
    add(alloc, &mut store, "t", next)?;
    Ok(store)
}

// A session over these tables, as the role a, without host predicates.
fn session_over(
    alloc: Global,
    store: Store,
    policies: Policies,
    hosts: HostSet,
) -> Result<Session, Fail>
    requires hosts { (hosts_of hosts).predicates ≡ [] }
    requires names { [] ≡ policies.predicates }
{
    match policies.role("a") {
        Some(role) => Ok(Session::new(alloc, store, policies, hosts, role)),
        None => Err(Fail::from("there is no role a")),
    }
}

// A session over an empty table t whose first row has this number, without host predicates.
fn session(alloc: Global, next: u64, hosts: HostSet) -> Result<Session, Fail>
    requires hosts { (hosts_of hosts).predicates ≡ [] }
    requires number { 1 ≤ next }
{
    let store = store(alloc, next)?;
    let policies = policies(alloc, &store, OPEN)?;
    session_over(alloc, store, policies, hosts)
}

fn assert_replies(rt: &impl Abort, session: &mut Session, lines: &[(&str, &str)]) {
    for (line, reply) in lines {
        match session.step(line) {
            Some(answer) => assert!(rt; answer.bytes() == reply.as_bytes(), "to {line}"),
            None => panic!(rt; "no reply to {line}"),
        }
    }
}

// Whether the one table of a session has the rows of these numbers.
fn has_rows(rt: &impl Abort, session: &Session, numbers: &[u64]) -> bool {
    has_numbers(rows_of(rt, session.store(), 0), numbers)
}

// What a session answers where the first row of its table has the last number.
fn assert_takes_one_row(rt: &impl Abort, session: &mut Session) {
    let lines = [
        ("insert t (7);", "{\"inserted\":1}\n"),
        ("insert t (8);", "{\"error\":\"full\"}\n"),
        ("run from x in t select x.c;", "{\"items\":[7]}\n"),
        ("delete t x => true;", "{\"deleted\":1}\n"),
        ("insert t (9);", "{\"error\":\"full\"}\n"),
    ];
    assert_replies(rt, session, &lines);
    assert!(rt; has_rows(rt, session, &[]));
}

#[test]
fn a_full_table_takes_no_row(rt: HostRuntime) -> Result<(), Fail> {
    let mut session = session(rt.alloc(), u64::MAX, HostSet::new(rt.alloc()))?;
    assert_takes_one_row(&rt, &mut session);
    drop(session.close());
    Ok(())
}

fn spaces(alloc: Global, number: usize) -> Result<String, AllocError> {
    let mut line = String::new(alloc);
    for _ in 0..number {
        line.push(' ')?;
    }
    Ok(line)
}

fn assert_unchanged_by(rt: &impl Abort, session: &mut Session, long: &str) {
    let lines = [
        ("insert t (1);", "{\"inserted\":1}\n"),
        ("insert t (2);", "{\"inserted\":1}\n"),
        (long, "{\"error\":\"syntax\"}\n"),
        ("delete t x => x.c == 1;", "{\"deleted\":1}\n"),
        ("insert t (5);", "{\"inserted\":1}\n"),
        ("run from x in t select x.c;", "{\"items\":[2,5]}\n"),
    ];
    assert_replies(rt, session, &lines);
    assert!(rt; has_rows(rt, session, &[2, 3]));
}

// The built program refuses a script with such a line.
#[test]
fn a_line_too_long_leaves_the_session(rt: HostRuntime) -> Result<(), Fail> {
    let long = spaces(rt.alloc(), 65_537)?;
    let mut session = session(rt.alloc(), 1, HostSet::new(rt.alloc()))?;
    assert_unchanged_by(&rt, &mut session, &long);
    drop(session.close());
    Ok(())
}
