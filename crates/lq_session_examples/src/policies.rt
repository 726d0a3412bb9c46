//! What policies decide where the built program doesn't ask (tests/cli has the other decisions): rows for each action and table, also a
//! table that isn't there, for roles of other policies, and for memberships that no file has.
ghost use Rattle.std.specs.Prelude.{◌≡◌, [], IfOk, true};
ghost use Rattle.lq_policy.specs.Rules.{are_rules_total};

use crate::tables::cells;
use lq_grammar::Expr;
use lq_host::HostSet;
use lq_load::table_from_csv;
use lq_policy::{Action, Policies, RoleId, are_rules_total};
use lq_policyfile::policies_from_toml;
use lq_scalar::ScalarRef;
use lq_security::{Policy, PolicyParts, Role, TablePart};
use lq_store::Store;
use lq_syntax::parse_rule;
use lq_value::{List, Scalar, TableNumber, Txt};
use std::alloc::{AllocError, Global};
use std::test::Fail;

const EMPLOYEES: &str = r#"
role = [{name = "dan"}, {name = "eve"}, {name = "root", bypass = true},
  {name = "kim", member_of = ["dan"]}, {name = "aid", member_of = ["root"]}]
table = [{name = "employees", row_security = true}]
policy = [
  {name = "dept10", table = "employees", to = ["dan"], using = "row.dept == 10"},
  {name = "own", table = "employees", using = "row.name == user"},
  {name = "recent", table = "employees", kind = "restrictive", using = "row.year >= 1950"},
]
"#;

/// Policies of the same tables that have no roles.
const WITHOUT_ROLES: &str = r#"
table = [{name = "employees", row_security = true}]
policy = [{name = "all", table = "employees", using = "row.dept >= 0"}]
"#;

const BY_ACTION: &str = r#"
role = [{name = "dan"}]
table = [{name = "employees", row_security = true}]
policy = [
  {name = "read", table = "employees", for = "select", to = ["dan"], using = "row.dept < 3"},
  {name = "remove", table = "employees", for = "delete", to = ["dan"], using = "row.dept > 1"},
  {name = "put", table = "employees", for = "insert", to = ["dan"], check = "row.dept > 2"},
  {name = "few", table = "employees", kind = "restrictive", using = "row.dept < 8", check = "row.dept < 6"},
]
"#;

/// Which of these policies. The tables below name them so: a text in a table makes the proof of what reads the table as long as the text.
#[derive(Clone, Copy)]
enum File {
    People,
    Roleless,
    Actions,
}

fn text_of(file: File) -> &'static str {
    match file {
        File::People => EMPLOYEES,
        File::Roleless => WITHOUT_ROLES,
        File::Actions => BY_ACTION,
    }
}

/// Rows of the first table: the name, the dept and the year.
const ROWS: [(Option<&str>, i32, i32); 13] = [
    (Some("ann"), 10, 2000),
    (Some("bob"), 10, 1999),
    (Some("cyd"), 20, 1996),
    (Some("dan"), 30, 1900),
    (None, 0, 9),
    (None, 1, 9),
    (None, 2, 9),
    (None, 3, 9),
    (None, 4, 9),
    (None, 5, 9),
    (None, 6, 9),
    (None, 7, 9),
    (None, 8, 9),
];

// Which of these rows a role may act on.
const ALL: &[u8] = b"+++++++++++++";

const NONE: &[u8] = b"-------------";

const TEN: &[u8] = b"++-----------";

const ACTIONS: [Action; 3] = [Action::Select, Action::Insert, Action::Delete];

/// Policies that have a role, its name, the policies that are asked, and which rows the role may read, insert and delete.
const DECISIONS: [(File, &str, File, [&[u8]; 3]); 7] = [
    (File::People, "dan", File::People, [TEN, TEN, TEN]),
    (File::People, "eve", File::People, [NONE, NONE, NONE]),
    (File::People, "root", File::People, [ALL, ALL, ALL]),
    (File::People, "kim", File::People, [TEN, TEN, TEN]),
    (File::People, "aid", File::People, [NONE, NONE, NONE]),
    // A role of other policies.
    (File::People, "dan", File::Roleless, [NONE, NONE, NONE]),
    // Rows are read with a dept below 3, put in from 3 to 5, and removed where they are read and the dept is above 1.
    (
        File::Actions,
        "dan",
        File::Actions,
        [b"----+++------", b"-------+++---", b"------+------"],
    ),
];

// Puts an empty table into a store.
fn add(alloc: Global, store: &mut Store, name: &str, header: &str) -> Result<(), Fail> {
    let table = table_from_csv(alloc, Txt::from_str(alloc, name)?, header.as_bytes())?;
    match store.add(table) {
        Ok(_) => Ok(()),
        Err(_) => Err(Fail::from("a table is refused")),
    }
}

// The tables of the policies, of which only the first has row security.
fn add_tables(alloc: Global, store: &mut Store) -> Result<(), Fail> {
    add(alloc, store, "employees", "name:string,dept:int,year:int\n")?;
    add(alloc, store, "depts", "id:int\n")
}

fn store(alloc: Global) -> Result<Store, Fail> {
    let mut store = Store::new(alloc);
    add_tables(alloc, &mut store)?;
    Ok(store)
}

pub(crate) fn policies(alloc: Global, store: &Store, file: &str) -> Result<Policies, Fail>
    ensures { IfOk result (λ policies. [] ≡ policies.predicates) }
{
    let hosts = HostSet::new(alloc);
    match policies_from_toml(alloc, file.as_bytes(), store, &hosts) {
        Ok(policies) => Ok(policies),
        Err(_) => Err(Fail::from("the policies are refused")),
    }
}

fn policies_of(alloc: Global, file: File) -> Result<Policies, Fail> {
    let store = store(alloc)?;
    policies(alloc, &store, text_of(file))
}

fn role_of(alloc: Global, file: File, name: &str) -> Result<Option<RoleId>, Fail> {
    let policies = policies_of(alloc, file)?;
    Ok(policies.role(name))
}

/// What a role does with a row of a table.
#[derive(Clone, Copy)]
struct Access {
    role: RoleId,
    action: Action,
    table: TableNumber,
}

// Whether a role may, or may not, act on a row, as the policies and as the rules that are worked out once say alike. The functions that
// own policies, rules or cells are apart: what costs most to prove of a test is that it frees them wherever it can end.
fn is_decided(
    alloc: Global,
    policies: &Policies,
    access: Access,
    cells: &[Scalar],
    expected: bool,
) -> Result<bool, AllocError> {
    let Access {
        role,
        action,
        table,
    } = access;
    let rules = policies.rules_for(alloc, role, action, table)?;
    Ok(
        rules.is_admitted(cells) == expected
            && policies.visible(role, action, table, cells) == expected,
    )
}

fn is_row_decided(
    alloc: Global,
    policies: &Policies,
    access: Access,
    row: &[ScalarRef<'_>],
    expected: bool,
) -> Result<bool, AllocError> {
    let cells = cells(alloc, row)?;
    is_decided(alloc, policies, access, &cells, expected)
}

// Whether the role may act on one of those rows, or may not. Of the other tables, the second has no row security, and the third isn't there:
// the cells don't matter.
fn is_person_decided(
    alloc: Global,
    policies: &Policies,
    access: Access,
    person: (Option<&str>, i32, i32),
    expected: bool,
) -> Result<bool, AllocError> {
    let (name, dept, year) = person;
    let name = match name {
        Some(name) => ScalarRef::Text(name),
        None => ScalarRef::Null,
    };
    let row = [name, ScalarRef::Int(dept), ScalarRef::Int(year)];
    is_row_decided(alloc, policies, access, &row, expected)
}

// Whether the role may act on those rows that have a plus, and on no other.
fn are_rows_decided(
    alloc: Global,
    policies: &Policies,
    access: Access,
    marks: &[u8],
) -> Result<bool, AllocError> {
    for (person, mark) in ROWS.iter().zip(marks) {
        if !is_person_decided(alloc, policies, access, *person, *mark == b'+')? {
            return Ok(false);
        }
    }
    Ok(true)
}

// The same of the first table, and whether the role may do so with every row of the second, and with none of a table that isn't
// there, into which nobody may put a row.
fn are_tables_decided(
    alloc: Global,
    policies: &Policies,
    role: RoleId,
    action: Action,
    marks: &[u8],
) -> Result<bool, AllocError> {
    for (table, marks) in &[(0, marks), (1, ALL), (2, NONE)] {
        let access = Access {
            role,
            action,
            table: *table,
        };
        if !are_rows_decided(alloc, policies, access, marks)? {
            return Ok(false);
        }
    }
    Ok(policies.check(role, 2, &[]) == Err("default-deny"))
}

fn is_action_decided(
    alloc: Global,
    file: File,
    role: RoleId,
    action: Action,
    marks: &[u8],
) -> Result<bool, Fail> {
    let policies = policies_of(alloc, file)?;
    Ok(are_tables_decided(alloc, &policies, role, action, marks)?)
}

fn are_actions_decided(
    alloc: Global,
    file: File,
    role: RoleId,
    decisions: &[&[u8]],
) -> Result<bool, Fail> {
    for (action, marks) in ACTIONS.iter().zip(decisions) {
        if !is_action_decided(alloc, file, role, *action, marks)? {
            return Ok(false);
        }
    }
    Ok(true)
}

#[test]
fn rules_admit_what_is_visible(rt: HostRuntime) -> Result<(), Fail> {
    for (number, (roles, name, file, decisions)) in DECISIONS.iter().enumerate() {
        let role = role_of(rt.alloc(), *roles, name)?.ok_or("there is no such role")?;
        assert!(rt;
            are_actions_decided(rt.alloc(), *file, role, decisions)?,
            "decisions {number}"
        );
    }
    Ok(())
}

/// Roles, each with the numbers of those that it is a member of, and whether it sees the row that a policy shows to b. A number that isn't
/// smaller than the role's own names nothing, like one that no role has.
const MEMBERS: [(&str, &[usize], bool); 4] = [
    ("a", &[0, 1, 1_000], false),
    ("b", &[], true),
    ("c", &[1_000, 2, 1, 3], true),
    ("d", &[0, 3], false),
];

fn one<T: Drop>(alloc: Global, item: T) -> Result<List<T>, AllocError> {
    let mut list = List::new(alloc);
    list.push(item)?;
    Ok(list)
}

fn numbers(alloc: Global, numbers: &[usize]) -> Result<List<usize>, AllocError> {
    let mut list = List::new(alloc);
    for number in numbers {
        list.push(*number)?;
    }
    Ok(list)
}

fn member(alloc: Global, name: &str, groups: &[usize]) -> Result<Role, AllocError> {
    Ok(Role {
        name: Txt::from_str(alloc, name)?,
        member_of: numbers(alloc, groups)?,
        bypass: false,
    })
}

fn add_members(alloc: Global, parts: &mut PolicyParts) -> Result<(), AllocError> {
    for (name, groups, _) in &MEMBERS {
        parts.roles.push(member(alloc, name, groups)?)?;
    }
    Ok(())
}

fn add_table(alloc: Global, parts: &mut PolicyParts) -> Result<(), AllocError> {
    let columns = one(alloc, Txt::from_str(alloc, "c")?)?;
    parts.tables.push(TablePart {
        columns,
        secured: true,
    })
}

fn policy(alloc: Global, to: List<Txt>, rule: Expr) -> Policy {
    Policy {
        name: Txt::from_string(String::new(alloc)),
        table: 0,
        restrictive: false,
        for_all: true,
        action: Action::Select,
        to,
        using: Some(rule),
        check: None,
    }
}

fn add_policy(alloc: Global, parts: &mut PolicyParts) -> Result<(), Fail> {
    let to = one(alloc, Txt::from_str(alloc, "b")?)?;
    let rule = parse_rule(alloc, "row.c == 1")?;
    parts.policies.push(policy(alloc, to, rule))?;
    Ok(())
}

fn fill(alloc: Global, parts: &mut PolicyParts) -> Result<(), Fail> {
    add_members(alloc, parts)?;
    add_table(alloc, parts)?;
    add_policy(alloc, parts)
}

fn members_parts(alloc: Global) -> Result<PolicyParts, Fail> {
    let mut parts = PolicyParts {
        roles: List::new(alloc),
        tables: List::new(alloc),
        predicates: List::new(alloc),
        policies: List::new(alloc),
        grants: List::new(alloc),
        withholds: List::new(alloc),
    };
    fill(alloc, &mut parts)?;
    Ok(parts)
}

fn built(alloc: Global, parts: PolicyParts) -> Result<Policies, Fail>
    requires { are_rules_total parts.policies ≡ true }
{
    match Policies::build(alloc, parts) {
        Ok(policies) => Ok(policies),
        Err(_) => Err(Fail::from("the policies are refused")),
    }
}

fn members_policies(alloc: Global) -> Result<Policies, Fail> {
    let parts = members_parts(alloc)?;
    if are_rules_total(&parts) {
        built(alloc, parts)
    } else {
        Err(Fail::from("a rule may fault"))
    }
}

// Whether the role of this name sees a row whose c is 1, or doesn't, and sees none whose c is 2.
fn is_seen(
    alloc: Global,
    policies: &Policies,
    name: &str,
    expected: bool,
) -> Result<bool, AllocError> {
    let Some(role) = policies.role(name) else {
        return Ok(false);
    };
    let access = Access {
        role,
        action: Action::Select,
        table: 0,
    };
    Ok(
        is_row_decided(alloc, policies, access, &[ScalarRef::Int(1)], expected)?
            && is_row_decided(alloc, policies, access, &[ScalarRef::Int(2)], false)?,
    )
}

fn are_seen(alloc: Global, policies: &Policies) -> Result<bool, AllocError> {
    for (name, _, expected) in &MEMBERS {
        if !is_seen(alloc, policies, name, *expected)? {
            return Ok(false);
        }
    }
    Ok(true)
}

fn are_members_seen(alloc: Global) -> Result<bool, Fail> {
    let policies = members_policies(alloc)?;
    Ok(are_seen(alloc, &policies)?)
}

#[test]
fn memberships_are_of_roles_before(rt: HostRuntime) -> Result<(), Fail> {
    assert!(rt; are_members_seen(rt.alloc())?);
    Ok(())
}
