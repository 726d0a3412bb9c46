//! Guarded leaves, by the public calls that no statement shows alone: the rows that a scan hands out for each action.
ghost use Rattle.std.specs.Prelude.{◌≡◌, ◌<◌, length, IfOk};

use crate::policies::policies;
use lq_guard::{RowTest, Scan, scan};
use lq_host::{HostSet, SeenRow};
use lq_load::table_from_csv;
use lq_policy::{Action, Policies, RoleId};
use lq_store::Store;
use lq_value::{Scalar, Txt};
use std::alloc::Global;
use std::test::Fail;

/// Rows are read with a dept below 3, and removed where they are read and the dept is above 1.
const POLICIES: &str = r#"
role = [{name = "dan"}]
table = [{name = "employees", row_security = true}]
policy = [
  {name = "read", table = "employees", for = "select", to = ["dan"], using = "row.dept < 3"},
  {name = "remove", table = "employees", for = "delete", to = ["dan"], using = "row.dept > 1"},
]
"#;

const EMPLOYEES: &[u8] = b"id:int,dept:int\n1,1\n2,7\n3,2\n4,3\n5,0\n";

fn store(alloc: Global) -> Result<Store, Fail>
    ensures { IfOk result (λ store. 0 < length store) }
{
    let table = table_from_csv(alloc, Txt::from_str(alloc, "employees")?, EMPLOYEES)?;
    let mut store = Store::new(alloc);
    match store.add(table) {
        Ok(_) => Ok(store),
        Err(_) => Err(Fail::from("the table is refused")),
    }
}

// Whether a scan has rows of these numbers left.
fn hands_out(scan: &mut Scan<'_, '_>, numbers: &[u64]) -> bool {
    for number in numbers {
        match scan.next() {
            Some(row) => {
                if row.number() != *number {
                    return false;
                }
            }
            None => return false,
        }
    }
    scan.next().is_none()
}

fn dan(policies: &Policies) -> Result<RoleId, Fail> {
    match policies.role("dan") {
        Some(role) => Ok(role),
        None => Err(Fail::from("there is no dan")),
    }
}

/// The rows that are handed out for each action.
const HANDED_OUT: [(Action, &[u64]); 3] = [
    (Action::Select, &[1, 3, 5]),
    (Action::Insert, &[]),
    (Action::Delete, &[3]),
];

#[test]
fn scans_hand_out_by_action(rt: HostRuntime) -> Result<(), Fail> {
    let store = store(rt.alloc())?;
    let policies = policies(rt.alloc(), &store, POLICIES)?;
    let role = dan(&policies)?;
    for (action, numbers) in &HANDED_OUT {
        let mut rows = scan(&store, &policies, 0, role, *action);
        assert!(rt; hands_out(&mut rows, numbers));
    }
    Ok(())
}

/// A test that says the same of every row.
#[derive(Drop)]
struct Says {
    said: Option<bool>,
}

impl RowTest for Says {
    ghost verdict_of = { λ says cells. says.said };

    fn verdict(&self, _cells: &[Scalar]) -> Option<bool> {
        self.said
    }
}

/// What a test says of each of the rows 1, 3 and 5, which dan reads, how many were handed out before, the row that is found with whether the
/// test says yes, and how many are handed out then.
type Found = (Option<bool>, u64, Option<(u64, bool)>, u64);

const FOUND: [Found; 5] = [
    (Some(true), 0, Some((1, true)), 1),
    (None, 7, Some((1, false)), 8),
    (Some(false), 0, None, 3),
    (Some(false), u64::MAX - 1, None, u64::MAX),
    (Some(true), u64::MAX, Some((1, true)), u64::MAX),
];

#[test]
fn rows_are_found_and_counted(rt: HostRuntime) -> Result<(), Fail> {
    let store = store(rt.alloc())?;
    let policies = policies(rt.alloc(), &store, POLICIES)?;
    let role = dan(&policies)?;
    for (said, before, found, after) in &FOUND {
        let mut rows = scan(&store, &policies, 0, role, Action::Select);
        let mut handed = *before;
        let row = rows.find_passing(&Says { said: *said }, &mut handed);
        let row = row.map(|(row, passes)| (row.number(), passes));
        assert!(rt; row == *found && handed == *after);
    }
    Ok(())
}
