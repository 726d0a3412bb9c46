//! A company: employees, of whom dan sees two, departments and years, which everybody sees. One of the years is outside of what `LeapYear` takes.
use crate::queries::{Place, some_query};
use crate::staffs::employees;
use lq_host::HostSet;
use lq_language::{HostName, host_names};
use lq_load::table_from_csv;
use lq_machine::Definition;
use lq_policy::Policies;
use lq_policyfile::policies_from_toml;
use lq_store::Store;
use lq_value::{List, Txt};
use std::alloc::Global;

const EMPLOYEES: &str = "id:int,name:string,dept:int,boss:int?,salary:int,year:int
1,ann,10,,500,2000
2,bob,10,1,300,1999
3,cyd,20,1,400,1996
4,dan,30,2,300,1900
";

const DEPTS: &str = "id:int,title:string
10,Sales
20,Labs
40,Void
";

const YEARS: &str = "year:int
2000
0
2004
";

/// Dan sees the employees of dept 10, and his own row if it were no older than 1950.
const COMPANY: &str = r#"
role = [{name = "dan"}]
table = [{name = "employees", row_security = true}]
policy = [
  {name = "dept10", table = "employees", to = ["dan"], using = "row.dept == 10"},
  {name = "own", table = "employees", using = "row.name == user"},
  {name = "recent", table = "employees", kind = "restrictive", using = "row.year >= 1950"},
]
"#;

/// Dan sees those who are shown.
const STAFF: &str = r#"
role = [{name = "dan"}]
table = [{name = "employees", row_security = true}]
policy = [{name = "shown", table = "employees", to = ["dan"], using = "row.shown == 1"}]
"#;

/// Which of these texts. They are named so, as a text makes the proof of what names it itself as long as the text.
#[derive(Clone, Copy)]
enum File {
    Employees,
    Depts,
    Years,
    Company,
    Staff,
}

fn text_of(file: File) -> &'static str {
    match file {
        File::Employees => EMPLOYEES,
        File::Depts => DEPTS,
        File::Years => YEARS,
        File::Company => COMPANY,
        File::Staff => STAFF,
    }
}

/// Puts a table behind the others; none where it is refused.
pub(crate) fn add_table(alloc: Global, store: &mut Store, name: &str, csv: &str) -> Option<()> {
    let name = Txt::from_str(alloc, name).ok()?;
    let table = table_from_csv(alloc, name, csv.as_bytes()).ok()?;
    match store.add(table) {
        Ok(_) => Some(()),
        Err(_) => None,
    }
}

/// The numbers of the tables are 0 for employees, 1 for depts and 2 for years.
fn company_store(alloc: Global) -> Option<Store> {
    let mut store = Store::new(alloc);
    add_table(alloc, &mut store, "employees", text_of(File::Employees))?;
    add_table(alloc, &mut store, "depts", text_of(File::Depts))?;
    add_table(alloc, &mut store, "years", text_of(File::Years))?;
    Some(store)
}

fn policies_of(alloc: Global, file: File, store: &Store, hosts: &HostSet) -> Option<Policies> {
    policies_from_toml(alloc, text_of(file).as_bytes(), store, hosts).ok()
}

/// The query `some` of the company, and that of numbered employees.
const ABOVE_1: &str = "employees.Where(e => e.id > 1)";

const ABOVE_0: &str = "employees.Where(e => e.id > 0)";

/// What a query may name beside tables: the host predicates, and the query `some`.
#[derive(Drop)]
struct Names {
    predicates: List<HostName>,
    definitions: [Definition; 1],
}

fn make_names(alloc: Global, hosts: &HostSet, some: &str) -> Option<Names> {
    let predicates = host_names(alloc, hosts.predicates()).ok()?;
    let definitions = [some_query(alloc, some)?];
    Some(Names {
        predicates,
        definitions,
    })
}

/// Tables, the policies for them, and what else queries may name. Whoever makes it keeps it until the program ends.
#[derive(Drop)]
pub(crate) struct Company {
    store: Store,
    policies: Policies,
    names: Names,
}

impl Company {
    /// Where queries are bound and run, as dan reads the tables.
    pub(crate) fn place(&self, alloc: Global) -> Option<Place<'_>> {
        Some(Place {
            alloc,
            store: &self.store,
            policies: &self.policies,
            role: self.policies.role("dan")?,
            predicates: self.names.predicates.as_slice(),
            definitions: &self.names.definitions,
        })
    }
}

fn company_of(
    alloc: Global,
    hosts: &HostSet,
    file: File,
    store: Store,
    names: Names,
) -> Option<Company> {
    let policies = policies_of(alloc, file, &store, hosts)?;
    Some(Company {
        store,
        policies,
        names,
    })
}

/// The company; none where memory was refused.
pub(crate) fn make_company(alloc: Global, hosts: &HostSet) -> Option<Company> {
    let store = company_store(alloc)?;
    let names = make_names(alloc, hosts, ABOVE_1)?;
    company_of(alloc, hosts, File::Company, store, names)
}

/// A company of no employees, with the policies for numbered employees; none where memory was refused.
pub(crate) fn make_staff(alloc: Global, hosts: &HostSet) -> Option<Company> {
    let store = employees(alloc, 0, 0)?;
    let names = make_names(alloc, hosts, ABOVE_0)?;
    company_of(alloc, hosts, File::Staff, store, names)
}
