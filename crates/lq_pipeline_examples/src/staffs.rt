//! Tables of up to six employees of whom any are hidden.
use crate::company::add_table;
use lq_store::Store;
use std::alloc::Global;

/// The numbers of employees that a table may have are below this.
const SIZES: u8 = 7;

/// A table of numbered employees, and the numbers of those that dan sees.
#[derive(Drop)]
pub(crate) struct Staff {
    pub(crate) store: Store,
    pub(crate) visible: Vec<i32>,
}

/// Whether the bit at a place is set.
fn is_hidden(hidden: u32, place: u8) -> bool {
    hidden.checked_shr(place as u32).unwrap_or(0) & 1 == 1
}

fn write_employee(csv: &mut String, id: i32, is_hidden: bool) -> Option<()> {
    let shown = if is_hidden { 0 } else { 1 };
    write!(csv, "{id},{shown}\n").ok()
}

fn id_of(place: u8) -> i32 {
    (place as i32).saturating_add(1)
}

/// Employees with the numbers from 1 up to a most, of which those are hidden whose bit is set.
fn csv_of(alloc: Global, most: u8, hidden: u32) -> Option<String> {
    let mut csv = String::from_str(alloc, "id:int,shown:int\n").ok()?;
    for place in 0..most {
        write_employee(&mut csv, id_of(place), is_hidden(hidden, place))?;
    }
    Some(csv)
}

fn store_of(alloc: Global, csv: &str) -> Option<Store> {
    let mut store = Store::new(alloc);
    add_table(alloc, &mut store, "employees", csv)?;
    Some(store)
}

/// The table of employees of whom those are hidden whose bit is set.
pub(crate) fn employees(alloc: Global, most: u8, hidden: u32) -> Option<Store> {
    let csv = csv_of(alloc, most, hidden)?;
    store_of(alloc, csv.as_str())
}

fn visible(alloc: Global, most: u8, hidden: u32) -> Option<Vec<i32>> {
    let mut visible = Vec::new(alloc);
    for place in 0..most {
        if !is_hidden(hidden, place) {
            visible.push(id_of(place)).ok()?;
        }
    }
    Some(visible)
}

fn staff_of(alloc: Global, most: u8, hidden: u32) -> Option<Staff> {
    let visible = visible(alloc, most, hidden)?;
    let store = employees(alloc, most, hidden)?;
    Some(Staff { store, visible })
}

fn push_staff(alloc: Global, staffs: &mut Vec<Staff>, most: u8, hidden: u32) -> Option<()> {
    let staff = staff_of(alloc, most, hidden)?;
    staffs.push(staff).ok()
}

fn push_staffs(alloc: Global, staffs: &mut Vec<Staff>, most: u8) -> Option<()> {
    let sets = 1u32.checked_shl(most as u32)?;
    for hidden in 0..sets {
        push_staff(alloc, staffs, most, hidden)?;
    }
    Some(())
}

/// Tables of up to six employees, with each set of them hidden.
pub(crate) fn staffs(alloc: Global) -> Option<Vec<Staff>> {
    let mut staffs = Vec::new(alloc);
    for most in 0..SIZES {
        push_staffs(alloc, &mut staffs, most)?;
    }
    Some(staffs)
}
