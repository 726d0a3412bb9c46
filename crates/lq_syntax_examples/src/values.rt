//! How scalars are ordered, and which values are the same, of whatever kinds they are. What the program makes of copies and of
//! keys is shown by the built program (tests/cli).
ghost use Rattle.std.specs.Prelude.{◌≡◌};

use lq_scalar::ScalarRef;
use lq_value::{End, Held, List, RowRef, Scalar, Txt, Value, order, same};
use std::alloc::{AllocError, Global};
use std::cmp::Ordering;
use std::test::Fail;

/// A row by its cells.
#[derive(Clone, Copy)]
struct Cells<'a> {
    cells: &'a [Scalar],
}

impl RowRef for Cells<'_> {
    ghost shown = { λ row. row.cells.now };

    fn cells(&self) -> &[Scalar] {
        self.cells
    }

    fn again(&self) -> Self {
        Cells { cells: self.cells }
    }
}

#[test]
fn a_list_gives_back_its_items(rt: HostRuntime) -> Result<(), Fail> {
    let mut list = List::new(rt.alloc());
    assert!(rt; list.is_empty());
    list.push(3)?;
    assert!(rt; list.len() == 1);
    assert!(rt; List::from_vec(list.into_vec()).as_slice() == [3].as_slice());
    Ok(())
}

// Two scalars, and how the first compares to the second.
const ORDERS: [(ScalarRef<'static>, ScalarRef<'static>, Ordering); 16] = [
    (ScalarRef::Null, ScalarRef::Null, Ordering::Equal),
    (ScalarRef::Null, ScalarRef::Int(i32::MIN), Ordering::Less),
    (ScalarRef::Null, ScalarRef::Bool(false), Ordering::Less),
    (ScalarRef::Null, ScalarRef::Text(""), Ordering::Less),
    (ScalarRef::Int(-1), ScalarRef::Int(1), Ordering::Less),
    (ScalarRef::Int(10), ScalarRef::Int(9), Ordering::Greater),
    (ScalarRef::Int(7), ScalarRef::Int(7), Ordering::Equal),
    (
        ScalarRef::Bool(false),
        ScalarRef::Bool(true),
        Ordering::Less,
    ),
    (
        ScalarRef::Bool(true),
        ScalarRef::Bool(true),
        Ordering::Equal,
    ),
    (ScalarRef::Text(""), ScalarRef::Text("a"), Ordering::Less),
    (ScalarRef::Text("a"), ScalarRef::Text("b"), Ordering::Less),
    (
        ScalarRef::Text("ab"),
        ScalarRef::Text("a"),
        Ordering::Greater,
    ),
    (ScalarRef::Text("B"), ScalarRef::Text("a"), Ordering::Less),
    (
        ScalarRef::Text("\u{e9}"),
        ScalarRef::Text("z"),
        Ordering::Greater,
    ),
    (
        ScalarRef::Text("\u{e9}"),
        ScalarRef::Text("\u{e9}"),
        Ordering::Equal,
    ),
    // No typed expression compares these: they are in the order of their kinds.
    (ScalarRef::Int(1), ScalarRef::Text("1"), Ordering::Less),
];

type Members<'a> = &'a [(&'a str, ScalarRef<'a>)];

// Two records by their members, names and scalars, and whether they are the same.
const RECORDS: [(Members<'static>, Members<'static>, bool); 10] = [
    (&[], &[], true),
    (
        &[("K", ScalarRef::Int(1))],
        &[("K", ScalarRef::Int(1))],
        true,
    ),
    (
        &[("K", ScalarRef::Null), ("V", ScalarRef::Text("x"))],
        &[("K", ScalarRef::Null), ("V", ScalarRef::Text("x"))],
        true,
    ),
    (
        &[("K", ScalarRef::Int(1))],
        &[("K", ScalarRef::Int(2))],
        false,
    ),
    (
        &[("K", ScalarRef::Int(1))],
        &[("V", ScalarRef::Int(1))],
        false,
    ),
    (&[("K", ScalarRef::Int(1))], &[], false),
    (&[], &[("K", ScalarRef::Int(1))], false),
    (
        &[("K", ScalarRef::Int(1)), ("V", ScalarRef::Int(2))],
        &[("K", ScalarRef::Int(1)), ("V", ScalarRef::Int(3))],
        false,
    ),
    (
        &[("K", ScalarRef::Int(1)), ("V", ScalarRef::Int(2))],
        &[("V", ScalarRef::Int(2)), ("K", ScalarRef::Int(1))],
        false,
    ),
    (
        &[("K", ScalarRef::Int(1))],
        &[("K", ScalarRef::Int(1)), ("V", ScalarRef::Int(2))],
        false,
    ),
];

// Whether the two are the same, as they are freed here.
fn is_same<'a>(left: Value<Cells<'a>>, right: Value<Cells<'a>>) -> bool {
    same(&left, &right)
}

// How two scalars compare to each other, and whether they are the same.
fn compared(
    alloc: Global,
    first: ScalarRef<'_>,
    second: ScalarRef<'_>,
) -> Result<(Ordering, bool), AllocError> {
    let left = first.to_scalar(alloc)?;
    let right = second.to_scalar(alloc)?;
    let ordering = order(&left, &right);
    Ok((ordering, is_same(Value::Scalar(left), Value::Scalar(right))))
}

// Whether two scalars compare so, either one first.
fn are_ordered(
    alloc: Global,
    first: ScalarRef<'_>,
    second: ScalarRef<'_>,
    expected: Ordering,
) -> Result<bool, AllocError> {
    let level = expected == Ordering::Equal;
    Ok(
        compared(alloc, first, second)? == (expected, level)
            && compared(alloc, second, first)? == (expected.reverse(), level),
    )
}

#[test]
fn scalars_stand_in_order(rt: HostRuntime) -> Result<(), Fail> {
    for (number, (first, second, expected)) in ORDERS.iter().enumerate() {
        assert!(rt;
            are_ordered(rt.alloc(), *first, *second, *expected)?,
            "scalars {number}"
        );
    }
    Ok(())
}

// Puts a member behind others.
fn add_member<'a>(
    alloc: Global,
    members: &mut List<(Txt, Value<Cells<'a>>)>,
    name: &str,
    value: Value<Cells<'a>>,
) -> Result<(), AllocError> {
    members.push((Txt::from_str(alloc, name)?, value))
}

// A record whose only member, K, is this value.
fn around<'a>(alloc: Global, value: Value<Cells<'a>>) -> Result<Value<Cells<'a>>, AllocError> {
    let mut members = List::new(alloc);
    add_member(alloc, &mut members, "K", value)?;
    Ok(Value::Rec(members))
}

// A record with a record of these members as its only one.
fn record<'a>(alloc: Global, scalars: Members<'_>) -> Result<Value<Cells<'a>>, AllocError> {
    let mut members = List::new(alloc);
    for (name, scalar) in scalars {
        let value = Value::Scalar(scalar.to_scalar(alloc)?);
        add_member(alloc, &mut members, name, value)?;
    }
    around(alloc, Value::Rec(members))
}

// Whether the value is the same as such a record. A function of its own, like the next: what costs most to prove of a
// test is that it frees a value wherever it can end.
fn is_record(
    alloc: Global,
    value: &Value<Cells<'_>>,
    scalars: Members<'_>,
) -> Result<bool, AllocError> {
    Ok(same(value, &record(alloc, scalars)?))
}

// Whether the records are the same, each in another one.
fn are_same(alloc: Global, first: Members<'_>, second: Members<'_>) -> Result<bool, AllocError> {
    let value = record(alloc, first)?;
    is_record(alloc, &value, second)
}

#[test]
fn records_are_the_same_by_all_members(rt: HostRuntime) -> Result<(), Fail> {
    for (number, (first, second, expected)) in RECORDS.iter().enumerate() {
        assert!(rt;
            are_same(rt.alloc(), first, second)? == *expected,
            "records {number}"
        );
    }
    Ok(())
}

// A group of no items, whose key is this row.
fn group<'a>(alloc: Global, row: Cells<'a>) -> Result<Value<Cells<'a>>, AllocError> {
    Ok(Value::Group(Held::new(alloc, Value::Row(row))?, List::new(alloc)))
}

// Whether the value is neither the same as itself nor as null.
fn is_the_same_as_nothing(value: Value<Cells<'_>>) -> bool {
    let null = Value::Scalar(Scalar::Null);
    !same(&value, &value) && !same(&null, &value) && !same(&value, &null)
}

// Whether a row, a sequence, a group and a record with a row in it are.
fn are_the_same_as_nothing(alloc: Global, row: Cells<'_>) -> Result<bool, AllocError> {
    Ok(
        is_the_same_as_nothing(Value::Row(row))
            && is_the_same_as_nothing(Value::Seq(List::new(alloc), End::Done))
            && is_the_same_as_nothing(group(alloc, row)?)
            && is_the_same_as_nothing(around(alloc, Value::Row(row))?),
    )
}

#[test]
fn rows_and_sequences_are_the_same_as_nothing(rt: HostRuntime) -> Result<(), Fail> {
    let mut cells = Vec::new(rt.alloc());
    cells.push(Scalar::Int(7))?;
    assert!(rt; are_the_same_as_nothing(rt.alloc(), Cells { cells: &cells })?);
    Ok(())
}
