//! Replies with names and words that need an escape, and of a record and a group of nothing. All other replies are shown by the built
//! program (tests/cli).
ghost use Rattle.std.specs.Prelude.{[]};

use lq_json::{Line, Reply, reply_line};
use lq_store::Store;
use lq_value::{Held, List, RowRef, Scalar, Txt, Ty, Value};
use std::alloc::{AllocError, Global};
use std::test::Fail;

/// A row with no cells.
#[derive(Clone, Copy)]
pub(crate) struct NoRow;

impl RowRef for NoRow {
    ghost shown = { λ row. [] };

    fn cells(&self) -> &[Scalar] {
        &[]
    }

    fn again(&self) -> Self {
        NoRow
    }
}

/// Whether the reply has this line.
fn is_line(alloc: Global, reply: &Reply<'_, NoRow>, line: &str) -> Result<bool, AllocError> {
    Ok(reply_line(alloc, reply)?.bytes() == line.as_bytes())
}

/// Whether the reply of a value of this type has this line.
fn is_value_line(
    alloc: Global,
    ty: &Ty,
    value: &Value<NoRow>,
    line: &str,
) -> Result<bool, AllocError> {
    let store = Store::new(alloc);
    let reply = Reply::Value {
        store: &store,
        ty,
        value,
    };
    is_line(alloc, &reply, line)
}

fn record_type(alloc: Global, names: &[&str]) -> Result<Ty, AllocError> {
    let mut members = List::new(alloc);
    for name in names {
        members.push((Txt::from_str(alloc, name)?, Ty::Int))?;
    }
    Ok(Ty::Rec(members))
}

// A record whose members, under these names, are all 7.
fn record(alloc: Global, names: &[&str]) -> Result<Value<NoRow>, AllocError> {
    let mut members = List::new(alloc);
    for name in names {
        members.push((Txt::from_str(alloc, name)?, Value::Scalar(Scalar::Int(7))))?;
    }
    Ok(Value::Rec(members))
}

fn is_record_line(alloc: Global, names: &[&str], line: &str) -> Result<bool, AllocError> {
    let ty = record_type(alloc, names)?;
    is_value_line(alloc, &ty, &record(alloc, names)?, line)
}

// A group of nothing, whose key is null.
fn is_group_line(alloc: Global, line: &str) -> Result<bool, AllocError> {
    let ty = Ty::Group(Held::new(alloc, Ty::IntN)?, Held::new(alloc, Ty::Int)?);
    let key = Held::new(alloc, Value::Scalar(Scalar::Null))?;
    is_value_line(alloc, &ty, &Value::Group(key, List::new(alloc)), line)
}

/// Names of members, each with the line of a record of them.
const RECORDS: [(&[&str], &str); 2] = [
    (&["\"", ""], "{\"value\":{\"\":7,\"\\\"\":7}}\n"),
    (&[], "{\"value\":{}}\n"),
];

#[test]
fn values_that_no_script_has(rt: HostRuntime) -> Result<(), Fail> {
    for (names, line) in &RECORDS {
        assert!(rt; is_record_line(rt.alloc(), names, line)?, "{line}");
    }
    assert!(rt; is_group_line(rt.alloc(), "{\"value\":{\"Key\":null,\"items\":[]}}\n")?);
    assert!(rt;
        is_line(
            rt.alloc(),
            &Reply::Error("a\"b"),
            "{\"error\":\"a\\\"b\"}\n"
        )?
    );
    assert!(rt; Line::memory().bytes() == "{\"error\":\"memory\"}\n".as_bytes());
    Ok(())
}
