//! Replies whose items are pushed one by one.
use crate::replies::NoRow;
use lq_json::{Items, Line, Reply, reply_line};
use lq_sink::Flow;
use lq_store::Store;
use lq_value::{End, Fault, Held, List, Scalar, Ty, Value};
use std::alloc::{AllocError, Global};
use std::test::Fail;

/// Numbers as a sequence that ends so.
fn numbers(alloc: Global, numbers: &[i32], end: End) -> Result<Value<NoRow>, AllocError> {
    let mut items = List::new(alloc);
    for number in numbers {
        items.push(Value::Scalar(Scalar::Int(*number)))?;
    }
    Ok(Value::Seq(items, end))
}

fn is_stop(flow: Flow) -> bool {
    match flow {
        Flow::Go => false,
        Flow::Stop => true,
    }
}

/// What is pushed: how the second of three sequences ends, and how these end themselves; which pushes stop, and the line.
struct Pushed {
    second: End,
    end: End,
    stops: (bool, bool, bool),
    line: &'static str,
}

const FAULT: End = End::Fault(Fault::DivideByZero);

const OTHER: End = End::Fault(Fault::Overflow);

const PUSHED: [Pushed; 4] = [
    Pushed {
        second: End::Done,
        end: End::Done,
        stops: (false, false, false),
        line: "{\"items\":[[1,2],[],[3]]}\n",
    },
    Pushed {
        second: End::Done,
        end: OTHER,
        stops: (false, false, false),
        line: "{\"fault\":\"Overflow\",\"items\":[[1,2],[],[3]]}\n",
    },
    Pushed {
        second: FAULT,
        end: End::Done,
        stops: (false, true, true),
        line: "{\"fault\":\"DivideByZero\",\"items\":[[1,2]]}\n",
    },
    Pushed {
        second: FAULT,
        end: OTHER,
        stops: (false, true, true),
        line: "{\"fault\":\"DivideByZero\",\"items\":[[1,2]]}\n",
    },
];

/// Whether the pushes stop as they should, and the line of what was pushed.
fn push_three(alloc: Global, pushed: &Pushed) -> Result<(bool, Line), AllocError> {
    let store = Store::new(alloc);
    let ty = Ty::Seq(Held::new(alloc, Ty::Int)?);
    let mut items = Items::new(alloc, &ty, &store);
    let first = is_stop(items.push(&numbers(alloc, &[1, 2], End::Done)?));
    let second = is_stop(items.push(&numbers(alloc, &[], pushed.second)?));
    let third = is_stop(items.push(&numbers(alloc, &[3], End::Done)?));
    let (one, two, three) = pushed.stops;
    let line = items.finish(pushed.end)?;
    Ok((first == one && second == two && third == three, line))
}

#[test]
fn items_up_to_a_stop(rt: HostRuntime) -> Result<(), Fail> {
    for pushed in &PUSHED {
        let (is_right, line) = push_three(rt.alloc(), pushed)?;
        assert!(rt; is_right, "{}", pushed.line);
        assert!(rt; line.bytes() == pushed.line.as_bytes(), "{}", pushed.line);
    }
    Ok(())
}

/// Whether values of a type have the same line where they are pushed as where they are all there.
fn is_same_line(alloc: Global, ty: &Ty, values: &[Value<NoRow>]) -> Result<bool, AllocError> {
    let store = Store::new(alloc);
    let reply = Reply::Items {
        store: &store,
        ty,
        items: values,
        end: End::Done,
    };
    let mut items = Items::new(alloc, ty, &store);
    for value in values {
        let _ = items.push(value);
    }
    let line = items.finish(End::Done)?;
    Ok(line.bytes() == reply_line(alloc, &reply)?.bytes())
}

#[test]
fn items_of_several_types(rt: HostRuntime) -> Result<(), Fail> {
    let scalars = [
        Value::Scalar(Scalar::Int(-1)),
        Value::Scalar(Scalar::Null),
        Value::Scalar(Scalar::Bool(true)),
    ];
    assert!(rt; is_same_line(rt.alloc(), &Ty::IntN, &scalars)?);
    let none: [Value<NoRow>; 0] = [];
    assert!(rt; is_same_line(rt.alloc(), &Ty::Int, &none)?);
    let sequences = [
        numbers(rt.alloc(), &[1], End::Done)?,
        numbers(rt.alloc(), &[], FAULT)?,
    ];
    let ty = Ty::Seq(Held::new(rt.alloc(), Ty::Int)?);
    assert!(rt; is_same_line(rt.alloc(), &ty, &sequences)?);
    Ok(())
}
