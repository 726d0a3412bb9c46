//! Replies of items that are written one by one.
use lq_json::ItemsLine;
use lq_value::{End, Fault};
use std::alloc::{AllocError, Global};
use std::test::Fail;

// The line of an item of each kind, which end so.
fn is_written(alloc: Global, end: End, line: &str) -> Result<bool, AllocError> {
    let mut items = ItemsLine::new(alloc)?;
    items.push_int(-7)?;
    items.push_null()?;
    items.push_bool(true)?;
    items.push_bool(false)?;
    items.push_text("a\"\n")?;
    items.push_int(2147483647)?;
    Ok(items.finish(end)?.bytes() == line.as_bytes())
}

const ENDS: [(End, &str); 2] = [
    (
        End::Done,
        "{\"items\":[-7,null,true,false,\"a\\\"\\n\",2147483647]}\n",
    ),
    (
        End::Fault(Fault::InvalidOperation),
        "{\"fault\":\"InvalidOperation\",\"items\":[-7,null,true,false,\"a\\\"\\n\",2147483647]}\n",
    ),
];

#[test]
fn items_one_by_one(rt: HostRuntime) -> Result<(), Fail> {
    for (end, line) in &ENDS {
        assert!(rt; is_written(rt.alloc(), *end, line)?, "{line}");
    }
    let none = ItemsLine::new(rt.alloc())?.finish(End::Done)?;
    assert!(rt; none.bytes() == "{\"items\":[]}\n".as_bytes());
    Ok(())
}
