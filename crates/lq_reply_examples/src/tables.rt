//! Items and values as tables and lists.
use crate::building::{LineType, assert_shown};
use std::alloc::{AllocError, Global};
use std::test::Fail;

/// Lines that serve such a type, the most rows, and what is read of them.
const CASES: [(LineType, usize, &str, &str); 18] = [
    // the columns of the table, in its order and not in that of the names
    (
        LineType::Rows,
        10,
        "{\"items\":[{\"boss\":null,\"id\":1,\"name\":\"ann\"},{\"boss\":1,\"id\":20,\"name\":\"bob\"}]}\n",
        "name  boss  id\n----  ----  --\nann   ∅      1\nbob      1  20\n",
    ),
    (
        LineType::Records,
        10,
        "{\"items\":[{\"n\":2,\"title\":\"Sales\"},{\"n\":-10,\"title\":\"Labs\"}]}\n",
        "title  n\n-----  ---\nSales    2\nLabs   -10\n",
    ),
    // the reply's own order, where the type is not known
    (
        LineType::Unknown,
        10,
        "{\"items\":[{\"n\":2,\"title\":\"Sales\"},{\"n\":10,\"where\":\"Bern\"}]}\n",
        "n   title  where\n--  -----  -----\n 2  Sales  ∅\n10  ∅      Bern\n",
    ),
    // a null row
    (
        LineType::Rows,
        10,
        "{\"items\":[null]}\n",
        "name  boss  id\n----  ----  --\n∅     ∅     ∅\n",
    ),
    // no more rows than the most, and how many more there are
    (
        LineType::Records,
        2,
        "{\"items\":[{\"n\":1,\"title\":\"a\"},{\"n\":2,\"title\":\"b\"},{\"n\":3,\"title\":\"c\"},{\"n\":4,\"title\":\"d\"}]}\n",
        "title  n\n-----  -\na      1\nb      2\n… 2 more\n",
    ),
    (
        LineType::Records,
        0,
        "{\"items\":[{\"n\":1,\"title\":\"a\"}]}\n",
        "title  n\n-----  -\n… 1 more\n",
    ),
    (LineType::Rows, 10, "{\"items\":[]}\n", "no rows\n"),
    // scalars, one a line
    (
        LineType::Numbers,
        3,
        "{\"items\":[10,null,-7,8,9]}\n",
        "10\n∅\n-7\n… 2 more\n",
    ),
    (
        LineType::Unknown,
        9,
        "{\"items\":[true,\"a \\\"b\\\"\",\"\",[1,{\"x\":null}]]}\n",
        "true\na \"b\"\n\n[1,{\"x\":null}]\n",
    ),
    // wide characters count two, control characters are escaped, and objects in a cell are JSON
    (
        LineType::Records,
        10,
        "{\"items\":[{\"n\":1,\"title\":\"東京\"},{\"n\":2,\"title\":\"a\\nb\\u001b\"},{\"n\":[1,\"x\\ty\"],\"title\":\"é\"}]}\n",
        "title       n\n----------  ----------\n東京                 1\na\\nb\\u001b           2\né           [1,\"x\\ty\"]\n",
    ),
    // forty columns stay, and what is wider is cut
    (
        LineType::Records,
        10,
        "{\"items\":[{\"n\":1,\"title\":\"0123456789012345678901234567890123456789\"},{\"n\":2,\"title\":\"01234567890123456789012345678901234567890\"}]}\n",
        "title                                     n\n----------------------------------------  -\n0123456789012345678901234567890123456789  1\n012345678901234567890123456789012345678…  2\n",
    ),
    // groups by their keys
    (
        LineType::Groups,
        10,
        "{\"items\":[{\"Key\":null,\"items\":[\"ann\"]},{\"Key\":1,\"items\":[\"bob\",\"cid\"]}]}\n",
        "Key: ∅\n  ann\nKey: 1\n  bob\n  cid\n",
    ),
    (
        LineType::Groups,
        1,
        "{\"items\":[{\"Key\":7,\"items\":[\"ann\",\"bob\"]},{\"Key\":8,\"items\":[\"cid\"]}]}\n",
        "Key: 7\n  ann\n  … 1 more\n… 1 more\n",
    ),
    (
        LineType::Group,
        10,
        "{\"value\":{\"Key\":\"a\",\"items\":[{\"boss\":1,\"id\":2,\"name\":\"bob\"}]}}\n",
        "Key: a\n  name  boss  id\n  ----  ----  --\n  bob      1   2\n",
    ),
    // values
    (
        LineType::Row,
        10,
        "{\"value\":{\"boss\":null,\"id\":1,\"name\":\"ann\"}}\n",
        "name  value\n----  -----\nname  ann\nboss  ∅\nid    1\n",
    ),
    (LineType::Unknown, 10, "{\"value\":-42}\n", "-42\n"),
    (LineType::Unknown, 10, "{\"value\":null}\n", "∅\n"),
    (
        LineType::Unknown,
        10,
        "{\"value\":\"a \\\"b\\\"\\n\"}\n",
        "a \"b\"\\n\n",
    ),
];

#[test]
fn items_and_values(rt: HostRuntime) -> Result<(), Fail> {
    for (served, most_rows, line, expected) in &CASES {
        assert_shown(
            &rt,
            rt.alloc(),
            *served,
            *most_rows,
            line.as_bytes(),
            expected,
        )?;
    }
    Ok(())
}

// A line of 4,216 items.
fn long_line(alloc: Global) -> Result<String, AllocError> {
    let mut line = String::from_str(alloc, "{\"items\":[0")?;
    for _ in 0..4215 {
        line.push_str(",1")?;
    }
    line.push_str("]}\n")?;
    Ok(line)
}

/// More than a thousand items are left out.
#[test]
fn thousands_of_items(rt: HostRuntime) -> Result<(), Fail> {
    let line = long_line(rt.alloc())?;
    let expected = "0\n1\n1\n1\n1\n… 4,211 more\n";
    assert_shown(
        &rt,
        rt.alloc(),
        LineType::Numbers,
        5,
        line.as_bytes(),
        expected,
    )?;
    Ok(())
}
