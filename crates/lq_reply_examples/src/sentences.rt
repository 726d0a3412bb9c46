//! Replies without rows, and lines that aren't replies.
use crate::building::{LineType, assert_shown};
use std::test::Fail;

/// Lines, and what is read of them.
const CASES: [(&str, &str); 34] = [
    (
        "{\"fault\":\"DivideByZero\"}\n",
        "fault: DivideByZero, a division by zero\n",
    ),
    (
        "{\"fault\":\"Overflow\"}\n",
        "fault: Overflow, a number left the range of int\n",
    ),
    (
        "{\"fault\":\"NullReference\"}\n",
        "fault: NullReference, a member of null was read\n",
    ),
    (
        "{\"fault\":\"InvalidOperation\"}\n",
        "fault: InvalidOperation, no value or no single item where one is needed\n",
    ),
    (
        "{\"fault\":\"ArgumentOutOfRange\"}\n",
        "fault: ArgumentOutOfRange, an index, or a host predicate's argument, out of range\n",
    ),
    (
        "{\"fault\":\"DivideByZero\",\"items\":[10,20]}\n",
        "10\n20\nfault: DivideByZero, a division by zero (these are the items before it)\n",
    ),
    (
        "{\"fault\":\"Overflow\",\"items\":[]}\n",
        "no rows\nfault: Overflow, a number left the range of int (these are the items before it)\n",
    ),
    (
        "{\"denied\":\"no-salary\",\"use\":\"employees.salary\"}\n",
        "denied by no-salary: employees.salary\n",
    ),
    (
        "{\"denied\":\"no-grant\",\"use\":\"employees.salary\"}\n",
        "denied: no grant covers employees.salary\n",
    ),
    (
        "{\"denied\":\"no-grant\",\"use\":\"Host.Watched\"}\n",
        "denied: no grant covers Host.Watched\n",
    ),
    (
        "{\"denied\":\"no-watching\",\"use\":\"Host.Watched\"}\n",
        "denied by no-watching: Host.Watched\n",
    ),
    (
        "{\"denied\":\"default-deny\",\"use\":\"employees insert\"}\n",
        "denied by default: no policy permits this row (employees insert)\n",
    ),
    (
        "{\"error\":\"syntax\"}\n",
        "error: this is not a statement; the statements are: run E; var N = E; N = E; as R; insert T (..); delete T x => p;\n",
    ),
    (
        "{\"error\":\"type\"}\n",
        "error: a name is unknown or already in use, a type doesn't fit, or the number of cells is wrong; try .tables and .names\n",
    ),
    (
        "{\"error\":\"role\"}\n",
        "error: the policy file has no such role; try .roles\n",
    ),
    (
        "{\"error\":\"cell\"}\n",
        "error: a value lies outside of its column's range; try .tables\n",
    ),
    (
        "{\"error\":\"full\"}\n",
        "error: the table has used up its row numbers; it takes no more rows\n",
    ),
    (
        "{\"error\":\"too-deep\"}\n",
        "error: the statement is too long or too deeply nested; give parts of it a name with var\n",
    ),
    (
        "{\"error\":\"memory\"}\n",
        "error: there was not enough memory, and nothing has changed; ask for less at once\n",
    ),
    ("{\"error\":\"other\"}\n", "error: other\n"),
    ("{\"defined\":\"least\"}\n", "least is defined\n"),
    ("{\"assigned\":\"least\"}\n", "least is assigned\n"),
    ("{\"inserted\":1}\n", "1 row inserted\n"),
    ("{\"deleted\":0}\n", "0 rows deleted\n"),
    ("{\"deleted\":1}\n", "1 row deleted\n"),
    ("{\"deleted\":1234567}\n", "1,234,567 rows deleted\n"),
    ("{\"role\":\"dan\"}\n", "the role is dan\n"),
    // no replies
    ("hello", "hello\n"),
    ("{\"role\":\"dan\"}", "the role is dan\n"),
    ("", "\n"),
    ("{\"items\":7}\n", "{\"items\":7}\n"),
    ("{\"value\":1.5}\n", "{\"value\":1.5}\n"),
    (
        "{\"items\":[],\"role\":\"dan\"}\n",
        "{\"items\":[],\"role\":\"dan\"}\n",
    ),
    ("{\"a\":1,\"b\":2,\"c\":3}\n", "{\"a\":1,\"b\":2,\"c\":3}\n"),
];

#[test]
fn sentences(rt: HostRuntime) -> Result<(), Fail> {
    for (line, expected) in &CASES {
        assert_shown(
            &rt,
            rt.alloc(),
            LineType::Unknown,
            10,
            line.as_bytes(),
            expected,
        )?;
    }
    Ok(())
}

#[test]
fn bytes_that_are_no_text(rt: HostRuntime) -> Result<(), Fail> {
    let expected = "the reply is no text in UTF-8\n";
    assert_shown(
        &rt,
        rt.alloc(),
        LineType::Unknown,
        10,
        &[0xff, 0xfe],
        expected,
    )?;
    Ok(())
}
