//! What expressions without names mean, and which rules hold on a row, each spelled as a script or a policy has it. Operators row by row
//! are shown by the built program (tests/cli).
use lq_grammar::Expr;
use lq_scalar::{
    Cells, ExprType, Names, Op, Referent, ScalarError, ScalarRef, apply, eval, holds, is_total,
};
use lq_syntax::parse_rule;
use lq_value::{Fault, Scalar, TableNumber, Txt, order};
use std::alloc::{AllocError, Global};
use std::cmp::Ordering;
use std::test::Fail;

/// Expressions, each with its scalar or its fault.
const EXPRESSIONS: [(&str, Result<ScalarRef<'static>, Fault>); 40] = [
    ("1 - 2 - 3", Ok(ScalarRef::Int(-4))),
    ("7 / -2 * 2 + 7 % -2", Ok(ScalarRef::Int(-5))),
    ("-2147483648 / -1", Err(Fault::Overflow)),
    ("-2147483648 % -1", Err(Fault::Overflow)),
    ("- -2147483648", Err(Fault::Overflow)),
    ("1 / 0 + 2147483647 * 2", Err(Fault::DivideByZero)),
    ("2147483647 * 2 + 1 / 0", Err(Fault::Overflow)),
    ("false && 1 / 0 == 0", Ok(ScalarRef::Bool(false))),
    ("true || 1 / 0 == 0", Ok(ScalarRef::Bool(true))),
    ("1 / 0 == 0 && false", Err(Fault::DivideByZero)),
    ("!(1 < 2)", Ok(ScalarRef::Bool(false))),
    ("true ? 1 : 1 / 0", Ok(ScalarRef::Int(1))),
    ("false ? 1 : 1 / 0", Err(Fault::DivideByZero)),
    ("true ? \"a\" : null", Ok(ScalarRef::Text("a"))),
    ("false ? \"a\" : null", Ok(ScalarRef::Null)),
    ("null == null", Ok(ScalarRef::Bool(true))),
    ("1 == null", Ok(ScalarRef::Bool(false))),
    ("null != 1", Ok(ScalarRef::Bool(true))),
    ("\"a\" == \"a\"", Ok(ScalarRef::Bool(true))),
    ("\"a\" == null", Ok(ScalarRef::Bool(false))),
    ("true != false", Ok(ScalarRef::Bool(true))),
    ("null == 1 / 0", Err(Fault::DivideByZero)),
    ("\"a\" + \"b\"", Ok(ScalarRef::Text("ab"))),
    ("\"a\" + null", Ok(ScalarRef::Text("a"))),
    ("null + \"a\"", Ok(ScalarRef::Text("a"))),
    ("(false ? \"a\" : null) + null", Ok(ScalarRef::Text(""))),
    (
        "(false ? \"a\" : null) + (false ? \"b\" : null)",
        Ok(ScalarRef::Text("")),
    ),
    ("(false ? \"a\" : null) ?? \"b\"", Ok(ScalarRef::Text("b"))),
    (
        "\"a\" ?? (1 / 0 == 0 ? \"b\" : \"c\")",
        Ok(ScalarRef::Text("a")),
    ),
    ("\"a\u{1f600}\".Length", Ok(ScalarRef::Int(3))),
    ("(false ? \"a\" : null).Length", Err(Fault::NullReference)),
    ("(\"a\" + \"b\").Length", Ok(ScalarRef::Int(2))),
    ("\"abc\".StartsWith(\"\")", Ok(ScalarRef::Bool(true))),
    ("\"abc\".StartsWith(\"abcd\")", Ok(ScalarRef::Bool(false))),
    ("\"abc\".EndsWith(\"bc\")", Ok(ScalarRef::Bool(true))),
    ("\"abc\".Contains(\"c\" + \"\")", Ok(ScalarRef::Bool(true))),
    ("\"\".Contains(\"\")", Ok(ScalarRef::Bool(true))),
    (
        "(false ? \"a\" : null).Contains(\"a\")",
        Err(Fault::NullReference),
    ),
    (
        "\"a\".Contains(false ? \"a\" : null)",
        Err(Fault::NullReference),
    ),
    (
        "(false ? \"a\" : null).Contains(1 / 0 == 0 ? \"a\" : \"b\")",
        Err(Fault::DivideByZero),
    ),
];

type Pair = [ScalarRef<'static>; 2];

const ANN_OF_3: Pair = [ScalarRef::Text("ann"), ScalarRef::Int(3)];

const BOB_OF_3: Pair = [ScalarRef::Text("bob"), ScalarRef::Int(3)];

const NOBODY_OF_3: Pair = [ScalarRef::Null, ScalarRef::Int(3)];

const ANN_OF_NONE: Pair = [ScalarRef::Text("ann"), ScalarRef::Null];

/// Total rules on a row whose columns are named `name` and `boss`, for the user ann: the cells, the rule, and whether it holds.
const RULES: [(Pair, &str, bool); 9] = [
    (ANN_OF_3, "row.name == user", true),
    (BOB_OF_3, "row.name == user", false),
    (NOBODY_OF_3, "row.name == user", false),
    (ANN_OF_NONE, "row.boss == null", true),
    (ANN_OF_NONE, "row.boss.HasValue", false),
    (ANN_OF_3, "row.boss.HasValue && row.boss < 4", true),
    (ANN_OF_NONE, "(row.boss ?? 7) / 2 == 3", true),
    (
        ANN_OF_3,
        "user.StartsWith(\"a\") && (row.name ?? \"\").EndsWith(\"nn\")",
        true,
    ),
    (ANN_OF_3, "row.salary > 0", false),
];

/// No names at all.
struct NoNames;

impl Names for NoNames {
    ghost use Rattle.std.specs.Prelude.{[], None};
    ghost use Rattle.lq_value.specs.declared.value.Fault.TheVariants as fault;

    ghost Row = { Unit {0} };

    ghost world = { λ names. record {
      schemas = [];
      rows = [];
      predicates = [];
      session = [];
      cell = λ row column. None;
      table = λ row. 0;
      unknown = fault.NullReference;
    } };

    ghost scope = { λ names. [] };

    fn name_type(&self, _name: &str) -> Option<ExprType> {
        None
    }

    fn column_type(&self, _table: TableNumber, _column: &str) -> Option<ExprType> {
        None
    }

    fn named(&self, _name: &str) -> Option<Referent<'_>> {
        None
    }

    fn cell(&self, _row: &str, _column: &str) -> Option<&Scalar> {
        None
    }
}

// Whether the scalar is this one.
fn is_scalar(alloc: Global, scalar: &Scalar, other: ScalarRef<'_>) -> Result<bool, AllocError> {
    Ok(order(scalar, &other.to_scalar(alloc)?) == Ordering::Equal)
}

// Whether what was found is the expected scalar or fault.
fn is_expected(
    alloc: Global,
    found: &Result<Scalar, ScalarError>,
    expected: Result<ScalarRef<'_>, Fault>,
) -> Result<bool, AllocError> {
    match (found, expected) {
        (Ok(scalar), Ok(other)) => is_scalar(alloc, scalar, other),
        (Err(ScalarError::Fault(fault)), Err(expected)) => Ok(*fault == expected),
        _ => Ok(false),
    }
}

fn is_meaning(
    alloc: Global,
    text: &str,
    expected: Result<ScalarRef<'_>, Fault>,
) -> Result<bool, Fail> {
    let expression = parse_rule(alloc, text)?;
    Ok(is_expected(alloc, &eval(alloc, &expression, &NoNames), expected)?)
}

#[test]
fn expressions_are_evaluated(rt: HostRuntime) -> Result<(), Fail> {
    for (text, expected) in &EXPRESSIONS {
        assert!(rt; is_meaning(rt.alloc(), text, *expected)?, "{text}");
    }
    Ok(())
}

// Scalars that own their texts.
fn owned(alloc: Global, scalars: &[ScalarRef<'_>]) -> Result<Vec<Scalar>, AllocError> {
    let mut copies = Vec::new(alloc);
    for scalar in scalars {
        copies.push(scalar.to_scalar(alloc)?)?;
    }
    Ok(copies)
}

// The names of the columns.
fn columns(alloc: Global) -> Result<Vec<Txt>, AllocError> {
    let mut columns = Vec::new(alloc);
    for name in &["name", "boss"] {
        columns.push(Txt::from_str(alloc, name)?)?;
    }
    Ok(columns)
}

// Whether a rule is total, and is true or false on a row for ann, as expected. A function of its own, like the next two: what costs
// most to prove of a test is that it frees values wherever it can end.
fn is_so_on(rule: &Expr, columns: &[Txt], cells: &[Scalar], expected: bool) -> bool {
    is_total(rule) && holds(rule, Cells { columns, cells }, "ann") == expected
}

fn is_so_on_row(
    alloc: Global,
    rule: &Expr,
    row: &[ScalarRef<'_>],
    expected: bool,
) -> Result<bool, AllocError> {
    let columns = columns(alloc)?;
    let cells = owned(alloc, row)?;
    Ok(is_so_on(rule, &columns, &cells, expected))
}

fn is_so(alloc: Global, row: &[ScalarRef<'_>], text: &str, expected: bool) -> Result<bool, Fail> {
    let rule = parse_rule(alloc, text)?;
    Ok(is_so_on_row(alloc, &rule, row, expected)?)
}

#[test]
fn rules_are_read_on_a_row(rt: HostRuntime) -> Result<(), Fail> {
    for (row, text, expected) in &RULES {
        assert!(rt; is_so(rt.alloc(), row, text, *expected)?, "{text}");
    }
    Ok(())
}

// Operators with operands that no typed expression has.
const UNTYPED: [(Op, &[ScalarRef<'static>]); 3] = [
    (Op::Less, &[ScalarRef::Text("a"), ScalarRef::Text("b")]),
    (Op::Add, &[ScalarRef::Int(1)]),
    (Op::Add, &[]),
];

fn is_without_a_value(
    alloc: Global,
    op: Op,
    operands: &[ScalarRef<'_>],
) -> Result<bool, AllocError> {
    let operands = owned(alloc, operands)?;
    Ok(matches!(
        apply(alloc, op, operands.as_slice()),
        Err(ScalarError::Fault(Fault::NullReference))
    ))
}

#[test]
fn operands_of_no_operator_have_no_value(rt: HostRuntime) -> Result<(), Fail> {
    for (number, (op, operands)) in UNTYPED.iter().enumerate() {
        assert!(rt;
            is_without_a_value(rt.alloc(), *op, operands)?,
            "operands {number}"
        );
    }
    Ok(())
}
