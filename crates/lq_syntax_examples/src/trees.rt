//! Trees of rules. What the trees of queries are, and which lines aren't a statement, the replies show (tests/cli).
use lq_grammar::{Binary, Expr, Node};
use lq_syntax::{SyntaxError, parse_rule};
use std::alloc::Global;
use std::test::Fail;

/// Texts that aren't a rule: a rule is one expression.
const NO_RULES: [&str; 8] = [
    "",
    "row.c >= 2;",
    "row.c >=",
    "row.c >= 2 2",
    "2147483648",
    "-(2147483648)",
    "-2147483648.c",
    "1 - 2147483648",
];

/// Rules of three operands, with the operator that groups them from the left.
const LEANING: [(&str, Binary); 7] = [
    ("1 - 2 - 3", Binary::Subtract),
    ("1 + 2 + 3", Binary::Add),
    ("1 * 2 * 3", Binary::Multiply),
    ("1 / 2 / 3", Binary::Divide),
    ("1 < 2 < 3", Binary::Less),
    ("1 == 2 == 3", Binary::Equal),
    ("((1) - (2)) - 3 // at the end\n", Binary::Subtract),
];

const OTHERS: [&str; 3] = ["1 - (2 - 3)", "1 - 2 * 3", "1 ?? 2 ?? 3"];

fn is_integer(expr: &Expr, value: i32) -> bool {
    matches!(expr, Expr::Node(Node::Integer(number)) if *number == value)
}

// Whether the expression is the two operands under the operator, the first of which is that too.
fn is_left_grouped(expr: &Expr, operator: Binary) -> bool {
    match expr {
        Expr::Node(Node::Binary(outer, left, right)) => {
            *outer == operator
                && is_integer(right.get(), 3)
                && matches!(left.get(), Expr::Node(Node::Binary(inner, first, second))
                    if *inner == operator && is_integer(first.get(), 1) && is_integer(second.get(), 2))
        }
        _ => false,
    }
}

// Whether the text is a rule of three operands under this operator, grouped from the left. A function of its own, like the
// next two: what costs most to prove of a test is that it frees a tree.
fn is_text_left_grouped(alloc: Global, text: &str, operator: Binary) -> Result<bool, SyntaxError> {
    Ok(is_left_grouped(&parse_rule(alloc, text)?, operator))
}

fn is_number(alloc: Global, text: &str, value: i32) -> Result<bool, SyntaxError> {
    Ok(is_integer(&parse_rule(alloc, text)?, value))
}

fn is_no_rule(alloc: Global, text: &str) -> bool {
    matches!(parse_rule(alloc, text), Err(SyntaxError::Syntax))
}

#[test]
fn repeated_operators_lean_to_the_left(rt: HostRuntime) -> Result<(), Fail> {
    for (text, operator) in &LEANING {
        assert!(rt;
            is_text_left_grouped(rt.alloc(), text, *operator)?,
            "{text}"
        );
    }
    for text in &OTHERS {
        assert!(rt;
            !is_text_left_grouped(rt.alloc(), text, Binary::Subtract)?,
            "{text}"
        );
    }
    Ok(())
}

#[test]
fn the_least_int_is_one_literal(rt: HostRuntime) -> Result<(), Fail> {
    assert!(rt; is_number(rt.alloc(), "- 2147483648", i32::MIN)?);
    assert!(rt; is_number(rt.alloc(), "(2147483647)", i32::MAX)?);
    Ok(())
}

#[test]
fn other_texts_are_refused(rt: HostRuntime) {
    for text in &NO_RULES {
        assert!(rt; is_no_rule(rt.alloc(), text), "{text}");
    }
}
